//! What is counted of a day for the head of the page: by symbol, and by member over all symbols.
use exec_reports::parts::rule_of;
use std::alloc::Global;
use venue_words::{Command, Event, Execution, Kind, NoMemory, Report, Side, View};

/// How many rules there are.
const RULES: usize = 18;

/// What is counted of a symbol.
#[derive(Clone, Copy)]
pub struct SymbolFacts {
    pub events: u64,
    pub quotes: u64,
    pub orders: u64,
    pub refused: u64,
    pub trades: u64,
    pub shares: u64,
    /// The sum of price times shares, in units of 0.005.
    pub value: u64,
    /// The least and the greatest price of a trade, in units of 0.005.
    pub prices: Option<(u32, u32)>,
    /// The shares of the buys that rest, and of the sells.
    pub buys: u64,
    pub sells: u64,
}

impl SymbolFacts {
    pub fn none() -> SymbolFacts {
        SymbolFacts {
            events: 0,
            quotes: 0,
            orders: 0,
            refused: 0,
            trades: 0,
            shares: 0,
            value: 0,
            prices: None,
            buys: 0,
            sells: 0,
        }
    }
}

/// What is counted of a member.
#[derive(Drop)]
pub struct MemberFacts {
    pub requests: u64,
    pub orders: u64,
    pub trades: u64,
    pub bought: u64,
    pub sold: u64,
    pub value: u64,
    pub orders_resting: u64,
    pub shares_resting: u64,
    /// By rule, from the first.
    pub broken: Vec<u64>,
}

impl MemberFacts {
    fn none(alloc: Global) -> Result<MemberFacts, NoMemory> {
        let mut broken = Vec::new(alloc);
        for _rule in 0..RULES {
            broken.push(0)?;
        }
        Ok(MemberFacts {
            requests: 0,
            orders: 0,
            trades: 0,
            bought: 0,
            sold: 0,
            value: 0,
            orders_resting: 0,
            shares_resting: 0,
            broken,
        })
    }

    /// All requests of the member that were refused.
    pub fn refused(&self) -> u64 {
        let mut all = 0u64;
        for count in &self.broken {
            all = all.saturating_add(*count);
        }
        all
    }
}

/// What is counted of all members.
pub fn no_members(alloc: Global, many: usize) -> Result<Vec<MemberFacts>, NoMemory> {
    let mut members = Vec::new(alloc);
    for _member in 0..many {
        members.push(MemberFacts::none(alloc)?)?;
    }
    Ok(members)
}

/// The member whose command it is.
fn member_of(command: &Command) -> Option<u32> {
    match command {
        Command::Quote { .. } => None,
        Command::New { member, .. }
        | Command::Cancel { member, .. }
        | Command::Replace { member, .. }
        | Command::Status { member, .. } => Some(*member),
    }
}

/// Counts an event.
fn count_event(symbol: &mut SymbolFacts, members: &mut [MemberFacts], event: &Event) {
    symbol.events = symbol.events.saturating_add(1);
    match member_of(&event.command) {
        None => symbol.quotes = symbol.quotes.saturating_add(1),
        Some(member) => {
            if let Some(facts) = members.get_mut(member as usize) {
                facts.requests = facts.requests.saturating_add(1);
            }
        }
    }
}

fn widened(prices: Option<(u32, u32)>, price: u32) -> Option<(u32, u32)> {
    match prices {
        None => Some((price, price)),
        Some((low, high)) => Some((low.min(price), high.max(price))),
    }
}

/// Counts a trade of an order. A trade is told to both of its orders, and counts for the symbol where it is told to the buy.
fn count_trade(
    symbol: &mut SymbolFacts,
    facts: &mut MemberFacts,
    view: &View,
    quantity: u32,
    price: u32,
) {
    let shares = u64::from(quantity);
    let value = shares.saturating_mul(u64::from(price));
    facts.trades = facts.trades.saturating_add(1);
    facts.value = facts.value.saturating_add(value);
    match view.side {
        Side::Buy => {
            facts.bought = facts.bought.saturating_add(shares);
            symbol.trades = symbol.trades.saturating_add(1);
            symbol.shares = symbol.shares.saturating_add(shares);
            symbol.value = symbol.value.saturating_add(value);
            symbol.prices = widened(symbol.prices, price);
        }
        Side::Sell => facts.sold = facts.sold.saturating_add(shares),
    }
}

/// Counts what a report tells.
fn count_report(symbol: &mut SymbolFacts, members: &mut [MemberFacts], report: &Report) {
    let Some(facts) = members.get_mut(report.member as usize) else {
        return;
    };
    if let Some(rule) = rule_of(&report.kind) {
        symbol.refused = symbol.refused.saturating_add(1);
        if let Some(count) = facts.broken.get_mut(usize::from(rule).saturating_sub(1)) {
            *count = count.saturating_add(1);
        }
    }
    let Kind::Order { view, execution } = &report.kind else {
        return;
    };
    match execution {
        Execution::Accepted => {
            symbol.orders = symbol.orders.saturating_add(1);
            facts.orders = facts.orders.saturating_add(1);
        }
        Execution::Traded { quantity, price } => {
            count_trade(symbol, facts, view, *quantity, *price)
        }
        _ => {}
    }
}

/// Counts the last event of a symbol, and the reports that it made.
pub fn count_last(
    symbol: &mut SymbolFacts,
    members: &mut [MemberFacts],
    journal: &[Event],
    made: &[Report],
) {
    if let Some(event) = journal.last() {
        count_event(symbol, members, event);
    }
    for report in made {
        count_report(symbol, members, report);
    }
}

/// Counts an order that rests with so many shares.
pub fn count_resting(
    symbol: &mut SymbolFacts,
    members: &mut [MemberFacts],
    member: u32,
    side: Side,
    shares: u32,
) {
    let shares = u64::from(shares);
    match side {
        Side::Buy => symbol.buys = symbol.buys.saturating_add(shares),
        Side::Sell => symbol.sells = symbol.sells.saturating_add(shares),
    }
    if let Some(facts) = members.get_mut(member as usize) {
        facts.orders_resting = facts.orders_resting.saturating_add(1);
        facts.shares_resting = facts.shares_resting.saturating_add(shares);
    }
}
