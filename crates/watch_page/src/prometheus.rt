//! A snapshot as Prometheus' text.
use crate::numbers::{Cents, Price, Seconds};
use crate::snapshot::{Following, JournalRow, MarketRow, MemberRow, Snapshot, SymbolRow};
use std::alloc::{AllocError, Global};
use std::fmt;
use venue_words::NoMemory;

/// The value of a sample.
#[derive(Clone, Copy)]
enum Value {
    Whole(u64),
    /// Milliseconds, shown as seconds.
    Seconds(u64),
    Price(u32),
    Cents(u32),
}

impl fmt::Display for Value {
    fn fmt<W: fmt::Write>(&self, f: &mut fmt::Formatter<W>) -> fmt::Result {
        match self {
            Value::Whole(number) => write!(f, "{number}"),
            Value::Seconds(milliseconds) => write!(f, "{}", Seconds(*milliseconds)),
            Value::Price(units) => write!(f, "{}", Price(*units)),
            Value::Cents(cents) => write!(f, "{}", Cents(*cents)),
        }
    }
}

/// What Prometheus is told of a number, and what it means.
#[derive(Clone, Copy)]
struct Meaning {
    name: &'static str,
    kind: &'static str,
    help: &'static str,
}

const fn gauge(name: &'static str, help: &'static str) -> Meaning {
    Meaning {
        name,
        kind: "gauge",
        help,
    }
}

const fn counter(name: &'static str, help: &'static str) -> Meaning {
    Meaning {
        name,
        kind: "counter",
        help,
    }
}

/// A number of each member.
#[derive(Clone, Copy)]
enum OfMember {
    Up,
    LastIn,
    LastOut,
    Seen,
    Waiting,
    Turns,
}

const OF_MEMBER: [OfMember; 6] = [
    OfMember::Up,
    OfMember::LastIn,
    OfMember::LastOut,
    OfMember::Seen,
    OfMember::Waiting,
    OfMember::Turns,
];

impl OfMember {
    fn meaning(self) -> Meaning {
        match self {
            OfMember::Up => gauge("member_up", "1 where the member's session is up."),
            OfMember::LastIn => gauge(
                "member_last_number_in",
                "MsgSeqNum of the last message that came from the member.",
            ),
            OfMember::LastOut => gauge(
                "member_last_number_out",
                "MsgSeqNum of the last message that was made for the member.",
            ),
            OfMember::Seen => gauge(
                "member_seen_timestamp_seconds",
                "When bytes of the member last came.",
            ),
            OfMember::Waiting => gauge(
                "member_waiting_bytes",
                "Bytes that wait for the member to take them.",
            ),
            OfMember::Turns => gauge(
                "member_turns",
                "How often systems took the member's name from each other.",
            ),
        }
    }

    /// The number, where it is known.
    fn of(self, member: &MemberRow) -> Option<Value> {
        match self {
            OfMember::Up => Some(Value::Whole(u64::from(member.up))),
            OfMember::LastIn => Some(Value::Whole(u64::from(member.last_in))),
            OfMember::LastOut => Some(Value::Whole(u64::from(member.last_out))),
            OfMember::Seen => Some(Value::Seconds(member.seen?)),
            OfMember::Waiting => Some(Value::Whole(member.waiting?.bytes)),
            OfMember::Turns => Some(Value::Whole(member.waiting?.turns)),
        }
    }
}

/// A number of each symbol.
#[derive(Clone, Copy)]
enum OfSymbol {
    Events,
    Limit,
    Halted,
    Trades,
    Traded,
    LastPrice,
    LastMoment,
}

const OF_SYMBOL: [OfSymbol; 7] = [
    OfSymbol::Events,
    OfSymbol::Limit,
    OfSymbol::Halted,
    OfSymbol::Trades,
    OfSymbol::Traded,
    OfSymbol::LastPrice,
    OfSymbol::LastMoment,
];

impl OfSymbol {
    fn meaning(self) -> Meaning {
        match self {
            OfSymbol::Events => counter(
                "symbol_events_total",
                "Events that the symbol's book took.",
            ),
            OfSymbol::Limit => gauge(
                "symbol_events_limit",
                "The most events that the symbol's book takes in a day.",
            ),
            OfSymbol::Halted => gauge(
                "symbol_halted",
                "1 where an operator has halted the symbol.",
            ),
            OfSymbol::Trades => counter("trades_total", "Trades of the symbol."),
            OfSymbol::Traded => counter(
                "traded_shares_total",
                "Shares of the symbol that were traded.",
            ),
            OfSymbol::LastPrice => gauge(
                "last_trade_price",
                "The price of the symbol's last trade.",
            ),
            OfSymbol::LastMoment => gauge(
                "last_trade_timestamp_seconds",
                "When the symbol was last traded.",
            ),
        }
    }

    /// The number, where it is known.
    fn of(self, symbol: &SymbolRow) -> Option<Value> {
        match self {
            OfSymbol::Events => Some(Value::Whole(u64::from(symbol.events))),
            OfSymbol::Limit => Some(Value::Whole(u64::from(symbol.limit))),
            OfSymbol::Halted => Some(Value::Whole(u64::from(symbol.halted?))),
            OfSymbol::Trades => Some(Value::Whole(symbol.trades)),
            OfSymbol::Traded => Some(Value::Whole(symbol.traded)),
            OfSymbol::LastPrice => Some(Value::Price(symbol.last?.price)),
            OfSymbol::LastMoment => Some(Value::Seconds(symbol.last?.moment)),
        }
    }
}

/// A number of each market's quote of a symbol.
#[derive(Clone, Copy)]
enum OfQuote {
    Bid,
    Offer,
    Since,
}

const OF_QUOTE: [OfQuote; 3] = [OfQuote::Bid, OfQuote::Offer, OfQuote::Since];

impl OfQuote {
    fn meaning(self) -> Meaning {
        match self {
            OfQuote::Bid => gauge("quote_bid", "The market's bid for the symbol."),
            OfQuote::Offer => gauge("quote_offer", "The market's offer of the symbol."),
            OfQuote::Since => gauge(
                "quote_timestamp_seconds",
                "When the market's last quote of the symbol came.",
            ),
        }
    }

    /// The number, where it is known.
    fn of(self, market: &MarketRow) -> Option<Value> {
        match self {
            OfQuote::Bid => Some(Value::Cents(market.bid?)),
            OfQuote::Offer => Some(Value::Cents(market.offer?)),
            OfQuote::Since => Some(Value::Seconds(market.since?)),
        }
    }
}

/// Begins the samples of a number.
fn begin(out: &mut String, meaning: Meaning) -> Result<(), AllocError> {
    let Meaning { name, kind, help } = meaning;
    write!(
        out,
        "# HELP lubweqad_{name} {help}\n# TYPE lubweqad_{name} {kind}\n"
    )
}

fn push_members(out: &mut String, members: &[MemberRow]) -> Result<(), AllocError> {
    for number in OF_MEMBER {
        let meaning = number.meaning();
        begin(out, meaning)?;
        for member in members {
            if let Some(value) = number.of(member) {
                write!(
                    out,
                    "lubweqad_{}{{member=\"{}\"}} {value}\n",
                    meaning.name, member.name
                )?;
            }
        }
    }
    Ok(())
}

fn push_symbols(out: &mut String, symbols: &[SymbolRow]) -> Result<(), AllocError> {
    for number in OF_SYMBOL {
        let meaning = number.meaning();
        begin(out, meaning)?;
        for symbol in symbols {
            if let Some(value) = number.of(symbol) {
                write!(
                    out,
                    "lubweqad_{}{{symbol=\"{}\"}} {value}\n",
                    meaning.name, symbol.name
                )?;
            }
        }
    }
    Ok(())
}

fn push_quotes(out: &mut String, symbols: &[SymbolRow]) -> Result<(), AllocError> {
    for number in OF_QUOTE {
        let meaning = number.meaning();
        begin(out, meaning)?;
        for symbol in symbols {
            for market in &symbol.markets {
                if let Some(value) = number.of(market) {
                    write!(
                        out,
                        "lubweqad_{}{{symbol=\"{}\",market=\"{}\"}} {value}\n",
                        meaning.name, symbol.name, market.name
                    )?;
                }
            }
        }
    }
    Ok(())
}

/// A sample of a side of a symbol.
fn push_side(
    out: &mut String,
    name: &str,
    symbol: &SymbolRow,
    side: &str,
    value: u64,
) -> Result<(), AllocError> {
    write!(
        out,
        "lubweqad_{name}{{symbol=\"{}\",side=\"{side}\"}} {value}\n",
        symbol.name
    )
}

fn push_resting(out: &mut String, symbols: &[SymbolRow]) -> Result<(), AllocError> {
    let orders = gauge(
        "resting_orders",
        "Orders that rest on a side of the symbol.",
    );
    begin(out, orders)?;
    for symbol in symbols {
        push_side(out, orders.name, symbol, "buy", symbol.buys.orders)?;
        push_side(out, orders.name, symbol, "sell", symbol.sells.orders)?;
    }
    let shares = gauge(
        "resting_shares",
        "Shares of the orders that rest on a side of the symbol.",
    );
    begin(out, shares)?;
    for symbol in symbols {
        push_side(out, shares.name, symbol, "buy", symbol.buys.shares)?;
        push_side(out, shares.name, symbol, "sell", symbol.sells.shares)?;
    }
    Ok(())
}

/// A number without labels.
fn push_one(out: &mut String, meaning: Meaning, value: Value) -> Result<(), AllocError> {
    begin(out, meaning)?;
    write!(out, "lubweqad_{} {value}\n", meaning.name)
}

fn push_journal(out: &mut String, journal: &JournalRow) -> Result<(), AllocError> {
    let bytes = gauge(
        "journal_bytes",
        "Bytes of the journal's lines that were worked.",
    );
    push_one(out, bytes, Value::Whole(journal.bytes))?;
    let lines = counter(
        "journal_lines_total",
        "Lines of the journal that were worked.",
    );
    push_one(out, lines, Value::Whole(journal.lines))?;
    if let Some(last) = journal.last {
        let moment = gauge(
            "journal_last_line_timestamp_seconds",
            "The moment of the last line.",
        );
        push_one(out, moment, Value::Seconds(last))?;
    }
    let whole = gauge(
        "journal_followed",
        "1 where all lines of the journal are worked.",
    );
    let is_whole = journal.following == Following::Whole;
    push_one(out, whole, Value::Whole(u64::from(is_whole)))
}

fn push_all(out: &mut String, snapshot: &Snapshot) -> Result<(), AllocError> {
    push_journal(out, &snapshot.journal)?;
    let desk = gauge(
        "desk_answers",
        "1 where the operators' desk of the venue answers.",
    );
    push_one(out, desk, Value::Whole(u64::from(snapshot.desk)))?;
    push_members(out, &snapshot.members)?;
    push_symbols(out, &snapshot.symbols)?;
    push_resting(out, &snapshot.symbols)?;
    push_quotes(out, &snapshot.symbols)
}

/// The text that Prometheus reads, in its form 0.0.4. A number that is not known has no sample.
pub fn metrics(alloc: Global, snapshot: &Snapshot) -> Result<String, NoMemory> {
    let mut out = String::new(alloc);
    push_all(&mut out, snapshot)?;
    Ok(out)
}
