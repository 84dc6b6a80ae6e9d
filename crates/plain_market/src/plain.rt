//! The plain program of a symbol's book.
ghost use Rattle.std.specs.Prelude.{◌≡◌, ◌++◌, ◌<◌, IfOk, length, slice_index};
ghost use Rattle.venue_words.specs.Conditions.{IsTick};
ghost use Rattle.eager_meaning.specs.Step.{reports_from, runs};

use crate::asked::Asked;
use crate::notices::one_notice;
use crate::orders::{is_used, known_of, live_named, order_named};
use crate::views::{row_of_order, view_of};
use eager_meaning::{Live, Notice, Order, verdict};
use std::alloc::{AllocError, Global};
use std::marker::Model;
use venue_words::{Best, Command, Config, Event, Execution, Id, Kind, NoMemory, Priced, Report};

/// The book of a symbol as plain lists.
#[derive(Drop)]
pub struct Plain {
    pub(crate) markets: Vec<Best>,
    pub(crate) buys: Vec<Priced>,
    pub(crate) sells: Vec<Priced>,
    pub(crate) orders: Vec<Order>,
    pub(crate) used: Vec<(u32, Id)>,
}

impl Model for Plain {
    ghost use Rattle.eager_meaning.specs.State.{State};

    ghost Value = { State };

    ghost view = { λ p.
        record {
          markets = p.markets.items;
          buys = p.buys.items;
          sells = p.sells.items;
          orders = p.orders.items;
          used = p.used.items;
        } };
}

/// The rows of both sides.
fn both(alloc: Global, first: &[Priced], second: &[Priced]) -> Result<Vec<Priced>, AllocError>
    ensures { IfOk result (λ rows. rows.items ≡ first.now ++ second.now) }
{
    let mut rows = Vec::from_slice(alloc, first)?;
    rows.extend_from_slice(second)?;
    Ok(rows)
}

impl Plain {
    ghost use Rattle.eager_meaning.specs.State.{initial, resting};
    ghost use Rattle.eager_meaning.specs.Orders.{live_named};
    ghost use Rattle.eager_meaning.specs.Step.{on_status, outcome_of};

    /// The book before the first event.
    fn new(alloc: Global, markets: usize) -> Result<Plain, AllocError>
        ensures { IfOk result (λ book. book ≡ initial markets) }
    {
        let empty = Best {
            bid: None,
            offer: None,
        };
        Ok(Plain {
            markets: vec![in alloc; empty; markets]?,
            buys: Vec::new(alloc),
            sells: Vec::new(alloc),
            orders: Vec::new(alloc),
            used: Vec::new(alloc),
        })
    }

    /// The member's live order with this id.
    fn live(&self, alloc: Global, member: u32, id: &Id) -> Result<Option<Live>, AllocError>
        ensures { IfOk result (λ live. live ≡ live_named member id.now self.now.orders (resting self.now)) }
    {
        let rows = both(alloc, &self.buys, &self.sells)?;
        live_named(alloc, member, id.as_slice(), &self.orders, &rows)
    }

    /// A request for an order's status.
    #[tactic(auto, unfolding(eager_meaning::specs::Step::on_status))]
    fn on_status(
        &self,
        alloc: Global,
        member: u32,
        id: &Id,
        side: u8,
    ) -> Result<Vec<Notice>, AllocError>
        ensures state { (on_status member id.now side self.now).state ≡ self.now }
        ensures notices { IfOk result (λ notices. notices.items ≡ (on_status member id.now side self.now).notices) }
    {
        let rows = both(alloc, &self.buys, &self.sells)?;
        let kind = match order_named(alloc, member, id.as_slice(), &self.orders)? {
            Some((number, order)) => Kind::Order {
                view: view_of(alloc, &order, row_of_order(number, &rows))?,
                execution: Execution::Status,
            },
            None => Kind::Unknown {
                id: Id::copy_of(alloc, id.as_slice())?,
                side,
            },
        };
        one_notice(alloc, member, kind)
    }

    /// What a command does at an event.
    #[tactic(auto, unfolding(eager_meaning::specs::Step::outcome_of))]
    fn outcome_of(
        &mut self,
        alloc: Global,
        tick: u32,
        event: u32,
        command: &Command,
    ) -> Result<Vec<Notice>, AllocError>
        requires { IsTick tick }
        ensures state { IfOk result (λ _. self.new ≡ (outcome_of tick event command.now self.old).state) }
        ensures notices { IfOk result (λ notices. notices.items ≡ (outcome_of tick event command.now self.old).notices) }
    {
        match command {
            Command::Quote { market, bid, offer } => {
                let quote = Best {
                    bid: *bid,
                    offer: *offer,
                };
                self.on_quote(alloc, event, *market, quote)
            }
            Command::New { member, id, terms } => {
                let used = is_used(*member, id.as_slice(), &self.used);
                let broken = verdict(command, &known_of(tick, used, &None));
                let asked = Asked::new(alloc, tick, event, *member);
                self.on_new(asked, id, &terms.get(), broken)
            }
            Command::Cancel { member, id, orig } => {
                let live = self.live(alloc, *member, orig.get())?;
                let used = is_used(*member, id.as_slice(), &self.used);
                let broken = verdict(command, &known_of(tick, used, &live));
                let asked = Asked::new(alloc, tick, event, *member);
                self.on_cancel(asked, id, orig.get(), &live, broken)
            }
            Command::Replace {
                member,
                id,
                orig,
                terms,
            } => {
                let live = self.live(alloc, *member, orig.get())?;
                let used = is_used(*member, id.as_slice(), &self.used);
                let broken = verdict(command, &known_of(tick, used, &live));
                let asked = Asked::new(alloc, tick, event, *member);
                self.on_replace(asked, id, orig.get(), &terms.get(), &live, broken)
            }
            Command::Status { member, id, side } => self.on_status(alloc, *member, id, *side),
        }
    }
}

/// The reports of an event are added, numbered by their place.
#[tactic(auto, unfolding(eager_meaning::specs::Step::reports_from))]
fn push_reports(
    reports: &mut Vec<Report>,
    event: &Event,
    mut notices: Vec<Notice>,
) -> Result<(), AllocError>
    ensures { IfOk result (λ _. reports.new.items ≡ reports.old.items ++ reports_from 1 event.now notices.items) }
{
    let mut place = 1u32;
    while !notices.is_empty() {
        let notice = notices.remove(0);
        reports.push(Report {
            event: event.number,
            place,
            member: notice.member,
            moment: event.moment,
            kind: notice.kind,
        })?;
        place = place.checked_add(1).ok_or(AllocError)?;
    }
    Ok(())
}

/// All events in order.
#[tactic(auto, unfolding(eager_meaning::specs::Step::runs, eager_meaning::specs::Step::step))]
fn run(
    alloc: Global,
    markets: usize,
    tick: u32,
    events: &[Event],
) -> Result<Vec<Report>, AllocError>
    requires { IsTick tick }
    ensures { IfOk result (λ reports. reports.items ≡ (runs markets tick events.now).reports) }
{
    let mut book = Plain::new(alloc, markets)?;
    let mut reports = Vec::new(alloc);
    for event in events {
        let notices = book.outcome_of(alloc, tick, event.number, &event.command)?;
        push_reports(&mut reports, event, notices)?;
    }
    Ok(reports)
}

/// The reports of a symbol's events in order, from a book in which nothing has happened yet. It works by the
/// market's rules alone, over plain lists, and so slowly: each event looks at every order.
///
/// `symbol` is the symbol's number in the config. Each event carries its own number; those of a journal are
/// 1, 2, 3 and so on. `NoMemory` is also the answer where a sum passes its type, which no history of at most
/// 2,097,152 events can bring about.
pub fn plain_run(
    alloc: Global,
    config: &Config,
    symbol: u32,
    events: &[Event],
) -> Result<Vec<Report>, NoMemory>
    requires known { symbol < length config.now.ticks }
    requires tick { IsTick (slice_index config.now.ticks symbol) }
    ensures { IfOk result (λ reports. reports.items
        ≡ (runs (length config.now.markets) (slice_index config.now.ticks symbol) events.now).reports) }
{
    let tick = config.ticks.as_slice()[symbol as usize];
    Ok(run(alloc, config.markets.len(), tick, events)?)
}
