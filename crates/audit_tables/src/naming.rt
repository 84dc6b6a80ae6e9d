//! Names of events: a time of day, or the identifier of an order.
ghost use Rattle.std.specs.Prelude.{◌≡◌};
ghost use Rattle.std.specs.Option.{option_copied};
ghost use Rattle.audit_tables.specs.Sought.{first_with, gives_id, last_by, tells_id, time_of_day};

use crate::sought::Sought;
use exec_reports::parts::first_of;
use listing::name_at;
use std::marker::{Brand, PhantomData};
use symbol_book::Book;
use venue_words::{Config, Event, Execution, Kind, Report};

/// So many milliseconds has a day.
const DAY: i64 = 86_400_000;

/// The milliseconds since midnight, UTC.
#[tactic(auto, unfolding(crate::specs::Sought::time_of_day))]
pub fn time_of_day(moment: i64) -> u32
    ensures { result ≡ time_of_day moment }
{
    if moment < 0 {
        (DAY - 1 - (-1 - moment) % DAY) as u32
    } else {
        (moment % DAY) as u32
    }
}

/// The last of some events that came no later than at a time of day.
fn last_by(time: u32, events: &[Event]) -> Option<u32>
    ensures { result ≡ last_by time events.now }
{
    let mut found = None;
    for event in events {
        if time_of_day(event.moment) <= time {
            found = Some(event.number);
        }
    }
    found
}

/// Whether a report gives an order an identifier.
#[tactic(auto, unfolding(crate::specs::Sought::gives_id))]
fn gives_id(id: &[u8], kind: &Kind) -> bool
    ensures { result ≡ gives_id id.now kind.now }
{
    match kind {
        Kind::Order {
            view,
            execution: Execution::Accepted | Execution::Replaced { .. },
        } => view.id.as_slice() == id,
        _ => false,
    }
}

/// Whether a report tells a member that an order has an identifier.
fn tells_id(config: &Config, member: &[u8], id: &[u8], report: &Report) -> bool
    ensures { result ≡ tells_id config.now member.now id.now report.now }
{
    name_at(config.members.as_slice(), report.member) == member && gives_id(id, &report.kind)
}

/// The first report that does.
fn first_with<'a>(
    config: &Config,
    member: &[u8],
    id: &[u8],
    reports: &'a [Report],
) -> Option<&'a Report>
    ensures { option_copied result ≡ first_with config.now member.now id.now reports.now }
{
    reports
        .iter()
        .find(|report| tells_id(config, member, id, report))
}

/// A symbol and a time of day.
pub trait Timed {
    ghost use Rattle.std.specs.Prelude.{ℕ, List};

    ghost symbol: { List ℕ };

    ghost time: { ℕ };
}

impl Timed for Brand {
    ghost use Rattle.std.specs.Prelude.{[]};

    ghost symbol = { [] };

    ghost time = { 0 };
}

/// The last event that came no later than at a time of day, in milliseconds since midnight.
#[derive(Drop)]
pub struct ByTime<'a, A: Timed> {
    symbol: &'a [u8],
    time: u32,
    of: PhantomData<A>,
    ghost is_symbol: { symbol.now ≡ A.symbol },
    ghost is_time: { time ≡ A.time },
}

impl<'a, A: Timed> ByTime<'a, A> {
    /// The question.
    pub fn new(symbol: &'a [u8], time: u32) -> ByTime<'a, A>
        requires symbol { symbol.now ≡ A.symbol }
        requires time { time ≡ A.time }
    {
        ByTime {
            symbol,
            time,
            of: PhantomData,
        }
    }
}

impl<'a, A: Timed> Sought for ByTime<'a, A> {
    ghost use Rattle.audit_tables.specs.Sought.{event_by};

    ghost name = { A.symbol };

    ghost finds = { event_by A.time };

    fn name(&self) -> &[u8] {
        self.symbol
    }

    fn find(&self, _config: &Config, _symbol: u32, book: &Book) -> Option<u32> {
        last_by(self.time, book.journal())
    }
}

/// A symbol, a member, and the identifier of an order of that member.
pub trait Identified {
    ghost use Rattle.std.specs.Prelude.{ℕ, List};

    ghost symbol: { List ℕ };

    ghost member: { List ℕ };

    ghost id: { List ℕ };
}

impl Identified for Brand {
    ghost use Rattle.std.specs.Prelude.{[]};

    ghost symbol = { [] };

    ghost member = { [] };

    ghost id = { [] };
}

/// The words that name an order.
#[derive(Drop)]
pub struct OrderName<'a, A: Identified> {
    symbol: &'a [u8],
    member: &'a [u8],
    id: &'a [u8],
    of: PhantomData<A>,
    ghost is_symbol: { symbol.now ≡ A.symbol },
    ghost is_member: { member.now ≡ A.member },
    ghost is_id: { id.now ≡ A.id },
}

impl<'a, A: Identified> OrderName<'a, A> {
    /// The question.
    pub fn new(symbol: &'a [u8], member: &'a [u8], id: &'a [u8]) -> OrderName<'a, A>
        requires symbol { symbol.now ≡ A.symbol }
        requires member { member.now ≡ A.member }
        requires id { id.now ≡ A.id }
    {
        OrderName {
            symbol,
            member,
            id,
            of: PhantomData,
        }
    }
}

/// The event from which on an order has an identifier.
#[derive(Drop)]
pub struct WithId<'a, A: Identified>(pub OrderName<'a, A>);

/// The event at which the order entered that has an identifier from some event on.
#[derive(Drop)]
pub struct EntryWithId<'a, A: Identified>(pub OrderName<'a, A>);

impl<'a, A: Identified> Sought for WithId<'a, A> {
    ghost use Rattle.audit_tables.specs.Sought.{event_with};

    ghost name = { A.symbol };

    ghost finds = { event_with A.member A.id };

    fn name(&self) -> &[u8] {
        self.0.symbol
    }

    fn find(&self, config: &Config, _symbol: u32, book: &Book) -> Option<u32> {
        let report = first_with(config, self.0.member, self.0.id, book.reports())?;
        Some(report.event)
    }
}

impl<'a, A: Identified> Sought for EntryWithId<'a, A> {
    ghost use Rattle.audit_tables.specs.Sought.{entry_with};

    ghost name = { A.symbol };

    ghost finds = { entry_with A.member A.id };

    fn name(&self) -> &[u8] {
        self.0.symbol
    }

    fn find(&self, config: &Config, _symbol: u32, book: &Book) -> Option<u32> {
        let report = first_with(config, self.0.member, self.0.id, book.reports())?;
        first_of(&report.kind)
    }
}
