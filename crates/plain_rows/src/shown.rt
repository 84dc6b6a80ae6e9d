//! What the plain program of the rules, the book that ships and a book over plain rows show of the same events of a symbol with
//! two markets.
ghost use Rattle.std.specs.Prelude.{◌≡◌, ◌∷◌, [], length, IfOk};
ghost use Rattle.venue_words.specs.Conditions.{IsTick};
ghost use Rattle.eager_meaning.specs.Step.{runs};

use crate::book::plain_book;
use match_core::Engine;
use plain_market::plain_run;
use std::alloc::{AllocError, Global};
use std::marker::Brand;
use std::sync::ledger::{Blank, Ledger};
use symbol_book::{Book, BookOver};
use venue_words::{Bytes, Config, Event, FloorRefusal, Held, Items, NoMemory, Report, Steps};

/// The most events that are shown.
const LIMIT: u32 = 1000;

/// What a book shows behind some events.
#[derive(Drop)]
pub struct Shown {
    /// Its reports, as `text_of` writes them.
    pub reports: String,
    /// The number of the last event that it took.
    pub taken: u32,
    /// How many orders rest, and in how many groups.
    pub resting: (u32, u32),
}

/// A config of two markets and one symbol.
fn config(alloc: Global, tick: u32) -> Result<Config, AllocError>
    ensures markets { IfOk result (λ config. length config.markets ≡ 2) }
    ensures ticks { IfOk result (λ config. config.ticks ≡ tick ∷ []) }
{
    let market = Bytes::copy_of(alloc, b"N")?;
    let other = Bytes::copy_of(alloc, b"P")?;
    Ok(Config {
        members: Items::new(alloc),
        markets: Items(vec![in alloc; market, other]?),
        symbols: Items::new(alloc),
        limits: Items::new(alloc),
        ticks: Items(vec![in alloc; tick]?),
        begin: 0,
    })
}

/// The reports of the plain program.
pub fn plain_reports(alloc: Global, tick: u32, events: &[Event]) -> Result<Vec<Report>, NoMemory>
    requires { IsTick tick }
    ensures { IfOk result (λ reports. reports.items ≡ (runs 2 tick events.now).reports) }
{
    let config = config(alloc, tick)?;
    plain_run(alloc, &config, 0, events)
}

/// Reports with all that they hold, a line for each.
pub fn text_of(alloc: Global, reports: &[Report]) -> Result<String, AllocError> {
    let mut text = String::new(alloc);
    for report in reports {
        write!(text, "{report:?}\n")?;
    }
    Ok(text)
}

fn submit_counted<E: Engine + Drop, L: Ledger>(
    book: &mut BookOver<E>,
    event: &Event,
    blank: Blank,
) -> Option<Result<u32, FloorRefusal>>
    requires name { blank.name ≡ L.name }
    requires parts { blank.parts ≡ L.parts }
    requires one { blank.parts ≡ 1 }
{
    if !book.takes(&event.command) {
        return None;
    }
    let mut steps = Steps::<L>::start(blank);
    Some(book.submit(event.feed, event.moment, &event.command, &mut steps))
}

/// Submits the command of an event where the book takes it, with a count of steps that nobody reads.
pub fn submit<E: Engine + Drop>(
    book: &mut BookOver<E>,
    event: &Event,
) -> Option<Result<u32, FloorRefusal>> {
    submit_counted::<E, Brand>(book, event, Blank::new(1))
}

/// Submits the commands of some events, and answers the number of the last that the book took.
fn submit_all<E: Engine + Drop>(book: &mut BookOver<E>, events: &[Event]) -> u32 {
    let mut taken = 0;
    for event in events {
        if let Some(Ok(number)) = submit(book, event) {
            taken = number;
        }
    }
    taken
}

fn show<E: Engine + Drop>(
    alloc: Global,
    book: &mut BookOver<E>,
    events: &[Event],
) -> Result<Shown, AllocError> {
    let taken = submit_all(book, events);
    let resting = (book.resting(), book.groups());
    let reports = text_of(alloc, book.reports())?;
    Ok(Shown {
        reports,
        taken,
        resting,
    })
}

/// What the book that ships shows, over peg groups.
pub fn over_groups(alloc: Global, tick: u32, events: &[Event]) -> Result<Shown, NoMemory>
    requires { IsTick tick }
{
    let mut book = Book::new(alloc, 2, LIMIT, tick)?;
    Ok(show(alloc, &mut book, events)?)
}

/// What a book over plain rows shows.
pub fn over_rows(alloc: Global, tick: u32, events: &[Event]) -> Result<Shown, NoMemory>
    requires { IsTick tick }
{
    let mut book = plain_book(alloc, 2, LIMIT, tick)?;
    Ok(show(alloc, &mut book, events)?)
}
