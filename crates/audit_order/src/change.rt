//! How an order rests, and where it queues. Each call appends its text; after a refusal a part of it may stand there.
ghost use Rattle.std.specs.Prelude.{◌≡◌, ◌<◌, ◌++◌, IfSome, OnOk, length};
ghost use Rattle.eager_meaning.specs.Step.{IsNumbered, runs};
ghost use Rattle.listing.specs.Lines.{ended};
ghost use Rattle.audit_order.specs.Lives.{change_text, place_in, place_text, queue_text, rests_text, row_text};

use crate::life::push;
use crate::standing::rests_alike;
use audit_book::queues::queue_of;
use audit_columns::columns::{push_event_cells, push_quote};
use audit_columns::resting::push_price_or_why;
use audit_tables::counts::event_count;
use fix_write::digits::push_number;
use std::alloc::Global;
use symbol_book::Book;
use venue_words::{Best, NoMemory, Priced};

/// The place of an order in a queue, counted from 0.
fn place_in(number: u32, queue: &[Priced]) -> Option<usize>
    ensures place { result ≡ place_in number queue.now }
    ensures within { IfSome result (λ place. place < length queue.now) }
{
    queue.iter().position(|x| x.row.order == number)
}

/// Appends a place among so many.
#[tactic(auto, unfolding(crate::specs::Lives::place_text))]
fn push_place(out: &mut Vec<u8>, place: Option<usize>, count: usize) -> Result<(), NoMemory>
    requires { IfSome place (λ place. place < count) }
    ensures { OnOk result (out.new.items ≡ out.old.items ++ place_text place count) }
{
    match place {
        None => push(out, b"no place"),
        Some(place) => {
            push(out, b"place ")?;
            push_number(out, place as u64 + 1)?;
            push(out, b" of ")?;
            push_number(out, count as u64)
        }
    }
}

/// Appends where an order stands in a queue.
#[tactic(auto, unfolding(crate::specs::Lives::queue_text))]
fn push_queue(out: &mut Vec<u8>, x: &Priced, queue: &[Priced]) -> Result<(), NoMemory>
    ensures { OnOk result (out.new.items ≡ out.old.items ++ queue_text x.now queue.now) }
{
    push_place(out, place_in(x.row.order, queue), queue.len())
}

/// Appends the price of a row, its time, its shares left and its place.
#[tactic(auto, unfolding(crate::specs::Lives::row_text))]
fn push_row(
    alloc: Global,
    out: &mut Vec<u8>,
    best: Best,
    book: &Book,
    x: &Priced,
) -> Result<(), NoMemory>
    ensures { OnOk result (out.new.items ≡ out.old.items ++ row_text best
        (runs book.now.markets book.now.tick book.now.journal).state x.now) }
{
    push_price_or_why(out, best, x)?;
    push(out, b" since event ")?;
    push_number(out, u64::from(x.time))?;
    push(out, b", ")?;
    push_number(out, u64::from(x.row.leaves))?;
    push(out, b" left, ")?;
    let queue = queue_of(alloc, book, x.row.key.side)?;
    push_queue(out, x, queue.active.as_slice())?;
    push(out, b"; ")?;
    push_quote(out, best)
}

/// Appends how an order rests.
fn push_rests(
    alloc: Global,
    out: &mut Vec<u8>,
    best: Best,
    book: &Book,
    rests: Option<Priced>,
) -> Result<(), NoMemory>
    ensures { OnOk result (out.new.items ≡ out.old.items ++ rests_text best
        (runs book.now.markets book.now.tick book.now.journal).state rests) }
{
    match rests {
        None => push(out, b"rests no more"),
        Some(x) => {
            push(out, b"rests: ")?;
            push_row(alloc, out, best, book, &x)
        }
    }
}

/// How an order rested before an event, and how it rests behind it.
#[derive(Clone, Copy)]
pub struct Change {
    pub was: Option<Priced>,
    pub rests: Option<Priced>,
}

/// Appends how an order rests behind the last event of a book, where it doesn't rest as before.
#[tactic(auto, unfolding(crate::specs::Lives::change_text))]
pub fn push_change(
    alloc: Global,
    out: &mut Vec<u8>,
    best: Best,
    book: &Book,
    change: Change,
) -> Result<(), NoMemory>
    requires { IsNumbered book.now.journal }
    ensures { OnOk result (out.new.items ≡ out.old.items ++ change_text book.now.journal best
        (runs book.now.markets book.now.tick book.now.journal).state change.was change.rests) }
{
    if rests_alike(change.was, change.rests) {
        return Ok(());
    }
    let journal = book.journal();
    push_event_cells(alloc, out, journal, event_count(journal))?;
    push_rests(alloc, out, best, book, change.rests)?;
    push(out, b"\n")
}
