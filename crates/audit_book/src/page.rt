//! The text of a book. Each call appends its own; after a refusal a part of it may stand there.
ghost use Rattle.std.specs.Prelude.{◌≡◌, ◌++◌, OnOk};
ghost use Rattle.eager_meaning.specs.Step.{IsNumbered, runs};
ghost use Rattle.listing.specs.Lines.{ended};
ghost use Rattle.audit_core.specs.Telling.{IsBookOf};
ghost use Rattle.audit_tables.specs.Trades.{best_behind};
ghost use Rattle.audit_book.specs.Books.{book_text, depth_heading, depth_lines, heading, level_lines, place_text, row_line, row_lines, side_lines, title};

use crate::queues::queue_of;
use audit_columns::columns::{push_event_clock, push_quote};
use audit_columns::resting::{push_depth_cells, push_row_cells};
use audit_queue::levels::{Level, levels_of};
use audit_tables::counts::event_count;
use fix_write::digits::push_number;
use listing::name_at;
use std::alloc::Global;
use symbol_book::Book;
use venue_words::{Best, Config, Event, NoMemory, Priced, Side};

fn push(out: &mut Vec<u8>, text: &[u8]) -> Result<(), NoMemory>
    ensures { OnOk result (out.new.items ≡ out.old.items ++ text.now) }
{
    out.extend_from_slice(text)?;
    Ok(())
}

/// Appends a symbol and an event of it.
#[tactic(auto, unfolding(crate::specs::Books::place_text))]
fn push_place(
    alloc: Global,
    out: &mut Vec<u8>,
    config: &Config,
    symbol: u32,
    journal: &[Event],
    number: u32,
) -> Result<(), NoMemory>
    ensures { OnOk result (out.new.items ≡ out.old.items ++ place_text config.now symbol journal.now number) }
{
    push(out, name_at(config.symbols.as_slice(), symbol))?;
    push(out, b" behind event ")?;
    push_number(out, u64::from(number))?;
    push(out, b" at ")?;
    push_event_clock(alloc, out, journal, number)
}

/// Appends which book it is, and the national quote behind its last event.
#[tactic(auto, unfolding(crate::specs::Books::title))]
fn push_title(
    alloc: Global,
    out: &mut Vec<u8>,
    config: &Config,
    symbol: u32,
    journal: &[Event],
    best: Best,
) -> Result<(), NoMemory>
    requires { IsNumbered journal.now }
    ensures { OnOk result (out.new.items ≡ out.old.items ++ ended (title config.now symbol journal.now best)) }
{
    let count = event_count(journal);
    push_place(alloc, out, config, symbol, journal, count)?;
    push(out, b": ")?;
    push_quote(out, best)?;
    push(out, b"\n")
}

/// Appends the line of an order.
fn push_row(
    alloc: Global,
    out: &mut Vec<u8>,
    config: &Config,
    journal: &[Event],
    best: Best,
    x: &Priced,
) -> Result<(), NoMemory>
    ensures { OnOk result (out.new.items ≡ out.old.items ++ ended (row_line config.now journal.now best x.now)) }
{
    push_row_cells(alloc, out, journal, best, x)?;
    push(out, name_at(config.members.as_slice(), x.row.member))?;
    push(out, b"\n")
}

/// Appends a line for each order.
fn push_rows(
    alloc: Global,
    out: &mut Vec<u8>,
    config: &Config,
    journal: &[Event],
    best: Best,
    rows: &[Priced],
) -> Result<(), NoMemory>
    ensures { OnOk result (out.new.items ≡ out.old.items ++ row_lines config.now journal.now best rows.now) }
{
    for x in rows {
        push_row(alloc, out, config, journal, best, x)?;
    }
    Ok(())
}

/// The names of the columns.
fn heading(side: Side) -> &'static [u8]
    ensures { result.now ≡ heading side }
{
    match side {
        Side::Buy =>
            b"buys           since                  entered                leaves     minimum    member",
        Side::Sell =>
            b"sells          since                  entered                leaves     minimum    member",
    }
}

/// Appends the orders of a side.
#[tactic(auto, unfolding(crate::specs::Books::side_lines))]
fn push_side_lines(
    alloc: Global,
    out: &mut Vec<u8>,
    config: &Config,
    best: Best,
    side: Side,
    book: &Book,
) -> Result<(), NoMemory>
    ensures { OnOk result (out.new.items ≡ out.old.items ++ side_lines config.now book.now.journal best side
        (runs book.now.markets book.now.tick book.now.journal).state) }
{
    let queue = queue_of(alloc, book, side)?;
    push(out, heading(side))?;
    push(out, b"\n")?;
    push_rows(
        alloc,
        out,
        config,
        book.journal(),
        best,
        queue.active.as_slice(),
    )?;
    push_rows(
        alloc,
        out,
        config,
        book.journal(),
        best,
        queue.inactive.as_slice(),
    )
}

/// The names of the columns of a side by price.
fn depth_heading(side: Side) -> &'static [u8]
    ensures { result.now ≡ depth_heading side }
{
    match side {
        Side::Buy => b"buys by price  shares     orders",
        Side::Sell => b"sells by price shares     orders",
    }
}

/// Appends a line for each price.
fn push_levels(out: &mut Vec<u8>, levels: &[Level]) -> Result<(), NoMemory>
    ensures { OnOk result (out.new.items ≡ out.old.items ++ level_lines levels.now) }
{
    for level in levels {
        push_depth_cells(out, level.price, level.shares, level.orders)?;
        push(out, b"\n")?;
    }
    Ok(())
}

/// Appends the active orders of a side by price.
#[tactic(auto, unfolding(crate::specs::Books::depth_lines))]
fn push_depth(alloc: Global, out: &mut Vec<u8>, side: Side, book: &Book) -> Result<(), NoMemory>
    ensures { OnOk result (out.new.items ≡ out.old.items ++ depth_lines side
        (runs book.now.markets book.now.tick book.now.journal).state) }
{
    let queue = queue_of(alloc, book, side)?;
    let levels = levels_of(alloc, queue.active.as_slice())?;
    push(out, depth_heading(side))?;
    push(out, b"\n")?;
    push_levels(out, levels.as_slice())
}

/// Appends both sides of a book, at the national quote behind its last event, and both by price.
#[tactic(auto, unfolding(crate::specs::Books::book_text))]
pub fn push_book(
    alloc: Global,
    out: &mut Vec<u8>,
    config: &Config,
    symbol: u32,
    best: Best,
    book: &Book,
) -> Result<(), NoMemory>
    requires of { IsBookOf config.now symbol book.now }
    requires best { best ≡ best_behind config.now symbol book.now.journal }
    ensures { OnOk result (out.new.items ≡ out.old.items ++ book_text config.now symbol book.now.journal) }
{
    push_title(alloc, out, config, symbol, book.journal(), best)?;
    push_side_lines(alloc, out, config, best, Side::Buy, book)?;
    push_side_lines(alloc, out, config, best, Side::Sell, book)?;
    push_depth(alloc, out, Side::Buy, book)?;
    push_depth(alloc, out, Side::Sell, book)
}
