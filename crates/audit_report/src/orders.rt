//! The rows of orders, each with its life, which opens at a click.
ghost use Rattle.std.specs.Prelude.{◌≡◌, ◌<◌, ◌++◌, ◌∷◌, [], ℕ, IfOk, OnOk, length, option_to_list, slice_get, Some};
ghost use Rattle.eager_meaning.specs.declared.order.Order.{Order};
ghost use Rattle.eager_meaning.specs.Step.{runs};
ghost use Rattle.audit_core.specs.Audited.{run_of};
ghost use Rattle.audit_core.specs.Telling.{IsBookOf};
ghost use Rattle.audit_html.specs.Chunks.{Adds};
ghost use Rattle.audit_report.specs.Buckets.{AreOf};
ghost use Rattle.audit_report.specs.Parts.{box};
ghost use Rattle.audit_report.specs.Orders.{AreLives, asked_words, end_cells, end_of_left, end_of_resting, end_words, entered_cells, head_of, order_row, order_rows, owner_cells, row_at};

use crate::buckets::buckets_of;
use crate::cells::push_anchor;
use crate::lives::{At, Told, push_life};
use crate::parts::{Part, add_row};
use crate::words::{push_further_limit, side_word};
use audit_columns::columns::push_event_clock;
use audit_html::chunks::Chunks;
use audit_html::numbers::push_count;
use audit_html::texts::{push, push_shown};
use audit_tables::SymbolDay;
use audit_tables::counts::order_count;
use eager_meaning::Order;
use listing::name_at;
use std::alloc::Global;
use std::marker::Brand;
use std::sync::ledger::{Blank, Ledger};
use symbol_book::Book;
use venue_words::{Config, NoMemory, Priced, Steps};

fn push_end_of_left(
    alloc: Global,
    out: &mut Vec<u8>,
    cum: u32,
    quantity: u32,
) -> Result<(), NoMemory>
    ensures { OnOk result (out.new.items ≡ out.old.items ++ end_of_left cum quantity) }
{
    if cum == quantity {
        return push(out, b"filled");
    }
    if cum == 0 {
        return push(out, b"canceled");
    }
    push(out, b"traded ")?;
    push_count(alloc, out, u64::from(cum))?;
    push(out, b", canceled")
}

fn push_end_of_resting(
    alloc: Global,
    out: &mut Vec<u8>,
    cum: u32,
    leaves: u32,
) -> Result<(), NoMemory>
    ensures { OnOk result (out.new.items ≡ out.old.items ++ end_of_resting cum leaves) }
{
    if cum == 0 {
        return push(out, b"rests");
    }
    push(out, b"traded ")?;
    push_count(alloc, out, u64::from(cum))?;
    push(out, b", ")?;
    push_count(alloc, out, u64::from(leaves))?;
    push(out, b" rests")
}

/// Appends what became of an order at last.
fn push_end(
    alloc: Global,
    out: &mut Vec<u8>,
    order: &Order,
    x: Option<Priced>,
) -> Result<(), NoMemory>
    ensures { OnOk result (out.new.items ≡ out.old.items ++ end_words order.now x) }
{
    match x {
        None => push_end_of_left(alloc, out, order.cum, order.quantity),
        Some(x) => push_end_of_resting(alloc, out, order.cum, x.row.leaves),
    }
}

/// Appends what an order asks at last.
fn push_asked(alloc: Global, out: &mut Vec<u8>, order: &Order) -> Result<(), NoMemory>
    ensures { OnOk result (out.new.items ≡ out.old.items ++ asked_words order.now) }
{
    push(out, side_word(order.side))?;
    push_count(alloc, out, u64::from(order.quantity))?;
    push(out, if order.pegged { b", pegged" } else { b"" })?;
    push_further_limit(out, order.limit)
}

/// Appends when an order entered, and which it is.
#[tactic(auto, unfolding(crate::specs::Orders::entered_cells))]
fn push_entered(
    alloc: Global,
    out: &mut Vec<u8>,
    told: Told<'_>,
    order: &Order,
) -> Result<(), NoMemory>
    ensures { OnOk result (out.new.items ≡ out.old.items
        ++ entered_cells told.entry.config.now told.entry.symbol told.entry.journal.now order.now) }
{
    push(out, b"<span>")?;
    push_event_clock(alloc, out, told.journal, order.first)?;
    push(out, b"</span>")?;
    push(out, b"<span>")?;
    push_anchor(alloc, out, told.config, told.symbol, order.first)?;
    push(out, b"</span>")
}

/// Appends whose it is, and its identifier.
#[tactic(auto, unfolding(crate::specs::Orders::owner_cells))]
fn push_owner(
    alloc: Global,
    out: &mut Vec<u8>,
    config: &Config,
    order: &Order,
) -> Result<(), NoMemory>
    ensures { OnOk result (out.new.items ≡ out.old.items ++ owner_cells config.now order.now) }
{
    push(out, b"<span>")?;
    push_shown(alloc, out, name_at(config.members.as_slice(), order.member))?;
    push(out, b"</span>")?;
    push(out, b"<span class=\"i\">")?;
    push_shown(alloc, out, order.id.as_slice())?;
    push(out, b"</span>")
}

/// Appends what it asks, and what became of it.
#[tactic(auto, unfolding(crate::specs::Orders::end_cells))]
fn push_ending(
    alloc: Global,
    out: &mut Vec<u8>,
    order: &Order,
    x: Option<Priced>,
) -> Result<(), NoMemory>
    ensures { OnOk result (out.new.items ≡ out.old.items ++ end_cells order.now x) }
{
    push(out, b"<span>")?;
    push_asked(alloc, out, order)?;
    push(out, b"</span>")?;
    push(out, b"<span>")?;
    push_end(alloc, out, order, x)?;
    push(out, b"</span>")
}

/// Appends the line of an order.
fn push_head(
    alloc: Global,
    out: &mut Vec<u8>,
    told: Told<'_>,
    order: &Order,
    x: Option<Priced>,
) -> Result<(), NoMemory>
    ensures { OnOk result (out.new.items ≡ out.old.items
        ++ head_of told.entry.config.now told.entry.symbol told.entry.journal.now order.now x) }
{
    push_entered(alloc, out, told, order)?;
    push_owner(alloc, out, told.config, order)?;
    push_ending(alloc, out, order, x)
}

/// The row of an order, of which the reports at these places tell.
#[tactic(auto, unfolding(crate::specs::Orders::order_row))]
fn row_of(
    alloc: Global,
    told: Told<'_>,
    order: &Order,
    x: Option<Priced>,
    places: &[At],
) -> Result<Vec<u8>, NoMemory>
    requires { AreOf told.reports.now order.now.first places.now }
    ensures { IfOk result (λ row. row.items ≡ order_row told.entry.config.now told.entry.symbol told.entry.journal.now
        told.entry.reports.now order.now x) }
{
    let mut row = Vec::new(alloc);
    push(&mut row, b"<details class=\"o row\"><summary>")?;
    push_head(alloc, &mut row, told, order, x)?;
    push(&mut row, b"</summary><table class=\"life\" id=\"")?;
    push_anchor(alloc, &mut row, told.config, told.symbol, order.first)?;
    push(&mut row, b"\">")?;
    push_life(alloc, &mut row, told, order.first, places)?;
    push(&mut row, b"</table></details>\n")?;
    Ok(row)
}

/// For how many events there must be buckets, so that each of these orders has one.
fn room_for(orders: &[Order]) -> usize
    ensures { (k : ℕ) (order : Order) → slice_get orders.now k ≡ Some order → order.first < result }
{
    let mut room = 0;
    for order in orders {
        room = room.max(order.first as usize + 1);
    }
    room
}

/// A book, and the places of the reports that tell of each of its orders.
#[derive(Clone, Copy)]
struct Lives<'a> {
    told: Told<'a>,
    book: &'a Book,
    buckets: &'a [Vec<At>],
}

/// Adds the row of an order.
fn add_made(chunks: &mut Chunks, row: &Vec<u8>) -> Result<(), NoMemory>
    ensures { OnOk result (Adds (box Part.Orders) (row.now.items ∷ []) chunks.old chunks.new) }
{
    add_row(chunks, Part::Orders, row.as_slice())
}

/// Adds the row of the order of a number.
fn add_order<L: Ledger>(
    alloc: Global,
    chunks: &mut Chunks,
    lives: Lives<'_>,
    number: u32,
    steps: &mut Steps<L>,
) -> Result<(), NoMemory>
    requires lives { AreLives lives.told.config.now lives.told.symbol lives.book.now lives.told.journal.now lives.told.reports.now lives.buckets.now }
    requires number { number < length (runs lives.book.now.markets lives.book.now.tick lives.book.now.journal).state.orders }
    ensures { OnOk result (Adds (box Part.Orders) (option_to_list (row_at lives.entry.told.config.now lives.entry.told.symbol
        lives.entry.book.now.journal (run_of lives.entry.told.config.now lives.entry.told.symbol lives.entry.book.now.journal) number)) chunks.old chunks.new) }
{
    let orders = lives.book.orders();
    let order = &orders[number as usize];
    let x = lives.book.resting_order(number, steps);
    if chunks.is_full() {
        chunks.skip()?;
        return Ok(());
    }
    let row = row_of(
        alloc,
        lives.told,
        order,
        x,
        &lives.buckets[order.first as usize],
    )?;
    add_made(chunks, &row)?;
    Ok(())
}

/// Adds a row for each order of a book.
fn add_orders<L: Ledger>(
    alloc: Global,
    chunks: &mut Chunks,
    lives: Lives<'_>,
    steps: &mut Steps<L>,
) -> Result<(), NoMemory>
    requires { AreLives lives.told.config.now lives.told.symbol lives.book.now lives.told.journal.now lives.told.reports.now lives.buckets.now }
    ensures { OnOk result (Adds (box Part.Orders) (order_rows lives.entry.told.config.now lives.entry.told.symbol
        lives.entry.book.now.journal) chunks.old chunks.new) }
{
    let count = order_count(lives.book);
    for number in 0..count {
        add_order(alloc, chunks, lives, number, steps)?;
    }
    Ok(())
}

fn add_counted<L: Ledger>(
    alloc: Global,
    chunks: &mut Chunks,
    day: SymbolDay<'_>,
    blank: Blank,
) -> Result<(), NoMemory>
    requires blank { (blank.name ≡ L.name) × (blank.parts ≡ L.parts) × (L.parts ≡ 1) }
    requires of { IsBookOf day.config.now day.symbol day.book.now }
    ensures { OnOk result (Adds (box Part.Orders) (order_rows day.entry.config.now day.entry.symbol day.entry.book.now.journal) chunks.old chunks.new) }
{
    let mut steps: Steps<L> = Steps::start(blank);
    let told = Told {
        config: day.config,
        symbol: day.symbol,
        journal: day.book.journal(),
        reports: day.book.reports(),
    };
    // A count of them is a `u32`.
    let _reports = day.book.front();
    let buckets = buckets_of(alloc, told.reports, room_for(day.book.orders()))?;
    let lives = Lives {
        told,
        book: day.book,
        buckets: buckets.as_slice(),
    };
    add_orders(alloc, chunks, lives, &mut steps)
}

/// Adds a row for each order of a book, in the order in which they entered.
pub fn add_all(alloc: Global, chunks: &mut Chunks, day: SymbolDay<'_>) -> Result<(), NoMemory>
    requires { IsBookOf day.config.now day.symbol day.book.now }
    ensures { OnOk result (Adds (box Part.Orders) (order_rows day.entry.config.now day.entry.symbol day.entry.book.now.journal) chunks.old chunks.new) }
{
    add_counted::<Brand>(alloc, chunks, day, Blank::new(1))
}
