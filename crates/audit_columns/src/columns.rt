//! Cells of lines. Each call appends one; after a refusal the text may hold a part of it.
ghost use Rattle.std.specs.Prelude.{◌≡◌, ◌≤◌, ◌+◌, ◌-◌, ◌++◌, OnOk, decimal, drop, length, replicate};
ghost use Rattle.audit_columns.specs.Columns.{clock_of, column, event_cells, event_clock, moment_at, quote_side, quote_text, shares_text};

use fix_write::digits::push_number;
use fix_write::push_moment;
use quote_text::push_side;
use std::alloc::Global;
use venue_words::{Best, Event, NoMemory};

/// Ends a column of this width that began at a place of the text.
pub fn end_column(out: &mut Vec<u8>, start: usize, width: usize) -> Result<(), NoMemory>
    requires { start ≤ length out.old.items }
    ensures { OnOk result (out.new.items ≡ out.old.items ++ replicate (1 + (width - (length out.old.items - start))) 32) }
{
    let written = out.len() - start;
    let end = width.max(written);
    for _place in written..end {
        out.push(b' ')?;
    }
    out.push(b' ')?;
    Ok(())
}

/// Appends a column with a text.
#[tactic(auto, using(crate::proofs::Padding::columned))]
pub fn push_column(out: &mut Vec<u8>, width: usize, text: &[u8]) -> Result<(), NoMemory>
    ensures { OnOk result (out.new.items ≡ out.old.items ++ column width text.now) }
{
    let start = out.len();
    out.extend_from_slice(text)?;
    end_column(out, start, width)
}

/// Appends a column with a number.
#[tactic(auto, using(crate::proofs::Padding::columned))]
pub fn push_number_column(out: &mut Vec<u8>, width: usize, number: u64) -> Result<(), NoMemory>
    ensures { OnOk result (out.new.items ≡ out.old.items ++ column width (decimal number)) }
{
    let start = out.len();
    push_number(out, number)?;
    end_column(out, start, width)
}

/// Appends what stands behind the date in the text of a moment.
fn push_behind_date(out: &mut Vec<u8>, text: &[u8]) -> Result<(), NoMemory>
    ensures { OnOk result (out.new.items ≡ out.old.items ++ drop 9 text.now) }
{
    match text.get(9..) {
        Some(clock) => {
            out.extend_from_slice(clock)?;
            Ok(())
        }
        None => Ok(()),
    }
}

/// Appends the time of day of a moment.
#[tactic(auto, using(crate::proofs::Padding::behind_date))]
pub fn push_clock(alloc: Global, out: &mut Vec<u8>, moment: i64) -> Result<(), NoMemory>
    ensures { OnOk result (out.new.items ≡ out.old.items ++ clock_of moment) }
{
    let mut text = Vec::new(alloc);
    push_moment(&mut text, moment)?;
    push_behind_date(out, text.as_slice())
}

/// When the event of a number was taken.
fn moment_at(journal: &[Event], number: u32) -> i64
    ensures { result ≡ moment_at journal.now number }
{
    match journal.get((number as usize).saturating_sub(1)) {
        Some(event) => event.moment,
        None => 0,
    }
}

/// Appends the time of day of the event of a number.
#[tactic(auto, unfolding(crate::specs::Columns::event_clock))]
pub fn push_event_clock(
    alloc: Global,
    out: &mut Vec<u8>,
    journal: &[Event],
    number: u32,
) -> Result<(), NoMemory>
    ensures { OnOk result (out.new.items ≡ out.old.items ++ event_clock journal.now number) }
{
    push_clock(alloc, out, moment_at(journal, number))
}

#[tactic(auto, using(crate::proofs::Padding::columned))]
fn push_clock_column(
    alloc: Global,
    out: &mut Vec<u8>,
    width: usize,
    journal: &[Event],
    number: u32,
) -> Result<(), NoMemory>
    ensures { OnOk result (out.new.items ≡ out.old.items ++ column width (event_clock journal.now number)) }
{
    let start = out.len();
    push_event_clock(alloc, out, journal, number)?;
    end_column(out, start, width)
}

/// Appends the number of an event of a journal and its time of day.
#[tactic(auto, unfolding(crate::specs::Columns::event_cells))]
pub fn push_event_cells(
    alloc: Global,
    out: &mut Vec<u8>,
    journal: &[Event],
    number: u32,
) -> Result<(), NoMemory>
    ensures { OnOk result (out.new.items ≡ out.old.items ++ event_cells journal.now number) }
{
    push_number_column(out, 8, u64::from(number))?;
    push_clock_column(alloc, out, 13, journal, number)
}

/// Appends a side of a quote with four decimals.
#[tactic(auto, unfolding(crate::specs::Columns::quote_side))]
fn push_quote_side(out: &mut Vec<u8>, cents: Option<u32>) -> Result<(), NoMemory>
    ensures { OnOk result (out.new.items ≡ out.old.items ++ quote_side cents) }
{
    match cents {
        None => {
            out.extend_from_slice(b"none")?;
            Ok(())
        }
        Some(cents) => {
            push_side(out, Some(cents))?;
            out.extend_from_slice(b"00")?;
            Ok(())
        }
    }
}

/// Appends both sides of a quote.
#[tactic(auto, unfolding(crate::specs::Columns::quote_text))]
pub fn push_quote(out: &mut Vec<u8>, best: Best) -> Result<(), NoMemory>
    ensures { OnOk result (out.new.items ≡ out.old.items ++ quote_text best) }
{
    out.extend_from_slice(b"bid ")?;
    push_quote_side(out, best.bid)?;
    out.extend_from_slice(b", offer ")?;
    push_quote_side(out, best.offer)
}

/// Appends shares, or a stroke for none.
#[tactic(auto, unfolding(crate::specs::Columns::shares_text))]
pub fn push_shares(out: &mut Vec<u8>, shares: u32) -> Result<(), NoMemory>
    ensures { OnOk result (out.new.items ≡ out.old.items ++ shares_text shares) }
{
    if shares == 0 {
        out.push(b'-')?;
        return Ok(());
    }
    push_number(out, u64::from(shares))
}
