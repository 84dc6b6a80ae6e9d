//! How orders rest, in columns. Each call appends its text; after a refusal the text may hold a part of it.
ghost use Rattle.std.specs.Prelude.{◌≡◌, ◌++◌, OnOk};
ghost use Rattle.venue_words.specs.Peg.{has_reference, holds_when_locked};
ghost use Rattle.audit_columns.specs.Columns.{column, shares_text};
ghost use Rattle.audit_columns.specs.Resting.{depth_cells, missing_or, price_or_stroke, price_or_why, row_cells, why_inactive, why_no_price};

use crate::columns::{end_column, push_event_cells, push_number_column, push_shares};
use exec_reports::texts::push_price;
use fix_write::digits::push_number;
use std::alloc::Global;
use venue_words::{Best, Event, NoMemory, Priced, Reference};

/// Whether a reference is there on a locked quote.
fn holds_when_locked(reference: Reference) -> bool
    ensures { result ≡ holds_when_locked reference }
{
    match reference {
        Reference::Mid | Reference::Market => false,
        Reference::Primary | Reference::Limit => true,
    }
}

/// Whether a quote gives a reference a price.
fn has_reference(reference: Reference, best: Best) -> bool
    ensures { result ≡ has_reference reference best }
{
    best.is_regular() || best.is_locked() && holds_when_locked(reference)
}

/// Why a quote with both sides gives no price.
fn why_no_price(reference: Reference, best: Best) -> &'static [u8]
    ensures { result.now ≡ why_no_price reference best }
{
    if has_reference(reference, best) {
        return b"out of range";
    }
    if best.is_locked() {
        return b"locked quote";
    }
    b"crossed quote"
}

/// Which side of a quote is missing, or else this.
fn missing_or(bid: Option<u32>, offer: Option<u32>, other: &'static [u8]) -> &'static [u8]
    ensures { result.now ≡ missing_or bid offer other.now }
{
    match (bid, offer) {
        (None, None) => b"no quote",
        (None, Some(_)) => b"no bid",
        (Some(_), None) => b"no offer",
        (Some(_), Some(_)) => other,
    }
}

/// Why a row has no price under the national quote.
#[tactic(auto, unfolding(crate::specs::Resting::why_inactive))]
fn why_inactive(reference: Reference, best: Best) -> &'static [u8]
    ensures { result.now ≡ why_inactive reference best }
{
    missing_or(best.bid, best.offer, why_no_price(reference, best))
}

/// Appends the price of a row, or why it has none.
#[tactic(auto, unfolding(crate::specs::Resting::price_or_why))]
pub fn push_price_or_why(out: &mut Vec<u8>, best: Best, x: &Priced) -> Result<(), NoMemory>
    ensures { OnOk result (out.new.items ≡ out.old.items ++ price_or_why best x.now) }
{
    match x.price() {
        Some(price) => push_price(out, price),
        None => {
            out.extend_from_slice(why_inactive(x.row.key.reference, best))?;
            Ok(())
        }
    }
}

#[tactic(auto, using(crate::proofs::Padding::columned))]
fn push_price_column(
    out: &mut Vec<u8>,
    width: usize,
    best: Best,
    x: &Priced,
) -> Result<(), NoMemory>
    ensures { OnOk result (out.new.items ≡ out.old.items ++ column width (price_or_why best x.now)) }
{
    let start = out.len();
    push_price_or_why(out, best, x)?;
    end_column(out, start, width)
}

#[tactic(auto, using(crate::proofs::Padding::columned))]
fn push_shares_column(out: &mut Vec<u8>, width: usize, shares: u32) -> Result<(), NoMemory>
    ensures { OnOk result (out.new.items ≡ out.old.items ++ column width (shares_text shares)) }
{
    let start = out.len();
    push_shares(out, shares)?;
    end_column(out, start, width)
}

/// Appends the price of a row or why it has none, its time and its entry, its shares left and its minimum.
#[tactic(auto, unfolding(crate::specs::Resting::row_cells))]
pub fn push_row_cells(
    alloc: Global,
    out: &mut Vec<u8>,
    journal: &[Event],
    best: Best,
    x: &Priced,
) -> Result<(), NoMemory>
    ensures { OnOk result (out.new.items ≡ out.old.items ++ row_cells journal.now best x.now) }
{
    push_price_column(out, 14, best, x)?;
    push_event_cells(alloc, out, journal, x.time)?;
    push_event_cells(alloc, out, journal, x.row.entry)?;
    push_number_column(out, 10, u64::from(x.row.leaves))?;
    push_shares_column(out, 10, x.row.minimum)
}

/// Appends a price, or a stroke for none.
fn push_price_or_stroke(out: &mut Vec<u8>, price: Option<u32>) -> Result<(), NoMemory>
    ensures { OnOk result (out.new.items ≡ out.old.items ++ price_or_stroke price) }
{
    match price {
        Some(price) => push_price(out, price),
        None => {
            out.push(b'-')?;
            Ok(())
        }
    }
}

/// Appends the price of some orders, their shares, and how many they are.
#[tactic(auto, unfolding(crate::specs::Resting::depth_cells), using(crate::proofs::Padding::columned))]
pub fn push_depth_cells(
    out: &mut Vec<u8>,
    price: Option<u32>,
    shares: u64,
    orders: u32,
) -> Result<(), NoMemory>
    ensures { OnOk result (out.new.items ≡ out.old.items ++ depth_cells price shares orders) }
{
    let start = out.len();
    push_price_or_stroke(out, price)?;
    end_column(out, start, 14)?;
    push_number_column(out, 10, shares)?;
    push_number(out, u64::from(orders))
}
