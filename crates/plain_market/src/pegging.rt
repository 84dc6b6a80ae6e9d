//! The national quote, and the price that it gives to an order.
ghost use Rattle.std.specs.Prelude.{◌≡◌, ◌≤◌, min, max, IfOk};
ghost use Rattle.venue_words.specs.Best.{IsNationalBest, best_of, either_by};
ghost use Rattle.venue_words.specs.Peg.{cents_value, near_value, far_value, has_reference, reference_value, shifted, rounded, in_range, peg_value, row_value, value_under};
ghost use Rattle.venue_words.specs.Retime.{retime, reprice};

use std::alloc::{AllocError, Global};
use venue_words::{Best, Key, PRICE_END, Priced, Reference, Rounding, Row, Side};

/// The value of a price in cents.
fn cents_value(side: Side, cents: Option<u32>) -> u64
    ensures { result ≡ cents_value side cents }
{
    let units = 2 * u64::from(cents.unwrap_or(0));
    match side {
        Side::Buy => units,
        Side::Sell => u64::from(PRICE_END).saturating_sub(units),
    }
}

/// Whether the quote gives the reference a price.
fn has_reference(reference: Reference, best: Best) -> bool
    ensures { result ≡ has_reference reference best }
{
    best.is_regular()
        || best.is_locked() && matches!(reference, Reference::Primary | Reference::Limit)
}

/// The offset is added for a buy and subtracted for a sell.
fn shifted(side: Side, offset: i32, value: u64) -> u64
    requires { value ≤ 8589934590 }
    ensures { result ≡ shifted side offset value }
{
    let size = u64::from(offset.unsigned_abs());
    match side {
        Side::Buy => if offset < 0 {
            value.saturating_sub(size)
        } else {
            value + size
        },
        Side::Sell => if offset < 0 {
            value + size
        } else {
            value.saturating_sub(size)
        },
    }
}

/// A neighbouring whole number of ticks, where the value isn't one itself.
fn rounded(rounding: Rounding, grid: u32, value: u64) -> u64
    requires { value ≤ 20000000000 }
    ensures { result ≡ rounded rounding grid value }
{
    let grid = u64::from(grid);
    if grid == 0 {
        return match rounding {
            Rounding::Unrounded => value,
            _ => 0,
        };
    }
    match rounding {
        Rounding::Unrounded => value,
        Rounding::Aggressive => (value + (grid - 1)) / grid * grid,
        Rounding::Passive => value / grid * grid,
    }
}

/// The value, where it is that of a price.
fn in_range(value: u64) -> Option<u32>
    ensures { result ≡ in_range value }
{
    if 1 <= value && value < u64::from(PRICE_END) {
        Some(value as u32)
    } else {
        None
    }
}

/// The value of the national price of the other side.
fn far_value(side: Side, best: Best) -> u64
    ensures value { result ≡ far_value side best }
    ensures small { result ≤ 8589934590 }
{
    match side {
        Side::Buy => cents_value(Side::Buy, best.offer),
        Side::Sell => cents_value(Side::Sell, best.bid),
    }
}

/// The value of the national price of the order's own side.
fn near_value(side: Side, best: Best) -> u64
    ensures value { result ≡ near_value side best }
    ensures small { result ≤ 8589934590 }
{
    match side {
        Side::Buy => cents_value(Side::Buy, best.bid),
        Side::Sell => cents_value(Side::Sell, best.offer),
    }
}

/// The price that the peg follows, as a value.
fn reference_value(reference: Reference, near: u64, far: u64) -> u64
    requires near { near ≤ 8589934590 }
    requires far { far ≤ 8589934590 }
    ensures value { result ≡ reference_value reference near far }
    ensures small { result ≤ 8589934590 }
{
    match reference {
        Reference::Mid => (near + far) / 2,
        Reference::Primary => near,
        Reference::Market | Reference::Limit => far,
    }
}

/// The value of the price that the national quote gives to a key, before any limit; none where orders of
/// this key are inactive.
#[tactic(auto, unfolding(venue_words::specs::Peg::peg_value))]
pub fn peg_value(key: Key, best: Best) -> Option<u32>
    ensures { result ≡ peg_value key best }
{
    let near = near_value(key.side, best);
    let far = far_value(key.side, best);
    let target = shifted(
        key.side,
        key.offset,
        reference_value(key.reference, near, far),
    );
    let value = rounded(key.rounding, key.grid, target).min(far);
    if has_reference(key.reference, best) {
        in_range(value)
    } else {
        None
    }
}

/// A peg's value, held back by the value of the order's limit (`PRICE_END` where it has none).
pub fn row_value(peg: Option<u32>, cap: u32) -> Option<u32>
    ensures { result ≡ row_value peg cap }
{
    peg.map(|value| value.min(cap))
}

/// The value of a row under a national quote, or none where the order is inactive.
#[tactic(auto, unfolding(venue_words::specs::Peg::value_under))]
pub fn value_under(best: Best, row: Row) -> Option<u32>
    ensures { result ≡ value_under best row }
{
    row_value(peg_value(row.key, best), row.cap)
}

/// A row under a new national quote. Where its value changes, its time is the event's number.
#[tactic(auto, unfolding(venue_words::specs::Retime::retime))]
fn retime(event: u32, best: Best, x: Priced) -> Priced
    ensures { result ≡ retime event best x }
{
    let value = value_under(best, x.row);
    if value == x.value {
        x
    } else {
        Priced {
            row: x.row,
            value,
            time: event,
        }
    }
}

/// Each row under a new national quote.
#[tactic(auto, unfolding(venue_words::specs::Retime::reprice))]
pub fn reprice(
    alloc: Global,
    event: u32,
    best: Best,
    rows: &[Priced],
) -> Result<Vec<Priced>, AllocError>
    ensures { IfOk result (λ repriced. repriced.items ≡ reprice event best rows.now) }
{
    rows.iter().map(|x| retime(event, best, *x)).collect(alloc)
}

/// The greater of two that may be there.
fn greater(x: Option<u32>, y: Option<u32>) -> Option<u32>
    ensures { result ≡ either_by max x y }
{
    match (x, y) {
        (None, y) => y,
        (x, None) => x,
        (Some(x), Some(y)) => Some(x.max(y)),
    }
}

/// The lesser of two that may be there.
fn lesser(x: Option<u32>, y: Option<u32>) -> Option<u32>
    ensures { result ≡ either_by min x y }
{
    match (x, y) {
        (None, y) => y,
        (x, None) => x,
        (Some(x), Some(y)) => Some(x.min(y)),
    }
}

/// The national quote of the markets' quotes: the greatest bid and the least offer.
#[tactic(auto, unfolding(venue_words::specs::Best::best_of))]
pub fn best_of(rows: &[Best]) -> Best
    ensures { result ≡ best_of rows.now }
{
    let mut best = Best {
        bid: None,
        offer: None,
    };
    for row in rows {
        best = Best {
            bid: greater(best.bid, row.bid),
            offer: lesser(best.offer, row.offer),
        };
    }
    best
}

/// The same, said without a way to find it: a bid of some market that is at least every bid, and an offer
/// of some market that is at most every offer.
pub fn national(rows: &[Best]) -> Best
    ensures { IsNationalBest rows.now result }
{
    best_of(rows)
}
