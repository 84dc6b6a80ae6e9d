//! Peg prices, as values: of two prices of one side the more aggressive one has the greater value.
ghost use Rattle.std.specs.Prelude.{◌≡◌, ◌≤◌};
ghost use Rattle.venue_words.specs.Conditions.{IsTick};
ghost use Rattle.venue_words.specs.Peg.{cents_value, near_value, far_value, has_reference, reference_value, shifted, rounded, in_range, peg_value, row_value};

use venue_words::{Best, Key, PRICE_END, Reference, Rounding, Side};

/// The value of a price in cents, which are 2 units each.
fn cents_value(side: Side, cents: Option<u32>) -> u64
    ensures value { result ≡ cents_value side cents }
    ensures bound { result ≤ 8_589_934_590 }
{
    let units = 2 * u64::from(cents.unwrap_or(0));
    match side {
        Side::Buy => units,
        Side::Sell => u64::from(PRICE_END).saturating_sub(units),
    }
}

/// The value of the national price of the order's own side.
fn near_value(side: Side, best: Best) -> u64
    ensures value { result ≡ near_value side best }
    ensures bound { result ≤ 8_589_934_590 }
{
    match side {
        Side::Buy => cents_value(Side::Buy, best.bid),
        Side::Sell => cents_value(Side::Sell, best.offer),
    }
}

/// The value of the national price of the other side.
fn far_value(side: Side, best: Best) -> u64
    ensures value { result ≡ far_value side best }
    ensures bound { result ≤ 8_589_934_590 }
{
    match side {
        Side::Buy => cents_value(Side::Buy, best.offer),
        Side::Sell => cents_value(Side::Sell, best.bid),
    }
}

/// Whether the quote gives the reference a price: a regular one to each, a locked one to some.
fn has_reference(reference: Reference, best: Best) -> bool
    ensures { result ≡ has_reference reference best }
{
    let holds_when_locked = match reference {
        Reference::Primary | Reference::Limit => true,
        Reference::Mid | Reference::Market => false,
    };
    best.is_regular() || best.is_locked() && holds_when_locked
}

/// The value that the peg starts from.
fn reference_value(reference: Reference, near: u64, far: u64) -> u64
    requires near { near ≤ 8_589_934_590 }
    requires far { far ≤ 8_589_934_590 }
    ensures value { result ≡ reference_value reference near far }
    ensures bound { result ≤ 8_589_934_590 }
{
    match reference {
        Reference::Mid => (near + far) / 2,
        Reference::Primary => near,
        Reference::Market | Reference::Limit => far,
    }
}

/// The value with the offset added to its price. A value below 0 is none, and 0 stands for it.
fn shifted(side: Side, offset: i32, value: u64) -> u64
    requires { value ≤ 8_589_934_590 }
    ensures value { result ≡ shifted side offset value }
    ensures bound { result ≤ 12_884_901_890 }
{
    let size = u64::from(offset.unsigned_abs());
    let is_more_aggressive = match side {
        Side::Buy => offset >= 0,
        Side::Sell => offset < 0,
    };
    if is_more_aggressive {
        value + size
    } else {
        value.saturating_sub(size)
    }
}

/// The value as a whole number of ticks, where the key rounds.
fn rounded(rounding: Rounding, grid: u32, value: u64) -> u64
    requires grid { IsTick grid }
    requires small { value ≤ 12_884_901_890 }
    ensures { result ≡ rounded rounding grid value }
{
    let grid = u64::from(grid);
    match rounding {
        Rounding::Unrounded => value,
        Rounding::Aggressive => (value + (grid - 1)) / grid * grid,
        Rounding::Passive => value / grid * grid,
    }
}

fn in_range(value: u64) -> Option<u32>
    ensures { result ≡ in_range value }
{
    if 1 <= value && value < u64::from(PRICE_END) {
        Some(value as u32)
    } else {
        None
    }
}

/// The value of a key's peg price under a national quote, in units of 0.005; none where the quote gives the
/// reference no price, or where the result is no price. The order's limit is not yet looked at.
#[tactic(auto, unfolding(venue_words::specs::Peg::peg_value))]
pub fn peg_value(key: Key, best: Best) -> Option<u32>
    requires { IsTick key.grid }
    ensures { result ≡ peg_value key best }
{
    let near = near_value(key.side, best);
    let far = far_value(key.side, best);
    let reference = reference_value(key.reference, near, far);
    let target = shifted(key.side, key.offset, reference);
    let value = rounded(key.rounding, key.grid, target).min(far);
    if has_reference(key.reference, best) {
        in_range(value)
    } else {
        None
    }
}

/// The value of an order's price: that of its peg, held back by the value `cap` of its limit. `cap` is `PRICE_END`
/// where the order has no limit.
pub fn row_value(peg: Option<u32>, cap: u32) -> Option<u32>
    ensures { result ≡ row_value peg cap }
{
    peg.map(|value| value.min(cap))
}
