//! What amounts say: shares, prices and offsets. An amount counts units of 10^-8.
ghost use Rattle.std.specs.Prelude.{◌≡◌, pos, negsuc, ◌*ℤ◌, ◌<◌, ◌≤ℤ◌};
ghost use Rattle.venue_words.specs.Conditions.{IsTick};
ghost use Rattle.eager_meaning.specs.Terms.{whole_quotient, within, quantity_in, price_in, offset_in, minimum_in};

/// A whole share or tick, as an amount.
pub const ONE_AMOUNT: i128 = 100_000_000;

/// A unit of price, which is 0.005, as an amount.
pub const UNIT_AMOUNT: i128 = 500_000;

/// How many times an amount has a part, where it is a whole number of times.
fn whole_quotient(part: i128, amount: i128) -> Option<i128>
    requires { pos 1 ≤ℤ part }
    ensures { result ≡ whole_quotient part amount }
{
    if amount % part == 0 {
        Some(amount / part)
    } else {
        None
    }
}

/// A number, where it is from low to high.
fn within(low: i128, high: i128, number: i128) -> Option<i128>
    ensures { result ≡ within low high number }
{
    if low <= number && number <= high {
        Some(number)
    } else {
        None
    }
}

/// A whole number of shares from 1 to 999,999,999.
#[tactic(auto, unfolding(crate::specs::Terms::quantity_in))]
pub fn quantity_in(amount: i128) -> Option<u32>
    ensures { result ≡ quantity_in amount }
{
    let shares = whole_quotient(ONE_AMOUNT, amount)?;
    let shares = within(1, 999_999_999, shares)?;
    Some(shares as u32)
}

/// A price in units, where it is a whole number of ticks from 0.01 to 19,999.99.
#[tactic(auto, unfolding(crate::specs::Terms::price_in))]
pub fn price_in(tick: u32, amount: i128) -> Option<u32>
    requires { 0 < tick }
    ensures { result ≡ price_in tick amount }
{
    let units = whole_quotient(UNIT_AMOUNT, amount)?;
    let units = within(2, 3_999_998, units)? as u32;
    if units % tick == 0 { Some(units) } else { None }
}

/// An offset in units from -200 to 200.
fn small_offset(units: i128) -> Option<i32>
    ensures { result ≡ within (negsuc 199) (pos 200) units }
{
    if -200 <= units && units <= 200 {
        Some(units as i32)
    } else {
        None
    }
}

/// A number of ticks as such an offset.
fn small_ticks(tick: u32, ticks: i128) -> Option<i32>
    requires { IsTick tick }
    ensures { result ≡ within (negsuc 199) (pos 200) (ticks *ℤ pos tick) }
{
    if ticks < -1000 || 1000 < ticks {
        None
    } else if tick == 2 {
        small_offset(ticks * 2)
    } else {
        small_offset(ticks * 10)
    }
}

/// An offset in units from -200 to 200: an amount of price, or by code 2 a number of ticks.
#[tactic(auto, unfolding(crate::specs::Terms::offset_in))]
pub fn offset_in(tick: u32, offset_kind: Option<u32>, amount: i128) -> Option<i32>
    requires { IsTick tick }
    ensures { result ≡ offset_in tick offset_kind amount }
{
    match offset_kind {
        Some(2) => match whole_quotient(ONE_AMOUNT, amount) {
            Some(ticks) => small_ticks(tick, ticks),
            None => None,
        },
        _ => match whole_quotient(UNIT_AMOUNT, amount) {
            Some(units) => small_offset(units),
            None => None,
        },
    }
}

/// A whole number of shares, at most so many.
#[tactic(auto, unfolding(crate::specs::Terms::minimum_in))]
pub fn minimum_in(quantity: u32, amount: i128) -> Option<u32>
    ensures { result ≡ minimum_in quantity amount }
{
    let shares = whole_quotient(ONE_AMOUNT, amount)?;
    let shares = within(0, 999_999_999, shares)? as u32;
    if shares <= quantity {
        Some(shares)
    } else {
        None
    }
}
