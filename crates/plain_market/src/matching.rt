//! The trades of one taker, and what they leave of the rows.
ghost use Rattle.std.specs.Prelude.{◌≡◌, IfOk, filter, nat_lt};
ghost use Rattle.eager_meaning.specs.Walk.{total_of};
ghost use Rattle.eager_meaning.specs.Matching.{takes_of, fill_price, party_of, fill_of, fills_of, row_after, shares_of, rows_after};

use crate::priority::in_priority;
use crate::walking::{least_walk, walk};
use eager_meaning::{Fill, Party, Take};
use std::alloc::{AllocError, Global};
use venue_words::{Priced, Row};

/// A row after it traded a number of shares.
#[tactic(auto, unfolding(eager_meaning::specs::Matching::row_after))]
pub fn row_after(shares: u32, x: Priced) -> Priced
    ensures { result ≡ row_after shares x }
{
    Priced {
        row: Row {
            leaves: x.row.leaves.saturating_sub(shares),
            traded: x.row.traded || 0 < shares,
            ..x.row
        },
        value: x.value,
        time: x.time,
    }
}

/// The shares taken from a row, which its entry names.
#[tactic(auto, unfolding(eager_meaning::specs::Matching::shares_of))]
fn shares_of(takes: &[Take], x: &Priced) -> u32
    ensures { result ≡ shares_of takes.now x.now }
{
    for take in takes {
        if take.contra.row.entry == x.row.entry {
            return take.shares;
        }
    }
    0
}

/// The rows that have shares left after the trades, each in its place.
#[tactic(auto, unfolding(eager_meaning::specs::Matching::rows_after))]
pub fn rows_after(alloc: Global, takes: &[Take], rows: &[Priced]) -> Result<Vec<Priced>, AllocError>
    ensures { IfOk result (λ after. after.items ≡ rows_after takes.now rows.now) }
{
    rows.iter()
        .map(|x| row_after(shares_of(takes, x), *x))
        .filter(|x| 0 < x.row.leaves)
        .collect(alloc)
}

/// The price of the older of the two.
#[tactic(auto, unfolding(eager_meaning::specs::Matching::fill_price))]
fn fill_price(taker: &Priced, contra: &Priced) -> u32
    ensures { result ≡ fill_price taker.now contra.now }
{
    let older = if taker.is_older(contra) {
        taker
    } else {
        contra
    };
    older.price().unwrap_or(0)
}

/// A row as a party of a trade.
fn party_of(x: &Priced) -> Party
    ensures { result ≡ party_of x.now }
{
    Party {
        order: x.row.order,
        price: x.price(),
        time: x.time,
    }
}

/// The trade of a taker with a contra.
fn fill_of(taker: &Priced, take: &Take) -> Fill
    ensures { result ≡ fill_of taker.now take.now }
{
    Fill {
        taker: party_of(taker),
        contra: party_of(&take.contra),
        quantity: take.shares,
        price: fill_price(taker, &take.contra),
    }
}

/// The trades, in their order.
#[tactic(auto, unfolding(eager_meaning::specs::Matching::fills_of))]
pub fn fills_of(alloc: Global, taker: &Priced, takes: &[Take]) -> Result<Vec<Fill>, AllocError>
    ensures { IfOk result (λ fills. fills.items ≡ fills_of taker.now takes.now) }
{
    takes.iter().map(|take| fill_of(taker, take)).collect(alloc)
}

/// The takes of at least one share.
fn trading(alloc: Global, takes: &[Take]) -> Result<Vec<Take>, AllocError>
    ensures kept { IfOk result (λ kept. kept.items ≡ filter (λ take. nat_lt 0 take.shares) takes.now) }
    ensures total { IfOk result (λ kept. total_of kept.items ≡ total_of takes.now) }
{
    let mut kept = Vec::new(alloc);
    for take in takes {
        if 0 < take.shares {
            kept.push(*take)?;
        }
    }
    Ok(kept)
}

/// The contras that trade with their shares, in priority order, and the sum of these.
#[tactic(auto, unfolding(eager_meaning::specs::Matching::takes_of, eager_meaning::specs::Walk::stands))]
pub fn takes_of(
    alloc: Global,
    taker: &Priced,
    others: &[Priced],
) -> Result<(Vec<Take>, u32), AllocError>
    ensures takes { IfOk result (λ found. found.0.items ≡ takes_of taker.now others.now) }
    ensures total { IfOk result (λ found. found.1 ≡ total_of (takes_of taker.now others.now)) }
{
    let contras = in_priority(alloc, others)?;
    let (walked, left) = walk(alloc, taker, &contras)?;
    let total = taker.row.leaves - left;
    if 0 < total && least_walk(&taker.row) <= total {
        Ok((trading(alloc, &walked)?, total))
    } else {
        Ok((Vec::new(alloc), 0))
    }
}
