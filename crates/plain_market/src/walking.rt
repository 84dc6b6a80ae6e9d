//! How a taker goes through the orders of the other side.
ghost use Rattle.std.specs.Prelude.{◌≡◌, ◌+◌, ◌≤◌, IfOk};
ghost use Rattle.eager_meaning.specs.Floor.{floor};
ghost use Rattle.eager_meaning.specs.Walk.{least_fill, may_fill, taken_from, walk, total_of, least_walk};

use eager_meaning::Take;
use std::alloc::{AllocError, Global};
use venue_words::{Method, Priced, Row};

/// The least number of shares that an order trades at once: the lesser of its minimum quantity and its
/// leaves, and 0 where it has no minimum, or where it had to be met once and the order has traded.
#[tactic(auto, unfolding(eager_meaning::specs::Floor::floor))]
pub fn floor(row: &Row) -> u32
    ensures { result ≡ floor row.now }
{
    match row.method {
        Method::Once if row.traded => 0,
        _ => row.minimum.min(row.leaves),
    }
}

/// The least that a taker with so many shares left takes from one contra.
fn least_fill(taker: &Row, left: u32) -> u32
    ensures { result ≡ least_fill taker.now left }
{
    match taker.method {
        Method::Once => 0,
        Method::Multiple => taker.minimum.min(left),
    }
}

/// The shares that a taker with `left` shares left may take from a contra whose price it crosses: as many as
/// both have, where that meets the contra's floor and what the taker needs of each trade. None exactly where
/// the contra is passed over.
#[tactic(auto, unfolding(eager_meaning::specs::Walk::may_fill))]
pub fn may_fill(taker: &Row, contra: &Row, left: u32) -> Option<u32>
    ensures { result ≡ may_fill taker.now contra.now left }
{
    let most = left.min(contra.leaves);
    if floor(contra) <= most && least_fill(taker, left) <= most {
        Some(most)
    } else {
        None
    }
}

/// The same, and 0 where the contra is passed over.
#[tactic(auto, unfolding(eager_meaning::specs::Walk::taken_from, eager_meaning::specs::Walk::may_fill))]
fn taken_from(taker: &Row, left: u32, contra: &Row) -> u32
    ensures value { result ≡ taken_from taker.now left contra.now }
    ensures within { result ≤ left }
{
    may_fill(taker, contra, left).unwrap_or(0)
}

/// A walk through the contras, which are active and in priority order, and the shares left behind it.
#[tactic(auto, unfolding(eager_meaning::specs::Walk::walk))]
pub fn walk(
    alloc: Global,
    taker: &Priced,
    contras: &[Priced],
) -> Result<(Vec<Take>, u32), AllocError>
    ensures takes { IfOk result (λ walked. walked.0.items ≡ walk taker.now taker.now.row.leaves contras.now) }
    ensures left { IfOk result (λ walked. total_of walked.0.items + walked.1 ≡ taker.now.row.leaves) }
{
    let mut left = taker.row.leaves;
    let mut takes = Vec::new(alloc);
    for contra in contras {
        if !taker.crosses(contra) || left == 0 {
            break;
        }
        let shares = taken_from(&taker.row, left, &contra.row);
        takes.push(Take {
            contra: *contra,
            shares,
        })?;
        left -= shares;
    }
    Ok((takes, left))
}

/// The least that a whole walk takes.
pub fn least_walk(taker: &Row) -> u32
    ensures { result ≡ least_walk taker.now }
{
    match taker.method {
        Method::Once => floor(taker),
        Method::Multiple => 0,
    }
}
