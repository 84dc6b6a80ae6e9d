//! A taker walks through a side.
ghost use Rattle.std.specs.Prelude.{◌≡◌, ℕ, ◌+◌, ◌-◌, ◌*◌, ◌<◌, ◌≤◌, ◌&&◌, nat_lt, nat_le, false, [], ◌++◌, length, vec_len};
ghost use Rattle.std.specs.List.{AllByRecursion};
ghost use Rattle.std.specs.Vec.{vec_capacity};
ghost use Rattle.venue_words.specs.Priority.{in_priority};
ghost use Rattle.venue_words.specs.declared.row.Key.{Key};
ghost use Rattle.eager_meaning.specs.Matching.{takes_of, fills_of, rows_after};
ghost use Rattle.eager_meaning.specs.Recheck.{crosses_any};
ghost use Rattle.eager_meaning.specs.Walk.{total_of, least_walk};
ghost use Rattle.eager_meaning.specs.Work.{examined_by};
ghost use Rattle.peg_groups.specs.Side.{Standing};
ghost use Rattle.match_core.specs.Aside.{HasLeaves};
ghost use Rattle.match_core.specs.Sweeping.{one_if_left};

use crate::gathering::gather;
use crate::settling::{give_back, settle};
use eager_meaning::Fill;
use min_quantity::floor;
use peg_groups::{SideBook, Taken};
use std::sync::ledger::Ledger;
use venue_words::{Method, Priced, Row, Steps};

/// What came of a walk.
#[derive(Clone, Copy, Debug, PartialEq, Eq)]
pub struct Walked {
    /// Whether the taker went through a contra.
    pub crossed: bool,
    /// The shares that it traded.
    pub shares: u32,
}

/// The least that a whole walk takes: the floor of a taker whose minimum has to be met once.
fn least_walk(taker: &Row) -> u32
    ensures { result ≡ least_walk taker.now }
{
    match taker.method {
        Method::Once => floor(taker),
        Method::Multiple => 0,
    }
}

/// Whether a walk that takes so many shares stands.
fn does_stand(row: &Row, total: u32) -> bool
    ensures { result ≡ (nat_lt 0 total && nat_le (least_walk row.now) total) }
{
    0 < total && least_walk(row) <= total
}

/// A taker that isn't in its side walks through the other one. The contras that it goes through are set aside first
/// and nothing is changed, so a walk that doesn't stand needs no undoing.
pub fn walk_in<S: SideBook, L: Ledger>(
    t: &Priced,
    other: &mut S,
    aside: &mut Vec<Taken>,
    fills: &mut Vec<Fill>,
    steps: &mut Steps<L>,
) -> Walked
    requires leaves { 0 < t.now.row.leaves }
    requires full { AllByRecursion HasLeaves (S.state other.old).rows }
    requires empty { aside.old.items ≡ [] }
    requires room { length (S.state other.old).rows ≤ vec_capacity aside.old }
    requires fills_room { vec_len fills.old + length (S.state other.old).rows ≤ vec_capacity fills.old }
    ensures put { (S.state other.new).rows
        ≡ rows_after (takes_of t.now (S.state other.old).rows) (S.state other.old).rows }
    ensures filled { fills.new.items ≡ fills.old.items ++ fills_of t.now (takes_of t.now (S.state other.old).rows) }
    ensures total { result.shares ≡ total_of (takes_of t.now (S.state other.old).rows) }
    ensures within { result.shares ≤ t.now.row.leaves }
    ensures crossed { result.crossed ≡ crosses_any t.now (S.state other.old).rows }
    ensures idle { result.crossed ≡ false → takes_of t.now (S.state other.old).rows ≡ [] }

    // Each trade empties a contra, or the taker.
    ensures few { length fills.new.items
        + (length (S.state other.new).rows + one_if_left (t.now.row.leaves - result.shares))
        ≤ length fills.old.items + (length (S.state other.old).rows + 1) }

    // What stays.
    ensures empty { aside.new.items ≡ [] }
    ensures best { (S.state other.new).best ≡ (S.state other.old).best }
    ensures event { (S.state other.new).event ≡ (S.state other.old).event }
    ensures fits { (standing : Standing) → S.fits other.old standing → S.fits other.new standing }
    ensures rows { (key : Key) → S.row_room other.old key → S.row_room other.new key }
    ensures moves { S.move_room other.old → S.move_room other.new }
    ensures width { S.width other.new ≡ S.width other.old }
    ensures capacity { vec_capacity aside.new ≡ vec_capacity aside.old }
    ensures fills_capacity { vec_capacity fills.new ≡ vec_capacity fills.old }

    // One look at the other side is left over.
    ensures most { steps.new + S.width other.old
        ≤ steps.old + 1536 * (S.width other.old + 1) * examined_by t.now (S.state other.old).rows }
{
    let left = gather(t, other, aside, steps);
    let total = t.row.leaves - left;
    let crossed = !aside.is_empty();
    aside.reverse();
    if does_stand(&t.row, total) {
        settle(t, other, aside, fills, steps);
        Walked {
            crossed,
            shares: total,
        }
    } else {
        give_back(other, aside, steps);
        Walked { crossed, shares: 0 }
    }
}
