//! The contras that a taker goes through are set aside.
ghost use Rattle.std.specs.Prelude.{◌≡◌, ℕ, ◌+◌, ◌*◌, ◌<◌, ◌≤◌, [], length, false, Some, None, IfSome, IsNone, vec_len};
ghost use Rattle.venue_words.specs.Price.{values_cross};
ghost use Rattle.std.specs.List.{AllByRecursion};
ghost use Rattle.std.specs.Vec.{vec_capacity};
ghost use Rattle.venue_words.specs.Priority.{in_priority};
ghost use Rattle.venue_words.specs.Rows.{IsByEntry};
ghost use Rattle.venue_words.specs.declared.row.Key.{Key};
ghost use Rattle.eager_meaning.specs.Recheck.{crosses_any};
ghost use Rattle.eager_meaning.specs.Walk.{walk, taken_from};
ghost use Rattle.peg_groups.specs.Side.{Standing, standing_of, taken_row};
ghost use Rattle.match_core.specs.Aside.{taken_rows, IsAlone, Gathered, IsNext, NoNext};

use min_quantity::may_fill;
use peg_groups::{SideBook, Taken};
use std::sync::ledger::Ledger;
use venue_words::{PRICE_END, Priced, Row, Steps};

/// A row that is out of its side, with its value and time.
pub fn row_of(taken: &Taken) -> Priced
    ensures { result ≡ taken_row taken.now }
{
    Priced {
        row: taken.node.row,
        value: taken.value,
        time: taken.time,
    }
}

/// Whether rows of opposite sides with these values cross.
pub fn values_cross(value: Option<u32>, other: Option<u32>) -> bool
    ensures { result ≡ values_cross value other }
{
    match (value, other) {
        (Some(value), Some(other)) => u64::from(PRICE_END) <= u64::from(value) + u64::from(other),
        _ => false,
    }
}

/// Takes the first active row of a side out, where it crosses the taker. No row is moved where none crosses.
pub fn next_contra<S: SideBook, L: Ledger>(
    t: &Priced,
    other: &mut S,
    steps: &mut Steps<L>,
) -> Option<Taken>
    ensures by_entry { IsByEntry (S.state other.old).rows }
    ensures next { IfSome result (λ taken.
        IsNext t.now (taken_row taken) (S.state other.old).rows (S.state other.new).rows) }
    ensures best { (S.state other.new).best ≡ (S.state other.old).best }
    ensures event { (S.state other.new).event ≡ (S.state other.old).event }
    ensures none { IsNone result → NoNext t.now (S.state other.old).rows }
    ensures blocked { IsNone result → crosses_any t.now (S.state other.old).rows ≡ false }
    ensures same { IsNone result → S.state other.new ≡ S.state other.old }
    ensures alone { IfSome result IsAlone }
    ensures taken_fits { IfSome result (λ taken. S.fits other.new (standing_of (taken_row taken))) }
    ensures fits { (standing : Standing) → S.fits other.old standing → S.fits other.new standing }
    ensures rows { (key : Key) → S.row_room other.old key → S.row_room other.new key }
    ensures moves { S.move_room other.old → S.move_room other.new }
    ensures width { S.width other.new ≡ S.width other.old }
    ensures most_none { IsNone result → steps.new ≤ steps.old + S.width other.old }
    ensures most_next { IfSome result (λ _. steps.new ≤ steps.old + 1024 * (S.width other.old + 1)) }
{
    if !values_cross(t.value, other.best_value(steps)) {
        return None;
    }
    other.take_best(steps)
}

/// The shares that a taker with shares left takes from a row that is out of its side.
#[tactic(auto, unfolding(eager_meaning::specs::Walk::taken_from))]
pub fn taken_shares(row: &Row, left: u32, taken: &Taken) -> u32
    ensures value { result ≡ taken_from row.now left taken.now.node.value.row }
    ensures within { result ≤ left }
    ensures contra { result ≤ taken.now.node.value.row.leaves }
{
    let contra = taken.node.row;
    may_fill(row, &contra, left).unwrap_or(0)
}

/// Sets aside the contras that a taker goes through, and tells the shares that are left of it.
pub fn gather<S: SideBook, L: Ledger>(
    t: &Priced,
    other: &mut S,
    aside: &mut Vec<Taken>,
    steps: &mut Steps<L>,
) -> u32
    requires leaves { 0 < t.now.row.leaves }
    requires empty { aside.old.items ≡ [] }
    requires room { vec_len aside.old + length (S.state other.old).rows ≤ vec_capacity aside.old }
    ensures gathered { Gathered t.now (S.state other.old).rows (S.state other.new).rows
        (taken_rows aside.new.items) result }
    ensures by_entry { IsByEntry (S.state other.new).rows }
    ensures walked { walk t.now t.now.row.leaves (in_priority (S.state other.old).rows)
        ≡ walk t.now t.now.row.leaves (taken_rows aside.new.items) }
    ensures blocked { aside.new.items ≡ [] → crosses_any t.now (S.state other.old).rows ≡ false }
    ensures best { (S.state other.new).best ≡ (S.state other.old).best }
    ensures event { (S.state other.new).event ≡ (S.state other.old).event }
    ensures alone { AllByRecursion IsAlone aside.new.items }
    ensures out_fit { AllByRecursion (λ taken. S.fits other.new (standing_of (taken_row taken))) aside.new.items }
    ensures fits { (standing : Standing) → S.fits other.old standing → S.fits other.new standing }
    ensures rows { (key : Key) → S.row_room other.old key → S.row_room other.new key }
    ensures moves { S.move_room other.old → S.move_room other.new }
    ensures width { S.width other.new ≡ S.width other.old }
    ensures capacity { vec_capacity aside.new ≡ vec_capacity aside.old }
    ensures most { steps.new ≤ steps.old + 1024 * (S.width other.old + 1) * length aside.new.items
        + S.width other.old }
{
    let mut left = t.row.leaves;
    while left > 0 {
        match next_contra(t, other, steps) {
            None => return left,
            Some(taken) => {
                let shares = taken_shares(&t.row, left, &taken);
                aside.push_reserved(taken);
                left -= shares;
            }
        }
    }
    left
}
