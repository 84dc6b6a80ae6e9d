//! The active rows of one side walk in turn.
ghost use Rattle.std.specs.Prelude.{◌≡◌, ℕ, ◌+◌, ◌*◌, ◌<◌, ◌≤◌, true, false, None, [], length, vec_len};
ghost use Rattle.std.specs.List.{AllByRecursion};
ghost use Rattle.venue_words.specs.Price.{values_cross};
ghost use Rattle.venue_words.specs.Priority.{in_priority};
ghost use Rattle.venue_words.specs.declared.row.Key.{Key};
ghost use Rattle.eager_meaning.specs.Recheck.{sweep};
ghost use Rattle.eager_meaning.specs.Work.{examined_in_sweep};
ghost use Rattle.peg_groups.specs.BestValue.{best_value};
ghost use Rattle.peg_groups.specs.Side.{Standing, standing_of, taken_row};
ghost use Rattle.match_core.specs.Aside.{HasLeaves, IsAlone};
ghost use Rattle.match_core.specs.Rooms.{IsClear, HasRoom, IsAsRoomy};
ghost use Rattle.match_core.specs.Sweeping.{IsStage, Turned, HasStageRoom, stage_of, sides_of, rest_of_work};

use crate::gathering::{row_of, values_cross};
use crate::scratch::Scratch;
use crate::settling::{give_back, trade};
use crate::walking::walk_in;
use peg_groups::SideBook;
use std::sync::ledger::Ledger;
use venue_words::Steps;

/// Whether the first active rows of two sides cross, with every row left where it is. The other side isn't looked at
/// where no row of the own one is active.
fn sides_cross<S: SideBook, L: Ledger>(own: &S, other: &S, steps: &mut Steps<L>) -> bool
    ensures crossed { result
        ≡ values_cross (best_value (S.state own.now).rows) (best_value (S.state other.now).rows) }
    ensures most { steps.new ≤ steps.old + S.width own.now + S.width other.now }
    ensures most_idle { best_value (S.state own.now).rows ≡ None → steps.new ≤ steps.old + S.width own.now }
{
    match own.best_value(steps) {
        None => false,
        Some(value) => values_cross(Some(value), other.best_value(steps)),
    }
}

/// The first active row of a side walks through the other one, and is set aside. Answers whether the sweep goes on:
/// it ends where no row crosses one of the other side, and at a taker that goes through no contra.
fn next_taker<S: SideBook, L: Ledger>(
    own: &mut S,
    other: &mut S,
    scratch: &mut Scratch,
    steps: &mut Steps<L>,
) -> bool
    requires stage { IsStage (stage_of (S.state own.old).rows (S.state other.old).rows scratch.old) }
    requires alone { AllByRecursion IsAlone scratch.old.tried.items }
    requires out_fit { AllByRecursion (λ taken. S.fits own.old (standing_of (taken_row taken))) scratch.old.tried.items }
    requires empty { scratch.old.aside.items ≡ [] }
    requires room { HasStageRoom (S.state own.old).rows (S.state other.old).rows scratch.old }
    ensures turned { Turned result
        (stage_of (S.state own.old).rows (S.state other.old).rows scratch.old)
        (stage_of (S.state own.new).rows (S.state other.new).rows scratch.new) }
    ensures alone { AllByRecursion IsAlone scratch.new.tried.items }
    ensures out_fit { AllByRecursion (λ taken. S.fits own.new (standing_of (taken_row taken))) scratch.new.tried.items }
    ensures empty { scratch.new.aside.items ≡ [] }
    ensures room { HasStageRoom (S.state own.new).rows (S.state other.new).rows scratch.new }
    ensures capacity { IsAsRoomy scratch.old scratch.new }
    ensures best { (S.state own.new).best ≡ (S.state own.old).best }
    ensures event { (S.state own.new).event ≡ (S.state own.old).event }
    ensures fits { (standing : Standing) → S.fits own.old standing → S.fits own.new standing }
    ensures rows { (key : Key) → S.row_room own.old key → S.row_room own.new key }
    ensures moves { S.move_room own.old → S.move_room own.new }
    ensures width { S.width own.new ≡ S.width own.old }
    ensures other_best { (S.state other.new).best ≡ (S.state other.old).best }
    ensures other_event { (S.state other.new).event ≡ (S.state other.old).event }
    ensures other_fits { (standing : Standing) → S.fits other.old standing → S.fits other.new standing }
    ensures other_rows { (key : Key) → S.row_room other.old key → S.row_room other.new key }
    ensures other_moves { S.move_room other.old → S.move_room other.new }
    ensures other_width { S.width other.new ≡ S.width other.old }

    // To put a taker back is counted with its turn.
    ensures most { result ≡ true → steps.new + 512 * vec_len scratch.new.tried
        + 1536 * (S.width own.old + S.width other.old + 2) * rest_of_work
        (stage_of (S.state own.new).rows (S.state other.new).rows scratch.new)
        ≤ steps.old + 512 * vec_len scratch.old.tried
        + 1536 * (S.width own.old + S.width other.old + 2) * rest_of_work
        (stage_of (S.state own.old).rows (S.state other.old).rows scratch.old) }
    ensures most_done { result ≡ false → steps.new + 512 * vec_len scratch.new.tried
        ≤ steps.old + 512 * vec_len scratch.old.tried
        + 1536 * (S.width own.old + S.width other.old + 2) * rest_of_work
        (stage_of (S.state own.old).rows (S.state other.old).rows scratch.old)
        + 1024 * (S.width own.old + 1) }
{
    if !sides_cross(own, other, steps) {
        return false;
    }
    match own.take_best(steps) {
        None => false,
        Some(taken) => {
            let t = row_of(&taken);
            let walked = walk_in(&t, other, &mut scratch.aside, &mut scratch.fills, steps);
            scratch.tried.push_reserved(trade(taken, walked.shares));
            walked.crossed
        }
    }
}

/// The active rows of a side, in their priority as the sweep begins, each walk once through the other side, until one
/// goes through no contra. None of them walks twice, since each is set aside until all have walked.
pub fn sweep<S: SideBook, L: Ledger>(
    own: &mut S,
    other: &mut S,
    scratch: &mut Scratch,
    steps: &mut Steps<L>,
)
    requires own_full { AllByRecursion HasLeaves (S.state own.old).rows }
    requires other_full { AllByRecursion HasLeaves (S.state other.old).rows }
    requires clear { IsClear scratch.old }
    requires room { HasRoom (length (S.state own.old).rows + length (S.state other.old).rows) scratch.old }
    ensures swept { sides_of (S.state own.new).rows (S.state other.new).rows scratch.new
        ≡ sweep (in_priority (S.state own.old).rows)
        (sides_of (S.state own.old).rows (S.state other.old).rows scratch.old) }
    ensures few { length scratch.new.fills.items + (length (S.state own.new).rows + length (S.state other.new).rows)
        ≤ length scratch.old.fills.items + (length (S.state own.old).rows + length (S.state other.old).rows) }
    ensures more { length scratch.old.fills.items ≤ length scratch.new.fills.items }
    ensures own_full { AllByRecursion HasLeaves (S.state own.new).rows }
    ensures other_full { AllByRecursion HasLeaves (S.state other.new).rows }
    ensures clear { IsClear scratch.new }
    ensures capacity { IsAsRoomy scratch.old scratch.new }
    ensures best { (S.state own.new).best ≡ (S.state own.old).best }
    ensures event { (S.state own.new).event ≡ (S.state own.old).event }
    ensures fits { (standing : Standing) → S.fits own.old standing → S.fits own.new standing }
    ensures rows { (key : Key) → S.row_room own.old key → S.row_room own.new key }
    ensures moves { S.move_room own.old → S.move_room own.new }
    ensures width { S.width own.new ≡ S.width own.old }
    ensures other_best { (S.state other.new).best ≡ (S.state other.old).best }
    ensures other_event { (S.state other.new).event ≡ (S.state other.old).event }
    ensures other_fits { (standing : Standing) → S.fits other.old standing → S.fits other.new standing }
    ensures other_rows { (key : Key) → S.row_room other.old key → S.row_room other.new key }
    ensures other_moves { S.move_room other.old → S.move_room other.new }
    ensures other_width { S.width other.new ≡ S.width other.old }
    ensures most { steps.new ≤ steps.old + 1536 * (S.width own.old + S.width other.old + 2) * examined_in_sweep
        (in_priority (S.state own.old).rows) (sides_of (S.state own.old).rows (S.state other.old).rows scratch.old)
        + 1024 * (S.width own.old + 1) }
{
    while next_taker(own, other, scratch, steps) {}
    scratch.tried.reverse();
    give_back(own, &mut scratch.tried, steps);
}
