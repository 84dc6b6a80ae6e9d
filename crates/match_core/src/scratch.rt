//! Room for trades and for rows that are set aside, and the walk of a taker over it.
ghost use Rattle.std.specs.Prelude.{◌≡◌, ℕ, ◌+◌, ◌*◌, ◌<◌, ◌≤◌, [], ◌++◌, length, OnOk};
ghost use Rattle.std.specs.List.{AllByRecursion};
ghost use Rattle.venue_words.specs.declared.row.Key.{Key};
ghost use Rattle.eager_meaning.specs.Walk.{total_of};
ghost use Rattle.eager_meaning.specs.Matching.{takes_of, fills_of, row_after, rows_after};
ghost use Rattle.eager_meaning.specs.Work.{examined_by};
ghost use Rattle.peg_groups.specs.Side.{Standing, taken_row};
ghost use Rattle.match_core.specs.Aside.{HasLeaves, IsAlone};
ghost use Rattle.match_core.specs.Rooms.{IsClear, HasRoom, IsAsRoomy};

use crate::gathering::row_of;
use crate::settling::lower;
use crate::walking::walk_in;
use eager_meaning::Fill;
use peg_groups::{SideBook, Taken};
use std::alloc::Global;
use std::sync::ledger::Ledger;
use venue_words::{NoMemory, Steps};

/// Room for trades and for rows that are set aside. It is kept from event to event.
#[derive(Drop)]
pub struct Scratch {
    /// The trades, in their order.
    pub fills: Vec<Fill>,
    /// The contras that a taker goes through; none between calls.
    pub aside: Vec<Taken>,
    /// The takers of a recheck that have walked; none between calls.
    pub tried: Vec<Taken>,
}

impl Scratch {
    ghost use Rattle.std.specs.Prelude.{◌≡◌, []};
    ghost use Rattle.match_core.specs.Rooms.{IsClear};

    /// No trades and no room. This takes no memory.
    pub fn new(alloc: Global) -> Scratch
        ensures fills { result.fills.items ≡ [] }
        ensures clear { IsClear result }
    {
        Scratch {
            fills: Vec::new(alloc),
            aside: Vec::new(alloc),
            tried: Vec::new(alloc),
        }
    }
}

/// Makes room for the trades of a book of so many rows, and to set that many rows aside. A refusal leaves the trades
/// and all room that there was.
pub fn reserve(scratch: &mut Scratch, rows: usize) -> Result<(), NoMemory>
    requires clear { IsClear scratch.old }
    ensures fills { scratch.new.fills.items ≡ scratch.old.fills.items }
    ensures clear { IsClear scratch.new }
    ensures room { OnOk result (HasRoom rows scratch.new) }
    ensures kept { (n : ℕ) → HasRoom n scratch.old → HasRoom n scratch.new }
{
    scratch.fills.reserve(rows)?;
    scratch.aside.reserve(rows)?;
    scratch.tried.reserve(rows)?;
    Ok(())
}

/// A taker, which isn't in its side, walks through the active rows of the other side by priority, while prices cross
/// and shares are left of it. Its trades stand behind those that were there; a contra that is passed over, or that
/// has shares left, keeps its value, its time and its place. A walk that doesn't meet the taker's minimum leaves
/// everything as it was.
pub fn walk<S: SideBook, L: Ledger>(
    taker: &mut Taken,
    other: &mut S,
    scratch: &mut Scratch,
    steps: &mut Steps<L>,
)
    requires alone { IsAlone taker.old }
    requires leaves { 0 < taker.old.node.value.row.leaves }
    requires full { AllByRecursion HasLeaves (S.state other.old).rows }
    requires clear { IsClear scratch.old }
    requires room { HasRoom (length (S.state other.old).rows) scratch.old }

    // The taker, the other side and the trades are those of the walk.
    ensures taker { taken_row taker.new
        ≡ row_after (total_of (takes_of (taken_row taker.old) (S.state other.old).rows)) (taken_row taker.old) }
    ensures put { (S.state other.new).rows
        ≡ rows_after (takes_of (taken_row taker.old) (S.state other.old).rows) (S.state other.old).rows }
    ensures filled { scratch.new.fills.items ≡ scratch.old.fills.items
        ++ fills_of (taken_row taker.old) (takes_of (taken_row taker.old) (S.state other.old).rows) }

    // What stays.
    ensures alone { IsAlone taker.new }
    ensures clear { IsClear scratch.new }
    ensures room { IsAsRoomy scratch.old scratch.new }
    ensures best { (S.state other.new).best ≡ (S.state other.old).best }
    ensures event { (S.state other.new).event ≡ (S.state other.old).event }
    ensures fits { (standing : Standing) → S.fits other.old standing → S.fits other.new standing }
    ensures rows { (key : Key) → S.row_room other.old key → S.row_room other.new key }
    ensures moves { S.move_room other.old → S.move_room other.new }
    ensures width { S.width other.new ≡ S.width other.old }
    ensures most { steps.new ≤ steps.old
        + 1536 * (S.width other.old + 1) * examined_by (taken_row taker.old) (S.state other.old).rows }
{
    let t = row_of(taker);
    let walked = walk_in(&t, other, &mut scratch.aside, &mut scratch.fills, steps);
    lower(taker, walked.shares);
}
