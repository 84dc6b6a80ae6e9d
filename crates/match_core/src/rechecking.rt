//! The recheck of a book.
ghost use Rattle.std.specs.Prelude.{◌≡◌, ℕ, ◌+◌, ◌*◌, ◌≤◌, ◌++◌, length};
ghost use Rattle.std.specs.List.{AllByRecursion};
ghost use Rattle.venue_words.specs.declared.row.Key.{Key};
ghost use Rattle.eager_meaning.specs.Recheck.{recheck};
ghost use Rattle.eager_meaning.specs.Work.{examined_in_recheck};
ghost use Rattle.peg_groups.specs.Side.{Standing, IsLaterThan};
ghost use Rattle.match_core.specs.Aside.{HasLeaves};
ghost use Rattle.venue_words.specs.declared.price.Best.{Best};
ghost use Rattle.venue_words.specs.Retime.{reprice};
ghost use Rattle.match_core.specs.BothSides.{requoted_rows};
ghost use Rattle.match_core.specs.Rooms.{IsClear, HasRoom, IsAsRoomy};

use crate::scratch::Scratch;
use crate::sweeping::sweep;
use peg_groups::SideBook;
use std::sync::ledger::Ledger;
use venue_words::{Best, Steps};

/// Rechecks a book after a new national quote: the active buys, in the priority that they have as it begins, each walk
/// once through the sells, until one crosses none that is left; then the active sells walk in the same way. The
/// trades stand behind those that were there.
pub fn recheck<S: SideBook, L: Ledger>(
    buys: &mut S,
    sells: &mut S,
    scratch: &mut Scratch,
    steps: &mut Steps<L>,
)
    requires buys_full { AllByRecursion HasLeaves (S.state buys.old).rows }
    requires sells_full { AllByRecursion HasLeaves (S.state sells.old).rows }
    requires clear { IsClear scratch.old }
    requires room { HasRoom (length (S.state buys.old).rows + length (S.state sells.old).rows) scratch.old }

    // Both sides and the trades are those of the recheck.
    ensures buys { (S.state buys.new).rows ≡ (recheck (S.state buys.old).rows (S.state sells.old).rows).buys }
    ensures sells { (S.state sells.new).rows ≡ (recheck (S.state buys.old).rows (S.state sells.old).rows).sells }
    ensures fills { scratch.new.fills.items ≡ scratch.old.fills.items
        ++ (recheck (S.state buys.old).rows (S.state sells.old).rows).fills }

    // Each trade empties a row.
    ensures few { length (recheck (S.state buys.old).rows (S.state sells.old).rows).fills
        + (length (S.state buys.new).rows + length (S.state sells.new).rows)
        ≤ length (S.state buys.old).rows + length (S.state sells.old).rows }
    ensures buys_full { AllByRecursion HasLeaves (S.state buys.new).rows }
    ensures sells_full { AllByRecursion HasLeaves (S.state sells.new).rows }

    // What stays.
    ensures clear { IsClear scratch.new }
    ensures room { IsAsRoomy scratch.old scratch.new }
    ensures buys_best { (S.state buys.new).best ≡ (S.state buys.old).best }
    ensures buys_event { (S.state buys.new).event ≡ (S.state buys.old).event }
    ensures buys_fits { (standing : Standing) → S.fits buys.old standing → S.fits buys.new standing }
    ensures buys_rows { (key : Key) → S.row_room buys.old key → S.row_room buys.new key }
    ensures buys_moves { S.move_room buys.old → S.move_room buys.new }
    ensures buys_width { S.width buys.new ≡ S.width buys.old }
    ensures sells_best { (S.state sells.new).best ≡ (S.state sells.old).best }
    ensures sells_event { (S.state sells.new).event ≡ (S.state sells.old).event }
    ensures sells_fits { (standing : Standing) → S.fits sells.old standing → S.fits sells.new standing }
    ensures sells_rows { (key : Key) → S.row_room sells.old key → S.row_room sells.new key }
    ensures sells_moves { S.move_room sells.old → S.move_room sells.new }
    ensures sells_width { S.width sells.new ≡ S.width sells.old }
    ensures most { steps.new ≤ steps.old + 1536 * (S.width buys.old + S.width sells.old + 2)
        * (examined_in_recheck (S.state buys.old).rows (S.state sells.old).rows + 1) }
{
    sweep(buys, sells, scratch, steps);
    sweep(sells, buys, scratch, steps);
}

/// Prices both sides by a new national quote, and rechecks.
pub fn requote_both<S: SideBook, L: Ledger>(
    buys: &mut S,
    sells: &mut S,
    scratch: &mut Scratch,
    event: u32,
    quote: Best,
    steps: &mut Steps<L>,
)
    requires buys_room { S.move_room buys.old }
    requires sells_room { S.move_room sells.old }
    requires buys_later { IsLaterThan (S.state buys.old) event }
    requires sells_later { IsLaterThan (S.state sells.old) event }
    requires buys_full { AllByRecursion HasLeaves (S.state buys.old).rows }
    requires sells_full { AllByRecursion HasLeaves (S.state sells.old).rows }
    requires clear { IsClear scratch.old }
    requires room { HasRoom (length (S.state buys.old).rows + length (S.state sells.old).rows) scratch.old }
    ensures buys { (S.state buys.new).rows
        ≡ (requoted_rows event quote (S.state buys.old).rows (S.state sells.old).rows).buys }
    ensures sells { (S.state sells.new).rows
        ≡ (requoted_rows event quote (S.state buys.old).rows (S.state sells.old).rows).sells }
    ensures fills { scratch.new.fills.items ≡ scratch.old.fills.items
        ++ (requoted_rows event quote (S.state buys.old).rows (S.state sells.old).rows).fills }
    ensures few { length (requoted_rows event quote (S.state buys.old).rows (S.state sells.old).rows).fills
        + (length (S.state buys.new).rows + length (S.state sells.new).rows)
        ≤ length (S.state buys.old).rows + length (S.state sells.old).rows }
    ensures clear { IsClear scratch.new }
    ensures buys_best { (S.state buys.new).best ≡ quote }
    ensures sells_best { (S.state sells.new).best ≡ quote }
    ensures buys_event { (S.state buys.new).event ≡ event }
    ensures sells_event { (S.state sells.new).event ≡ event }
    ensures most { steps.new ≤ steps.old + 1664 * (S.width buys.old + S.width sells.old + 2) * (examined_in_recheck
        (reprice event quote (S.state buys.old).rows) (reprice event quote (S.state sells.old).rows) + 1) }
{
    buys.reprice(event, quote, steps);
    sells.reprice(event, quote, steps);
    recheck(buys, sells, scratch, steps);
}
