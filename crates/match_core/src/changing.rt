//! Resting rows are looked at, and given other leaves.
ghost use Rattle.std.specs.Prelude.{◌≡◌, ◌+◌, ◌≤◌, map};
ghost use Rattle.venue_words.specs.Price.{price_shown};
ghost use Rattle.venue_words.specs.declared.row.Key.{Key};
ghost use Rattle.venue_words.specs.declared.row.Priced.{Priced};
ghost use Rattle.eager_meaning.specs.Changing.{without, with_leaves};
ghost use Rattle.limit_tree.specs.Part.{IsLeaf};
ghost use Rattle.peg_groups.specs.Side.{Standing, IsHeldAt};

use crate::entering::node_of;
use limit_tree::Node;
use peg_groups::{SideBook, Taken};
use std::sync::ledger::Ledger;
use venue_words::{Priced, Row, Steps};

/// The price and the time of a row of a side.
pub fn price_in<S: SideBook, L: Ledger>(
    side: &S,
    row: &Row,
    steps: &mut Steps<L>,
) -> (Option<u32>, u32)
    requires held { (x : Priced) × IsHeldAt row.now.key row.now.cap row.now.entry (S.state side.now).rows x }
    ensures shown { (x : Priced) → IsHeldAt row.now.key row.now.cap row.now.entry (S.state side.now).rows x
        → (price_shown x, x.time) ≡ result }
    ensures most { steps.new ≤ steps.old + 512 }
{
    match side.priced(row.key, row.cap, row.entry, steps) {
        None => unreachable!(),
        Some((value, time)) => {
            let shown = Priced {
                row: *row,
                value,
                time,
            };
            (shown.price(), time)
        }
    }
}

/// Takes a row of a side out.
pub fn cut_in<S: SideBook, L: Ledger>(side: &mut S, row: &Row, steps: &mut Steps<L>)
    requires held { (x : Priced) × IsHeldAt row.now.key row.now.cap row.now.entry (S.state side.old).rows x }
    ensures left { (S.state side.new).rows ≡ without row.now.entry (S.state side.old).rows }
    ensures best { (S.state side.new).best ≡ (S.state side.old).best }
    ensures event { (S.state side.new).event ≡ (S.state side.old).event }
    ensures rows { (key : Key) → S.row_room side.old key → S.row_room side.new key }
    ensures moves { S.move_room side.old → S.move_room side.new }
    ensures width { S.width side.new ≡ S.width side.old }
    ensures most { steps.new ≤ steps.old + 512 }
{
    let _node = side.cut(row.key, row.cap, row.entry, steps);
}

/// A node out of its tree whose row has other leaves.
fn lowered(node: Box<Node>, leaves: u32) -> Box<Node>
    ensures row { result.value.row ≡ record node.value.row { leaves = leaves } }
    ensures alone { IsLeaf result.value }
{
    let row = node.row;
    node_of(node, Row { leaves, ..row })
}

/// Takes a row out, and puts it back with other leaves and the value and the time that it has.
fn replace<S: SideBook, L: Ledger>(
    side: &mut S,
    row: &Row,
    leaves: u32,
    value: Option<u32>,
    time: u32,
    steps: &mut Steps<L>,
)
    requires held { (x : Priced) × IsHeldAt row.now.key row.now.cap row.now.entry (S.state side.old).rows x
        × (x.value ≡ value) × (x.time ≡ time) }
    ensures left { (S.state side.new).rows ≡ map (with_leaves row.now.entry leaves) (S.state side.old).rows }
    ensures best { (S.state side.new).best ≡ (S.state side.old).best }
    ensures event { (S.state side.new).event ≡ (S.state side.old).event }
    ensures width { S.width side.new ≡ S.width side.old }
    ensures most { steps.new ≤ steps.old + 1024 }
{
    match side.cut(row.key, row.cap, row.entry, steps) {
        None => unreachable!(),
        Some(node) => {
            let node = lowered(node, leaves);
            side.put_back(Taken { node, value, time }, steps);
        }
    }
}

/// Gives a row of a side other leaves.
pub fn lower_in<S: SideBook, L: Ledger>(side: &mut S, row: &Row, leaves: u32, steps: &mut Steps<L>)
    requires held { (x : Priced) × IsHeldAt row.now.key row.now.cap row.now.entry (S.state side.old).rows x }
    ensures left { (S.state side.new).rows ≡ map (with_leaves row.now.entry leaves) (S.state side.old).rows }
    ensures best { (S.state side.new).best ≡ (S.state side.old).best }
    ensures event { (S.state side.new).event ≡ (S.state side.old).event }
    ensures width { S.width side.new ≡ S.width side.old }
    ensures most { steps.new ≤ steps.old + 1536 }
{
    match side.priced(row.key, row.cap, row.entry, steps) {
        None => unreachable!(),
        Some((value, time)) => replace(side, row, leaves, value, time, steps),
    }
}
