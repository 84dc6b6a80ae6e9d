//! One more row in a part of the tree.
ghost use Rattle.std.specs.Prelude.{◌*◌, ◌<◌, ◌≡◌, ◌+◌, ◌≤◌, nat_lt};
ghost use Rattle.limit_tree.specs.Link.{link_rows, link_height};
ghost use Rattle.limit_tree.specs.Order.{row_rank, HasShortNumbers, IsFree, insert_row};
ghost use Rattle.limit_tree.specs.Part.{IsLeaf};

use crate::balance::rejoin;
use crate::node::{Node, attach, height_of};
use std::sync::ledger::Ledger;
use venue_words::Steps;

/// Whether the node's row stands before the other's.
pub fn is_before(node: &Node, other: &Node) -> bool
    ensures { result ≡ nat_lt (row_rank node.now.row) (row_rank other.now.row) }
{
    if node.cap == other.cap {
        node.entry < other.entry
    } else {
        node.cap < other.cap
    }
}

/// Puts one more node into a part.
pub fn put_into<L: Ledger>(link: &mut Option<Box<Node>>, node: Box<Node>, steps: &mut Steps<L>)
    requires alone { IsLeaf node.value }
    requires numbered { HasShortNumbers node.value.row }
    requires free { IsFree node.value.row.cap node.value.row.entry (link_rows link.old) }
    ensures rows { link_rows link.new ≡ insert_row node.value.row (link_rows link.old) }
    ensures not_lower { link_height link.old ≤ link_height link.new }
    ensures at_most_one_higher { link_height link.new ≤ link_height link.old + 1 }
    ensures ticks { steps.old + 1 ≤ steps.new }
    ensures most { steps.new ≤ steps.old + link_height link.old + 1 }

    // Each node on the way down is a step, and no way down is shorter than half the height.
    ensures each { 2 * steps.old + link_height link.old < 2 * steps.new }
{
    steps.tick();
    match link {
        None => *link = Some(attach(None, node, None)),
        Some(top) => {
            let top: &mut Node = top;
            let entry = node.entry;
            let side = if is_before(&node, top) {
                put_into(&mut top.left, node, steps);
                height_of(&top.left)
            } else {
                put_into(&mut top.right, node, steps);
                height_of(&top.right)
            };
            if side < top.height {
                // The part is as high as it was, and the other side need not be looked at.
                top.least = top.least.min(entry);
                return;
            }
            let left = top.left.take();
            let right = top.right.take();
            top.least = top.entry;
            top.height = 1;
            rejoin(link, left, right);
        }
    }
}
