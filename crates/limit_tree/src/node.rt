//! A node of the tree, and how nodes are taken apart and put together.
ghost use Rattle.std.specs.Prelude.{◌≡◌, ◌≢◌, ◌-◌, ◌+◌, ◌<◌, ◌≤◌, [], ◌∷◌, ◌++◌, length, min, max, true};
ghost use Rattle.limit_tree.specs.Link.{link_rows, link_height};
ghost use Rattle.limit_tree.specs.Order.{IsOrdered, least_entry};
ghost use Rattle.limit_tree.specs.Part.{IsLeaf, DifferByAtMost, fewest};

use std::marker::Model;
use venue_words::Row;

/// A row of the tree, with the part of the tree below it. Contracts see the row of a node and the list of
/// all rows of its part. Rows stand in order of cap and entry, and the two sides of each node differ in height by
/// one at most, so a part is less than 92 levels high.
#[derive(Drop)]
pub struct Node {
    /// The row's cap: the value of its limit, in units of 0.005.
    pub cap: u32,
    /// The row's entry: the number of the event at which it entered.
    pub entry: u32,
    /// The least entry of the part.
    pub least: u32,
    /// The height of the part.
    pub height: u32,
    pub left: Option<Box<Node>>,
    pub right: Option<Box<Node>>,
    // Last, so that what a way down reads stands together.
    pub row: Row,
}

impl Model for Node {
    ghost use Rattle.limit_tree.specs.Part.{Part};

    ghost Value = { Part };

    ghost use Rattle.limit_tree.specs.View.{part_of, IsPart};
    ghost use Rattle.std.specs.Prelude.{length};

    ghost view = { part_of };

    ghost invariant = { IsPart };

    ghost size = { λ p. length p.rows };

    ghost use Rattle.std.proofs.Common.{arith, length-append};

    ghost size_decreases = { λ a h. Prim.grind (arith, length-append) };
}

/// The row as a node without children. The caller boxes it, so that entering a tree takes no memory.
pub fn leaf(row: Row) -> Node
    ensures row { result.row ≡ row }
    ensures rows { result.rows ≡ row ∷ [] }
{
    Node {
        cap: row.cap,
        entry: row.entry,
        row,
        least: row.entry,
        height: 1,
        left: None,
        right: None,
    }
}

/// So many shares of the row of a node that is out of its tree are traded.
pub fn fill(node: &mut Node, quantity: u32)
    requires alone { IsLeaf node.old }
    requires within { quantity ≤ node.old.row.leaves }
    ensures row { node.new.row ≡ record node.old.row { leaves = node.old.row.leaves - quantity; traded = true } }
    ensures alone { IsLeaf node.new }
{
    node.row.leaves -= quantity;
    node.row.traded = true;
}

/// The height behind a link.
pub fn height_of(link: &Option<Box<Node>>) -> u32
    ensures height { result ≡ link_height link.now }
    ensures full { fewest result ≤ length (link_rows link.now) + 1 }
    ensures small { result < 92 }
{
    match link {
        None => 0,
        Some(node) => node.height,
    }
}

/// The least entry behind a link.
pub fn least_of(link: &Option<Box<Node>>) -> u32
    ensures { result ≡ least_entry (link_rows link.now) }
{
    match link {
        None => u32::MAX,
        Some(node) => node.least,
    }
}

/// The lesser of an entry and the least entries behind two links.
pub fn least_beside(left: &Option<Box<Node>>, entry: u32, right: &Option<Box<Node>>) -> u32
    ensures { result ≡ min (least_entry (link_rows left.now)) (min entry (least_entry (link_rows right.now))) }
{
    least_of(left).min(entry.min(least_of(right)))
}

/// The least entry of a part that an entry left, where `least` was the least one before. Only where it was the one
/// that left are the sides looked at.
pub fn least_without(
    least: u32,
    gone: u32,
    left: &Option<Box<Node>>,
    entry: u32,
    right: &Option<Box<Node>>,
) -> u32
    ensures renewed { gone ≡ least → result ≡ min (least_entry (link_rows left.now)) (min entry (least_entry (link_rows right.now))) }
    ensures kept { gone ≢ least → result ≡ least }
{
    if gone == least {
        least_beside(left, entry, right)
    } else {
        least
    }
}

/// The links of a node, and the node without children.
pub fn parts(mut node: Box<Node>) -> (Option<Box<Node>>, Box<Node>, Option<Box<Node>>)
    ensures rows { node.value.rows ≡ link_rows result.0 ++ node.value.row ∷ link_rows result.2 }
    ensures row { result.1.value.row ≡ node.value.row }
    ensures alone { IsLeaf result.1.value }
    ensures height { node.value.height ≡ max (link_height result.0) (link_height result.2) + 1 }
    ensures balanced { DifferByAtMost 1 (link_height result.0) (link_height result.2) }
    ensures ordered { IsOrdered node.value.rows }
{
    let top: &mut Node = &mut node;
    let left = top.left.take();
    let right = top.right.take();
    top.least = top.entry;
    top.height = 1;
    (left, node, right)
}

/// The node with parts on both sides.
pub fn attach(left: Option<Box<Node>>, mut node: Box<Node>, right: Option<Box<Node>>) -> Box<Node>
    requires alone { IsLeaf node.value }
    requires ordered { IsOrdered (link_rows left ++ node.value.row ∷ link_rows right) }
    requires balanced { DifferByAtMost 1 (link_height left) (link_height right) }
    ensures rows { result.value.rows ≡ link_rows left ++ node.value.row ∷ link_rows right }
    ensures row { result.value.row ≡ node.value.row }
    ensures height { result.value.height ≡ max (link_height left) (link_height right) + 1 }
{
    let height = height_of(&left).max(height_of(&right)) + 1;
    let top: &mut Node = &mut node;
    top.least = least_beside(&left, top.entry, &right);
    top.height = height;
    top.left = left;
    top.right = right;
    node
}
