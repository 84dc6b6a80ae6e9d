//! A node over two parts of different heights.
ghost use Rattle.std.specs.Prelude.{◌≡◌, ◌+◌, ◌≤◌, ◌∷◌, ◌++◌, max, IsSomeAnd};
ghost use Rattle.limit_tree.specs.Link.{link_rows, link_height};
ghost use Rattle.limit_tree.specs.Order.{IsOrdered};
ghost use Rattle.limit_tree.specs.Part.{IsLeaf, DifferByAtMost};

use crate::node::{Node, attach, height_of, parts};

/// The node between parts of which the left one is two levels higher.
pub fn lean_left(left: Box<Node>, node: Box<Node>, right: Option<Box<Node>>) -> Box<Node>
    requires alone { IsLeaf node.value }
    requires ordered { IsOrdered (left.value.rows ++ node.value.row ∷ link_rows right) }
    requires two_higher { left.value.height ≡ link_height right + 2 }
    ensures rows { result.value.rows ≡ left.value.rows ++ node.value.row ∷ link_rows right }
    ensures not_lower { left.value.height ≤ result.value.height }
    ensures at_most_one_higher { result.value.height ≤ left.value.height + 1 }
{
    let (outer, top, inner) = parts(left);
    if height_of(&outer) >= height_of(&inner) {
        let low = attach(inner, node, right);
        return attach(outer, top, Some(low));
    }
    match inner {
        Some(inner) => {
            let (front, middle, back) = parts(inner);
            let left = attach(outer, top, front);
            let right = attach(back, node, right);
            attach(Some(left), middle, Some(right))
        }
        None => unreachable!(),
    }
}

/// The node between parts of which the right one is two levels higher.
pub fn lean_right(left: Option<Box<Node>>, node: Box<Node>, right: Box<Node>) -> Box<Node>
    requires alone { IsLeaf node.value }
    requires ordered { IsOrdered (link_rows left ++ node.value.row ∷ right.value.rows) }
    requires two_higher { right.value.height ≡ link_height left + 2 }
    ensures rows { result.value.rows ≡ link_rows left ++ node.value.row ∷ right.value.rows }
    ensures not_lower { right.value.height ≤ result.value.height }
    ensures at_most_one_higher { result.value.height ≤ right.value.height + 1 }
{
    let (inner, top, outer) = parts(right);
    if height_of(&outer) >= height_of(&inner) {
        let low = attach(left, node, inner);
        return attach(Some(low), top, outer);
    }
    match inner {
        Some(inner) => {
            let (front, middle, back) = parts(inner);
            let left = attach(left, node, front);
            let right = attach(back, top, outer);
            attach(Some(left), middle, Some(right))
        }
        None => unreachable!(),
    }
}

/// The node between parts that may differ by two levels.
pub fn balance(left: Option<Box<Node>>, node: Box<Node>, right: Option<Box<Node>>) -> Box<Node>
    requires alone { IsLeaf node.value }
    requires ordered { IsOrdered (link_rows left ++ node.value.row ∷ link_rows right) }
    requires near { DifferByAtMost 2 (link_height left) (link_height right) }
    ensures rows { result.value.rows ≡ link_rows left ++ node.value.row ∷ link_rows right }
    ensures not_lower { max (link_height left) (link_height right) ≤ result.value.height }
    ensures at_most_one_higher { result.value.height ≤ max (link_height left) (link_height right) + 1 }
    ensures even { DifferByAtMost 1 (link_height left) (link_height right)
        → result.value.height ≡ max (link_height left) (link_height right) + 1 }
{
    let left_height = height_of(&left);
    let right_height = height_of(&right);
    if left_height > right_height + 1 {
        match left {
            Some(left) => lean_left(left, node, right),
            None => unreachable!(),
        }
    } else if right_height > left_height + 1 {
        match right {
            Some(right) => lean_right(left, node, right),
            None => unreachable!(),
        }
    } else {
        attach(left, node, right)
    }
}

/// Puts parts on both sides of the node behind the link.
pub fn rejoin(link: &mut Option<Box<Node>>, left: Option<Box<Node>>, right: Option<Box<Node>>)
    requires alone { IsSomeAnd link.old (λ node. IsLeaf node.value) }
    requires ordered { IsOrdered (link_rows left ++ (link_rows link.old ++ link_rows right)) }
    requires near { DifferByAtMost 2 (link_height left) (link_height right) }
    ensures rows { link_rows link.new ≡ link_rows left ++ (link_rows link.old ++ link_rows right) }
    ensures not_lower { max (link_height left) (link_height right) ≤ link_height link.new }
    ensures at_most_one_higher { link_height link.new ≤ max (link_height left) (link_height right) + 1 }
    ensures even { DifferByAtMost 1 (link_height left) (link_height right)
        → link_height link.new ≡ max (link_height left) (link_height right) + 1 }
{
    if let Some(node) = link.take() {
        *link = Some(balance(left, node, right));
    }
}
