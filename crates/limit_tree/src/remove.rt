//! A part of the tree without one of its rows.
ghost use Rattle.std.specs.Prelude.{◌≡◌, ◌+◌, ◌≤◌, ◌∷◌, ◌++◌, max, None, IfSome, MatchOption, option_map};
ghost use Rattle.limit_tree.specs.Link.{link_rows, link_height};
ghost use Rattle.limit_tree.specs.Order.{IsOrdered, without_row, row_at};
ghost use Rattle.limit_tree.specs.Part.{IsLeaf, DifferByAtMost};

use crate::balance::{balance, rejoin};
use crate::node::{Node, height_of, least_without};
use crate::search::place_of;
use std::cmp::Ordering;
use std::mem;
use std::sync::ledger::Ledger;
use venue_words::Steps;

/// Takes the first row of a part out.
pub fn take_first<L: Ledger>(
    link: &mut Option<Box<Node>>,
    steps: &mut Steps<L>,
) -> Option<Box<Node>>
    ensures rows { link_rows link.old ≡ link_rows result ++ link_rows link.new }
    ensures first { MatchOption result (link.old ≡ None) (λ first. IsLeaf first.value) }
    ensures not_lower { link_height link.old ≤ link_height link.new + 1 }
    ensures not_higher { link_height link.new ≤ link_height link.old }
    ensures ticks { steps.old + 1 ≤ steps.new }
    ensures most { steps.new ≤ steps.old + link_height link.old + 1 }
{
    steps.tick();
    match link {
        None => None,
        Some(top) => {
            let top: &mut Node = top;
            let height = height_of(&top.left);
            match take_first(&mut top.left, steps) {
                None => {
                    let right = top.right.take();
                    top.least = top.entry;
                    top.height = 1;
                    mem::replace(link, right)
                }
                Some(first) => {
                    if height_of(&top.left) == height {
                        top.least = least_without(
                            top.least,
                            first.entry,
                            &top.left,
                            top.entry,
                            &top.right,
                        );
                        return Some(first);
                    }
                    let left = top.left.take();
                    let right = top.right.take();
                    top.least = top.entry;
                    top.height = 1;
                    rejoin(link, left, right);
                    Some(first)
                }
            }
        }
    }
}

/// The rows of two parts as one part.
pub fn join<L: Ledger>(
    left: Option<Box<Node>>,
    mut right: Option<Box<Node>>,
    steps: &mut Steps<L>,
) -> Option<Box<Node>>
    requires ordered { IsOrdered (link_rows left ++ link_rows right) }
    requires balanced { DifferByAtMost 1 (link_height left) (link_height right) }
    ensures rows { link_rows result ≡ link_rows left ++ link_rows right }
    ensures not_lower { max (link_height left) (link_height right) ≤ link_height result }
    ensures not_higher { link_height result ≤ max (link_height left) (link_height right) + 1 }
    ensures kept { steps.old ≤ steps.new }
    ensures most { steps.new ≤ steps.old + link_height right + 1 }
{
    match take_first(&mut right, steps) {
        None => left,
        Some(first) => Some(balance(left, first, right)),
    }
}

/// Takes the row of the pair out of a part.
pub fn cut_from<L: Ledger>(
    link: &mut Option<Box<Node>>,
    cap: u32,
    entry: u32,
    steps: &mut Steps<L>,
) -> Option<Box<Node>>
    ensures rows { link_rows link.new ≡ without_row cap entry (link_rows link.old) }
    ensures found { option_map (λ node. node.value.row) result ≡ row_at cap entry (link_rows link.old) }
    ensures alone { IfSome result (λ node. IsLeaf node.value) }
    ensures not_lower { link_height link.old ≤ link_height link.new + 1 }
    ensures not_higher { link_height link.new ≤ link_height link.old }
    ensures ticks { steps.old + 1 ≤ steps.new }
    ensures most { steps.new ≤ steps.old + link_height link.old + 1 }
{
    steps.tick();
    match link {
        None => None,
        Some(top) => {
            let top: &mut Node = top;
            let (before, found, after) = match place_of(cap, entry, top) {
                Ordering::Less => {
                    let height = height_of(&top.left);
                    let found = cut_from(&mut top.left, cap, entry, steps);
                    (height, found, height_of(&top.left))
                }
                Ordering::Equal => {
                    let left = top.left.take();
                    let right = top.right.take();
                    top.least = top.entry;
                    top.height = 1;
                    return mem::replace(link, join(left, right, steps));
                }
                Ordering::Greater => {
                    let height = height_of(&top.right);
                    let found = cut_from(&mut top.right, cap, entry, steps);
                    (height, found, height_of(&top.right))
                }
            };
            if after == before {
                top.least = least_without(top.least, entry, &top.left, top.entry, &top.right);
                return found;
            }
            let left = top.left.take();
            let right = top.right.take();
            top.least = top.entry;
            top.height = 1;
            rejoin(link, left, right);
            found
        }
    }
}
