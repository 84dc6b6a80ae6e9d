//! The look-ups in a part of the tree.
ghost use Rattle.std.specs.Prelude.{◌≡◌, ◌+◌, ◌<◌, ◌≤◌, ℕ, true, false};
ghost use Rattle.std.specs.Bool.{MatchBool};
ghost use Rattle.std.specs.List.{AllByRecursion};
ghost use Rattle.std.specs.Ordering.{MatchOrdering};
ghost use Rattle.limit_tree.specs.Link.{link_rows, link_height};
ghost use Rattle.limit_tree.specs.Looks.{FindsLeast, FindsLeastEntry, FindsGreatestCap, IsLeastWhere};
ghost use Rattle.limit_tree.specs.Order.{pair_rank, row_rank, IsAt, highest_cap, is_held};

use crate::node::{Node, least_of};
use std::cmp::Ordering;
use std::sync::ledger::Ledger;
use venue_words::Steps;

/// Where a pair stands, seen from a node.
pub fn place_of(cap: u32, entry: u32, node: &Node) -> Ordering
    ensures { MatchOrdering result (pair_rank cap entry < row_rank node.now.row) (IsAt cap entry node.now.row) (row_rank node.now.row < pair_rank cap entry) }
{
    if cap == node.cap {
        entry.cmp(&node.entry)
    } else {
        cap.cmp(&node.cap)
    }
}

/// Whether the pair is held.
pub fn is_in<L: Ledger>(
    link: &Option<Box<Node>>,
    cap: u32,
    entry: u32,
    steps: &mut Steps<L>,
) -> bool
    ensures held { result ≡ is_held cap entry (link_rows link.now) }
    ensures ticks { steps.old + 1 ≤ steps.new }
    ensures most { steps.new ≤ steps.old + link_height link.now + 1 }
{
    steps.tick();
    match link {
        None => false,
        Some(node) => {
            let top: &Node = node;
            match place_of(cap, entry, top) {
                Ordering::Less => is_in(&top.left, cap, entry, steps),
                Ordering::Equal => true,
                Ordering::Greater => is_in(&top.right, cap, entry, steps),
            }
        }
    }
}

/// The first row of a cap.
pub fn first_in<L: Ledger>(
    link: &Option<Box<Node>>,
    value: u32,
    steps: &mut Steps<L>,
) -> Option<(u32, u32)>
    ensures found { FindsLeast (λ cap. cap ≡ value) (link_rows link.now) result }
    ensures ticks { steps.old + 1 ≤ steps.new }
    ensures most { steps.new ≤ steps.old + link_height link.now + 1 }
{
    steps.tick();
    match link {
        None => None,
        Some(node) => {
            let top: &Node = node;
            if top.cap < value {
                first_in(&top.right, value, steps)
            } else if value < top.cap {
                first_in(&top.left, value, steps)
            } else {
                match first_in(&top.left, value, steps) {
                    None => Some((top.cap, top.entry)),
                    Some(pair) => Some(pair),
                }
            }
        }
    }
}

/// The greatest cap below a value.
pub fn greatest_cap<L: Ledger>(
    link: &Option<Box<Node>>,
    value: u32,
    steps: &mut Steps<L>,
) -> Option<u32>
    ensures found { FindsGreatestCap value (link_rows link.now) result }
    ensures ticks { steps.old + 1 ≤ steps.new }
    ensures most { steps.new ≤ steps.old + link_height link.now + 1 }
{
    steps.tick();
    match link {
        None => None,
        Some(node) => {
            let top: &Node = node;
            if value <= top.cap {
                greatest_cap(&top.left, value, steps)
            } else {
                match greatest_cap(&top.right, value, steps) {
                    None => Some(top.cap),
                    Some(cap) => Some(cap),
                }
            }
        }
    }
}

/// The greatest cap of all, or 0 where there is no row.
pub fn highest_in<L: Ledger>(link: &Option<Box<Node>>, steps: &mut Steps<L>) -> u32
    ensures highest { result ≡ highest_cap (link_rows link.now) }
    ensures ticks { steps.old + 1 ≤ steps.new }
    ensures most { steps.new ≤ steps.old + link_height link.now + 1 }
{
    steps.tick();
    match link {
        None => 0,
        Some(node) => {
            let top: &Node = node;
            highest_in(&top.right, steps).max(top.cap)
        }
    }
}

/// The least entry among the caps above a value.
pub fn least_above<L: Ledger>(
    link: &Option<Box<Node>>,
    value: u32,
    steps: &mut Steps<L>,
) -> Option<u32>
    ensures found { FindsLeastEntry (λ cap. value < cap) (link_rows link.now) result }
    ensures ticks { steps.old + 1 ≤ steps.new }
    ensures most { steps.new ≤ steps.old + link_height link.now + 1 }
{
    steps.tick();
    match link {
        None => None,
        Some(node) => {
            let top: &Node = node;
            if top.cap <= value {
                least_above(&top.right, value, steps)
            } else {
                let here = top.entry.min(least_of(&top.right));
                match least_above(&top.left, value, steps) {
                    None => Some(here),
                    Some(entry) => Some(entry.min(here)),
                }
            }
        }
    }
}

/// Whether a part has an entry that is below none of its entries.
pub fn has_least(link: &Option<Box<Node>>, entry: u32) -> bool
    requires { AllByRecursion (λ row. entry ≤ row.entry) (link_rows link.now) }
    ensures { MatchBool result ((cap : ℕ) × (is_held cap entry (link_rows link.now) ≡ true)) ((cap : ℕ)
        → is_held cap entry (link_rows link.now) ≡ false) }
{
    match link {
        None => false,
        Some(node) => node.least == entry,
    }
}

/// A cap above a value with the least entry among those.
pub fn cap_above<L: Ledger>(
    link: &Option<Box<Node>>,
    value: u32,
    entry: u32,
    steps: &mut Steps<L>,
) -> u32
    requires { (cap : ℕ) × IsLeastWhere (λ cap. value < cap) (link_rows link.now) (cap, entry) }
    ensures found { IsLeastWhere (λ cap. value < cap) (link_rows link.now) (result, entry) }
    ensures ticks { steps.old + 1 ≤ steps.new }
    ensures most { steps.new ≤ steps.old + link_height link.now + 1 }
{
    steps.tick();
    match link {
        None => unreachable!(),
        Some(node) => {
            let top: &Node = node;
            if top.cap <= value {
                cap_above(&top.right, value, entry, steps)
            } else if top.entry == entry {
                top.cap
            } else if has_least(&top.right, entry) {
                cap_above(&top.right, value, entry, steps)
            } else {
                cap_above(&top.left, value, entry, steps)
            }
        }
    }
}
