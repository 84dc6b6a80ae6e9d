//! The rows of one group of orders.
ghost use Rattle.std.specs.Prelude.{false, ◌≡◌, ◌+◌, ◌<◌, ◌≤◌, [], IfSome, option_map};
ghost use Rattle.limit_tree.specs.Looks.{FindsLeast, FindsGreatestBelow};
ghost use Rattle.limit_tree.specs.Order.{is_empty, highest_cap, IsFree, insert_row, without_row, row_at, is_held};
ghost use Rattle.limit_tree.specs.Part.{IsLeaf};

use crate::insert::put_into;
use crate::node::{Node, height_of};
use crate::remove::cut_from;
use crate::search::{cap_above, first_in, greatest_cap, highest_in, is_in, least_above};
use std::marker::Model;
use std::sync::ledger::Ledger;
use venue_words::Steps;

/// The rows of one group of orders by the value of their limit, which is `cap`, and by entry. Contracts see them as
/// the list in order of cap and entry. No call takes memory; each visits at most 256 nodes.
#[derive(Drop)]
pub struct LimitTree {
    root: Option<Box<Node>>,
    /// The greatest cap, or 0 where there is no row.
    greatest: u32,
}

impl Model for LimitTree {
    ghost use Rattle.std.specs.Prelude.{List};
    ghost use Rattle.venue_words.specs.declared.row.Row.{Row};
    ghost use Rattle.std.specs.Prelude.{◌≡◌};
    ghost use Rattle.limit_tree.specs.Link.{link_rows};
    ghost use Rattle.limit_tree.specs.Order.{highest_cap};

    ghost Value = { List Row };

    ghost view = { λ t. link_rows t.root };

    ghost invariant = { λ t. t.greatest ≡ highest_cap (link_rows t.root) };
}

impl LimitTree {
    /// A tree without rows.
    pub fn new() -> LimitTree
        ensures { result ≡ [] }
    {
        LimitTree {
            root: None,
            greatest: 0,
        }
    }

    /// The greatest cap of a row, or 0 where there is no row. This visits no node.
    pub fn greatest(&self) -> u32
        ensures { result ≡ highest_cap self.now }
    {
        self.greatest
    }

    /// Whether there is no row.
    pub fn is_empty(&self) -> bool
        ensures { result ≡ is_empty self.now }
    {
        match &self.root {
            None => true,
            Some(node) => {
                let top: &Node = node;
                let _height = top.height;
                false
            }
        }
    }

    /// Enters a row, where none with its cap and entry is held: `holds` is the test.
    pub fn put<L: Ledger>(&mut self, node: Box<Node>, steps: &mut Steps<L>)
        requires alone { IsLeaf node.value }
        requires free { is_held node.value.row.cap node.value.row.entry self.old ≡ false }
        ensures rows { self.new ≡ insert_row node.value.row self.old }
        ensures ticks { steps.old + 1 ≤ steps.new }
        ensures most { steps.new ≤ steps.old + 256 }
    {
        let _height = height_of(&self.root);
        self.greatest = self.greatest.max(node.cap);
        put_into(&mut self.root, node, steps);
    }

    /// Takes the row of a cap and an entry out; none, and nothing changes, where it is not held.
    pub fn cut<L: Ledger>(
        &mut self,
        cap: u32,
        entry: u32,
        steps: &mut Steps<L>,
    ) -> Option<Box<Node>>
        ensures rows { self.new ≡ without_row cap entry self.old }
        ensures found { option_map (λ node. node.value.row) result ≡ row_at cap entry self.old }
        ensures alone { IfSome result (λ node. IsLeaf node.value) }
        ensures ticks { steps.old + 1 ≤ steps.new }
        ensures most { steps.new ≤ steps.old + 256 }
    {
        let _height = height_of(&self.root);
        let found = cut_from(&mut self.root, cap, entry, steps);
        if cap == self.greatest {
            self.greatest = highest_in(&self.root, steps);
        }
        found
    }

    /// Whether a row of this cap and entry is held.
    pub fn holds<L: Ledger>(&self, cap: u32, entry: u32, steps: &mut Steps<L>) -> bool
        ensures held { result ≡ is_held cap entry self.now }
        ensures ticks { steps.old + 1 ≤ steps.new }
        ensures most { steps.new ≤ steps.old + 256 }
    {
        let _height = height_of(&self.root);
        is_in(&self.root, cap, entry, steps)
    }

    /// The cap and entry of the row with the least entry among those whose cap is the value.
    pub fn first_at<L: Ledger>(&self, value: u32, steps: &mut Steps<L>) -> Option<(u32, u32)>
        ensures found { FindsLeast (λ cap. cap ≡ value) self.now result }
        ensures ticks { steps.old + 1 ≤ steps.new }
        ensures most { steps.new ≤ steps.old + 256 }
    {
        let _height = height_of(&self.root);
        first_in(&self.root, value, steps)
    }

    /// The cap and entry of the row with the least entry among those whose cap is above the value.
    pub fn first_above<L: Ledger>(&self, value: u32, steps: &mut Steps<L>) -> Option<(u32, u32)>
        ensures found { FindsLeast (λ cap. value < cap) self.now result }
        ensures ticks { steps.old + 1 ≤ steps.new }
        ensures most { steps.new ≤ steps.old + 256 }
    {
        let _height = height_of(&self.root);
        match least_above(&self.root, value, steps) {
            None => None,
            Some(entry) => Some((cap_above(&self.root, value, entry, steps), entry)),
        }
    }

    /// The greatest cap below the value, and the least entry among its rows.
    pub fn highest_below<L: Ledger>(&self, value: u32, steps: &mut Steps<L>) -> Option<(u32, u32)>
        ensures found { FindsGreatestBelow value self.now result }
        ensures ticks { steps.old + 1 ≤ steps.new }
        ensures most { steps.new ≤ steps.old + 256 }
    {
        let _height = height_of(&self.root);
        match greatest_cap(&self.root, value, steps) {
            None => None,
            Some(cap) => first_in(&self.root, cap, steps),
        }
    }
}
