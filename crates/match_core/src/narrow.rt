//! A side that is no wider than it has keys, once it is tidied.
ghost use Rattle.std.specs.Prelude.{◌≡◌, ◌+◌, ◌*◌, ◌≤◌};
ghost use Rattle.peg_groups.specs.KeyCount.{key_count};

use peg_groups::{GroupSide, SideBook};
use std::sync::ledger::Ledger;
use venue_words::Steps;

/// A side whose width is the number of its keys once it is tidied. What a quote costs over it hangs on the peg groups
/// and not on the orders.
pub trait NarrowSide: SideBook {
    /// Drops what no row needs: room, and the means to put rows back that are out.
    fn narrow<L: Ledger>(&mut self, steps: &mut Steps<L>)
        ensures state { Self.state self.new ≡ Self.state self.old }
        ensures width { Self.width self.new ≡ key_count (Self.state self.old).rows }
        ensures most { steps.new ≤ steps.old + 128 * (Self.width self.old + 1) };
}

impl NarrowSide for GroupSide {
    fn narrow<L: Ledger>(&mut self, steps: &mut Steps<L>) {
        self.tidy(steps);
    }
}
