//! What a connection gave and took, for proofs alone.
ghost use Rattle.std.specs.Prelude.{◌≡◌, []};
ghost use Rattle.std.specs.Borrow.{ftrue};
ghost use Rattle.socket_ports.specs.Flows.{Moved as Bytes, moved_code, unused};

use std::marker::Model;

/// All bytes that a connection gave and took, as the calls of the system answered. It takes no bytes itself, and its methods do
/// nothing when they run.
#[derive(Drop)]
pub(crate) struct Flow {
    ghost moved: { Bytes } by { moved_code },
}

impl Model for Flow {
    ghost also_owns = { λ _. ftrue };
}

/// Bytes that moved.
#[derive(Clone, Copy, Drop)]
pub(crate) enum Move<'a> {
    /// The connection gave these.
    Gave(&'a [u8]),
    /// It took these.
    Took(&'a [u8]),
}

impl Flow {
    ghost use Rattle.socket_ports.specs.Flowing.{went_on};

    pub(crate) fn new() -> Flow
        ensures { result.moved ≡ unused }
    {
        Flow {}
    }

    /// With these bytes too.
    pub(crate) fn then(&self, _move: &Move<'_>) -> Flow
        ensures { result.moved ≡ went_on self.now.moved _move.now }
    {
        Flow {}
    }
}
