//! What happened, for proofs alone.
ghost use Rattle.std.specs.Prelude.{◌≡◌, []};
ghost use Rattle.std.specs.Borrow.{ftrue};
ghost use Rattle.live_edge.specs.Stories.{Story as Tale, tale_code, beginning};

use ports::{Heard, Naming, Opening, Putting};
use std::marker::Model;
use venue_words::Bytes;

/// What happened since the edge was made. It takes no bytes, and its methods do nothing when they run.
#[derive(Drop)]
pub(crate) struct Story {
    ghost tale: { Tale } by { tale_code },
}

impl Model for Story {
    ghost also_owns = { λ _. ftrue };
}

/// Something that happens.
#[derive(Clone, Copy, Drop)]
pub(crate) enum Step<'a> {
    /// The lines of a round were brought.
    Brought(&'a [Bytes]),
    /// The line of a transcript was put.
    Told(&'a [u8]),
    /// A connection may have come.
    Opened(&'a Opening),
    /// A port was read.
    Read(usize, &'a Heard),
    /// A port may have been named as a member's.
    Named(usize, usize, &'a Naming),
    /// Bytes were put to a member.
    Put(usize, &'a [u8], Putting),
    /// The connection of a port ended.
    Ended(usize),
}

impl Story {
    ghost use Rattle.live_edge.specs.Steps.{went_on};

    pub(crate) fn new() -> Story
        ensures { result.tale ≡ beginning }
    {
        Story {}
    }

    /// The story with one thing more.
    pub(crate) fn then(&self, _step: &Step<'_>) -> Story
        ensures { result.tale ≡ went_on self.now.tale _step.now }
    {
        Story {}
    }
}
