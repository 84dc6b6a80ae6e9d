//! A connection as the cores see it, and the moments of a clock.
ghost use Rattle.std.specs.Prelude.{◌≡◌, ◌<◌, ℕ, ℤ, List, Option, length, IfOk};
ghost use Rattle.venue_words.specs.Causes.{HasCause};

use crate::edge::Failed;

/// What a link gives.
#[derive(Clone, Copy, Debug, PartialEq, Eq)]
pub enum Pulled {
    /// So many bytes stand at the front of the buffer, at least one.
    Bytes(usize),
    /// Nothing is there now.
    Quiet,
    /// The peer gives no more.
    End,
}

/// A connection to a peer: bytes that he sends, and bytes that are put to him.
pub trait Link {
    ghost use Rattle.io_edge.specs.Links.{Told, Pulls, PutsPiece, IsInside, CountsEnds};

    /// How often a call has failed. The count never falls, and at its last value, 2^64 - 1, it counts as risen.
    ghost faults: { Self → ℕ };

    /// How often the end was answered, counted in the same way.
    ghost ends: { Self → ℕ };

    /// What the link gives, has given and was given, where it tells.
    ghost told: { Self → Option Told };

    /// Waits for what the peer sends, and puts it to the front of the buffer. After a failure the link may be
    /// pulled again.
    fn pull(&mut self, buffer: &mut [u8]) -> Result<Pulled, Failed>
        requires { 0 < length buffer.old }
        ensures inside { IfOk result (λ pulled. IsInside pulled buffer.new) }
        ensures answer { Pulls (told self.old) (told self.new) result buffer.new }
        ensures end { CountsEnds (ends self.old) (ends self.new) result }
        ensures cause { HasCause (faults self.old) (faults self.new) result };

    /// Puts the piece to the peer, or on a failure a prefix of it. That the peer gets it is not said.
    fn put(&mut self, piece: &[u8]) -> Result<(), Failed>
        ensures bytes { PutsPiece (told self.old) (told self.new) result piece.now }
        ensures end { ends self.new ≡ ends self.old }
        ensures cause { HasCause (faults self.old) (faults self.new) result };

    /// Lets the threads that serve other links know that reports may be waiting. Whether they hear of it is not said.
    fn ring(&mut self)
        ensures told { told self.new ≡ told self.old }
        ensures end { ends self.new ≡ ends self.old }
        ensures faults { faults self.new ≡ faults self.old };
}

/// A clock of milliseconds since 1970-01-01 00:00 UTC. It may answer any number.
pub trait Clock {
    ghost use Rattle.io_edge.specs.Clocks.{GaveMoment};

    /// The moments that it has given, where the clock tells them.
    ghost told: { Self → Option (List ℤ) };

    /// The present moment.
    fn now(&mut self) -> i64
        ensures { GaveMoment result (told self.old) (told self.new) };
}
