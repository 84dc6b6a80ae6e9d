//! Members who do not read, or not fast enough.
ghost use Rattle.std.specs.Prelude.{◌≡◌, ◌≤◌, ◌+◌, slice_get};
ghost use Rattle.live_edge.specs.Slow.{backlog_in, is_late};
ghost use Rattle.live_edge.specs.Joins.{Joined};
ghost use Rattle.live_edge.specs.Rounds.{Keeps};

use crate::connections::Connections;
use crate::outside::Outside;
use crate::story::Step;
use live_words::Cause;
use ports::State;

/// A member is slow while more bytes than these wait for him.
const SLOW_BYTES: usize = 4_194_304;

/// How long a member may be slow, in milliseconds.
const SLOW_MILLISECONDS: u64 = 30_000;

/// While more bytes than these wait for a member he is not read.
const READING_BYTES: usize = 65_536;

impl<O: Outside> Connections<O> {
    /// How many bytes wait for the member of a port.
    fn backlog(&self, port: usize) -> usize
        ensures { result ≡ backlog_in self.now.table port }
    {
        match self.table.state(port) {
            State::Named { member } => self.table.waiting(member),
            _ => 0,
        }
    }

    /// Notes whether the member of a port is slow, and says whether he was so for too long.
    fn is_late(&mut self, port: usize, now: u64) -> bool
        ensures late { result ≡ is_late (backlog_in self.old.table port) (slice_get self.old.slow.items port) now }
        ensures same { self.new ≡ record self.old { slow = self.new.slow } }
    {
        if port >= self.slow.len() {
            return false;
        }
        if self.backlog(port) <= SLOW_BYTES {
            self.slow[port] = None;
            return false;
        }
        match self.slow[port] {
            Some(since) => now.saturating_sub(since) > SLOW_MILLISECONDS,
            None => {
                self.slow[port] = Some(now);
                false
            }
        }
    }

    /// Ends the connections of members who were slow for too long.
    pub(crate) fn end_slow(&mut self, now: u64)
        ensures keeps { Keeps self.old.story.tale self.new.story.tale }
        ensures joined { Joined self.old.story.tale.past self.old.table (O.came self.old.outside) (O.went self.old.outside) → Joined self.new.story.tale.past self.new.table (O.came self.new.outside) (O.went self.new.outside) }
        ensures later { O.faults self.old.outside + self.old.faults ≤ O.faults self.new.outside + self.new.faults }
    {
        for port in 0..self.ports {
            if self.is_late(port, now) {
                self.end(port, Cause::Slow);
            }
        }
    }

    /// Gives a port what waits for its member, as far as it takes it.
    fn flush(&mut self, port: usize)
        ensures keeps { Keeps self.old.story.tale self.new.story.tale }
        ensures joined { Joined self.old.story.tale.past self.old.table (O.came self.old.outside) (O.went self.old.outside) → Joined self.new.story.tale.past self.new.table (O.came self.new.outside) (O.went self.new.outside) }
        ensures later { O.faults self.old.outside + self.old.faults ≤ O.faults self.new.outside + self.new.faults }
    {
        let state = self.table.state(port);
        if !self.table.flush(&mut self.outside, port) {
            self.story = self.story.then(&Step::Ended(port));
            self.note_end(port, state, Cause::Closed);
        }
    }

    /// Gives a port what waits for its member, and notes whether he may be read again.
    fn relieve(&mut self, port: usize)
        ensures keeps { Keeps self.old.story.tale self.new.story.tale }
        ensures joined { Joined self.old.story.tale.past self.old.table (O.came self.old.outside) (O.went self.old.outside) → Joined self.new.story.tale.past self.new.table (O.came self.new.outside) (O.went self.new.outside) }
        ensures later { O.faults self.old.outside + self.old.faults ≤ O.faults self.new.outside + self.new.faults }
    {
        let before = self.backlog(port);
        self.flush(port);
        if before > READING_BYTES && self.backlog(port) <= READING_BYTES {
            self.eased = true;
        }
    }

    /// Gives each port what waits for its member, as far as it takes it.
    pub(crate) fn flush_all(&mut self)
        ensures keeps { Keeps self.old.story.tale self.new.story.tale }
        ensures joined { Joined self.old.story.tale.past self.old.table (O.came self.old.outside) (O.went self.old.outside) → Joined self.new.story.tale.past self.new.table (O.came self.new.outside) (O.went self.new.outside) }
        ensures later { O.faults self.old.outside + self.old.faults ≤ O.faults self.new.outside + self.new.faults }
    {
        for port in 0..self.ports {
            self.relieve(port);
        }
    }
}
