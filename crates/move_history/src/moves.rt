//! A history of moves.
ghost use Rattle.std.specs.Prelude.{◌≡◌, ℕ, ◌+◌, ◌<◌, ◌≤◌, min, ◌==◌, if◌then◌else◌, [], OnOk, OnErr};
ghost use Rattle.venue_words.specs.Moves.{History, changed, moved};
ghost use Rattle.move_history.specs.Staircase.{Tells, last_change};

use crate::kept::{KeptMove, keep, last_event_below};
use std::alloc::Global;
use std::marker::Model;
use std::sync::ledger::Ledger;
use venue_words::{NoMemory, Steps};

/// A history of moves of one value, in units of 0.005; value 0 stands for none. It keeps the moves
/// that still answer for some limit, and is seen as these: contracts speak of every history that they
/// answer for.
#[derive(Drop)]
pub struct Moves {
    current: u32,
    latest: u32,
    kept: Vec<KeptMove>,
}

impl Model for Moves {
    ghost use Rattle.std.specs.Prelude.{◌-◌, vec_len};
    ghost use Rattle.std.specs.Vec.{vec_capacity};
    ghost use Rattle.move_history.specs.Kept.{IsRising, AreLowsAtMost};
    ghost use Rattle.move_history.specs.Staircase.{Staircase};

    ghost Value = { Staircase };

    ghost view = { λ m. record { current = m.current; latest = m.latest; kept = m.kept.items; room = vec_capacity m.kept - vec_len m.kept } };

    ghost invariant = { λ m. IsRising m.kept.items × AreLowsAtMost m.current m.kept.items };
}

impl Moves {
    /// A history that begins with a value and has no moves. This takes no memory.
    pub fn start(alloc: Global, value: u32) -> Moves
        ensures current { result.current ≡ value }
        ensures latest { result.latest ≡ 0 }
        ensures changes { (cap : ℕ) → last_change result cap ≡ 0 }
        ensures tells { Tells result (record { first = value; moves = [] }) }
    {
        Moves {
            current: value,
            latest: 0,
            kept: Vec::new(alloc),
        }
    }

    /// The value that it ends with.
    pub fn current(&self) -> u32
        ensures { result ≡ self.now.current }
    {
        self.current
    }

    /// Makes room for one move. A refusal leaves everything as it was.
    pub fn reserve(&mut self) -> Result<(), NoMemory>
        ensures room { OnOk result (0 < self.new.room) }
        ensures kept { self.old.room ≤ self.new.room }
        ensures same { self.new ≡ record self.old { room = self.new.room } }
        ensures err { OnErr result (self.new ≡ self.old) }
    {
        match self.kept.reserve(1) {
            Ok(()) => Ok(()),
            Err(_) => Err(NoMemory),
        }
    }

    /// From the event on the value is this one. A move to the same value is none.
    pub fn push<L: Ledger>(&mut self, event: u32, value: u32, steps: &mut Steps<L>)
        requires room { 0 < self.old.room }
        requires later { self.old.latest < event }

        ensures current { self.new.current ≡ value }
        ensures latest { self.new.latest ≡ event }
        ensures changes { (cap : ℕ) → last_change self.new cap ≡
            (if min self.old.current cap == min value cap then last_change self.old cap else event) }
        ensures tells { (history : History) → Tells self.old history → Tells self.new (moved history event value) }

        ensures room { self.old.room ≤ self.new.room + 1 }
        ensures ticks { steps.old + 1 ≤ steps.new }
        ensures most { steps.new ≤ steps.old + 64 }
    {
        if value == self.current {
            steps.tick();
        } else {
            let low = value.min(self.current);
            keep(&mut self.kept, KeptMove { event, low }, steps);
        }
        self.current = value;
        self.latest = event;
    }

    /// The last event at which the lesser of the value and the cap changed, or 0.
    pub fn changed<L: Ledger>(&self, cap: u32, steps: &mut Steps<L>) -> u32
        ensures event { result ≡ last_change self.now cap }
        ensures told { (history : History) → Tells self.now history → result ≡ changed history cap }

        // All caps above the value that it ends with have one answer.
        ensures same_above { (other : ℕ) → self.now.current < cap → self.now.current < other
            → last_change self.now other ≡ result }

        ensures ticks { steps.old + 1 ≤ steps.new }
        ensures most { steps.new ≤ steps.old + 64 }
    {
        last_event_below(&self.kept, cap, steps)
    }
}
