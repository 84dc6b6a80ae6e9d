//! What operators are answered.
ghost use Rattle.std.specs.Prelude.{◌≡◌, ◌+◌};
ghost use Rattle.venue_words.specs.Causes.{HasCause};
ghost use Rattle.live_edge.specs.Joins.{Joined};
ghost use Rattle.live_edge.specs.Rounds.{Keeps};

use crate::desk::Desk;
use crate::outside::Outside;
use io_edge::{Clock, Failed};
use live_words::{Counts, Event, Standing, Word, end_line, member_line, symbol_line};
use ports::State;
use venue_words::NoMemory;

impl<O: Outside, C: Clock> Desk<O, C> {
    /// Answers an operator.
    pub(crate) fn answer(&mut self, operator: usize, text: &[u8]) -> Result<(), Failed>
        ensures keeps { Keeps self.old.connections.story.tale self.new.connections.story.tale }
        ensures joined { Joined self.old.connections.story.tale.past self.old.connections.table (O.came self.old.connections.outside) (O.went self.old.connections.outside) → Joined self.new.connections.story.tale.past self.new.connections.table (O.came self.new.connections.outside) (O.went self.new.connections.outside) }
        ensures left { self.new.left ≡ self.old.left }
        ensures setup { self.new.setup ≡ self.old.setup }
        ensures last { self.new.last ≡ self.old.last }
        ensures stop { self.new.stop ≡ self.old.stop }
        ensures cause { HasCause (O.faults self.old.connections.outside + self.old.connections.faults) (O.faults self.new.connections.outside + self.new.connections.faults) result }
    {
        match self.connections.outside.answer(operator, text) {
            Ok(()) => Ok(()),
            Err(_) => Err(self.connections.fail()),
        }
    }

    /// Answers an operator by a text that was made with memory.
    pub(crate) fn answer_made(
        &mut self,
        operator: usize,
        made: Result<Vec<u8>, NoMemory>,
    ) -> Result<(), Failed>
        ensures keeps { Keeps self.old.connections.story.tale self.new.connections.story.tale }
        ensures joined { Joined self.old.connections.story.tale.past self.old.connections.table (O.came self.old.connections.outside) (O.went self.old.connections.outside) → Joined self.new.connections.story.tale.past self.new.connections.table (O.came self.new.connections.outside) (O.went self.new.connections.outside) }
        ensures left { self.new.left ≡ self.old.left }
        ensures setup { self.new.setup ≡ self.old.setup }
        ensures last { self.new.last ≡ self.old.last }
        ensures stop { self.new.stop ≡ self.old.stop }
        ensures cause { HasCause (O.faults self.old.connections.outside + self.old.connections.faults) (O.faults self.new.connections.outside + self.new.connections.faults) result }
    {
        let text = self.connections.kept(made)?;
        self.answer(operator, &text)
    }

    /// Refuses an operator's line: he and the log are told why.
    pub(crate) fn refuse(&mut self, operator: usize, word: Word) -> Result<(), Failed>
        ensures keeps { Keeps self.old.connections.story.tale self.new.connections.story.tale }
        ensures joined { Joined self.old.connections.story.tale.past self.old.connections.table (O.came self.old.connections.outside) (O.went self.old.connections.outside) → Joined self.new.connections.story.tale.past self.new.connections.table (O.came self.new.connections.outside) (O.went self.new.connections.outside) }
        ensures left { self.new.left ≡ self.old.left }
        ensures setup { self.new.setup ≡ self.old.setup }
        ensures last { self.new.last ≡ self.old.last }
        ensures stop { self.new.stop ≡ self.old.stop }
        ensures cause { HasCause (O.faults self.old.connections.outside + self.old.connections.faults) (O.faults self.new.connections.outside + self.new.connections.faults) result }
    {
        self.connections
            .outside
            .log(Event::BadLine { operator, word });
        self.answer(operator, word.answer().as_bytes())
    }

    /// The counts of the day so far.
    pub(crate) fn counts(&self) -> Counts {
        let mut counts = Counts {
            rounds: self.rounds,
            lines: self.lines,
            bytes: self.bytes,
            connections: 0,
            unnamed: 0,
            waiting: 0,
            turns: 0,
            silent: 0,
        };
        for port in 0..self.connections.ports {
            match self.connections.table.state(port) {
                State::Named { .. } => counts.connections = counts.connections.saturating_add(1),
                State::Unnamed => counts.unnamed = counts.unnamed.saturating_add(1),
                State::Free => {}
            }
        }
        for member in 0..self.setup.names().len() {
            let standing = self.standing(member);
            counts.waiting = counts.waiting.saturating_add(standing.waiting);
            counts.turns = counts.turns.saturating_add(standing.turns);
        }
        for market in &self.markets {
            if market.silent {
                counts.silent = counts.silent.saturating_add(1);
            }
        }
        counts
    }

    /// How a member stands.
    fn standing(&self, member: usize) -> Standing {
        Standing {
            since: self
                .connections
                .table
                .port_of(member)
                .map(|port| self.connections.table.since(port)),
            waiting: self.connections.table.waiting(member),
            turns: match self.turns.get(member) {
                Some(turns) => turns.count,
                None => 0,
            },
        }
    }

    /// Tells an operator of each member.
    pub(crate) fn tell_members(&mut self, operator: usize) -> Result<(), Failed>
        ensures keeps { Keeps self.old.connections.story.tale self.new.connections.story.tale }
        ensures joined { Joined self.old.connections.story.tale.past self.old.connections.table (O.came self.old.connections.outside) (O.went self.old.connections.outside) → Joined self.new.connections.story.tale.past self.new.connections.table (O.came self.new.connections.outside) (O.went self.new.connections.outside) }
        ensures left { self.new.left ≡ self.old.left }
        ensures setup { self.new.setup ≡ self.old.setup }
        ensures last { self.new.last ≡ self.old.last }
        ensures stop { self.new.stop ≡ self.old.stop }
        ensures cause { HasCause (O.faults self.old.connections.outside + self.old.connections.faults) (O.faults self.new.connections.outside + self.new.connections.faults) result }
    {
        let count = self.setup.names().len();
        for member in 0..count {
            if let Some(name) = self.setup.name(member) {
                let made = member_line(self.connections.alloc, name, self.standing(member));
                self.answer_made(operator, made)?;
            }
        }
        self.answer_made(operator, end_line(self.connections.alloc, count))
    }

    /// Tells an operator of each symbol.
    pub(crate) fn tell_symbols(&mut self, operator: usize) -> Result<(), Failed>
        ensures keeps { Keeps self.old.connections.story.tale self.new.connections.story.tale }
        ensures joined { Joined self.old.connections.story.tale.past self.old.connections.table (O.came self.old.connections.outside) (O.went self.old.connections.outside) → Joined self.new.connections.story.tale.past self.new.connections.table (O.came self.new.connections.outside) (O.went self.new.connections.outside) }
        ensures left { self.new.left ≡ self.old.left }
        ensures setup { self.new.setup ≡ self.old.setup }
        ensures last { self.new.last ≡ self.old.last }
        ensures stop { self.new.stop ≡ self.old.stop }
        ensures cause { HasCause (O.faults self.old.connections.outside + self.old.connections.faults) (O.faults self.new.connections.outside + self.new.connections.faults) result }
    {
        let count = self.setup.config().symbols.len();
        for symbol in 0..count {
            if let Some(name) = self.setup.symbol(symbol) {
                let made = symbol_line(self.connections.alloc, name, self.is_halted(symbol));
                self.answer_made(operator, made)?;
            }
        }
        self.answer_made(operator, end_line(self.connections.alloc, count))
    }
}
