//! The connections of the members.
ghost use Rattle.std.specs.Prelude.{cond, ◌==◌, ◌≡◌, ◌≢◌, ◌≤◌, ◌<◌, ◌+◌, ◌++◌, ◌∷◌, [], ℕ, false, length, Ok, is_ok, IfOk, IfSome, OnOk, OnErr, All};
ghost use Rattle.venue_words.specs.Causes.{HasCause, Rose};
ghost use Rattle.ports.specs.Slots.{kept_at};
ghost use Rattle.live_words.specs.Naming.{IsClaim};
ghost use Rattle.live_words.specs.Access.{IsAllowed};
ghost use Rattle.live_edge.specs.Stories.{beginning};
ghost use Rattle.live_edge.specs.Joins.{Joined, all_put};
ghost use Rattle.live_edge.specs.Rounds.{Keeps, IsOfPieces, IsNamedOfPieces};

use crate::outside::Outside;
use crate::story::{Step, Story};
use io_edge::Failed;
use live_words::{Access, Cause, Event, Setup};
use ports::{Heard, Naming, Opening, Putting, State, Table};
use std::alloc::{AllocError, Global};
use venue_words::{Bytes, NoMemory};

/// How long a connection may go without a name, in milliseconds.
const NAMING_MILLISECONDS: u64 = 30_000;

/// The most connections that are let in at once.
const MOST_AT_ONCE: usize = 256;

/// The connections of the members over the outside, and the lines `O` that their ends owe.
#[derive(Drop)]
pub(crate) struct Connections<O: Outside> {
    pub(crate) alloc: Global,
    pub(crate) outside: O,
    pub(crate) table: Table,
    /// The most ports.
    pub(crate) ports: usize,
    /// The most connections without a name.
    pub(crate) unnamed: usize,
    /// Whether a member is owed an `O` line.
    pub(crate) owed: Vec<bool>,
    /// Whether bytes came to a port since its name was looked for.
    pub(crate) fresh: Vec<bool>,
    /// The moment since when the member of a port is slow.
    pub(crate) slow: Vec<Option<u64>>,
    /// Whether a member may be read again who was not for a while.
    pub(crate) eased: bool,
    /// How often this edge itself has failed, for which only memory can be the cause.
    pub(crate) faults: u64,
    pub(crate) story: Story,
}

impl<O: Outside + Drop> Connections<O> {
    /// No connection yet. Each member is owed an `O` line.
    #[tactic(auto, using(crate::proofs::Joining::begins))]
    pub(crate) fn new(
        alloc: Global,
        outside: O,
        members: usize,
    ) -> Result<Connections<O>, AllocError>
        requires few { members ≤ 256 }
        requires fresh { (port : ℕ) → O.went outside port ≡ [] }
        ensures story { IfOk result (λ c. c.story.tale ≡ beginning) }
        ensures joined { IfOk result (λ c. Joined c.story.tale.past c.table (O.came c.outside) (O.went c.outside)) }
    {
        let ports = 3 * members + 16;
        Ok(Connections {
            alloc,
            outside,
            table: Table::new(alloc, members, ports)?,
            ports,
            unnamed: 2 * members + 16,
            owed: vec![in alloc; true; members]?,
            fresh: vec![in alloc; false; ports]?,
            slow: vec![in alloc; None; ports]?,
            eased: false,
            faults: 0,
            story: Story::new(),
        })
    }
}

impl<O: Outside> Connections<O> {
    /// Counts a fault of this edge.
    pub(crate) fn fail(&mut self) -> Failed
        ensures keeps { Keeps self.old.story.tale self.new.story.tale }
        ensures joined { Joined self.old.story.tale.past self.old.table (O.came self.old.outside) (O.went self.old.outside) → Joined self.new.story.tale.past self.new.table (O.came self.new.outside) (O.went self.new.outside) }
        ensures later { O.faults self.old.outside + self.old.faults ≤ O.faults self.new.outside + self.new.faults }
        ensures rose { Rose (O.faults self.old.outside + self.old.faults) (O.faults self.new.outside + self.new.faults) }
    {
        self.faults = self.faults.saturating_add(1);
        Failed
    }

    /// What was made with memory, and a fault where there was none.
    pub(crate) fn kept<T: Drop>(&mut self, made: Result<T, NoMemory>) -> Result<T, Failed>
        ensures keeps { Keeps self.old.story.tale self.new.story.tale }
        ensures joined { Joined self.old.story.tale.past self.old.table (O.came self.old.outside) (O.went self.old.outside) → Joined self.new.story.tale.past self.new.table (O.came self.new.outside) (O.went self.new.outside) }
        ensures cause { HasCause (O.faults self.old.outside + self.old.faults) (O.faults self.new.outside + self.new.faults) result }
        ensures same { IfOk result (λ x. made ≡ Ok x) }
        ensures err { OnErr made (is_ok result ≡ false) }
    {
        match made {
            Ok(value) => Ok(value),
            Err(_) => Err(self.fail()),
        }
    }

    /// Notes that the connection of a port of this state ended, and tells the log of it: a member's owes a line.
    pub(crate) fn note_end(&mut self, port: usize, state: State, cause: Cause)
        ensures keeps { Keeps self.old.story.tale self.new.story.tale }
        ensures joined { Joined self.old.story.tale.past self.old.table (O.came self.old.outside) (O.went self.old.outside) → Joined self.new.story.tale.past self.new.table (O.came self.new.outside) (O.went self.new.outside) }
        ensures later { O.faults self.old.outside + self.old.faults ≤ O.faults self.new.outside + self.new.faults }
    {
        match state {
            State::Named { member } => {
                if member < self.owed.len() {
                    self.owed[member] = true;
                }
                self.outside.log(Event::Ended {
                    port,
                    member,
                    cause,
                });
            }
            State::Unnamed => self.outside.log(Event::Refused { port, cause }),
            State::Free => {}
        }
    }

    /// Whether a member is owed a line.
    pub(crate) fn is_owed(&self, member: usize) -> bool {
        member < self.owed.len() && self.owed[member]
    }

    /// Notes that a member was given the line that he was owed.
    pub(crate) fn settle(&mut self, member: usize)
        ensures keeps { Keeps self.old.story.tale self.new.story.tale }
        ensures joined { Joined self.old.story.tale.past self.old.table (O.came self.old.outside) (O.went self.old.outside) → Joined self.new.story.tale.past self.new.table (O.came self.new.outside) (O.went self.new.outside) }
        ensures later { O.faults self.old.outside + self.old.faults ≤ O.faults self.new.outside + self.new.faults }
    {
        if member < self.owed.len() {
            self.owed[member] = false;
        }
    }

    /// Notes whether a port has bytes among which its name is still to be looked for.
    pub(crate) fn note_fresh(&mut self, port: usize, fresh: bool)
        ensures keeps { Keeps self.old.story.tale self.new.story.tale }
        ensures joined { Joined self.old.story.tale.past self.old.table (O.came self.old.outside) (O.went self.old.outside) → Joined self.new.story.tale.past self.new.table (O.came self.new.outside) (O.went self.new.outside) }
        ensures later { O.faults self.old.outside + self.old.faults ≤ O.faults self.new.outside + self.new.faults }
    {
        if port < self.fresh.len() {
            self.fresh[port] = fresh;
        }
    }

    /// Notes what a read of a port of this state found.
    fn note_heard(&mut self, port: usize, state: State, heard: &Heard)
        ensures keeps { Keeps self.old.story.tale self.new.story.tale }
        ensures joined { Joined self.old.story.tale.past self.old.table (O.came self.old.outside) (O.went self.old.outside) → Joined self.new.story.tale.past self.new.table (O.came self.new.outside) (O.went self.new.outside) }
        ensures later { O.faults self.old.outside + self.old.faults ≤ O.faults self.new.outside + self.new.faults }
    {
        match heard {
            Heard::Kept => self.note_fresh(port, true),
            Heard::Over(_) => self.note_end(port, state, Cause::Closed),
            _ => {}
        }
    }

    /// Notes whether a member's connection ended since too much waits for it.
    fn note_put(&mut self, member: usize, putting: Putting)
        ensures keeps { Keeps self.old.story.tale self.new.story.tale }
        ensures joined { Joined self.old.story.tale.past self.old.table (O.came self.old.outside) (O.went self.old.outside) → Joined self.new.story.tale.past self.new.table (O.came self.new.outside) (O.went self.new.outside) }
        ensures later { O.faults self.old.outside + self.old.faults ≤ O.faults self.new.outside + self.new.faults }
    {
        if let Putting::Over { port } = putting {
            self.note_end(port, State::Named { member }, Cause::Overflow);
        }
    }

    /// Whether a port has bytes among which its name is still to be looked for.
    pub(crate) fn is_fresh(&self, port: usize) -> bool {
        port < self.fresh.len() && self.fresh[port] && self.table.state(port) == State::Unnamed
    }

    /// Notes the lines of a round, which are brought.
    pub(crate) fn bring(&mut self, lines: &[Bytes])
        ensures brought { self.new.story.tale.brought ≡ self.old.story.tale.brought ++ lines.now }
        ensures told { self.new.story.tale.told ≡ self.old.story.tale.told }
        ensures joined { Joined self.old.story.tale.past self.old.table (O.came self.old.outside) (O.went self.old.outside) → Joined self.new.story.tale.past self.new.table (O.came self.new.outside) (O.went self.new.outside) }
        ensures put { (m : ℕ) → all_put self.new.story.tale.past m ≡ all_put self.old.story.tale.past m }
        ensures later { O.faults self.old.outside + self.old.faults ≤ O.faults self.new.outside + self.new.faults }
    {
        self.story = self.story.then(&Step::Brought(lines));
    }

    /// Ends the connection of a port.
    pub(crate) fn end(&mut self, port: usize, cause: Cause)
        ensures keeps { Keeps self.old.story.tale self.new.story.tale }
        ensures joined { Joined self.old.story.tale.past self.old.table (O.came self.old.outside) (O.went self.old.outside) → Joined self.new.story.tale.past self.new.table (O.came self.new.outside) (O.went self.new.outside) }
        ensures later { O.faults self.old.outside + self.old.faults ≤ O.faults self.new.outside + self.new.faults }
    {
        let state = self.table.state(port);
        self.table.end(&mut self.outside, port);
        self.story = self.story.then(&Step::Ended(port));
        self.note_end(port, state, cause);
        self.note_fresh(port, false);
    }

    /// The next whole line of an operator, laid into `line`, and who wrote it.
    pub(crate) fn word(&mut self, line: &mut Vec<u8>) -> Result<Option<usize>, Failed>
        ensures keeps { Keeps self.old.story.tale self.new.story.tale }
        ensures joined { Joined self.old.story.tale.past self.old.table (O.came self.old.outside) (O.went self.old.outside) → Joined self.new.story.tale.past self.new.table (O.came self.new.outside) (O.went self.new.outside) }
        ensures cause { HasCause (O.faults self.old.outside + self.old.faults) (O.faults self.new.outside + self.new.faults) result }
    {
        match self.outside.word(line) {
            Ok(word) => Ok(word),
            Err(_) => Err(self.fail()),
        }
    }

    /// How many connections have no name.
    fn count_unnamed(&self) -> usize {
        let mut count: usize = 0;
        for port in 0..self.ports {
            if self.table.state(port) == State::Unnamed {
                count = count.saturating_add(1);
            }
        }
        count
    }

    /// Makes room for a connection where there are as many as may be.
    fn make_room(&mut self, full: bool)
        ensures keeps { Keeps self.old.story.tale self.new.story.tale }
        ensures joined { Joined self.old.story.tale.past self.old.table (O.came self.old.outside) (O.went self.old.outside) → Joined self.new.story.tale.past self.new.table (O.came self.new.outside) (O.went self.new.outside) }
        ensures later { O.faults self.old.outside + self.old.faults ≤ O.faults self.new.outside + self.new.faults }
    {
        if full || self.count_unnamed() > self.unnamed {
            if let Some(port) = self.table.oldest_unnamed() {
                self.end(port, Cause::Crowd);
            }
        }
    }

    /// Lets one connection in.
    fn open(&mut self, moment: u64) -> Result<Opening, Failed>
        ensures keeps { Keeps self.old.story.tale self.new.story.tale }
        ensures joined { Joined self.old.story.tale.past self.old.table (O.came self.old.outside) (O.went self.old.outside) → Joined self.new.story.tale.past self.new.table (O.came self.new.outside) (O.went self.new.outside) }
        ensures cause { HasCause (O.faults self.old.outside + self.old.faults) (O.faults self.new.outside + self.new.faults) result }
    {
        match self.table.open(&mut self.outside, moment) {
            Ok(opening) => {
                self.story = self.story.then(&Step::Opened(&opening));
                Ok(opening)
            }
            Err(_) => Err(self.fail()),
        }
    }

    /// Lets in the connections that ask. Beyond the most that may be without a name the oldest of these is ended.
    pub(crate) fn let_in(&mut self, moment: u64) -> Result<(), Failed>
        ensures keeps { Keeps self.old.story.tale self.new.story.tale }
        ensures joined { Joined self.old.story.tale.past self.old.table (O.came self.old.outside) (O.went self.old.outside) → Joined self.new.story.tale.past self.new.table (O.came self.new.outside) (O.went self.new.outside) }
        ensures cause { HasCause (O.faults self.old.outside + self.old.faults) (O.faults self.new.outside + self.new.faults) result }
    {
        for _ in 0..MOST_AT_ONCE {
            match self.open(moment)? {
                Opening::Opened { .. } => self.make_room(false),
                Opening::Full => self.make_room(true),
                Opening::Nobody | Opening::Failed => return Ok(()),
            }
        }
        Ok(())
    }

    /// Ends the connections that have had their time without a name.
    pub(crate) fn end_late(&mut self, now: u64)
        ensures keeps { Keeps self.old.story.tale self.new.story.tale }
        ensures joined { Joined self.old.story.tale.past self.old.table (O.came self.old.outside) (O.went self.old.outside) → Joined self.new.story.tale.past self.new.table (O.came self.new.outside) (O.went self.new.outside) }
        ensures later { O.faults self.old.outside + self.old.faults ≤ O.faults self.new.outside + self.new.faults }
    {
        for _ in 0..self.ports {
            match self.table.oldest_unnamed() {
                Some(port) if now.saturating_sub(self.table.since(port)) > NAMING_MILLISECONDS => {
                    self.end(port, Cause::NoName);
                }
                _ => return,
            }
        }
    }

    /// Reads once of a port, up to the room.
    pub(crate) fn read(&mut self, port: usize, room: &mut [u8]) -> Result<Heard, Failed>
        ensures keeps { Keeps self.old.story.tale self.new.story.tale }
        ensures joined { Joined self.old.story.tale.past self.old.table (O.came self.old.outside) (O.went self.old.outside) → Joined self.new.story.tale.past self.new.table (O.came self.new.outside) (O.went self.new.outside) }
        ensures cause { HasCause (O.faults self.old.outside + self.old.faults) (O.faults self.new.outside + self.new.faults) result }
        ensures pieces { IfOk result IsOfPieces }
    {
        let state = self.table.state(port);
        match self.table.read_from(&mut self.outside, port, room) {
            Ok(heard) => {
                self.story = self.story.then(&Step::Read(port, &heard));
                self.note_heard(port, state, &heard);
                Ok(heard)
            }
            Err(_) => {
                self.story = self.story.then(&Step::Ended(port));
                self.note_end(port, state, Cause::Closed);
                Err(self.fail())
            }
        }
    }

    /// Names a port's connection as a member's, whose Logon it begins with and who may log on from there, and hands on what came
    /// of it.
    pub(crate) fn name(
        &mut self,
        setup: &Setup,
        access: &Access,
        port: usize,
        member: usize,
    ) -> Result<Naming, Failed>
        requires claim { IsClaim (kept_at self.old.table port) setup.now.members member }
        requires allowed { IsAllowed access.now member (O.origin self.old.outside port) }
        ensures keeps { Keeps self.old.story.tale self.new.story.tale }
        ensures joined { Joined self.old.story.tale.past self.old.table (O.came self.old.outside) (O.went self.old.outside) → Joined self.new.story.tale.past self.new.table (O.came self.new.outside) (O.went self.new.outside) }
        ensures cause { HasCause (O.faults self.old.outside + self.old.faults) (O.faults self.new.outside + self.new.faults) result }
        ensures pieces { IfOk result IsNamedOfPieces }
    {
        let _ = setup;
        let _ = access;
        match self.table.name(&mut self.outside, port, member) {
            Ok(naming) => {
                self.story = self.story.then(&Step::Named(port, member, &naming));
                Ok(naming)
            }
            Err(_) => Err(self.fail()),
        }
    }

    /// Puts bytes to a member.
    #[tactic(auto, using(crate::proofs::Joining::put_put))]
    pub(crate) fn put(&mut self, member: usize, bytes: &[u8]) -> Result<(), Failed>
        ensures brought { self.new.story.tale.brought ≡ self.old.story.tale.brought }
        ensures told { self.new.story.tale.told ≡ self.old.story.tale.told }
        ensures put { OnOk result ((m : ℕ) → all_put self.new.story.tale.past m ≡ cond (member == m) (all_put self.old.story.tale.past m ++ bytes.now) (all_put self.old.story.tale.past m)) }
        ensures err { OnErr result ((m : ℕ) → all_put self.new.story.tale.past m ≡ all_put self.old.story.tale.past m) }
        ensures joined { Joined self.old.story.tale.past self.old.table (O.came self.old.outside) (O.went self.old.outside) → Joined self.new.story.tale.past self.new.table (O.came self.new.outside) (O.went self.new.outside) }
        ensures cause { HasCause (O.faults self.old.outside + self.old.faults) (O.faults self.new.outside + self.new.faults) result }
    {
        match self.table.put(&mut self.outside, member, bytes) {
            Ok(putting) => {
                self.story = self.story.then(&Step::Put(member, bytes, putting));
                self.note_put(member, putting);
                Ok(())
            }
            Err(_) => Err(self.fail()),
        }
    }
}
