//! Whose new connections are.
ghost use Rattle.std.specs.Prelude.{◌≡◌, ◌≤◌, ◌+◌, ℕ, OnOk, OnErr, All};
ghost use Rattle.day_journal.specs.Log.{IsShortLine};
ghost use Rattle.venue_words.specs.Causes.{HasCause};
ghost use Rattle.ports.specs.Slots.{kept_at};
ghost use Rattle.live_words.specs.Naming.{IsClaim};
ghost use Rattle.live_words.specs.Access.{IsAllowed};
ghost use Rattle.live_edge.specs.Joins.{Joined};
ghost use Rattle.live_edge.specs.Rounds.{Keeps};

use crate::desk::Desk;
use crate::outside::Outside;
use crate::pieces::push_pieces;
use io_edge::{Clock, Failed};
use live_words::{Cause, Claim, Event, claimed_by, push_open};
use ports::Naming;
use venue_words::Bytes;

impl<O: Outside, C: Clock> Desk<O, C> {
    /// Notes that a connection is a member's now, and whether it took his name from one that had it.
    fn note_name(&mut self, port: usize, member: usize, turn: bool)
        ensures keeps { Keeps self.old.connections.story.tale self.new.connections.story.tale }
        ensures joined { Joined self.old.connections.story.tale.past self.old.connections.table (O.came self.old.connections.outside) (O.went self.old.connections.outside) → Joined self.new.connections.story.tale.past self.new.connections.table (O.came self.new.connections.outside) (O.went self.new.connections.outside) }
        ensures left { self.new.left ≡ self.old.left }
        ensures setup { self.new.setup ≡ self.old.setup }
        ensures last { self.new.last ≡ self.old.last }
        ensures later { O.faults self.old.connections.outside + self.old.connections.faults ≤ O.faults self.new.connections.outside + self.new.connections.faults }
    {
        if !turn {
            self.connections.outside.log(Event::Logon { port, member });
            return;
        }
        if member < self.turns.len() {
            self.turns[member].note(self.now);
        }
        self.connections.outside.log(Event::Turn { port, member });
    }

    /// Whether a new connection may have a member's name now.
    fn may_come(&self, member: usize) -> bool {
        match self.turns.get(member) {
            Some(turns) => {
                turns.may_come(self.now) || self.connections.table.port_of(member).is_none()
            }
            None => true,
        }
    }

    /// Names a port's connection as the member's whose Logon it begins with: his old connection ends, and all that came of the new
    /// one is handed on after an `O` line.
    fn name(
        &mut self,
        port: usize,
        member: usize,
        lines: &mut Vec<Bytes>,
        body: &mut Vec<Bytes>,
    ) -> Result<(), Failed>
        requires claim { IsClaim (kept_at self.old.connections.table port) self.old.setup.members member }
        requires allowed { IsAllowed self.old.access member (O.origin self.old.connections.outside port) }
        requires lines { All IsShortLine lines.old.items }
        requires body { All IsShortLine body.old.items }
        ensures lines { OnOk result (All IsShortLine lines.new.items) }
        ensures body { OnOk result (All IsShortLine body.new.items) }
        ensures keeps { Keeps self.old.connections.story.tale self.new.connections.story.tale }
        ensures joined { Joined self.old.connections.story.tale.past self.old.connections.table (O.came self.old.connections.outside) (O.went self.old.connections.outside) → Joined self.new.connections.story.tale.past self.new.connections.table (O.came self.new.connections.outside) (O.went self.new.connections.outside) }
        ensures left { self.new.left ≡ self.old.left }
        ensures setup { self.new.setup ≡ self.old.setup }
        ensures last { self.new.last ≡ self.old.last }
        ensures cause { HasCause (O.faults self.old.connections.outside + self.old.connections.faults) (O.faults self.new.connections.outside + self.new.connections.faults) result }
    {
        if let Naming::Named { old, pieces } = self
            .connections
            .name(&self.setup, &self.access, port, member)?
        {
            let alloc = self.connections.alloc;
            self.note_name(port, member, old.is_some());
            let pushed = push_open(alloc, &self.setup, member, lines);
            self.connections.kept(pushed)?;
            let pushed = push_pieces(alloc, &self.setup, member, &pieces, body);
            self.connections.kept(pushed)?;
            if member < self.named.len() {
                self.named[member] = self.left;
            }
        }
        Ok(())
    }

    /// Names a port's connection as the member's whose Logon it begins with, where he may log on from there, and ends it where not.
    fn welcome(
        &mut self,
        port: usize,
        member: usize,
        lines: &mut Vec<Bytes>,
        body: &mut Vec<Bytes>,
    ) -> Result<(), Failed>
        requires claim { IsClaim (kept_at self.old.connections.table port) self.old.setup.members member }
        requires lines { All IsShortLine lines.old.items }
        requires body { All IsShortLine body.old.items }
        ensures lines { OnOk result (All IsShortLine lines.new.items) }
        ensures body { OnOk result (All IsShortLine body.new.items) }
        ensures keeps { Keeps self.old.connections.story.tale self.new.connections.story.tale }
        ensures joined { Joined self.old.connections.story.tale.past self.old.connections.table (O.came self.old.connections.outside) (O.went self.old.connections.outside) → Joined self.new.connections.story.tale.past self.new.connections.table (O.came self.new.connections.outside) (O.went self.new.connections.outside) }
        ensures left { self.new.left ≡ self.old.left }
        ensures setup { self.new.setup ≡ self.old.setup }
        ensures last { self.new.last ≡ self.old.last }
        ensures cause { HasCause (O.faults self.old.connections.outside + self.old.connections.faults) (O.faults self.new.connections.outside + self.new.connections.faults) result }
    {
        let origin = self.connections.outside.origin(port);
        if !self.access.allows(member, origin) {
            self.connections.end(port, Cause::Elsewhere);
            return Ok(());
        }
        if !self.may_come(member) {
            self.connections.end(port, Cause::Turns);
            return Ok(());
        }
        self.name(port, member, lines, body)?;
        self.connections.note_fresh(port, false);
        Ok(())
    }

    /// Whether a member's connection was named in this round.
    fn was_named(&self, member: usize) -> bool {
        match self.named.get(member) {
            Some(round) => *round == self.left,
            None => false,
        }
    }

    /// Looks for the name of a port's connection. A member is named at most once in a round: a second connection waits.
    fn look(
        &mut self,
        port: usize,
        lines: &mut Vec<Bytes>,
        body: &mut Vec<Bytes>,
    ) -> Result<(), Failed>
        requires lines { All IsShortLine lines.old.items }
        requires body { All IsShortLine body.old.items }
        ensures lines { OnOk result (All IsShortLine lines.new.items) }
        ensures body { OnOk result (All IsShortLine body.new.items) }
        ensures keeps { Keeps self.old.connections.story.tale self.new.connections.story.tale }
        ensures joined { Joined self.old.connections.story.tale.past self.old.connections.table (O.came self.old.connections.outside) (O.went self.old.connections.outside) → Joined self.new.connections.story.tale.past self.new.connections.table (O.came self.new.connections.outside) (O.went self.new.connections.outside) }
        ensures left { self.new.left ≡ self.old.left }
        ensures setup { self.new.setup ≡ self.old.setup }
        ensures last { self.new.last ≡ self.old.last }
        ensures cause { HasCause (O.faults self.old.connections.outside + self.old.connections.faults) (O.faults self.new.connections.outside + self.new.connections.faults) result }
    {
        let early = self.connections.table.kept(port);
        match claimed_by(self.connections.alloc, early, self.setup.names()) {
            Ok(Claim::Waits) => {
                self.connections.note_fresh(port, false);
                Ok(())
            }
            Ok(Claim::Nobody) => {
                self.connections.end(port, Cause::NoLogon);
                Ok(())
            }
            Ok(Claim::Member { member }) => {
                if self.was_named(member) {
                    self.busy = true;
                    return Ok(());
                }
                self.welcome(port, member, lines, body)
            }
            Err(_) => Err(self.connections.fail()),
        }
    }

    /// Looks for the name of each connection of which bytes came since it was last looked for.
    pub(crate) fn look_all(
        &mut self,
        lines: &mut Vec<Bytes>,
        body: &mut Vec<Bytes>,
    ) -> Result<(), Failed>
        requires lines { All IsShortLine lines.old.items }
        requires body { All IsShortLine body.old.items }
        ensures lines { OnOk result (All IsShortLine lines.new.items) }
        ensures body { OnOk result (All IsShortLine body.new.items) }
        ensures keeps { Keeps self.old.connections.story.tale self.new.connections.story.tale }
        ensures joined { Joined self.old.connections.story.tale.past self.old.connections.table (O.came self.old.connections.outside) (O.went self.old.connections.outside) → Joined self.new.connections.story.tale.past self.new.connections.table (O.came self.new.connections.outside) (O.went self.new.connections.outside) }
        ensures left { self.new.left ≡ self.old.left }
        ensures setup { self.new.setup ≡ self.old.setup }
        ensures last { self.new.last ≡ self.old.last }
        ensures cause { HasCause (O.faults self.old.connections.outside + self.old.connections.faults) (O.faults self.new.connections.outside + self.new.connections.faults) result }
    {
        for port in 0..self.connections.ports {
            if self.connections.is_fresh(port) {
                self.look(port, lines, body)?;
            }
        }
        Ok(())
    }
}
