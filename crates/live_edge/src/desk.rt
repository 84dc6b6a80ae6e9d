//! The rounds of a live edge.
ghost use Rattle.std.specs.Prelude.{◌≡◌, ◌≤◌, ◌<◌, ◌+◌, ◌++◌, ◌∷◌, [], ℕ, length, IfOk, IfErr, OnOk, OnErr, All};
ghost use Rattle.day_journal.specs.Log.{IsShortLine};
ghost use Rattle.ports.specs.Cuts.{IsPiece};
ghost use Rattle.venue_words.specs.Causes.{HasCause};
ghost use Rattle.std.specs.Prelude.{◌≤ℤ◌};
ghost use Rattle.live_edge.specs.Joins.{Joined, all_put};
ghost use Rattle.live_edge.specs.Rounds.{Keeps, IsInOrder, IsMarked};

use crate::connections::Connections;
use crate::outside::Outside;
use crate::pieces::push_pieces;
use crate::turns::Turns;
use io_edge::{Clock, Failed};
use live_core::Going;
use live_words::{Access, Market, Setup, push_all, push_moment_line, push_open};
use ports::Heard;
use venue_words::Bytes;

/// The most bytes of one read.
pub(crate) const MAX_READ_BYTES: usize = 65_536;

/// A batch takes no further port once it has so many lines.
const MAX_LINES: usize = 8_192;

/// A batch takes no further port once its lines have so many bytes.
const MAX_BYTES: usize = 1_048_576;

/// The longest wait, in milliseconds.
const MAX_WAIT: i64 = 200;

/// The time between two lines `T`, where nothing else comes, in milliseconds.
const TICK: i64 = 1_000;

/// What the rounds of an edge go on with.
#[derive(Drop)]
pub(crate) struct Desk<O: Outside, C: Clock> {
    pub(crate) connections: Connections<O>,
    pub(crate) clock: C,
    pub(crate) setup: Setup,
    pub(crate) access: Access,
    pub(crate) room: Vec<u8>,
    pub(crate) word: Vec<u8>,
    /// The last moment that was brought.
    pub(crate) last: i64,
    /// The port that is read first.
    pub(crate) start: usize,
    /// Whether more may be there than was read.
    pub(crate) busy: bool,
    pub(crate) stop: bool,
    /// The round in which each member was last named, by how many were left.
    pub(crate) named: Vec<u64>,
    /// How often each member's name went from one connection to another.
    pub(crate) turns: Vec<Turns>,
    /// The moment of this round.
    pub(crate) now: u64,
    /// How many rounds are left.
    pub(crate) left: u64,
    pub(crate) rounds: u64,
    /// The lines that were brought, and their bytes.
    pub(crate) lines: u64,
    pub(crate) bytes: u64,
    /// Whether each symbol is halted.
    pub(crate) halted: Vec<bool>,
    pub(crate) markets: Vec<Market>,
    /// A market of which nothing comes for so many milliseconds has no quotes; 0 is no limit.
    pub(crate) stale: u64,
}

/// The port after another, and the first one after the last.
fn port_after(port: usize, ports: usize) -> usize {
    if port < ports.saturating_sub(1) {
        port + 1
    } else {
        0
    }
}

/// A moment of the clock as the table counts it.
pub(crate) fn since(now: i64) -> u64 {
    u64::try_from(now).unwrap_or(0)
}

impl<O: Outside, C: Clock> Desk<O, C> {
    /// Whether a member has a connection.
    fn has_member(&self) -> bool {
        for member in 0..self.setup.names().len() {
            if self.connections.table.port_of(member).is_some() {
                return true;
            }
        }
        false
    }

    /// How long a round may wait for something to come, in milliseconds.
    fn wait_time(&mut self) -> u64
        ensures { self.new ≡ record self.old { clock = self.new.clock } }
    {
        if self.busy
            || self.stop
            || self.connections.eased
            || self.connections.owed.contains(&true)
        {
            return 0;
        }
        if !self.has_member() {
            return MAX_WAIT as u64;
        }
        let due = self
            .last
            .saturating_add(TICK)
            .saturating_sub(self.clock.now());
        due.clamp(0, MAX_WAIT) as u64
    }

    /// Waits until something may have come.
    fn wait(&mut self) -> Result<(), Failed>
        ensures keeps { Keeps self.old.connections.story.tale self.new.connections.story.tale }
        ensures joined { Joined self.old.connections.story.tale.past self.old.connections.table (O.came self.old.connections.outside) (O.went self.old.connections.outside) → Joined self.new.connections.story.tale.past self.new.connections.table (O.came self.new.connections.outside) (O.went self.new.connections.outside) }
        ensures left { self.new.left ≡ self.old.left }
        ensures setup { self.new.setup ≡ self.old.setup }
        ensures last { self.new.last ≡ self.old.last }
        ensures cause { HasCause (O.faults self.old.connections.outside + self.old.connections.faults) (O.faults self.new.connections.outside + self.new.connections.faults) result }
    {
        let most = self.wait_time();
        self.busy = false;
        self.connections.eased = false;
        match self.connections.outside.wait(most) {
            Ok(()) => Ok(()),
            Err(_) => Err(self.connections.fail()),
        }
    }

    /// Adds the `O` line of each member who is owed one.
    fn pay(&mut self, lines: &mut Vec<Bytes>) -> Result<(), Failed>
        requires short { All IsShortLine lines.old.items }
        ensures short { OnOk result (All IsShortLine lines.new.items) }
        ensures keeps { Keeps self.old.connections.story.tale self.new.connections.story.tale }
        ensures joined { Joined self.old.connections.story.tale.past self.old.connections.table (O.came self.old.connections.outside) (O.went self.old.connections.outside) → Joined self.new.connections.story.tale.past self.new.connections.table (O.came self.new.connections.outside) (O.went self.new.connections.outside) }
        ensures left { self.new.left ≡ self.old.left }
        ensures setup { self.new.setup ≡ self.old.setup }
        ensures last { self.new.last ≡ self.old.last }
        ensures cause { HasCause (O.faults self.old.connections.outside + self.old.connections.faults) (O.faults self.new.connections.outside + self.new.connections.faults) result }
    {
        for member in 0..self.setup.names().len() {
            if self.connections.is_owed(member) {
                let pushed = push_open(self.connections.alloc, &self.setup, member, lines);
                self.connections.kept(pushed)?;
                self.connections.settle(member);
            }
        }
        Ok(())
    }

    /// Reads once of a port, adds the lines of what came of a member, and says about how many bytes that are.
    fn read(&mut self, port: usize, body: &mut Vec<Bytes>) -> Result<usize, Failed>
        requires body { All IsShortLine body.old.items }
        ensures body { OnOk result (All IsShortLine body.new.items) }
        ensures keeps { Keeps self.old.connections.story.tale self.new.connections.story.tale }
        ensures joined { Joined self.old.connections.story.tale.past self.old.connections.table (O.came self.old.connections.outside) (O.went self.old.connections.outside) → Joined self.new.connections.story.tale.past self.new.connections.table (O.came self.new.connections.outside) (O.went self.new.connections.outside) }
        ensures left { self.new.left ≡ self.old.left }
        ensures setup { self.new.setup ≡ self.old.setup }
        ensures last { self.new.last ≡ self.old.last }
        ensures cause { HasCause (O.faults self.old.connections.outside + self.old.connections.faults) (O.faults self.new.connections.outside + self.new.connections.faults) result }
    {
        match self.connections.read(port, &mut self.room)? {
            Heard::Pieces { member, pieces } => {
                self.busy = true;
                let pushed = push_pieces(
                    self.connections.alloc,
                    &self.setup,
                    member,
                    &pieces,
                    body,
                );
                self.connections.kept(pushed)?;
                Ok(pieces.len().saturating_mul(4_096))
            }
            Heard::Kept => {
                self.busy = true;
                Ok(0)
            }
            Heard::Nothing | Heard::Held | Heard::Over(_) => Ok(0),
        }
    }

    /// Reads once of each port, from the one on that was not read in the round before, until the batch is full.
    fn read_all(&mut self, body: &mut Vec<Bytes>) -> Result<(), Failed>
        requires body { All IsShortLine body.old.items }
        ensures body { OnOk result (All IsShortLine body.new.items) }
        ensures keeps { Keeps self.old.connections.story.tale self.new.connections.story.tale }
        ensures joined { Joined self.old.connections.story.tale.past self.old.connections.table (O.came self.old.connections.outside) (O.went self.old.connections.outside) → Joined self.new.connections.story.tale.past self.new.connections.table (O.came self.new.connections.outside) (O.went self.new.connections.outside) }
        ensures left { self.new.left ≡ self.old.left }
        ensures setup { self.new.setup ≡ self.old.setup }
        ensures last { self.new.last ≡ self.old.last }
        ensures cause { HasCause (O.faults self.old.connections.outside + self.old.connections.faults) (O.faults self.new.connections.outside + self.new.connections.faults) result }
    {
        let ports = self.connections.ports;
        let mut size: usize = 0;
        let mut port = self.start;
        for _ in 0..ports {
            if size >= MAX_BYTES || body.len() >= MAX_LINES {
                self.busy = true;
                self.start = port;
                return Ok(());
            }
            size = size.saturating_add(self.read(port, body)?);
            port = port_after(port, ports);
        }
        self.start = port_after(port, ports);
        Ok(())
    }

    /// Lays the moment after the first lines of a batch, if the batch has some lines or one is due. Time does not go back.
    fn mark(&mut self, some: bool, lines: &mut Vec<Bytes>) -> Result<(), Failed>
        requires lines { All IsShortLine lines.old.items }
        ensures short { OnOk result (All IsShortLine lines.new.items) }
        ensures moment { OnOk result (IsMarked lines.old.items self.new.last lines.new.items) }
        ensures keeps { Keeps self.old.connections.story.tale self.new.connections.story.tale }
        ensures joined { Joined self.old.connections.story.tale.past self.old.connections.table (O.came self.old.connections.outside) (O.went self.old.connections.outside) → Joined self.new.connections.story.tale.past self.new.connections.table (O.came self.new.connections.outside) (O.went self.new.connections.outside) }
        ensures last { self.old.last ≤ℤ self.new.last }
        ensures left { self.new.left ≡ self.old.left }
        ensures setup { self.new.setup ≡ self.old.setup }
        ensures cause { HasCause (O.faults self.old.connections.outside + self.old.connections.faults) (O.faults self.new.connections.outside + self.new.connections.faults) result }
    {
        let now = self.clock.now();
        let due = self.has_member() && now >= self.last.saturating_add(TICK);
        if !some && !due {
            return Ok(());
        }
        self.last = self.last.max(now);
        let pushed = push_moment_line(self.connections.alloc, self.last, lines);
        self.connections.kept(pushed)?;
        Ok(())
    }

    /// Counts the lines of a round.
    fn count_lines(&mut self, lines: &[Bytes])
        ensures { self.new ≡ record self.old { lines = self.new.lines; bytes = self.new.bytes } }
    {
        self.lines = self.lines.saturating_add(lines.len() as u64);
        for line in lines {
            self.bytes = self.bytes.saturating_add(line.as_slice().len() as u64);
        }
    }

    /// Lays the moment and the body after the first lines of a batch, and brings it. Time does not go back.
    #[tactic(auto, using(crate::proofs::LineLaws::in_order))]
    fn bring(&mut self, lines: &mut Vec<Bytes>, body: Vec<Bytes>) -> Result<(), Failed>
        requires lines { All IsShortLine lines.old.items }
        requires body { All IsShortLine body.items }
        ensures short { OnOk result (All IsShortLine lines.new.items) }
        ensures order { OnOk result (IsInOrder lines.old.items self.new.last body.items lines.new.items) }
        ensures last { self.old.last ≤ℤ self.new.last }
        ensures brought { OnOk result (self.new.connections.story.tale.brought ≡ self.old.connections.story.tale.brought ++ lines.new.items) }
        ensures nothing { OnErr result (self.new.connections.story.tale.brought ≡ self.old.connections.story.tale.brought) }
        ensures told { self.new.connections.story.tale.told ≡ self.old.connections.story.tale.told }
        ensures put { (m : ℕ) → all_put self.new.connections.story.tale.past m ≡ all_put self.old.connections.story.tale.past m }
        ensures joined { Joined self.old.connections.story.tale.past self.old.connections.table (O.came self.old.connections.outside) (O.went self.old.connections.outside) → Joined self.new.connections.story.tale.past self.new.connections.table (O.came self.new.connections.outside) (O.went self.new.connections.outside) }
        ensures left { self.new.left ≡ self.old.left }
        ensures setup { self.new.setup ≡ self.old.setup }
        ensures cause { HasCause (O.faults self.old.connections.outside + self.old.connections.faults) (O.faults self.new.connections.outside + self.new.connections.faults) result }
    {
        let some = !lines.is_empty() || !body.is_empty();
        self.mark(some, lines)?;
        let pushed = push_all(body, lines);
        self.connections.kept(pushed)?;
        self.count_lines(lines);
        self.connections.bring(lines);
        Ok(())
    }

    /// Counts a round. The last one that the count allows is the end.
    fn count_round(&mut self) -> Going
        ensures fewer { result ≡ Going.On → self.new.left < self.old.left }
        ensures same { self.new.connections ≡ self.old.connections }
        ensures setup { self.new.setup ≡ self.old.setup }
        ensures last { self.new.last ≡ self.old.last }
    {
        self.rounds = self.rounds.saturating_add(1);
        if self.left == 0 {
            return Going::Stop;
        }
        self.left -= 1;
        Going::On
    }

    /// Gathers the lines of a round.
    fn gather(&mut self, lines: &mut Vec<Bytes>) -> Result<(), Failed>
        requires empty { lines.old.items ≡ [] }
        ensures brought { OnOk result (self.new.connections.story.tale.brought ≡ self.old.connections.story.tale.brought ++ lines.new.items) }
        ensures nothing { OnErr result (self.new.connections.story.tale.brought ≡ self.old.connections.story.tale.brought) }
        ensures short { OnOk result (All IsShortLine lines.new.items) }
        ensures told { self.new.connections.story.tale.told ≡ self.old.connections.story.tale.told }
        ensures put { (m : ℕ) → all_put self.new.connections.story.tale.past m ≡ all_put self.old.connections.story.tale.past m }
        ensures joined { Joined self.old.connections.story.tale.past self.old.connections.table (O.came self.old.connections.outside) (O.went self.old.connections.outside) → Joined self.new.connections.story.tale.past self.new.connections.table (O.came self.new.connections.outside) (O.went self.new.connections.outside) }
        ensures left { self.new.left ≡ self.old.left }
        ensures setup { self.new.setup ≡ self.old.setup }
        ensures last { self.old.last ≤ℤ self.new.last }
        ensures cause { HasCause (O.faults self.old.connections.outside + self.old.connections.faults) (O.faults self.new.connections.outside + self.new.connections.faults) result }
    {
        self.wait()?;
        let now = since(self.clock.now());
        self.now = now;
        self.connections.let_in(now)?;
        self.connections.end_late(now);
        self.connections.flush_all();
        self.connections.end_slow(now);
        let mut body = Vec::new(self.connections.alloc);
        self.pay(lines)?;
        self.look_all(lines, &mut body)?;
        self.read_all(&mut body)?;
        self.hear(&mut body)?;
        self.end_stale(&mut body)?;
        self.bring(lines, body)
    }

    /// One round, whose lines are: first `O` lines, then at most one `T` line, and then what members and operators sent. The round after
    /// one in which an operator asked for the end is the last: so his answer goes out, and goes out after the lines are kept.
    pub(crate) fn round(&mut self, lines: &mut Vec<Bytes>) -> Result<Going, Failed>
        requires empty { lines.old.items ≡ [] }
        ensures brought { OnOk result (self.new.connections.story.tale.brought ≡ self.old.connections.story.tale.brought ++ lines.new.items) }
        ensures nothing { OnErr result (self.new.connections.story.tale.brought ≡ self.old.connections.story.tale.brought) }
        ensures short { OnOk result (All IsShortLine lines.new.items) }
        ensures told { self.new.connections.story.tale.told ≡ self.old.connections.story.tale.told }
        ensures put { (m : ℕ) → all_put self.new.connections.story.tale.past m ≡ all_put self.old.connections.story.tale.past m }
        ensures joined { Joined self.old.connections.story.tale.past self.old.connections.table (O.came self.old.connections.outside) (O.went self.old.connections.outside) → Joined self.new.connections.story.tale.past self.new.connections.table (O.came self.new.connections.outside) (O.went self.new.connections.outside) }
        ensures setup { self.new.setup ≡ self.old.setup }
        ensures fewer { IfOk result (λ going. going ≡ Going.On → self.new.left < self.old.left) }
        ensures last { self.old.last ≤ℤ self.new.last }
        ensures cause { HasCause (O.faults self.old.connections.outside + self.old.connections.faults) (O.faults self.new.connections.outside + self.new.connections.faults) result }
    {
        let going = self.count_round();
        let stop = self.stop;
        self.gather(lines)?;
        Ok(if stop { Going::Stop } else { going })
    }
}
