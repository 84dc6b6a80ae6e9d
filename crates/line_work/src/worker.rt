//! The lines of a feed, worked one after the other.
ghost use Rattle.std.specs.Prelude.{ℕ, List, map, ◌≡◌, ◌↔◌, ◌<◌, ◌++◌, ◌∷◌, [], IfOk, OnOk, IfErr, length};
ghost use Rattle.std.specs.Prelude.{IsOkAnd, IsTrue, Some, slice_get};
ghost use Rattle.venue_words.specs.Conditions.{IsConfig, fits_limits};
ghost use Rattle.venue_words.specs.Floors.{IsSetUpFor, is_configured, setup_of};
ghost use Rattle.session_core.specs.Machine.{IsUp};
ghost use Rattle.member_gate.specs.Desks.{DeskView};
ghost use Rattle.member_gate.specs.Reporting.{AreFronts};
ghost use Rattle.member_gate.specs.Submitting.{TookAll, Waited};
ghost use Rattle.script_text.specs.Body.{IsLineOf};
ghost use Rattle.line_work.specs.FeedState.{FeedState, before_lines};
ghost use Rattle.line_work.specs.LineWork.{work_of_line, work_of_moment, work_of_piece, work_of_open, work_of_text};
ghost use Rattle.line_work.specs.Pulling.{PulledOne};
ghost use Rattle.line_work.specs.Refusing.{TookPart, IsRefused};
ghost use Rattle.line_work.specs.Standing.{AreDesks, StandsFor, fresh_worker};

use crate::faults::refusal_at;
use crate::opening::open_desk;
use crate::pulling::pull_desk;
use crate::quoting::submit;
use crate::source::Source;
use crate::taking::take_piece;
use crate::ticking::tick_all;
use member_gate::{Awaited, Desk, DeskRefusal, desks_of};
use script_text::{Line, LineFault, read_line};
use std::alloc::Global;
use std::marker::Model;
use std::sync::ledger::Ledger;
use venue_words::{Config, Floor, NoMemory, Steps};

/// Works the lines of a feed: it keeps the moment and the desks of all members, and works over any floor.
pub struct LineWorker {
    alloc: Global,
    config: Config,
    /// By member.
    desks: Vec<Desk>,
    /// In milliseconds since 1970-01-01 00:00 UTC.
    moment: i64,
}

// Written out, so that crates above let go of one by this theorem, and not part by part.
impl Drop for LineWorker {
    fn drop(self) {
        let LineWorker {
            alloc: _,
            config: _,
            desks: _,
            moment: _,
        } = self;
    }
}

impl Model for LineWorker {
    ghost use Rattle.venue_words.specs.Conditions.{IsConfig};
    ghost use Rattle.line_work.specs.Standing.{AreDesks, WorkerView, worker_of};

    ghost Value = { WorkerView };

    ghost view = { λ w. worker_of w.config w.moment w.desks.items };

    ghost invariant = { λ w. IsConfig w.config × AreDesks w.config w.desks.items };
}

impl LineWorker {
    /// Before the first line: no member has connected, and the moment is that of the config's beginning.
    pub fn new(alloc: Global, config: Config) -> Result<LineWorker, NoMemory>
        requires { IsConfig config }
        ensures fresh { IfOk result (λ worker. worker ≡ fresh_worker config) }
        ensures stands { IfOk result (λ worker. StandsFor worker (before_lines config)) }
    {
        let desks = desks_of(alloc, &config)?;
        let moment = config.begin;
        Ok(LineWorker {
            alloc,
            config,
            desks,
            moment,
        })
    }

    /// The config whose lines are worked. There is a desk for each of its members.
    pub fn config(&self) -> &Config
        ensures same { result.now ≡ self.now.config }
        ensures config { IsConfig result.now }
        ensures desks { AreDesks self.now.config self.now.desks }
    {
        &self.config
    }

    /// Whether a member's session is up.
    pub fn is_up(&self, member: u32) -> bool
        ensures { (desk : DeskView) → slice_get self.now.desks member ≡ Some desk → (IsTrue result ↔ IsUp desk.session) }
    {
        match self.desks.get(member as usize) {
            Some(desk) => desk.is_up(),
            None => false,
        }
    }

    /// The clock says a moment. It stands apart, since a line with a quote would clear its locals too.
    #[inline(never)]
    fn tick(&mut self, moment: i64, out: &mut Vec<u8>) -> Result<(), NoMemory>
        ensures stands { OnOk result ((state : FeedState) → StandsFor self.old state
            → StandsFor self.new (work_of_moment state moment).state) }
        ensures text { OnOk result ((state : FeedState) → StandsFor self.old state
            → out.new.items ≡ out.old.items ++ (work_of_moment state moment).text) }
        ensures config { self.new.config ≡ self.old.config }
        ensures cursors { map (λ desk. desk.cursors) self.new.desks ≡ map (λ desk. desk.cursors) self.old.desks }
    {
        self.moment = moment;
        tick_all(&self.config, self.desks.as_mut_slice(), moment, out)
    }

    /// A piece comes on a member's stream. It stands apart, as `tick` does.
    #[inline(never)]
    fn take<F: Floor, L: Ledger>(
        &mut self,
        floor: &mut F,
        feed: u32,
        member: u32,
        piece: &[u8],
        out: &mut Vec<u8>,
        steps: &mut Steps<L>,
    ) -> Result<(), DeskRefusal>
        requires setup { IsSetUpFor self.old.config (F.mark floor.old).setup }
        requires member { member < length self.old.config.members }
        ensures stands { OnOk result ((state : FeedState) → StandsFor self.old state
            → StandsFor self.new (work_of_piece state member piece.now).state) }
        ensures text { OnOk result ((state : FeedState) → StandsFor self.old state
            → out.new.items ≡ out.old.items ++ (work_of_piece state member piece.now).text) }
        ensures took { OnOk result ((state : FeedState) → StandsFor self.old state
            → TookAll F.at F.step_limit (F.mark floor.old) feed state.moment (work_of_piece state member piece.now).submissions
            (floor.old, steps.old) (floor.new, steps.new)) }
        ensures stopped { IfErr result (λ refusal. (state : FeedState) → StandsFor self.old state
            → TookPart F.at F.step_limit (F.mark floor.old) feed state.moment refusal
            (work_of_piece state member piece.now).submissions (floor.old, steps.old) (floor.new, steps.new)) }
        ensures mark { F.mark floor.new ≡ F.mark floor.old }
        ensures config { self.new.config ≡ self.old.config }
        ensures cursors { map (λ desk. desk.cursors) self.new.desks ≡ map (λ desk. desk.cursors) self.old.desks }
    {
        let source = Source {
            config: &self.config,
            member,
            feed,
            moment: self.moment,
        };
        let desk = &mut self.desks[member as usize];
        take_piece(source, floor, desk, piece, out, steps)
    }

    /// A member connects anew.
    fn open(&mut self, member: u32)
        requires { member < length self.old.config.members }
        ensures stands { (state : FeedState) → StandsFor self.old state
            → StandsFor self.new (work_of_open state member).state }
        ensures config { self.new.config ≡ self.old.config }
        ensures cursors { map (λ desk. desk.cursors) self.new.desks ≡ map (λ desk. desk.cursors) self.old.desks }
    {
        open_desk(self.desks.as_mut_slice(), member);
    }

    /// Does what a line says, as `work` does, which lets go of the line then.
    fn work_line<F: Floor, L: Ledger>(
        &mut self,
        floor: &mut F,
        feed: u32,
        line: &Line,
        out: &mut Vec<u8>,
        steps: &mut Steps<L>,
    ) -> Result<(), DeskRefusal>
        requires line { IsLineOf self.old.config line.now }
        requires setup { IsSetUpFor self.old.config (F.mark floor.old).setup }
        ensures stands { OnOk result ((state : FeedState) → StandsFor self.old state
            → StandsFor self.new (work_of_line state line.now).state) }
        ensures text { OnOk result ((state : FeedState) → StandsFor self.old state
            → out.new.items ≡ out.old.items ++ (work_of_line state line.now).text) }
        ensures took { OnOk result ((state : FeedState) → StandsFor self.old state
            → TookAll F.at F.step_limit (F.mark floor.old) feed (work_of_line state line.now).state.moment
            (work_of_line state line.now).submissions (floor.old, steps.old) (floor.new, steps.new)) }
        ensures stopped { IfErr result (λ refusal. (state : FeedState) → StandsFor self.old state
            → TookPart F.at F.step_limit (F.mark floor.old) feed (work_of_line state line.now).state.moment refusal
            (work_of_line state line.now).submissions (floor.old, steps.old) (floor.new, steps.new)) }

        // What stays.
        ensures mark { F.mark floor.new ≡ F.mark floor.old }
        ensures config { self.new.config ≡ self.old.config }
        ensures cursors { map (λ desk. desk.cursors) self.new.desks ≡ map (λ desk. desk.cursors) self.old.desks }
    {
        match line {
            Line::Moment(moment) => match self.tick(*moment, out) {
                Ok(()) => Ok(()),
                Err(_) => Err(DeskRefusal::NoMemory),
            },
            Line::Quote { symbol, command } => {
                submit(floor, feed, self.moment, *symbol, command, steps)
            }
            Line::Piece { member, bytes } => {
                self.take(floor, feed, *member, bytes.as_slice(), out, steps)
            }
            Line::Open { member } => {
                self.open(*member);
                Ok(())
            }
        }
    }

    /// Does what a line of this config says, which comes by the feed of this number, from 1 on: its commands go to the floor,
    /// and the replies of the members' sessions are appended, one frame in a line. After a refusal the floor took the first of
    /// its commands, and the worker stands at no line any more.
    pub fn work<F: Floor, L: Ledger>(
        &mut self,
        floor: &mut F,
        feed: u32,
        line: Line,
        out: &mut Vec<u8>,
        steps: &mut Steps<L>,
    ) -> Result<(), DeskRefusal>
        requires line { IsLineOf self.old.config line }
        requires setup { IsSetUpFor self.old.config (F.mark floor.old).setup }
        ensures stands { OnOk result ((state : FeedState) → StandsFor self.old state
            → StandsFor self.new (work_of_line state line).state) }
        ensures text { OnOk result ((state : FeedState) → StandsFor self.old state
            → out.new.items ≡ out.old.items ++ (work_of_line state line).text) }
        ensures took { OnOk result ((state : FeedState) → StandsFor self.old state
            → TookAll F.at F.step_limit (F.mark floor.old) feed (work_of_line state line).state.moment
            (work_of_line state line).submissions (floor.old, steps.old) (floor.new, steps.new)) }
        ensures stopped { IfErr result (λ refusal. (state : FeedState) → StandsFor self.old state
            → TookPart F.at F.step_limit (F.mark floor.old) feed (work_of_line state line).state.moment refusal
            (work_of_line state line).submissions (floor.old, steps.old) (floor.new, steps.new)) }

        // What stays.
        ensures mark { F.mark floor.new ≡ F.mark floor.old }
        ensures config { self.new.config ≡ self.old.config }
        ensures cursors { map (λ desk. desk.cursors) self.new.desks ≡ map (λ desk. desk.cursors) self.old.desks }
    {
        self.work_line(floor, feed, &line, out, steps)
    }

    /// Reads a line, without its LF, and works it as `work` does. A fault is that of line 1: why the line can't be read, or
    /// `Limit` with `Events` where a command of it came to a journal that held its limit. Then the floor took the first of its
    /// commands, and the worker stands at no line any more.
    pub fn line<F: Floor, L: Ledger>(
        &mut self,
        floor: &mut F,
        feed: u32,
        text: &[u8],
        out: &mut Vec<u8>,
        steps: &mut Steps<L>,
    ) -> Result<(), LineFault>
        requires { IsSetUpFor self.old.config (F.mark floor.old).setup }
        ensures stands { OnOk result ((state : FeedState) → StandsFor self.old state
            → IsOkAnd (work_of_text state text.now) (λ work. StandsFor self.new work.state)) }
        ensures text { OnOk result ((state : FeedState) → StandsFor self.old state
            → IsOkAnd (work_of_text state text.now) (λ work. out.new.items ≡ out.old.items ++ work.text)) }
        ensures took { OnOk result ((state : FeedState) → StandsFor self.old state
            → IsOkAnd (work_of_text state text.now) (λ work. TookAll F.at F.step_limit (F.mark floor.old) feed
            work.state.moment work.submissions (floor.old, steps.old) (floor.new, steps.new))) }
        ensures refused { IfErr result (λ fault. (state : FeedState) → StandsFor self.old state
            → IsRefused F.at F.step_limit (F.mark floor.old) feed fault (work_of_text state text.now)
            (floor.old, steps.old) (floor.new, steps.new)) }

        // What stays.
        ensures mark { F.mark floor.new ≡ F.mark floor.old }
        ensures config { self.new.config ≡ self.old.config }
        ensures cursors { map (λ desk. desk.cursors) self.new.desks ≡ map (λ desk. desk.cursors) self.old.desks }
    {
        let line = match read_line(self.alloc, text, &self.config) {
            Ok(line) => line,
            Err(fault) => return Err(fault),
        };
        match self.work(floor, feed, line, out, steps) {
            Ok(()) => Ok(()),
            Err(refusal) => Err(refusal_at(1, refusal)),
        }
    }

    /// Sends a member his reports past the cursors, of the symbols that are asked, at the moment of the last line, where his
    /// session is up: they are appended, one frame in a line, and all cursors go on. After a refusal the member may have been sent
    /// what is not appended. It stands apart, as `tick` does.
    #[inline(never)]
    pub fn pull_news<F: Floor>(
        &mut self,
        floor: &mut F,
        member: u32,
        awaited: Awaited<'_>,
        out: &mut Vec<u8>,
    ) -> Result<(), NoMemory>
        requires setup { IsSetUpFor self.old.config (F.mark floor.old).setup }
        requires member { member < length self.old.config.members }
        requires awaited { AreFronts (length self.old.config.symbols) (λ symbol. (F.at floor.old symbol).reports) awaited.fronts.now }
        ensures pulled { OnOk result (PulledOne self.old.config self.old.moment awaited.entry.asked.now
            (λ symbol. (F.at floor.new symbol).reports) member self.old.desks self.new.desks out.old.items out.new.items) }

        // What stays.
        ensures mark { F.mark floor.new ≡ F.mark floor.old }
        ensures waited { (symbol : ℕ) → Waited (F.at floor.old symbol) (F.at floor.new symbol) }
        ensures config { self.new.config ≡ self.old.config }
        ensures moment { self.new.moment ≡ self.old.moment }
    {
        let source = Source {
            config: &self.config,
            member,
            feed: 0,
            moment: self.moment,
        };
        let desk = &mut self.desks[member as usize];
        pull_desk(source, floor, desk, awaited, out)
    }
}
