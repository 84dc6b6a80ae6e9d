//! The desk of a member.
ghost use Rattle.std.specs.Prelude.{◌≡◌, ◌↔◌, ◌≤◌, ◌<◌, ◌++◌, ◌⊎◌, ℕ, [], true, false, length, IfOk, OnOk, OnErr, IfErr, IsOk, IsTrue};
ghost use Rattle.venue_words.specs.Conditions.{IsConfig};
ghost use Rattle.venue_words.specs.Floors.{IsSetUpFor, TurnsRose};
ghost use Rattle.venue_words.specs.declared.limits.TheConstants.{MAX_FRAME_BYTES};
ghost use Rattle.session_core.specs.Machine.{IsUp, IsOver, sending, on_clock, given_up};
ghost use Rattle.session_core.specs.Runs.{send_if_up};
ghost use Rattle.fix_frames.specs.Reading.{reading_of};
ghost use Rattle.member_gate.specs.Submitting.{TookAll, Stopped, Waited};
ghost use Rattle.member_gate.specs.Working.{AreUnread, work_of_reading};
ghost use Rattle.member_gate.specs.Reporting.{cursor_at, asked_at, asked_reports, AreFronts, ArePast, HasNoNews};
ghost use Rattle.member_gate.specs.Pulling.{reports_sent, IsPull};

use crate::awaited::Awaited;
use crate::names::name_at;
use crate::origin::Origin;
use crate::refusal::DeskRefusal;
use crate::reporting::{Reader, are_past, look_all, look_past};
use crate::worked::Worked;
use crate::working::work_frames;
use fix_frames::Framer;
use session_core::{MessageList, Session, Turn};
use std::alloc::Global;
use std::marker::Model;
use std::mem::swap;
use std::sync::ledger::Ledger;
use venue_words::{Bytes, Config, Floor, NoMemory, Steps};

/// The desk of a member: his session, the stream of bytes of his connection, and for each symbol how many of its
/// reports he has been sent or passed over. Session and cursors outlive a connection.
pub struct Desk {
    alloc: Global,
    member: u32,
    session: Session,
    framer: Framer,
    /// By symbol, how many of its reports were gone through; 0 where there is none.
    cursors: Vec<u32>,
    /// Room for the next cursors.
    fronts: Vec<u32>,
    /// Room for the messages that are sent next.
    messages: MessageList,
    /// How many commands the last piece submitted.
    submitted: u32,
}

// Written out, so that crates above let go of a desk by this theorem, and not part by part.
impl Drop for Desk {
    fn drop(self) {
        let Desk {
            alloc: _,
            member: _,
            session: _,
            framer: _,
            cursors: _,
            fronts: _,
            messages: _,
            submitted: _,
        } = self;
    }
}

impl Model for Desk {
    ghost use Rattle.member_gate.specs.Desks.{DeskView};

    ghost Value = { DeskView };

    ghost view = { λ d.
        record {
          member = d.member;
          session = d.session;
          unread = d.framer.kept;
          cursors = d.cursors.items;
          submitted = d.submitted;
        } };
}

impl Desk {
    ghost use Rattle.member_gate.specs.Desks.{fresh_desk, connected_desk, work_of_piece};

    /// The desk of a configured member, before his first connection.
    pub fn new(alloc: Global, member: u32, config: &Config) -> Result<Desk, NoMemory>
        requires { member < length config.now.members }
        ensures { IfOk result (λ desk. desk ≡ fresh_desk config.now member) }
    {
        let name = Bytes::copy_of(alloc, name_at(config.members.as_slice(), member))?;
        Ok(Desk {
            alloc,
            member,
            session: Session::new(alloc, name),
            framer: Framer::new(alloc),
            cursors: Vec::new(alloc),
            fronts: Vec::new(alloc),
            messages: MessageList::new(alloc),
            submitted: 0,
        })
    }

    /// Begins a new connection, whose stream is empty. What was half received is dropped; the session's numbers and
    /// messages and the cursors stay. This takes no memory.
    pub fn open(&mut self)
        ensures { self.new ≡ connected_desk self.old }
    {
        self.session.open();
        self.framer = Framer::new(self.alloc);
    }

    /// Feeds a piece, and works all frames that the stream has then.
    fn work_piece<F: Floor, L: Ledger>(
        &mut self,
        floor: &mut F,
        origin: Origin<'_>,
        piece: &[u8],
        worked: &mut Worked,
        steps: &mut Steps<L>,
    ) -> Result<(), DeskRefusal>
        requires config { IsConfig origin.config.now }
        requires setup { IsSetUpFor origin.config.now (F.mark floor.old).setup }
        requires member { origin.member < length origin.config.now.members }
        requires none { worked.old.submitted ≡ 0 }
        ensures session { OnOk result (self.new.session ≡ (work_of_reading origin.entry.config.now origin.entry.member
            origin.entry.moment self.old.session (reading_of (self.old.unread ++ piece.now))).session) }
        ensures replies { OnOk result (worked.new.replies.items ≡ worked.old.replies.items
            ++ (work_of_reading origin.entry.config.now origin.entry.member origin.entry.moment self.old.session
            (reading_of (self.old.unread ++ piece.now))).replies) }
        ensures count { OnOk result (worked.new.submitted ≡ length (work_of_reading origin.entry.config.now
            origin.entry.member origin.entry.moment self.old.session
            (reading_of (self.old.unread ++ piece.now))).submissions) }
        ensures unread { OnOk result (AreUnread (self.old.unread ++ piece.now) self.new.unread) }
        ensures few { OnOk result (IsOver self.new.session ⊎ (length self.new.unread < MAX_FRAME_BYTES)) }
        ensures mark { F.mark floor.new ≡ F.mark floor.old }
        ensures took { OnOk result (TookAll F.at F.step_limit (F.mark floor.old) origin.entry.feed origin.entry.moment
            (work_of_reading origin.entry.config.now origin.entry.member origin.entry.moment self.old.session
            (reading_of (self.old.unread ++ piece.now))).submissions (floor.old, steps.old) (floor.new, steps.new)) }
        ensures stopped { IfErr result (λ refusal. Stopped F.at F.step_limit (F.mark floor.old) origin.entry.config.now
            origin.entry.member origin.entry.feed origin.entry.moment self.old.session
            (reading_of (self.old.unread ++ piece.now)).frames refusal (given_up self.new.session) worked.new.submitted
            (floor.old, steps.old) (floor.new, steps.new)) }
        ensures member { self.new.member ≡ self.old.member }
        ensures cursors { self.new.cursors ≡ self.old.cursors }
    {
        self.framer.feed(piece)?;
        work_frames(
            &mut self.framer,
            &mut self.session,
            floor,
            origin,
            worked,
            steps,
        )
    }

    /// Works the next piece of the connection's bytes, at a moment in milliseconds since 1970-01-01 00:00 UTC: the frames
    /// that it completes go through the session in their order, each order among them is submitted by the number of its
    /// feed or connection, and what is to be sent comes back. The turn hands no message out. After a connection ended
    /// nothing is worked, and no byte is kept, until `open`.
    ///
    /// After a refusal the connection has ended without a cause, what was to be sent is lost, though its numbers may be
    /// used, and commands already submitted stand. A piece of more than 4,294,967,295 commands is refused as one that wants
    /// memory.
    pub fn take<F: Floor, L: Ledger>(
        &mut self,
        floor: &mut F,
        config: &Config,
        feed: u32,
        moment: i64,
        piece: &[u8],
        steps: &mut Steps<L>,
    ) -> Result<Turn<'static>, DeskRefusal>
        requires config { IsConfig config.now }
        requires setup { IsSetUpFor config.now (F.mark floor.old).setup }
        requires member { self.old.member < length config.now.members }

        // What is sent, and the session behind it, are those of the piece's frames.
        ensures turn { IfOk result (λ turn. turn
            ≡ sending self.new.session (work_of_piece config.now moment self.old piece.now).replies) }
        ensures session { OnOk result (self.new.session ≡ (work_of_piece config.now moment self.old piece.now).session) }

        // Unless the connection had ended before, the stream goes on from the bytes that are unread then. These are fewer
        // than the greatest frame has, unless it ended now.
        ensures unread { OnOk result (IsOver self.old.session
            ⊎ AreUnread (self.old.unread ++ piece.now) self.new.unread) }
        ensures few { OnOk result (IsOver self.new.session ⊎ (length self.new.unread < MAX_FRAME_BYTES)) }

        // The floor took exactly the commands of the piece's frames.
        ensures took { OnOk result (TookAll F.at F.step_limit (F.mark floor.old) feed moment
            (work_of_piece config.now moment self.old piece.now).submissions
            (floor.old, steps.old) (floor.new, steps.new)) }

        ensures submitted { OnOk result (self.new.submitted
            ≡ length (work_of_piece config.now moment self.old piece.now).submissions) }

        // After a refusal the connection has ended, and the floor took the commands of the frames before.
        ensures stopped { IfErr result (λ refusal. Stopped F.at F.step_limit (F.mark floor.old) config.now self.old.member
            feed moment self.old.session (reading_of (self.old.unread ++ piece.now)).frames refusal self.new.session
            self.new.submitted (floor.old, steps.old) (floor.new, steps.new)) }

        // A connection that has ended takes nothing more, and says again why it ended.
        ensures over { IsOver self.old.session → IsOk result × (self.new ≡ record self.old { submitted = 0 }) }
        ensures ended { IsOver self.old.session → IfOk result (λ turn. turn ≡ sending self.old.session []) }
        ensures rests { IsOver self.old.session → (floor.new ≡ floor.old) × (steps.new ≡ steps.old) }

        // What stays.
        ensures member { self.new.member ≡ self.old.member }
        ensures cursors { self.new.cursors ≡ self.old.cursors }
        ensures mark { F.mark floor.new ≡ F.mark floor.old }
    {
        self.submitted = 0;
        if self.session.is_over() {
            return Ok(self.session.sending(Vec::new(self.alloc)));
        }
        let origin = Origin {
            alloc: self.alloc,
            config,
            member: self.member,
            feed,
            moment,
        };
        let mut worked = Worked {
            replies: Vec::new(self.alloc),
            submitted: 0,
        };
        let end = self.work_piece(floor, origin, piece, &mut worked, steps);
        self.submitted = worked.submitted;
        match end {
            Ok(()) => Ok(self.session.sending(worked.replies)),
            Err(refusal) => {
                self.session.give_up();
                Err(refusal)
            }
        }
    }

    /// How many commands the last `take` submitted: 0 before the first. Who serves the member's link rings the others where
    /// there are any.
    pub fn submitted(&self) -> u32
        ensures { result ≡ self.now.submitted }
    {
        self.submitted
    }

    /// Whether the member's session is up: a Logon was taken, and the connection has not ended.
    pub fn is_up(&self) -> bool
        ensures { IsTrue result ↔ IsUp self.now.session }
    {
        self.session.is_up()
    }

    /// Whether the session is up and some symbol that is asked has reports past its cursor, of any member. Where all symbols are
    /// asked and none has, `pull` sends nothing and moves no cursor.
    pub fn has_news(&self, awaited: Awaited<'_>) -> bool
        ensures up { result ≡ true → IsUp self.now.session }
        ensures past { result ≡ true → ArePast awaited.entry.fronts.now awaited.entry.asked.now self.now.cursors }
        ensures none { result ≡ false → IsUp self.now.session
            → ArePast awaited.entry.fronts.now awaited.entry.asked.now self.now.cursors → ⊥ }
    {
        self.session.is_up() && are_past(awaited, &self.cursors)
    }

    /// The member's reports past the cursors, framed with the session's next numbers, at a moment in milliseconds since
    /// 1970-01-01 00:00 UTC: by symbol in the config's order, each symbol's in their own. The session keeps them, and each
    /// cursor goes on to the end of its symbol's reports. None come, and nothing changes, where the session is not up.
    /// A refusal leaves the desk as it was; the floor may have been asked.
    pub fn pull<F: Floor>(
        &mut self,
        floor: &mut F,
        config: &Config,
        moment: i64,
    ) -> Result<Vec<Bytes>, NoMemory>
        requires config { IsConfig config.now }
        requires setup { IsSetUpFor config.now (F.mark floor.old).setup }
        requires member { self.old.member < length config.now.members }

        ensures frames { IfOk result (λ frames. frames.items ≡ (reports_sent config.now moment
            (λ symbol. (F.at floor.new symbol).reports) self.old).turn.replies) }
        ensures pulled { IsPull F.at F.mark config.now moment (λ symbol. (F.at floor.new symbol).reports) result
            self.old self.new floor.old floor.new }
        ensures turns { OnOk result (IsUp self.old.session → (symbol : ℕ) → symbol < length config.now.symbols
            → TurnsRose (F.at floor.old symbol).turns (F.at floor.new symbol).turns) }
    {
        if !self.session.is_up() {
            return Ok(Vec::new(self.alloc));
        }
        self.messages.clear();
        self.fronts.clear();
        let reader = Reader {
            config,
            member: self.member,
            cursors: &self.cursors,
        };
        look_all(floor, reader, &mut self.messages, &mut self.fronts)?;
        let frames = self.session.send_all(&self.messages, moment)?;
        swap(&mut self.cursors, &mut self.fronts);
        Ok(frames)
    }

    /// As `pull`, for a caller who knows how many reports each symbol has, and at which symbols some of the member's may wait:
    /// only these symbols are asked, and of them only those with reports past the cursor. Every cursor goes on, so where reports
    /// waited at a symbol that is not asked, these are never sent.
    pub fn pull_news<F: Floor>(
        &mut self,
        floor: &mut F,
        config: &Config,
        awaited: Awaited<'_>,
        moment: i64,
    ) -> Result<Vec<Bytes>, NoMemory>
        requires config { IsConfig config.now }
        requires setup { IsSetUpFor config.now (F.mark floor.old).setup }
        requires member { self.old.member < length config.now.members }
        requires awaited { AreFronts (length config.now.symbols) (λ symbol. (F.at floor.old symbol).reports) awaited.fronts.now }
        ensures frames { IfOk result (λ frames. frames.items ≡ (reports_sent config.now moment
            (asked_reports awaited.entry.asked.now (λ symbol. (F.at floor.new symbol).reports)) self.old).turn.replies) }
        ensures pulled { IsPull F.at F.mark config.now moment
            (asked_reports awaited.entry.asked.now (λ symbol. (F.at floor.new symbol).reports)) result
            self.old self.new floor.old floor.new }
        ensures unasked { (symbol : ℕ)
            → HasNoNews (asked_at awaited.entry.asked.now symbol) (cursor_at self.old.cursors symbol) (F.at floor.old symbol)
            → F.at floor.new symbol ≡ F.at floor.old symbol }
        ensures turns { OnOk result (IsUp self.old.session → (symbol : ℕ) → symbol < length config.now.symbols
            → asked_at awaited.entry.asked.now symbol ≡ true → cursor_at self.old.cursors symbol < length (F.at floor.old symbol).reports
            → TurnsRose (F.at floor.old symbol).turns (F.at floor.new symbol).turns) }
    {
        if !self.session.is_up() {
            return Ok(Vec::new(self.alloc));
        }
        self.messages.clear();
        self.fronts.clear();
        let reader = Reader {
            config,
            member: self.member,
            cursors: &self.cursors,
        };
        look_past(floor, reader, awaited, &mut self.messages, &mut self.fronts)?;
        let sent = self.session.send_all(&self.messages, moment)?;
        swap(&mut self.fronts, &mut self.cursors);
        Ok(sent)
    }

    /// The clock says this moment, in milliseconds since 1970-01-01 00:00 UTC: the session sends at most one message, or
    /// ends the connection where its member is silent. Where memory is wanted the connection ends without a cause.
    pub fn tick(&mut self, moment: i64) -> Result<Turn<'static>, NoMemory>
        ensures session { OnOk result (self.new
            ≡ record self.old { session = (on_clock self.old.session moment).machine }) }
        ensures turn { IfOk result (λ turn. turn
            ≡ sending self.new.session (on_clock self.old.session moment).turn.replies) }
        ensures up { OnErr result (IsUp self.old.session) }
        ensures err { OnErr result (self.new ≡ record self.old { session = given_up self.old.session }) }
    {
        let turn = self.session.tick(moment)?;
        Ok(self.session.sending(turn.replies.into_vec()))
    }
}
