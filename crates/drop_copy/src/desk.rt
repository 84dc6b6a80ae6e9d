//! The desk of a drop session.
ghost use Rattle.std.specs.Prelude.{◌≡◌, ◌≢◌, ◌≤◌, ◌<◌, ◌++◌, ◌⊎◌, ℕ, [], None, length, IfOk, OnOk, OnErr, IsOk};
ghost use Rattle.venue_words.specs.Conditions.{IsConfig};
ghost use Rattle.venue_words.specs.Floors.{IsSetUpFor, TurnsRose};
ghost use Rattle.venue_words.specs.declared.limits.TheConstants.{MAX_FRAME_BYTES};
ghost use Rattle.fix_frames.specs.Reading.{reading_of};
ghost use Rattle.session_core.specs.Machine.{IsUp, IsOver, sending, on_clock, given_up};
ghost use Rattle.session_core.specs.Runs.{send_if_up};
ghost use Rattle.session_core.specs.State.{cause_of};
ghost use Rattle.member_gate.specs.Submitting.{Waited};
ghost use Rattle.drop_copy.specs.Copies.{copies_past};
ghost use Rattle.drop_copy.specs.Desks.{AreConfigured, AreRising, AreUnread, GaveUpOver, work_of_piece};
ghost use Rattle.drop_copy.specs.Looks.{AllWentOn};

use crate::answering::work_frames;
use crate::copying::{Listed, look_at_all};
use fix_frames::Framer;
use session_core::{MessageList, Session, Turn};
use std::alloc::Global;
use std::marker::Model;
use std::mem::swap;
use venue_words::{Bytes, Config, Floor, NoMemory};

/// The desk of a drop session: the session, the stream of bytes of its connection, and for each symbol and listed member how many
/// reports were copied or passed over. Session and cursors outlive a connection.
pub struct DropDesk {
    alloc: Global,
    session: Session,
    framer: Framer,
    members: Vec<u32>,
    /// By symbol, and then by listed member, how many reports were gone through; 0 where there is none.
    cursors: Vec<u32>,
    /// Room for the next cursors.
    moved: Vec<u32>,
    /// Room for the messages that are sent next.
    messages: MessageList,
}

// Written out, so that crates above let go of one by this theorem, and not part by part.
impl Drop for DropDesk {
    fn drop(self) {
        let DropDesk {
            alloc: _,
            session: _,
            framer: _,
            members: _,
            cursors: _,
            moved: _,
            messages: _,
        } = self;
    }
}

impl Model for DropDesk {
    ghost use Rattle.drop_copy.specs.Desks.{DropView};

    ghost Value = { DropView };

    ghost view = { λ d.
        record {
          session = d.session;
          unread = d.framer.kept;
          members = d.members.items;
          cursors = d.cursors.items;
        } };
}

impl DropDesk {
    ghost use Rattle.drop_copy.specs.Desks.{fresh_drop, connected_drop};

    /// The desk of a drop session of this name, before its first connection, for configured members in rising order, with room for
    /// all its cursors.
    pub fn new(
        alloc: Global,
        name: Bytes,
        members: Vec<u32>,
        config: &Config,
    ) -> Result<DropDesk, NoMemory>
        requires configured { AreConfigured members.items config.now }
        requires rising { AreRising members.items }
        ensures { IfOk result (λ desk. desk ≡ fresh_drop name members.items) }
    {
        let count = config.symbols.len().saturating_mul(members.len());
        Ok(DropDesk {
            alloc,
            session: Session::new(alloc, name),
            framer: Framer::new(alloc),
            members,
            cursors: Vec::with_capacity(alloc, count)?,
            moved: Vec::with_capacity(alloc, count)?,
            messages: MessageList::new(alloc),
        })
    }

    /// Begins a new connection, whose stream is empty. What was half received is dropped; the session's numbers and messages and
    /// the cursors stay. This takes no memory.
    pub fn open(&mut self)
        ensures { self.new ≡ connected_drop self.old }
    {
        self.session.open();
        self.framer = Framer::new(self.alloc);
    }

    /// Feeds a piece, and works all frames that the stream has then.
    fn work_piece(
        &mut self,
        moment: i64,
        piece: &[u8],
        replies: &mut Vec<Bytes>,
    ) -> Result<(), NoMemory>
        ensures session { OnOk result (self.new.session ≡ (work_of_piece moment self.old piece.now).session) }
        ensures replies { OnOk result (replies.new.items
            ≡ replies.old.items ++ (work_of_piece moment self.old piece.now).replies) }
        ensures unread { OnOk result (IsOver self.new.session
            ⊎ AreUnread (self.old.unread ++ piece.now) self.new.unread) }
        ensures few { OnOk result (IsOver self.new.session ⊎ (length self.new.unread < MAX_FRAME_BYTES)) }
        ensures gave_up { OnErr result (GaveUpOver moment self.old.session
            (reading_of (self.old.unread ++ piece.now)).frames (given_up self.new.session)) }
        ensures members { self.new.members ≡ self.old.members }
        ensures cursors { self.new.cursors ≡ self.old.cursors }
    {
        self.framer.feed(piece)?;
        work_frames(
            self.alloc,
            &mut self.framer,
            &mut self.session,
            moment,
            replies,
        )
    }

    /// Works the next piece of the connection's bytes, at a moment in milliseconds since 1970-01-01 00:00 UTC: the frames that it
    /// completes go through the session in their order, each message that it hands out gets a BusinessMessageReject, and what is
    /// to be sent comes back. The turn hands no message out. After a connection ended nothing is worked, and no byte is kept,
    /// until `open`. Where memory is wanted the connection ends without a cause, and what was to be sent is lost, though its
    /// numbers may be used.
    pub fn take(&mut self, moment: i64, piece: &[u8]) -> Result<Turn<'static>, NoMemory>
        // What is sent, and the session behind it, are those of the piece's frames.
        ensures turn { IfOk result (λ turn. turn
            ≡ sending self.new.session (work_of_piece moment self.old piece.now).replies) }
        ensures session { OnOk result (self.new.session ≡ (work_of_piece moment self.old piece.now).session) }

        // Unless the connection has ended, the stream goes on from the bytes that are unread then. These are fewer than the
        // greatest frame has.
        ensures unread { OnOk result (IsOver self.new.session
            ⊎ AreUnread (self.old.unread ++ piece.now) self.new.unread) }
        ensures few { OnOk result (IsOver self.new.session ⊎ (length self.new.unread < MAX_FRAME_BYTES)) }

        // A connection that had ended takes nothing, and one for which memory was wanted has ended without a cause: the session
        // worked the first frames of the piece, and gave up over the next one.
        ensures rests { IsOver self.old.session → IsOk result × (self.new ≡ self.old) }
        ensures gave_up { OnErr result (GaveUpOver moment self.old.session
            (reading_of (self.old.unread ++ piece.now)).frames self.new.session) }
        ensures ended { OnErr result (IsOver self.new.session) }
        ensures no_cause { OnErr result (cause_of self.new.session.state.phase ≡ None) }

        // What stays.
        ensures members { self.new.members ≡ self.old.members }
        ensures cursors { self.new.cursors ≡ self.old.cursors }
    {
        let mut replies = Vec::new(self.alloc);
        if self.session.is_over() {
            return Ok(self.session.sending(replies));
        }
        match self.work_piece(moment, piece, &mut replies) {
            Ok(()) => Ok(self.session.sending(replies)),
            Err(_) => {
                self.session.give_up();
                Err(NoMemory)
            }
        }
    }

    /// Copies of the listed members' reports past the cursors, framed with the session's next numbers, at a moment in milliseconds
    /// since 1970-01-01 00:00 UTC: by symbol in the config's order, then by listed member, each member's in their own order. The
    /// session keeps them, and each cursor goes on to the end of the reports that were seen for it. None come, and nothing
    /// changes, where the session is not up. A refusal leaves the desk as it was; the floor may have been asked.
    pub fn pull<F: Floor>(
        &mut self,
        floor: &mut F,
        config: &Config,
        moment: i64,
    ) -> Result<Vec<Bytes>, NoMemory>
        requires config { IsConfig config.now }
        requires setup { IsSetUpFor config.now (F.mark floor.old).setup }
        requires members { AreConfigured self.old.members config.now }

        // What is sent: the copies between the cursors before and after.
        ensures frames { IfOk result (λ frames. frames.items ≡ (send_if_up self.old.session
            (copies_past config.now self.old.members self.old.cursors self.new.cursors
            (λ symbol. (F.at floor.new symbol).reports)) moment).turn.replies) }
        ensures session { OnOk result (self.new.session ≡ (send_if_up self.old.session
            (copies_past config.now self.old.members self.old.cursors self.new.cursors
            (λ symbol. (F.at floor.new symbol).reports)) moment).machine) }

        // Each cursor went on to the end of what was seen for it.
        ensures cursors { OnOk result (IsUp self.old.session → AllWentOn F.at (F.reports_in (F.mark floor.old))
            (length config.now.symbols) self.old.members self.old.cursors self.new.cursors floor.old floor.new) }

        // Where the session is not up.
        ensures down { (IsUp self.old.session → ⊥) → IsOk result × (self.new ≡ self.old) × (floor.new ≡ floor.old) }

        // What is asked of the floor.
        ensures mark { F.mark floor.new ≡ F.mark floor.old }
        ensures waited { (symbol : ℕ) → Waited (F.at floor.old symbol) (F.at floor.new symbol) }
        ensures others { (symbol : ℕ) → length config.now.symbols ≤ symbol
            → F.at floor.new symbol ≡ F.at floor.old symbol }
        ensures turns { OnOk result (IsUp self.old.session → 0 < length self.old.members → (symbol : ℕ)
            → symbol < length config.now.symbols → TurnsRose (F.at floor.old symbol).turns (F.at floor.new symbol).turns) }

        // What stays.
        ensures members { self.new.members ≡ self.old.members }
        ensures unread { self.new.unread ≡ self.old.unread }
        ensures err { OnErr result (self.new ≡ self.old) }
    {
        if !self.session.is_up() {
            return Ok(Vec::new(self.alloc));
        }
        self.messages.clear();
        self.moved.clear();
        let listed = Listed {
            config,
            members: &self.members,
            cursors: &self.cursors,
        };
        look_at_all(floor, listed, &mut self.messages, &mut self.moved)?;
        let frames = self.session.send_all(&self.messages, moment)?;
        swap(&mut self.cursors, &mut self.moved);
        Ok(frames)
    }

    /// The clock says this moment, in milliseconds since 1970-01-01 00:00 UTC: the session sends at most one message, or ends the
    /// connection where its peer is silent. Where memory is wanted the connection ends without a cause.
    pub fn tick(&mut self, moment: i64) -> Result<Turn<'static>, NoMemory>
        ensures session { OnOk result (self.new
            ≡ record self.old { session = (on_clock self.old.session moment).machine }) }
        ensures turn { IfOk result (λ turn. turn
            ≡ sending self.new.session (on_clock self.old.session moment).turn.replies) }
        ensures up { OnErr result (IsUp self.old.session) }
        ensures err { OnErr result (self.new ≡ record self.old { session = given_up self.old.session }) }
    {
        let turn = self.session.tick(moment)?;
        Ok(self.session.sending(turn.replies.into_vec()))
    }
}
