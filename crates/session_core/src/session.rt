//! The session of one member.
ghost use Rattle.std.specs.Prelude.{◌≡◌, ◌≤◌, ◌<◌, length, ◌++◌, ◌∷◌, [], Ok, IfOk, OnOk, OnErr, OnSome, IsOk, IsTrue, ◌↔◌};

use crate::answers::drops;
use crate::bodies::reject;
use crate::cases::{on_message, on_tick, on_too_long};
use crate::frames::{new_frame, push_listed_frames, push_new_frames};
use crate::lookup::{kind_of, message_number};
use crate::message::Incoming;
use crate::message_fields::MessageFields;
use crate::message_list::MessageList;
use crate::plan::Plan;
use crate::resent::frames_of_span;
use crate::sent::SentMessages;
use crate::state::{EndCause, Phase, State, cause_of, heard, is_over, is_up};
use crate::turn::{Turn, request_of, sent_now};
use fix_fields::{Field, FieldFault, Frame, fields};
use fix_write::MessageType;
use std::alloc::Global;
use std::marker::Model;
use venue_words::{Bytes, Items, NoMemory};

/// The session of one member, over one connection after the other: numbers and what was sent outlive a connection.
/// Every message that is sent takes the next number, from 1 on. Contracts see it as a machine.
pub struct Session {
    alloc: Global,
    member: Bytes,
    state: State,
    /// What is kept of each message that was sent, by number from 1 on.
    sent: SentMessages,
}

// Written out, so that crates above let go of a session by this theorem, and not part by part.
impl Drop for Session {
    fn drop(self) {
        let Session {
            alloc: _,
            member: _,
            state: _,
            sent: _,
        } = self;
    }
}

impl Model for Session {
    ghost use Rattle.session_core.specs.Machine.{Machine};

    ghost Value = { Machine };

    ghost view = { λ s. record { member = s.member; state = s.state; sent = s.sent } };
}

impl Session {
    ghost use Rattle.session_core.specs.Frames.{numbers_of};
    ghost use Rattle.session_core.specs.Plan.{HandsOutUp};
    ghost use Rattle.session_core.specs.State.{cause_of, heard};
    ghost use Rattle.session_core.specs.Cases.{on_no_number, on_message};
    ghost use Rattle.session_core.specs.Machine.{sending, rests, sent_before, replies_of, machine_after, carried_out, plan_for, on_fields, on_frame, ticks, on_clock, ends_too_long, on_overlong, on_send, on_send_one, on_reject, connected, given_up, fresh, IsUp, IsOver};

    /// The session of a member, closed until a Logon. This takes no memory.
    pub fn new(alloc: Global, member: Bytes) -> Session
        ensures { result ≡ fresh member }
    {
        Session {
            alloc,
            member,
            state: State {
                phase: Phase::New,
                next_in: 1,
                heartbeat: 0,
                received: 0,
                sent_at: 0,
                test_out: false,
            },
            sent: SentMessages::new(alloc),
        }
    }

    /// Begins a new connection, which wants a Logon. Numbers and what was sent stay. This takes no memory.
    pub fn open(&mut self)
        ensures { self.new ≡ connected self.old }
    {
        self.state.phase = Phase::New;
    }

    /// Whether a Logon was taken and the connection has not ended.
    pub fn is_up(&self) -> bool
        ensures { IsTrue result ↔ IsUp self.now }
    {
        is_up(self.state)
    }

    /// Whether the connection has ended.
    pub fn is_over(&self) -> bool
        ensures { IsTrue result ↔ IsOver self.now }
    {
        is_over(self.state.phase)
    }

    /// Ends the connection without a cause, as want of memory does: numbers and what was sent stay. A caller does so who
    /// can't go on with what the session handed out.
    pub fn give_up(&mut self)
        ensures { self.new ≡ given_up self.old }
    {
        self.state.phase = Phase::Ended(None);
    }

    /// The turn that sends these frames.
    pub fn sending(&self, frames: Vec<Bytes>) -> Turn<'static>
        ensures { result ≡ sending self.now frames.items }
    {
        Turn {
            replies: Items(frames),
            request: None,
            ended: cause_of(self.state.phase),
        }
    }

    /// A turn in which nothing happens.
    fn quiet<'a>(&self) -> Turn<'a>
        ensures { result ≡ (rests self.now).turn }
    {
        self.sending(Vec::new(self.alloc))
    }

    /// All that a plan sends.
    #[tactic(auto, unfolding(crate::specs::Machine::replies_of))]
    fn replies_of(&self, moment: i64, plan: &Plan) -> Result<Vec<Bytes>, NoMemory>
        ensures { IfOk result (λ replies. replies.items ≡ replies_of self.now moment plan.now) }
    {
        let member = self.member.as_slice();
        let mut replies = frames_of_span(self.alloc, member, moment, &self.sent, plan.resend)?;
        let before = if plan.reset { 0 } else { self.sent.len() };
        let messages = plan.messages.as_slice();
        push_new_frames(&mut replies, member, moment, before as u64 + 1, messages)?;
        Ok(replies)
    }

    /// Forgets what was sent where a plan says so, and keeps the numbers of its messages.
    fn keep_numbers(&mut self, plan: &Plan) -> Result<(), NoMemory>
        ensures ok { OnOk result (self.new
            ≡ record self.old { sent = sent_before self.old plan.now.reset ++ numbers_of plan.now.messages }) }
        ensures err { OnErr result (self.new ≡ self.old) }
    {
        let count = plan.messages.as_slice().len();
        if plan.reset {
            let mut sent = SentMessages::new(self.alloc);
            sent.push_numbers(count)?;
            self.sent = sent;
        } else {
            self.sent.push_numbers(count)?;
        }
        Ok(())
    }

    /// Does what a plan says, and gives its replies. Nothing changes where memory is wanted.
    fn follow(&mut self, moment: i64, plan: &Plan) -> Result<Vec<Bytes>, NoMemory>
        ensures machine { OnOk result (self.new ≡ machine_after self.old moment plan.now) }
        ensures replies { IfOk result (λ replies. replies.items ≡ replies_of self.old moment plan.now) }
        ensures phase { OnOk result (self.new.state.phase ≡ plan.now.state.phase) }
        ensures err { OnErr result (self.new ≡ self.old) }
    {
        let replies = self.replies_of(moment, plan)?;
        self.keep_numbers(plan)?;
        self.state = sent_now(moment, &replies, plan.state);
        Ok(replies)
    }

    /// Carries a plan out, over the fields of a message. Nothing changes where memory is wanted.
    #[tactic(auto, unfolding(crate::specs::Machine::carried_out))]
    fn carry_out<'a>(
        &mut self,
        moment: i64,
        fields: MessageFields<'a>,
        plan: &Plan,
    ) -> Result<Turn<'a>, NoMemory>
        requires { HandsOutUp plan.now }
        ensures machine { OnOk result (self.new ≡ (carried_out self.old moment fields.entry plan.now).machine) }
        ensures turn { IfOk result (λ turn. turn ≡ (carried_out self.old moment fields.entry plan.now).turn) }
        ensures up { IfOk result (λ turn. OnSome turn.request (IsUp self.new)) }
        ensures err { OnErr result (self.new ≡ self.old) }
    {
        let replies = self.follow(moment, plan)?;
        Ok(Turn {
            replies: Items(replies),
            request: request_of(fields, plan.request),
            ended: cause_of(plan.state.phase),
        })
    }

    /// What a message with no number does, over its fields. Nothing changes where memory is wanted.
    fn work_unnumbered<'a>(
        &mut self,
        fields: MessageFields<'a>,
        moment: i64,
    ) -> Result<Turn<'a>, NoMemory>
        ensures machine { OnOk result (self.new ≡ (carried_out self.old moment fields.entry
            (on_no_number (heard moment self.old.state))).machine) }
        ensures turn { IfOk result (λ turn. turn ≡ (carried_out self.old moment fields.entry
            (on_no_number (heard moment self.old.state))).turn) }
        ensures up { IfOk result (λ turn. OnSome turn.request (IsUp self.new)) }
        ensures err { OnErr result (self.new ≡ self.old) }
    {
        let state = heard(moment, self.state);
        let plan = drops(self.alloc, state, EndCause::NoNumber, b"NO NUMBER")?;
        self.carry_out(moment, fields, &plan)
    }

    /// What a message of a number does. Nothing changes where memory is wanted.
    fn work_numbered<'a>(
        &mut self,
        incoming: Incoming<'a>,
        moment: i64,
    ) -> Result<Turn<'a>, NoMemory>
        requires { incoming.number < 1_000_000_000 }
        ensures machine { OnOk result (self.new ≡ (carried_out self.old moment incoming.entry.fields
            (on_message self.old.member (length self.old.sent) (heard moment self.old.state) incoming.entry)).machine) }
        ensures turn { IfOk result (λ turn. turn ≡ (carried_out self.old moment incoming.entry.fields
            (on_message self.old.member (length self.old.sent) (heard moment self.old.state) incoming.entry)).turn) }
        ensures up { IfOk result (λ turn. OnSome turn.request (IsUp self.new)) }
        ensures err { OnErr result (self.new ≡ self.old) }
    {
        let state = heard(moment, self.state);
        let sent = self.sent.len() as u64;
        let plan = on_message(self.alloc, self.member.as_slice(), sent, state, &incoming)?;
        self.carry_out(moment, incoming.fields, &plan)
    }

    /// What a message of these fields does. Nothing changes where memory is wanted.
    fn work_fields<'a>(&mut self, fields: Vec<Field<'a>>, moment: i64) -> Result<Turn<'a>, NoMemory>
        ensures machine { OnOk result (self.new ≡ (on_fields self.old moment (Ok fields.entry.items)).machine) }
        ensures turn { IfOk result (λ turn. turn ≡ (on_fields self.old moment (Ok fields.entry.items)).turn) }
        ensures up { IfOk result (λ turn. OnSome turn.request (IsUp self.new)) }
        ensures err { OnErr result (self.new ≡ self.old) }
    {
        let fields = MessageFields::of(fields);
        let Some(number) = message_number(&fields) else {
            return self.work_unnumbered(fields, moment);
        };
        let incoming = Incoming {
            number,
            kind: kind_of(&fields),
            fields,
        };
        self.work_numbered(incoming, moment)
    }

    /// What a frame does. Nothing changes where memory is wanted.
    #[tactic(auto, unfolding(crate::specs::Machine::on_frame))]
    fn work_frame<'a>(&mut self, frame: Frame<'a>, moment: i64) -> Result<Turn<'a>, NoMemory>
        ensures machine { OnOk result (self.new ≡ (on_frame self.old frame.entry.bytes.now moment).machine) }
        ensures turn { IfOk result (λ turn. turn ≡ (on_frame self.old frame.entry.bytes.now moment).turn) }
        ensures up { IfOk result (λ turn. OnSome turn.request (IsUp self.new)) }
        ensures over { IsOver self.old → IsOk result }
        ensures err { OnErr result (self.new ≡ self.old) }
    {
        if is_over(self.state.phase) {
            return Ok(self.quiet());
        }
        match fields(self.alloc, frame.content()) {
            Ok(fields) => self.work_fields(fields, moment),
            Err(FieldFault::NoMemory) => Err(NoMemory),
            Err(_) => Ok(self.quiet()),
        }
    }

    /// Works a frame that was received at a moment, in milliseconds since 1970-01-01 00:00 UTC. The session is up
    /// where it hands a message out. Where memory is wanted the connection ends without a cause, and its replies are
    /// lost; the next connection can ask for what was kept before. A session that has ended wants none.
    pub fn take<'a>(&mut self, frame: Frame<'a>, moment: i64) -> Result<Turn<'a>, NoMemory>
        ensures machine { OnOk result (self.new ≡ (on_frame self.old frame.entry.bytes.now moment).machine) }
        ensures turn { IfOk result (λ turn. turn ≡ (on_frame self.old frame.entry.bytes.now moment).turn) }
        ensures up { IfOk result (λ turn. OnSome turn.request (IsUp self.new)) }
        ensures over { IsOver self.old → IsOk result }
        ensures err { OnErr result (self.new ≡ given_up self.old) }
    {
        match self.work_frame(frame, moment) {
            Ok(turn) => Ok(turn),
            Err(_) => {
                self.give_up();
                Err(NoMemory)
            }
        }
    }

    /// Carries out a plan that no message asked for. Where memory is wanted the connection ends.
    fn carry_out_alone<'a>(
        &mut self,
        moment: i64,
        plan: Result<Plan, NoMemory>,
    ) -> Result<Turn<'a>, NoMemory>
        requires { IfOk plan HandsOutUp }
        ensures machine { OnOk result (IfOk plan (λ p. self.new ≡ (carried_out self.old moment [] p).machine)) }
        ensures turn { IfOk result (λ turn. IfOk plan (λ p. turn ≡ (carried_out self.old moment [] p).turn)) }
        ensures planned { OnOk result (IsOk plan) }
        ensures err { OnErr result (self.new ≡ given_up self.old) }
    {
        let Ok(plan) = plan else {
            self.give_up();
            return Err(NoMemory);
        };
        match self.carry_out(moment, MessageFields::of(Vec::new(self.alloc)), &plan) {
            Ok(turn) => Ok(turn),
            Err(_) => {
                self.give_up();
                Err(NoMemory)
            }
        }
    }

    /// Ends a connection that has not ended.
    fn end_too_long<'a>(&mut self, moment: i64) -> Result<Turn<'a>, NoMemory>
        ensures machine { OnOk result (self.new ≡ (ends_too_long self.old moment).machine) }
        ensures turn { IfOk result (λ turn. turn ≡ (ends_too_long self.old moment).turn) }
        ensures err { OnErr result (self.new ≡ given_up self.old) }
    {
        let plan = on_too_long(self.alloc, self.state);
        self.carry_out_alone(moment, plan)
    }

    /// The next frame is too long: the connection ends. Where memory is wanted it ends without a cause. A session that
    /// has ended wants none.
    #[tactic(auto, unfolding(crate::specs::Machine::on_overlong))]
    pub fn too_long<'a>(&mut self, moment: i64) -> Result<Turn<'a>, NoMemory>
        ensures machine { OnOk result (self.new ≡ (on_overlong self.old moment).machine) }
        ensures turn { IfOk result (λ turn. turn ≡ (on_overlong self.old moment).turn) }
        ensures over { IsOver self.old → IsOk result }
        ensures err { OnErr result (self.new ≡ given_up self.old) }
    {
        match self.state.phase {
            Phase::Ended(_) => Ok(self.quiet()),
            Phase::New | Phase::Up => self.end_too_long(moment),
        }
    }

    /// What a tick does to a session that is up.
    fn work_tick<'a>(&mut self, moment: i64) -> Result<Turn<'a>, NoMemory>
        ensures machine { OnOk result (self.new ≡ (ticks self.old moment).machine) }
        ensures turn { IfOk result (λ turn. turn ≡ (ticks self.old moment).turn) }
        ensures err { OnErr result (self.new ≡ given_up self.old) }
    {
        let plan = on_tick(self.alloc, moment, self.state);
        self.carry_out_alone(moment, plan)
    }

    /// The clock says this moment, in milliseconds since 1970-01-01 00:00 UTC. It sends at most one message: a Logout
    /// after three heartbeat intervals of silence, a TestRequest after two, a Heartbeat where nothing was sent for one.
    /// Where memory is wanted the connection ends without a cause. A session that is not up wants none.
    #[tactic(auto, unfolding(crate::specs::Machine::on_clock))]
    pub fn tick<'a>(&mut self, moment: i64) -> Result<Turn<'a>, NoMemory>
        ensures machine { OnOk result (self.new ≡ (on_clock self.old moment).machine) }
        ensures turn { IfOk result (λ turn. turn ≡ (on_clock self.old moment).turn) }
        ensures up { OnErr result (IsUp self.old) }
        ensures err { OnErr result (self.new ≡ given_up self.old) }
    {
        if is_up(self.state) {
            self.work_tick(moment)
        } else {
            Ok(self.quiet())
        }
    }

    /// Frames an application message with the next number and keeps it, so that the member can ask for it again.
    /// Nothing changes where memory is wanted.
    #[tactic(auto, unfolding(crate::specs::Machine::on_send, crate::specs::Frames::new_frames))]
    pub fn send(&mut self, kind: MessageType, body: &[u8], moment: i64) -> Result<Bytes, NoMemory>
        requires { IsUp self.old }
        ensures machine { OnOk result (self.new ≡ (on_send_one self.old kind body.now moment).machine) }
        ensures reply { IfOk result (λ frame. frame ∷ [] ≡ (on_send_one self.old kind body.now moment).turn.replies) }
        ensures err { OnErr result (self.new ≡ self.old) }
    {
        let number = self.sent.len() as u64 + 1;
        let frame = new_frame(
            self.alloc,
            self.member.as_slice(),
            moment,
            number,
            kind,
            body,
        )?;
        self.sent.push(kind, body, moment)?;
        self.state.sent_at = moment;
        Ok(frame)
    }

    /// Does what `send` does for each message in its order. Nothing changes where memory is wanted.
    #[tactic(auto, unfolding(crate::specs::Machine::on_send))]
    pub fn send_all(&mut self, messages: &MessageList, moment: i64) -> Result<Vec<Bytes>, NoMemory>
        requires { IsUp self.old }
        ensures machine { OnOk result (self.new ≡ (on_send self.old messages.now moment).machine) }
        ensures replies { IfOk result (λ frames. frames.items
            ≡ (on_send self.old messages.now moment).turn.replies) }
        ensures err { OnErr result (self.new ≡ self.old) }
    {
        let first = self.sent.len() as u64 + 1;
        let mut frames = Vec::new(self.alloc);
        push_listed_frames(&mut frames, self.member.as_slice(), moment, first, messages)?;
        self.sent.push_all(messages, moment)?;
        self.state = sent_now(moment, &frames, self.state);
        Ok(frames)
    }

    /// Frames a Reject (35=3) of the message of a number and a type, for a tag and a reason, with the next number.
    /// Nothing changes where memory is wanted.
    #[tactic(auto, unfolding(crate::specs::Machine::on_reject))]
    pub fn reject(
        &mut self,
        number: u32,
        kind: MessageType,
        tag: u32,
        reason: u8,
        moment: i64,
    ) -> Result<Bytes, NoMemory>
        requires { IsUp self.old }
        ensures machine { OnOk result (self.new ≡ (on_reject self.old number kind tag reason moment).machine) }
        ensures reply { IfOk result (λ frame. frame ∷ []
            ≡ (on_reject self.old number kind tag reason moment).turn.replies) }
        ensures err { OnErr result (self.new ≡ self.old) }
    {
        let message = reject(self.alloc, number, tag, &[kind.byte()], reason)?;
        let member = self.member.as_slice();
        let place = self.sent.len() as u64 + 1;
        let body = message.body.as_slice();
        let frame = new_frame(self.alloc, member, moment, place, message.kind, body)?;
        self.sent.push_numbers(1)?;
        self.state.sent_at = moment;
        Ok(frame)
    }
}
