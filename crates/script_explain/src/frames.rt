//! The stream of a member's connection, message by message.
use crate::names::message_name;
use crate::passed::{may_go_on, push_why_passed};
use fix_fields::{Frame, fields};
use fix_frames::{Framer, Next};
use fix_write::digits::push_number;
use session_core::lookup::{kind_of, text_in};
use session_core::tags::MSG_SEQ_NUM;
use session_core::{MessageFields, Session, Turn};
use std::alloc::Global;
use venue_words::{Bytes, NoMemory};

/// Appends a text.
pub fn push(out: &mut Vec<u8>, text: &str) -> Result<(), NoMemory> {
    out.extend_from_slice(text.as_bytes())?;
    Ok(())
}

/// What a member's session makes of his bytes. It is sent no reports: what a session sends changes nothing of what it makes of
/// messages.
#[derive(Drop)]
pub struct Stream {
    alloc: Global,
    session: Session,
    framer: Framer,
    /// The bytes in which no message was found yet.
    unread: Vec<u8>,
}

/// Where a frame stands in bytes.
fn place_of(frame: &[u8], bytes: &[u8]) -> usize {
    for place in 0..bytes.len() {
        if bytes[place..].starts_with(frame) {
            return place;
        }
    }
    0
}

/// Tells of bytes that were passed over.
fn push_passed(out: &mut Vec<u8>, bytes: &[u8]) -> Result<(), NoMemory> {
    if bytes.is_empty() {
        return Ok(());
    }
    push(out, "  ")?;
    push_number(out, bytes.len() as u64)?;
    push(out, " bytes are passed over: ")?;
    push_why_passed(out, bytes)?;
    push(out, "\n")
}

/// The first place from which bytes may be the beginning of a message that goes on.
fn waiting_from(bytes: &[u8]) -> usize {
    for place in 0..bytes.len() {
        if may_go_on(&bytes[place..]) {
            return place;
        }
    }
    bytes.len()
}

/// Tells of bytes that wait for others.
fn push_waiting(out: &mut Vec<u8>, count: usize) -> Result<(), NoMemory> {
    if count == 0 {
        return Ok(());
    }
    push(out, "  ")?;
    push_number(out, count as u64)?;
    push(out, " bytes wait for the rest of a message\n")
}

/// What became of a message.
fn push_turn(out: &mut Vec<u8>, turn: &Turn<'_>) -> Result<(), NoMemory> {
    match turn.ended {
        Some(cause) => {
            push(out, ": the connection ends, since ")?;
            push(out, cause.text())
        }
        None if turn.request.is_some() => push(out, ": handed to the venue"),
        None if turn.replies.as_slice().is_empty() => push(out, ": taken, and not to be answered"),
        None => push(out, ": answered by the session"),
    }
}

/// Tells which message it is.
fn push_message(out: &mut Vec<u8>, fields: &MessageFields<'_>) -> Result<(), NoMemory> {
    push(out, "  ")?;
    push(out, message_name(kind_of(fields)))?;
    push(out, " 34=")?;
    out.extend_from_slice(text_in(MSG_SEQ_NUM, fields))?;
    Ok(())
}

/// Works a frame, and tells of it.
fn tell_frame(
    alloc: Global,
    session: &mut Session,
    frame: Frame<'_>,
    moment: i64,
    out: &mut Vec<u8>,
) -> Result<(), NoMemory> {
    match fields(alloc, frame.as_slice()) {
        Ok(fields) => push_message(out, &MessageFields::of(fields))?,
        Err(fault) => {
            push(out, "  a message is passed over, since ")?;
            push(out, fault.text())?;
            return push(out, "\n");
        }
    }
    let turn = session.take(frame, moment)?;
    push_turn(out, &turn)?;
    push(out, "\n")
}

impl Stream {
    /// The stream of a member, before his first connection.
    pub fn new(alloc: Global, member: &Bytes) -> Result<Stream, NoMemory> {
        let name = Bytes::copy_of(alloc, member.as_slice())?;
        Ok(Stream {
            alloc,
            session: Session::new(alloc, name),
            framer: Framer::new(alloc),
            unread: Vec::new(alloc),
        })
    }

    /// A new connection begins.
    pub fn open(&mut self) {
        self.session.open();
        self.framer = Framer::new(self.alloc);
        self.unread.clear();
    }

    /// The clock says a moment. Where the connection ends by it, that is told of this member.
    pub fn tick(&mut self, moment: i64, member: &[u8], out: &mut Vec<u8>) -> Result<(), NoMemory> {
        if self.session.is_over() {
            return Ok(());
        }
        let turn = self.session.tick(moment)?;
        let Some(cause) = turn.ended else {
            return Ok(());
        };
        push(out, "  the connection of ")?;
        out.extend_from_slice(member)?;
        push(out, " ends, since ")?;
        push(out, cause.text())?;
        push(out, "\n")
    }

    /// Works the next message, and says whether there was one.
    fn take_next(&mut self, moment: i64, out: &mut Vec<u8>) -> Result<bool, NoMemory> {
        match self.framer.next() {
            Next::Frame(frame) => {
                let bytes = frame.as_slice();
                let place = place_of(bytes, &self.unread);
                let end = place.saturating_add(bytes.len()).min(self.unread.len());
                push_passed(out, self.unread.get(..place).unwrap_or(&[]))?;
                tell_frame(self.alloc, &mut self.session, frame, moment, out)?;
                drop(self.unread.drain(..end));
                Ok(true)
            }
            Next::Wait => {
                let place = waiting_from(&self.unread).min(self.unread.len());
                push_passed(out, self.unread.get(..place).unwrap_or(&[]))?;
                drop(self.unread.drain(..place));
                push_waiting(out, self.unread.len())?;
                Ok(false)
            }
            Next::TooLong => {
                let turn = self.session.too_long(moment)?;
                push(out, "  the next message")?;
                push_turn(out, &turn)?;
                push(out, "\n")?;
                Ok(false)
            }
        }
    }

    /// Works a piece of the member's bytes, and tells of each message in it.
    pub fn take(&mut self, piece: &[u8], moment: i64, out: &mut Vec<u8>) -> Result<(), NoMemory> {
        if self.session.is_over() {
            return push(
                out,
                "  the connection has ended: nothing is taken until a new one\n",
            );
        }
        self.framer.feed(piece)?;
        self.unread.extend_from_slice(piece)?;
        for _ in 0..=piece.len() {
            if !self.take_next(moment, out)? {
                return Ok(());
            }
        }
        Ok(())
    }
}
