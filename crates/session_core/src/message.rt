//! Messages that are received, that are sent, and that are kept.
use crate::message_fields::MessageFields;
use fix_write::MessageType;
use venue_words::Bytes;

/// A message that was received, with its number.
#[derive(Drop)]
pub(crate) struct Incoming<'a> {
    /// MsgSeqNum(34).
    pub number: u32,
    /// MsgType(35), by its byte where it has exactly one, and else by 0.
    pub kind: MessageType,
    /// All its fields, in their order.
    pub fields: MessageFields<'a>,
}

/// A message that the session hands out, since it is not one of the session's own, over the bytes of its frame. An order
/// (35=D, F, G and H) is handed out unchecked: who reads it puts it to the checks of every message and of its type
/// together. A message of any other type that fails one of the former is rejected by the session and not handed out.
#[derive(Debug, Drop)]
pub struct Request<'a> {
    /// MsgSeqNum(34).
    pub number: u32,
    /// MsgType(35), by its byte where it has exactly one, and else by 0.
    pub kind: MessageType,
    /// All its fields, in their order.
    pub fields: MessageFields<'a>,
}

/// A message that is to be sent, without its head.
#[derive(Debug)]
pub struct Message {
    /// MsgType(35).
    pub kind: MessageType,
    /// Its fields behind the head.
    pub body: Bytes,
}

// Written out, so that crates above let go of one by this theorem, and not part by part.
impl Drop for Message {
    fn drop(self) {
        let Message { kind: _, body: _ } = self;
    }
}

/// An application message that was sent, as contracts see what is kept of it.
#[derive(Debug, Drop)]
pub struct Kept {
    pub message: Message,
    /// When it was first sent, in milliseconds since 1970-01-01 00:00 UTC.
    pub moment: i64,
}
