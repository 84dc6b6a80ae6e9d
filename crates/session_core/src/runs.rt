//! Whole lists of inputs, of which the laws of sessions speak.
use crate::message::Message;
use fix_write::MessageType;
use venue_words::{Bytes, Items};

/// What comes to a session. Moments are in milliseconds since 1970-01-01 00:00 UTC.
#[derive(Debug, Drop)]
pub enum Input {
    /// A new connection.
    Connection,
    /// A frame that was received.
    Frame {
        frame: Bytes,
        moment: i64,
    },
    /// The next frame is too long.
    TooLong {
        moment: i64,
    },
    /// The clock.
    Tick {
        moment: i64,
    },
    /// Application messages to be sent. A session that is not up passes them over.
    Send {
        messages: Items<Message>,
        moment: i64,
    },
    /// A Reject to be sent. A session that is not up passes it over.
    Reject {
        number: u32,
        kind: MessageType,
        tag: u32,
        reason: u8,
        moment: i64,
    },
}
