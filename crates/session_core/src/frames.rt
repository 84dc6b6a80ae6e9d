//! The frames of messages with new numbers.
ghost use Rattle.std.specs.Prelude.{◌≡◌, ◌<◌, ◌≤◌, ◌+◌, ◌^◌, ◌++◌, IfOk, OnOk, length};
ghost use Rattle.session_core.specs.Bodies.{message};
ghost use Rattle.session_core.specs.Frames.{new_frame, new_frames};

use crate::message::Message;
use crate::message_list::MessageList;
use fix_write::{Head, MessageType, frame};
use std::alloc::Global;
use venue_words::limits::VENUE;
use venue_words::{Bytes, NoMemory};

/// The frame of a message of a type and a body to a member.
#[tactic(auto, unfolding(crate::specs::Frames::new_frame))]
pub fn new_frame(
    alloc: Global,
    member: &[u8],
    moment: i64,
    number: u64,
    kind: MessageType,
    body: &[u8],
) -> Result<Bytes, NoMemory>
    ensures { IfOk result (λ f. f ≡ new_frame member.now moment number (message kind body.now)) }
{
    let head = Head {
        kind: kind.byte(),
        sender: VENUE,
        target: member,
        number,
        moment,
        first_sent: None,
    };
    Ok(Bytes(frame(alloc, &head, body)?))
}

/// Adds the frames of messages, numbered from this number on.
#[tactic(auto, unfolding(crate::specs::Frames::new_frames))]
pub fn push_new_frames(
    frames: &mut Vec<Bytes>,
    member: &[u8],
    moment: i64,
    first: u64,
    messages: &[Message],
) -> Result<(), NoMemory>
    requires { first + length messages.now < 2 ^ 64 }
    ensures { OnOk result (frames.new.items ≡ frames.old.items ++ new_frames member.now moment first messages.now) }
{
    let alloc = *frames.allocator();
    let mut number = first;
    for message in messages {
        let body = message.body.as_slice();
        frames.push(new_frame(alloc, member, moment, number, message.kind, body)?)?;
        number += 1;
    }
    Ok(())
}

/// Adds the frames of the messages of a list, numbered from this number on.
#[tactic(auto, unfolding(crate::specs::Frames::new_frames))]
pub fn push_listed_frames(
    frames: &mut Vec<Bytes>,
    member: &[u8],
    moment: i64,
    first: u64,
    messages: &MessageList,
) -> Result<(), NoMemory>
    requires { first ≤ 2 ^ 63 }
    ensures { OnOk result (frames.new.items ≡ frames.old.items ++ new_frames member.now moment first messages.now) }
{
    let alloc = *frames.allocator();
    let mut number = first;
    for place in 0..messages.len() {
        let message = messages.get(place);
        frames.push(new_frame(alloc, member, moment, number, message.kind, message.body)?)?;
        number += 1;
    }
    Ok(())
}
