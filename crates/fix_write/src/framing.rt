//! Frames: a head and a body, with BeginString, BodyLength and CheckSum round them.
ghost use Rattle.std.specs.Prelude.{◌≡◌, ◌≤◌, ◌%◌, ◌++◌, decimal, length, sum, IfOk, IfSome, OnOk};
ghost use Rattle.fix_write.specs.Framing.{opening, closed, wrapped, first_sent_text, head_text, frame_of};

use crate::digits::last_three;
use crate::fields::{push_byte_field, push_field, push_moment_field, push_number_field};
use crate::tags;
use itoa::Buffer;
use std::alloc::Global;
use venue_words::NoMemory;

/// The head of a message that is sent.
#[derive(Clone, Copy, Debug)]
pub struct Head<'a> {
    /// MsgType(35), its one byte.
    pub kind: u8,
    /// SenderCompID(49).
    pub sender: &'a [u8],
    /// TargetCompID(56).
    pub target: &'a [u8],
    /// MsgSeqNum(34).
    pub number: u64,
    /// SendingTime(52), in milliseconds since 1970-01-01 00:00 UTC.
    pub moment: i64,
    /// OrigSendingTime(122), in such milliseconds; there exactly on what is sent again, which then has PossDupFlag(43) too.
    pub first_sent: Option<i64>,
}

/// The sum of bytes modulo 256, as CheckSum(10) has it.
pub fn checksum(bytes: &[u8]) -> u8
    ensures { result ≡ sum bytes.now % 256 }
{
    let mut total: u8 = 0;
    for byte in bytes {
        total = total.wrapping_add(*byte);
    }
    total
}

/// How many digits a number has.
fn digits_of(number: u64) -> usize
    ensures value { result ≡ length (decimal number) }
    ensures bound { result ≤ 40 }
{
    Buffer::new().format(number).len()
}

/// Begins a frame with room for all of it, before a content of so many bytes.
#[tactic(auto, unfolding(crate::specs::Framing::opening))]
fn open(alloc: Global, size: usize) -> Result<Vec<u8>, NoMemory>
    ensures { IfOk result (λ out. out.items ≡ opening size) }
{
    // BeginString takes 11 bytes, BodyLength its digits and 3, and CheckSum 7.
    let around = 21 + digits_of(size as u64);
    let mut out = Vec::with_capacity(alloc, size.saturating_add(around))?;
    push_field(&mut out, tags::BEGIN_STRING, b"FIXT.1.1")?;
    push_number_field(&mut out, tags::BODY_LENGTH, size as u64)?;
    Ok(out)
}

/// Ends a frame.
#[tactic(auto, unfolding(crate::specs::Framing::closed))]
fn close(mut out: Vec<u8>) -> Result<Vec<u8>, NoMemory>
    ensures { IfOk result (λ frame. frame.items ≡ closed out.items) }
{
    let total = u32::from(checksum(out.as_slice()));
    push_field(&mut out, tags::CHECK_SUM, &last_three(total))?;
    Ok(out)
}

/// A frame round fields that are given: BeginString(8) and BodyLength(9) before them, CheckSum(10) behind.
#[tactic(auto, unfolding(crate::specs::Framing::wrapped))]
pub fn wrap(alloc: Global, text: &[u8]) -> Result<Vec<u8>, NoMemory>
    ensures { IfOk result (λ frame. frame.items ≡ wrapped text.now) }
{
    let mut out = open(alloc, text.len())?;
    out.extend_from_slice(text)?;
    close(out)
}

/// Appends the fields that say that a message is sent again.
fn push_first_sent(out: &mut Vec<u8>, first_sent: Option<i64>) -> Result<(), NoMemory>
    ensures { OnOk result (out.new.items ≡ out.old.items ++ first_sent_text first_sent) }
{
    match first_sent {
        None => Ok(()),
        Some(moment) => {
            push_byte_field(out, tags::POSS_DUP_FLAG, b'Y')?;
            push_moment_field(out, tags::ORIG_SENDING_TIME, moment)
        }
    }
}

/// Appends the fields of the head.
#[tactic(auto, unfolding(crate::specs::Framing::head_text))]
fn push_head(out: &mut Vec<u8>, head: &Head<'_>) -> Result<(), NoMemory>
    ensures { OnOk result (out.new.items ≡ out.old.items ++ head_text head.now.kind head.now.sender.now
        head.now.target.now head.now.number head.now.moment head.now.first_sent) }
{
    push_byte_field(out, tags::MSG_TYPE, head.kind)?;
    push_field(out, tags::SENDER_COMP_ID, head.sender)?;
    push_field(out, tags::TARGET_COMP_ID, head.target)?;
    push_number_field(out, tags::MSG_SEQ_NUM, head.number)?;
    push_moment_field(out, tags::SENDING_TIME, head.moment)?;
    push_first_sent(out, head.first_sent)
}

#[tactic(auto, using(crate::proofs::LengthSteps::lengths))]
fn first_sent_length(first_sent: Option<i64>) -> usize
    ensures { result ≡ length (first_sent_text first_sent) }
{
    match first_sent {
        None => 0,
        Some(_) => 31,
    }
}

/// How many bytes the content of a frame has, or none where no memory could hold it.
#[tactic(auto, using(crate::proofs::LengthSteps::lengths))]
fn content_length(head: &Head<'_>, body: &[u8]) -> Option<usize>
    ensures { IfSome result (λ size. size ≡ length (head_text head.now.kind head.now.sender.now
        head.now.target.now head.now.number head.now.moment head.now.first_sent ++ body.now)) }
{
    // What the tags, `=`, SOH, MsgType and SendingTime take.
    let fixed: usize = 42;
    fixed
        .checked_add(digits_of(head.number))?
        .checked_add(first_sent_length(head.first_sent))?
        .checked_add(head.sender.len())?
        .checked_add(head.target.len())?
        .checked_add(body.len())
}

/// The frame of a message: BeginString(8) and BodyLength(9), the head, the body and CheckSum(10). The body is what
/// stands behind the head, each field ended by SOH.
#[tactic(auto, unfolding(crate::specs::Framing::wrapped, crate::specs::Framing::frame_of))]
pub fn frame(alloc: Global, head: &Head<'_>, body: &[u8]) -> Result<Vec<u8>, NoMemory>
    ensures { IfOk result (λ frame. frame.items ≡ frame_of head.now.kind head.now.sender.now
        head.now.target.now head.now.number head.now.moment head.now.first_sent body.now) }
{
    let Some(size) = content_length(head, body) else {
        return Err(NoMemory);
    };
    let mut out = open(alloc, size)?;
    push_head(&mut out, head)?;
    out.extend_from_slice(body)?;
    close(out)
}
