//! The messages that the session itself sends.
ghost use Rattle.std.specs.Prelude.{◌≡◌, IfOk};
ghost use Rattle.session_core.specs.Bodies.{logon, heartbeat, test_answer, test_request, resend_request, logout, reject, gap_body};

use crate::message::Message;
use crate::tags::{
    BEGIN_SEQ_NO, DEFAULT_APPL_VER_ID, ENCRYPT_METHOD, END_SEQ_NO, GAP_FILL_FLAG, HEART_BT_INT,
    NEW_SEQ_NO, REF_MSG_TYPE, REF_SEQ_NUM, REF_TAG_ID, RESET_SEQ_NUM_FLAG, SESSION_REJECT_REASON,
    TEST_REQ_ID, TEXT,
};
use fix_write::{MessageType, push_field, push_number_field};
use std::alloc::Global;
use venue_words::{Bytes, NoMemory};

/// The answer to a Logon: its heartbeat interval as it was received, and whether numbers begin again.
#[tactic(auto, unfolding(crate::specs::Bodies::logon))]
pub fn logon(alloc: Global, interval: &[u8], reset: bool) -> Result<Message, NoMemory>
    ensures { IfOk result (λ m. m ≡ logon interval.now reset) }
{
    let mut out = Vec::new(alloc);
    push_field(&mut out, ENCRYPT_METHOD, b"0")?;
    push_field(&mut out, HEART_BT_INT, interval)?;
    push_field(&mut out, DEFAULT_APPL_VER_ID, b"9")?;
    if reset {
        push_field(&mut out, RESET_SEQ_NUM_FLAG, b"Y")?;
    }
    Ok(Message {
        kind: MessageType::Logon,
        body: Bytes(out),
    })
}

/// A Heartbeat that answers no TestRequest.
#[tactic(auto, unfolding(crate::specs::Bodies::heartbeat))]
pub fn heartbeat(alloc: Global) -> Message
    ensures { result ≡ heartbeat }
{
    Message {
        kind: MessageType::Heartbeat,
        body: Bytes(Vec::new(alloc)),
    }
}

/// A Heartbeat that answers a TestRequest.
#[tactic(auto, unfolding(crate::specs::Bodies::test_answer))]
pub fn test_answer(alloc: Global, id: &[u8]) -> Result<Message, NoMemory>
    ensures { IfOk result (λ m. m ≡ test_answer id.now) }
{
    let mut out = Vec::new(alloc);
    push_field(&mut out, TEST_REQ_ID, id)?;
    Ok(Message {
        kind: MessageType::Heartbeat,
        body: Bytes(out),
    })
}

/// A TestRequest.
#[tactic(auto, unfolding(crate::specs::Bodies::test_request))]
pub fn test_request(alloc: Global) -> Result<Message, NoMemory>
    ensures { IfOk result (λ m. m ≡ test_request) }
{
    let mut out = Vec::new(alloc);
    push_field(&mut out, TEST_REQ_ID, b"T")?;
    Ok(Message {
        kind: MessageType::TestRequest,
        body: Bytes(out),
    })
}

/// Asks for all messages from a number on.
#[tactic(auto, unfolding(crate::specs::Bodies::resend_request))]
pub fn resend_request(alloc: Global, first: u32) -> Result<Message, NoMemory>
    ensures { IfOk result (λ m. m ≡ resend_request first) }
{
    let mut out = Vec::new(alloc);
    push_number_field(&mut out, BEGIN_SEQ_NO, u64::from(first))?;
    push_field(&mut out, END_SEQ_NO, b"0")?;
    Ok(Message {
        kind: MessageType::ResendRequest,
        body: Bytes(out),
    })
}

/// A Logout, with a text or without.
#[tactic(auto, unfolding(crate::specs::Bodies::logout))]
pub fn logout(alloc: Global, text: &[u8]) -> Result<Message, NoMemory>
    ensures { IfOk result (λ m. m ≡ logout text.now) }
{
    let mut out = Vec::new(alloc);
    if !text.is_empty() {
        push_field(&mut out, TEXT, text)?;
    }
    Ok(Message {
        kind: MessageType::Logout,
        body: Bytes(out),
    })
}

/// Rejects the message of a number and a type, for a tag and a reason.
#[tactic(auto, unfolding(crate::specs::Bodies::reject))]
pub fn reject(
    alloc: Global,
    number: u32,
    tag: u32,
    kind: &[u8],
    reason: u8,
) -> Result<Message, NoMemory>
    ensures { IfOk result (λ m. m ≡ reject number tag kind.now reason) }
{
    let mut out = Vec::new(alloc);
    push_number_field(&mut out, REF_SEQ_NUM, u64::from(number))?;
    push_number_field(&mut out, REF_TAG_ID, u64::from(tag))?;
    push_field(&mut out, REF_MSG_TYPE, kind)?;
    push_number_field(&mut out, SESSION_REJECT_REASON, u64::from(reason))?;
    Ok(Message {
        kind: MessageType::Reject,
        body: Bytes(out),
    })
}

/// The body of a SequenceReset that stands for messages of the session, up to before a number.
#[tactic(auto, unfolding(crate::specs::Bodies::gap_body))]
pub fn gap_body(alloc: Global, next: u64) -> Result<Vec<u8>, NoMemory>
    ensures { IfOk result (λ body. body.items ≡ gap_body next) }
{
    let mut out = Vec::new(alloc);
    push_field(&mut out, GAP_FILL_FLAG, b"Y")?;
    push_number_field(&mut out, NEW_SEQ_NO, next)?;
    Ok(out)
}
