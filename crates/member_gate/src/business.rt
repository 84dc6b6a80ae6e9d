//! Answers to messages that are of no type of order.
ghost use Rattle.std.specs.Prelude.{◌≡◌, IfOk};
ghost use Rattle.member_gate.specs.Answering.{business_body};

use fix_write::{push_field, push_number_field};
use session_core::tags::{REF_MSG_TYPE, REF_SEQ_NUM};
use std::alloc::Global;
use venue_words::NoMemory;

/// BusinessRejectReason(380): always 3, which is that messages of the type are not supported.
pub const BUSINESS_REJECT_REASON: u32 = 380;

/// The body of a BusinessMessageReject of a message of a number and a type.
#[tactic(auto, unfolding(crate::specs::Answering::business_body))]
pub fn business_body(alloc: Global, number: u32, kind: &[u8]) -> Result<Vec<u8>, NoMemory>
    ensures { IfOk result (λ body. body.items ≡ business_body number kind.now) }
{
    let mut out = Vec::new(alloc);
    push_number_field(&mut out, REF_SEQ_NUM, u64::from(number))?;
    push_field(&mut out, REF_MSG_TYPE, kind)?;
    push_field(&mut out, BUSINESS_REJECT_REASON, b"3")?;
    Ok(out)
}
