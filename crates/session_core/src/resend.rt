//! What a ResendRequest asks.
ghost use Rattle.std.specs.Prelude.{◌≡◌, IfOk, None};
ghost use Rattle.session_core.specs.Resend.{resends, on_resend_request, then_asks_again};

use crate::answers::rejects;
use crate::bodies::resend_request;
use crate::lookup::number_or_zero;
use crate::message::Incoming;
use crate::plan::{Plan, Span, sends_again, then_says};
use crate::reasons::VALUE_OUT_OF_RANGE;
use crate::state::State;
use crate::tags::{BEGIN_SEQ_NO, END_SEQ_NO};
use std::alloc::Global;
use venue_words::NoMemory;

/// Messages are sent again from a first number to a last one, where `sent` is the last number that was sent.
#[tactic(auto, unfolding(crate::specs::Resend::resends))]
fn resends(
    alloc: Global,
    state: State,
    incoming: &Incoming<'_>,
    sent: u64,
    asked: Span,
) -> Result<Plan, NoMemory>
    ensures plan { IfOk result (λ p. p ≡ resends state incoming.now sent asked) }
    ensures quiet { IfOk result (λ p. p.request ≡ None) }
{
    let Span { first, last } = asked;
    if first == 0 || sent < first {
        return rejects(alloc, state, incoming, BEGIN_SEQ_NO, VALUE_OUT_OF_RANGE);
    }
    if last != 0 && last < first {
        return rejects(alloc, state, incoming, END_SEQ_NO, VALUE_OUT_OF_RANGE);
    }
    let last = if last == 0 || sent < last { sent } else { last };
    Ok(sends_again(alloc, state, Span { first, last }))
}

/// What a ResendRequest that passes the checks asks.
#[tactic(auto, unfolding(crate::specs::Resend::on_resend_request))]
pub fn on_resend_request(
    alloc: Global,
    state: State,
    incoming: &Incoming<'_>,
    sent: u64,
) -> Result<Plan, NoMemory>
    ensures plan { IfOk result (λ p. p ≡ on_resend_request state incoming.now sent) }
    ensures quiet { IfOk result (λ p. p.request ≡ None) }
{
    let fields = &incoming.fields;
    let asked = Span {
        first: u64::from(number_or_zero(BEGIN_SEQ_NO, fields)),
        last: u64::from(number_or_zero(END_SEQ_NO, fields)),
    };
    resends(alloc, state, incoming, sent, asked)
}

/// The plan, and a ResendRequest behind all that it sends.
pub fn then_asks_again(alloc: Global, plan: Plan, next: u32) -> Result<Plan, NoMemory>
    ensures { IfOk result (λ p. p ≡ then_asks_again plan next) }
{
    then_says(plan, resend_request(alloc, next)?)
}
