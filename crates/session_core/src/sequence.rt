//! What a message asks of a session that is up, by its number and its type.
ghost use Rattle.std.specs.Prelude.{◌≡◌, ◌<◌, IfOk, None, true};
ghost use Rattle.session_core.specs.State.{is_up};
ghost use Rattle.session_core.specs.Plan.{HandsOutUp};
ghost use Rattle.session_core.specs.Sequence.{sets_next, on_reset, on_logout, too_low, asks_again, resends_early, too_early, answers_test, by_type, in_turn, by_number, in_reset_mode, when_up};

use crate::answers::{logs_out, rejects};
use crate::bodies::{resend_request, test_answer};
use crate::lookup::{is_yes, number_or_zero, text_in};
use crate::message::Incoming;
use crate::plan::{Plan, hands_out, says_one, stays};
use crate::reasons::{VALUE_OUT_OF_RANGE, WRONG_TYPE};
use crate::resend::{on_resend_request, then_asks_again};
use crate::state::{EndCause, State};
use crate::tables::failed_of;
use crate::tags::{GAP_FILL_FLAG, MSG_TYPE, NEW_SEQ_NO, POSS_DUP_FLAG, TEST_REQ_ID};
use fix_write::MessageType;
use std::alloc::Global;
use venue_words::NoMemory;

/// A SequenceReset sets the next number, where it is not below the least that it may be.
#[tactic(auto, unfolding(crate::specs::Sequence::sets_next))]
fn sets_next(
    alloc: Global,
    state: State,
    incoming: &Incoming<'_>,
    least: u32,
) -> Result<Plan, NoMemory>
    ensures plan { IfOk result (λ p. p ≡ sets_next state incoming.now least) }
    ensures quiet { IfOk result (λ p. p.request ≡ None) }
{
    let next_in = number_or_zero(NEW_SEQ_NO, &incoming.fields);
    if least <= next_in {
        Ok(stays(alloc, State { next_in, ..state }))
    } else {
        rejects(alloc, state, incoming, NEW_SEQ_NO, VALUE_OUT_OF_RANGE)
    }
}

/// What a SequenceReset that is no gap fill asks, whatever its number.
#[tactic(auto, unfolding(crate::specs::Sequence::on_reset))]
fn on_reset(alloc: Global, state: State, incoming: &Incoming<'_>) -> Result<Plan, NoMemory>
    ensures plan { IfOk result (λ p. p ≡ on_reset state incoming.now) }
    ensures quiet { IfOk result (λ p. p.request ≡ None) }
{
    match failed_of(MessageType::SequenceReset, &incoming.fields) {
        Some(failed) => rejects(alloc, state, incoming, failed.tag, failed.reason),
        None => sets_next(alloc, state, incoming, state.next_in),
    }
}

/// What a Logout asks.
#[tactic(auto, unfolding(crate::specs::Sequence::on_logout))]
fn on_logout(alloc: Global, state: State, incoming: &Incoming<'_>) -> Result<Plan, NoMemory>
    ensures plan { IfOk result (λ p. p ≡ on_logout state incoming.now) }
    ensures quiet { IfOk result (λ p. p.request ≡ None) }
{
    match failed_of(MessageType::Logout, &incoming.fields) {
        Some(failed) => rejects(alloc, state, incoming, failed.tag, failed.reason),
        None => logs_out(alloc, state, EndCause::Logout, b""),
    }
}

/// A number that came before.
#[tactic(auto, unfolding(crate::specs::Sequence::too_low))]
fn too_low(alloc: Global, state: State, incoming: &Incoming<'_>) -> Result<Plan, NoMemory>
    ensures plan { IfOk result (λ p. p ≡ too_low state incoming.now) }
    ensures quiet { IfOk result (λ p. p.request ≡ None) }
{
    if is_yes(POSS_DUP_FLAG, &incoming.fields) {
        Ok(stays(alloc, state))
    } else {
        logs_out(alloc, state, EndCause::TooLow, b"TOO LOW")
    }
}

/// Asks for what is missing.
fn asks_again(alloc: Global, state: State) -> Result<Plan, NoMemory>
    ensures plan { IfOk result (λ p. p ≡ asks_again state) }
    ensures quiet { IfOk result (λ p. p.request ≡ None) }
{
    says_one(alloc, state, resend_request(alloc, state.next_in)?)
}

/// A ResendRequest that came too early: where it passes the checks it is answered first.
#[tactic(auto, unfolding(crate::specs::Sequence::resends_early))]
fn resends_early(
    alloc: Global,
    state: State,
    incoming: &Incoming<'_>,
    sent: u64,
) -> Result<Plan, NoMemory>
    ensures plan { IfOk result (λ p. p ≡ resends_early state incoming.now sent) }
    ensures quiet { IfOk result (λ p. p.request ≡ None) }
{
    if failed_of(MessageType::ResendRequest, &incoming.fields).is_some() {
        return asks_again(alloc, state);
    }
    let plan = on_resend_request(alloc, state, incoming, sent)?;
    then_asks_again(alloc, plan, state.next_in)
}

/// A number that came too early. The message is not kept, and is asked for again.
#[tactic(auto, unfolding(crate::specs::Sequence::too_early))]
fn too_early(
    alloc: Global,
    state: State,
    incoming: &Incoming<'_>,
    sent: u64,
) -> Result<Plan, NoMemory>
    ensures plan { IfOk result (λ p. p ≡ too_early incoming.now.kind state incoming.now sent) }
    ensures quiet { IfOk result (λ p. p.request ≡ None) }
{
    match incoming.kind {
        MessageType::Logout => on_logout(alloc, state, incoming),
        MessageType::ResendRequest => resends_early(alloc, state, incoming, sent),
        _ => asks_again(alloc, state),
    }
}

/// A TestRequest is answered by a Heartbeat with its identifier.
#[tactic(auto, unfolding(crate::specs::Sequence::answers_test))]
fn answers_test(alloc: Global, state: State, incoming: &Incoming<'_>) -> Result<Plan, NoMemory>
    ensures plan { IfOk result (λ p. p ≡ answers_test state incoming.now) }
    ensures quiet { IfOk result (λ p. p.request ≡ None) }
{
    let id = text_in(TEST_REQ_ID, &incoming.fields);
    says_one(alloc, state, test_answer(alloc, id)?)
}

/// What a message that passes the checks asks, by its type.
#[tactic(auto, unfolding(crate::specs::Sequence::by_type))]
fn by_type(
    alloc: Global,
    state: State,
    incoming: &Incoming<'_>,
    sent: u64,
) -> Result<Plan, NoMemory>
    requires small { incoming.now.number < 1_000_000_000 }
    requires is_up { is_up state ≡ true }
    ensures plan { IfOk result (λ p. p ≡ by_type incoming.now.kind state incoming.now sent) }
    ensures up { IfOk result HandsOutUp }
{
    match incoming.kind {
        MessageType::Heartbeat | MessageType::Reject => Ok(stays(alloc, state)),
        MessageType::TestRequest => answers_test(alloc, state, incoming),
        MessageType::ResendRequest => on_resend_request(alloc, state, incoming, sent),
        MessageType::SequenceReset => sets_next(alloc, state, incoming, incoming.number + 1),
        MessageType::Logout => logs_out(alloc, state, EndCause::Logout, b""),
        MessageType::Logon => rejects(alloc, state, incoming, MSG_TYPE, WRONG_TYPE),
        _ => Ok(hands_out(alloc, state, incoming)),
    }
}

/// What the message that was to come asks.
#[tactic(auto, unfolding(crate::specs::Sequence::in_turn))]
fn in_turn(
    alloc: Global,
    state: State,
    incoming: &Incoming<'_>,
    sent: u64,
) -> Result<Plan, NoMemory>
    requires small { incoming.now.number < 1_000_000_000 }
    requires is_up { is_up state ≡ true }
    ensures plan { IfOk result (λ p. p ≡ in_turn state incoming.now sent) }
    ensures up { IfOk result HandsOutUp }
{
    if incoming.kind.is_order() {
        return Ok(hands_out(alloc, state, incoming));
    }
    match failed_of(incoming.kind, &incoming.fields) {
        Some(failed) => rejects(alloc, state, incoming, failed.tag, failed.reason),
        None => by_type(alloc, state, incoming, sent),
    }
}

/// What a message asks by its number.
#[tactic(auto, unfolding(crate::specs::Sequence::by_number))]
fn by_number(
    alloc: Global,
    state: State,
    incoming: &Incoming<'_>,
    sent: u64,
) -> Result<Plan, NoMemory>
    requires small { incoming.now.number < 1_000_000_000 }
    requires is_up { is_up state ≡ true }
    ensures plan { IfOk result (λ p. p ≡ by_number state incoming.now sent) }
    ensures up { IfOk result HandsOutUp }
{
    if incoming.number < state.next_in {
        return too_low(alloc, state, incoming);
    }
    if state.next_in < incoming.number {
        return too_early(alloc, state, incoming, sent);
    }
    let state = State {
        next_in: incoming.number + 1,
        ..state
    };
    in_turn(alloc, state, incoming, sent)
}

/// Whether it is a SequenceReset in its reset mode: one that is no gap fill.
#[tactic(auto, unfolding(crate::specs::Sequence::in_reset_mode))]
fn in_reset_mode(incoming: &Incoming<'_>) -> bool
    ensures { result ≡ in_reset_mode incoming.now.kind incoming.now.fields }
{
    match incoming.kind {
        MessageType::SequenceReset => !is_yes(GAP_FILL_FLAG, &incoming.fields),
        _ => false,
    }
}

/// What a message asks of a session that is up, where `sent` is the last number that was sent.
#[tactic(auto, unfolding(crate::specs::Sequence::when_up))]
pub fn when_up(
    alloc: Global,
    state: State,
    incoming: &Incoming<'_>,
    sent: u64,
) -> Result<Plan, NoMemory>
    requires small { incoming.now.number < 1_000_000_000 }
    requires is_up { is_up state ≡ true }
    ensures plan { IfOk result (λ p. p ≡ when_up state incoming.now sent) }
    ensures up { IfOk result HandsOutUp }
{
    if in_reset_mode(incoming) {
        on_reset(alloc, state, incoming)
    } else {
        by_number(alloc, state, incoming, sent)
    }
}
