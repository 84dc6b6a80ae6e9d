//! What a frame asks of a session before its Logon.
ghost use Rattle.std.specs.Prelude.{◌≡◌, ◌<◌, ◌==◌, IfOk, None, false};
ghost use Rattle.std.specs.Option.{option_map_or};
ghost use Rattle.session_core.specs.Lookup.{number_in};
ghost use Rattle.session_core.specs.Logon.{is_bad_logon, logged_on, takes_logon, on_logon, before_logon};

use crate::answers::logs_out;
use crate::bodies::logon;
use crate::lookup::{is_value, is_yes, number_in, number_or_zero, text_in};
use crate::message::Incoming;
use crate::message_fields::MessageFields;
use crate::plan::{Plan, says_one, stays};
use crate::resend::then_asks_again;
use crate::state::{EndCause, Phase, State, ended};
use crate::tables::failed_of;
use crate::tags::{DEFAULT_APPL_VER_ID, ENCRYPT_METHOD, HEART_BT_INT, RESET_SEQ_NUM_FLAG};
use fix_write::MessageType;
use std::alloc::Global;
use venue_words::NoMemory;

/// Whether EncryptMethod(98) is there and is 0.
fn is_unencrypted(fields: &MessageFields<'_>) -> bool
    ensures { result ≡ option_map_or (λ n. n == 0) (number_in ENCRYPT_METHOD fields.now) false }
{
    match number_in(ENCRYPT_METHOD, fields) {
        Some(n) => n == 0,
        None => false,
    }
}

/// Whether a Logon fails a check, or asks for what this venue does not do.
#[tactic(auto, unfolding(crate::specs::Logon::is_bad_logon))]
fn is_bad_logon(incoming: &Incoming<'_>) -> bool
    ensures { result ≡ is_bad_logon incoming.now }
{
    let fields = &incoming.fields;
    failed_of(MessageType::Logon, fields).is_some()
        || !is_unencrypted(fields)
        || !is_value(DEFAULT_APPL_VER_ID, b"9", fields)
        || 3600 < number_or_zero(HEART_BT_INT, fields)
        || is_yes(RESET_SEQ_NUM_FLAG, fields) && incoming.number != 1
}

/// The state after a Logon, where `next` is the number that it was to have.
fn logged_on(state: State, incoming: &Incoming<'_>, next: u32) -> State
    requires { incoming.now.number < 1_000_000_000 }
    ensures { result ≡ logged_on state incoming.now next }
{
    let next_in = if incoming.number == next {
        incoming.number + 1
    } else {
        next
    };
    State {
        phase: Phase::Up,
        heartbeat: number_or_zero(HEART_BT_INT, &incoming.fields),
        next_in,
        ..state
    }
}

/// A Logon is answered; one that came too early is followed by a ResendRequest.
#[tactic(auto, unfolding(crate::specs::Logon::takes_logon))]
fn takes_logon(
    alloc: Global,
    state: State,
    incoming: &Incoming<'_>,
    reset: bool,
    next: u32,
) -> Result<Plan, NoMemory>
    requires { incoming.now.number < 1_000_000_000 }
    ensures plan { IfOk result (λ p. p ≡ takes_logon state incoming.now reset next) }
    ensures quiet { IfOk result (λ p. p.request ≡ None) }
{
    let interval = text_in(HEART_BT_INT, &incoming.fields);
    let answer = logon(alloc, interval, reset)?;
    let mut plan = says_one(alloc, logged_on(state, incoming, next), answer)?;
    plan.reset = reset;
    if next < incoming.number {
        then_asks_again(alloc, plan, next)
    } else {
        Ok(plan)
    }
}

/// What a Logon asks.
#[tactic(auto, unfolding(crate::specs::Logon::on_logon))]
fn on_logon(alloc: Global, state: State, incoming: &Incoming<'_>) -> Result<Plan, NoMemory>
    requires { incoming.now.number < 1_000_000_000 }
    ensures plan { IfOk result (λ p. p ≡ on_logon state incoming.now) }
    ensures quiet { IfOk result (λ p. p.request ≡ None) }
{
    if is_bad_logon(incoming) {
        return logs_out(alloc, state, EndCause::BadLogon, b"BAD LOGON");
    }
    let reset = is_yes(RESET_SEQ_NUM_FLAG, &incoming.fields);
    let next = if reset { 1 } else { state.next_in };
    if incoming.number < next {
        return logs_out(alloc, state, EndCause::TooLow, b"TOO LOW");
    }
    takes_logon(alloc, state, incoming, reset, next)
}

/// What any message asks before the Logon.
#[tactic(auto, unfolding(crate::specs::Logon::before_logon))]
pub fn before_logon(alloc: Global, state: State, incoming: &Incoming<'_>) -> Result<Plan, NoMemory>
    requires { incoming.now.number < 1_000_000_000 }
    ensures plan { IfOk result (λ p. p ≡ before_logon incoming.now.kind state incoming.now) }
    ensures quiet { IfOk result (λ p. p.request ≡ None) }
{
    match incoming.kind {
        MessageType::Logon => on_logon(alloc, state, incoming),
        _ => Ok(stays(alloc, ended(EndCause::NotLogon, state))),
    }
}
