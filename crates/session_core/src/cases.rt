//! What each frame and each tick asks of a session that has not ended. The first case that fits decides.
ghost use Rattle.std.specs.Prelude.{◌≡◌, ◌*◌, ◌<◌, IfOk, None};
ghost use Rattle.session_core.specs.Plan.{HandsOutUp};
ghost use Rattle.session_core.specs.Cases.{on_message, on_too_long, has_passed, on_tick};

use crate::answers::{drops, drops_wrong_name, logs_out};
use crate::bodies::{heartbeat, test_request};
use crate::logon::before_logon;
use crate::lookup::is_value;
use crate::message::Incoming;
use crate::plan::{Plan, says_one, stays};
use crate::sequence::when_up;
use crate::state::{EndCause, State, is_up};
use crate::tags::{SENDER_COMP_ID, TARGET_COMP_ID};
use std::alloc::Global;
use venue_words::NoMemory;
use venue_words::limits::VENUE;

/// What a message of a number asks of a member's session, where `sent` is the last number that was sent.
#[tactic(auto, unfolding(crate::specs::Cases::on_message))]
pub fn on_message(
    alloc: Global,
    member: &[u8],
    sent: u64,
    state: State,
    incoming: &Incoming<'_>,
) -> Result<Plan, NoMemory>
    requires { incoming.now.number < 1_000_000_000 }
    ensures plan { IfOk result (λ p. p ≡ on_message member.now sent state incoming.now) }
    ensures up { IfOk result HandsOutUp }
{
    let fields = &incoming.fields;
    if !is_value(SENDER_COMP_ID, member, fields) {
        return drops_wrong_name(alloc, state, incoming, SENDER_COMP_ID);
    }
    if !is_value(TARGET_COMP_ID, VENUE, fields) {
        return drops_wrong_name(alloc, state, incoming, TARGET_COMP_ID);
    }
    if is_up(state) {
        when_up(alloc, state, incoming, sent)
    } else {
        before_logon(alloc, state, incoming)
    }
}

/// What a frame that is too long asks.
#[tactic(auto, unfolding(crate::specs::Cases::on_too_long))]
pub fn on_too_long(alloc: Global, state: State) -> Result<Plan, NoMemory>
    ensures plan { IfOk result (λ p. p ≡ on_too_long state) }
    ensures quiet { IfOk result (λ p. p.request ≡ None) }
{
    drops(alloc, state, EndCause::TooLong, b"TOO LONG")
}

/// Whether so many milliseconds have passed.
fn has_passed(milliseconds: u64, before: i64, moment: i64) -> bool
    ensures { result ≡ has_passed milliseconds before moment }
{
    i128::from(milliseconds) <= i128::from(moment) - i128::from(before)
}

/// Whether nothing has come for three intervals.
fn is_silent(moment: i64, state: State) -> bool
    ensures { result ≡ has_passed (3000 * state.heartbeat) state.received moment }
{
    has_passed(3000 * u64::from(state.heartbeat), state.received, moment)
}

/// What a tick asks of a session that is up. It sends at most one message.
#[tactic(auto, unfolding(crate::specs::Cases::on_tick))]
pub fn on_tick(alloc: Global, moment: i64, state: State) -> Result<Plan, NoMemory>
    ensures plan { IfOk result (λ p. p ≡ on_tick moment state) }
    ensures quiet { IfOk result (λ p. p.request ≡ None) }
{
    let seconds = u64::from(state.heartbeat);
    if seconds == 0 {
        return Ok(stays(alloc, state));
    }
    if is_silent(moment, state) {
        return logs_out(alloc, state, EndCause::Silent, b"SILENT");
    }
    if !state.test_out && has_passed(2000 * seconds, state.received, moment) {
        let waiting = State {
            test_out: true,
            ..state
        };
        return says_one(alloc, waiting, test_request(alloc)?);
    }
    if has_passed(1000 * seconds, state.sent_at, moment) {
        return says_one(alloc, state, heartbeat(alloc));
    }
    Ok(stays(alloc, state))
}
