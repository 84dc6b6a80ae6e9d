//! Answers that several cases share.
ghost use Rattle.std.specs.Prelude.{◌≡◌, IfOk, None};
ghost use Rattle.session_core.specs.Answers.{logs_out, drops, rejects, drops_wrong_name};

use crate::bodies::{logout, reject};
use crate::lookup::text_in;
use crate::message::Incoming;
use crate::plan::{Plan, says_one, stays, then_says};
use crate::reasons::WRONG_NAME;
use crate::state::{EndCause, State, ended, is_up};
use crate::tags::MSG_TYPE;
use std::alloc::Global;
use venue_words::NoMemory;

/// A Logout is sent, and the connection ends.
#[tactic(auto, unfolding(crate::specs::Answers::logs_out))]
pub fn logs_out(alloc: Global, state: State, cause: EndCause, text: &[u8]) -> Result<Plan, NoMemory>
    ensures plan { IfOk result (λ p. p ≡ logs_out state cause text.now) }
    ensures quiet { IfOk result (λ p. p.request ≡ None) }
{
    says_one(alloc, ended(cause, state), logout(alloc, text)?)
}

/// The connection ends; a Logout is sent where a Logon was taken.
#[tactic(auto, unfolding(crate::specs::Answers::drops))]
pub fn drops(alloc: Global, state: State, cause: EndCause, text: &[u8]) -> Result<Plan, NoMemory>
    ensures plan { IfOk result (λ p. p ≡ drops state cause text.now) }
    ensures quiet { IfOk result (λ p. p.request ≡ None) }
{
    if is_up(state) {
        logs_out(alloc, state, cause, text)
    } else {
        Ok(stays(alloc, ended(cause, state)))
    }
}

/// A Reject of the message is sent.
#[tactic(auto, unfolding(crate::specs::Answers::rejects))]
pub fn rejects(
    alloc: Global,
    state: State,
    incoming: &Incoming<'_>,
    tag: u32,
    reason: u8,
) -> Result<Plan, NoMemory>
    ensures plan { IfOk result (λ p. p ≡ rejects state incoming.now tag reason) }
    ensures quiet { IfOk result (λ p. p.request ≡ None) }
{
    let kind = text_in(MSG_TYPE, &incoming.fields);
    says_one(
        alloc,
        state,
        reject(alloc, incoming.number, tag, kind, reason)?,
    )
}

/// A message from or to somebody else ends the connection; it is rejected where a Logon was taken.
#[tactic(auto, unfolding(crate::specs::Answers::drops_wrong_name))]
pub fn drops_wrong_name(
    alloc: Global,
    state: State,
    incoming: &Incoming<'_>,
    tag: u32,
) -> Result<Plan, NoMemory>
    ensures plan { IfOk result (λ p. p ≡ drops_wrong_name state incoming.now tag) }
    ensures quiet { IfOk result (λ p. p.request ≡ None) }
{
    let state_after = ended(EndCause::WrongName, state);
    if !is_up(state) {
        return Ok(stays(alloc, state_after));
    }
    let kind = text_in(MSG_TYPE, &incoming.fields);
    let rejection = reject(alloc, incoming.number, tag, kind, WRONG_NAME)?;
    let plan = says_one(alloc, state_after, rejection)?;
    then_says(plan, logout(alloc, b"WRONG NAME")?)
}
