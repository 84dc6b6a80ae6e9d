//! What a turn is to do, before it is carried out.
ghost use Rattle.std.specs.Prelude.{◌≡◌, ◌++◌, IfOk, [], ◌∷◌};
ghost use Rattle.session_core.specs.Plan.{says, stays, hands_out, sends_again};

use crate::message::{Incoming, Message};
use crate::state::State;
use fix_write::MessageType;
use std::alloc::Global;
use venue_words::{Items, NoMemory};

/// Numbers of messages that are sent again, from the first to the last.
#[derive(Clone, Copy)]
pub struct Span {
    pub first: u64,
    pub last: u64,
}

/// What is known of a message that is handed out, beside its fields.
#[derive(Clone, Copy)]
pub struct RequestHead {
    pub number: u32,
    pub kind: MessageType,
}

/// What a turn is to do.
#[derive(Drop)]
pub struct Plan {
    /// The session's next state.
    pub state: State,
    /// Whether what was sent is forgotten, and numbers begin at 1 again.
    pub reset: bool,
    /// What is sent again, before the messages.
    pub resend: Option<Span>,
    /// What is sent with new numbers.
    pub messages: Items<Message>,
    /// What is handed out.
    pub request: Option<RequestHead>,
}

/// Some messages are sent.
pub fn says(state: State, messages: Vec<Message>) -> Plan
    ensures { result ≡ says state messages.items }
{
    Plan {
        state,
        reset: false,
        resend: None,
        messages: Items(messages),
        request: None,
    }
}

/// One message is sent.
pub fn says_one(alloc: Global, state: State, message: Message) -> Result<Plan, NoMemory>
    ensures { IfOk result (λ p. p ≡ says state (message ∷ [])) }
{
    let mut messages = Vec::with_capacity(alloc, 1)?;
    messages.push_reserved(message);
    Ok(says(state, messages))
}

/// A message is sent behind all that a plan sends.
pub fn then_says(mut plan: Plan, message: Message) -> Result<Plan, NoMemory>
    ensures { IfOk result (λ p. p ≡ record plan { messages = plan.messages ++ message ∷ [] }) }
{
    plan.messages.push(message)?;
    Ok(plan)
}

/// Nothing is sent.
pub fn stays(alloc: Global, state: State) -> Plan
    ensures { result ≡ stays state }
{
    says(state, Vec::new(alloc))
}

/// The message is handed out.
pub fn hands_out(alloc: Global, state: State, incoming: &Incoming<'_>) -> Plan
    ensures { result ≡ hands_out state incoming.now }
{
    Plan {
        state,
        reset: false,
        resend: None,
        messages: Items(Vec::new(alloc)),
        request: Some(RequestHead {
            number: incoming.number,
            kind: incoming.kind,
        }),
    }
}

/// Messages are sent again.
pub fn sends_again(alloc: Global, state: State, span: Span) -> Plan
    ensures { result ≡ sends_again state span }
{
    Plan {
        state,
        reset: false,
        resend: Some(span),
        messages: Items(Vec::new(alloc)),
        request: None,
    }
}
