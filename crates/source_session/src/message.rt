//! What a message of the source asks, by its number and its type.
ghost use Rattle.std.specs.Prelude.{◌≡◌, ◌<◌};
ghost use Rattle.source_session.specs.Messages.{rests, ends, goes_up, on_first, in_turn, by_number, on_numbered, on_fields};

use crate::names::Names;
use crate::state::{SourceEnd, SourcePhase, SourceState};
use fix_write::MessageType;
use session_core::MessageFields;
use session_core::lookup::{is_value, kind_of, message_number};
use session_core::tags::{POSS_DUP_FLAG, SENDER_COMP_ID, TARGET_COMP_ID};

/// What a message asks of us.
#[derive(Clone, Copy, Debug, PartialEq, Eq)]
pub(crate) enum Asks {
    Nothing,
    /// The source is there: market data may be asked for.
    Begin,
    /// A Heartbeat with the identifier of the TestRequest.
    Heartbeat,
    /// A SequenceReset in place of what was sent: nothing is sent again.
    Fill,
    /// A snapshot is to be read.
    Quotes,
    /// A Logout is answered.
    Logout,
}

/// The state after a message, and what it asks.
#[derive(Clone, Copy, Debug, PartialEq, Eq)]
pub(crate) struct Outcome {
    pub state: SourceState,
    pub asks: Asks,
}

/// Nothing happens.
fn rests(state: SourceState) -> Outcome
    ensures { result ≡ rests state }
{
    Outcome {
        state,
        asks: Asks::Nothing,
    }
}

/// The connection ends.
fn ends(end: SourceEnd, state: SourceState, asks: Asks) -> Outcome
    ensures { result ≡ ends end state asks }
{
    Outcome {
        state: SourceState {
            phase: SourcePhase::Ended(end),
            next: state.next,
        },
        asks,
    }
}

/// What the first message of a connection asks.
fn on_first(state: SourceState, kind: MessageType, number: u32) -> Outcome
    ensures { result ≡ on_first kind state number }
{
    match kind {
        MessageType::Logon if number == 1 => Outcome {
            state: SourceState {
                phase: SourcePhase::Up,
                next: 2,
            },
            asks: Asks::Begin,
        },
        MessageType::Logon => ends(SourceEnd::BadLogon, state, Asks::Nothing),
        MessageType::Logout => ends(SourceEnd::Refused, state, Asks::Nothing),
        _ => ends(SourceEnd::NotLogon, state, Asks::Nothing),
    }
}

/// What a message asks whose turn it is.
fn in_turn(state: SourceState, kind: MessageType) -> Outcome
    ensures { result ≡ in_turn kind state }
{
    let asks = match kind {
        MessageType::Logout => return ends(SourceEnd::Logout, state, Asks::Logout),
        MessageType::SequenceReset => return ends(SourceEnd::Gap, state, Asks::Nothing),
        MessageType::TestRequest => Asks::Heartbeat,
        MessageType::ResendRequest => Asks::Fill,
        MessageType::MarketDataSnapshot => Asks::Quotes,
        _ => Asks::Nothing,
    };
    Outcome { state, asks }
}

/// What a message of a session that is up asks, by its number.
#[tactic(auto, unfolding(crate::specs::Messages::by_number))]
fn by_number(state: SourceState, number: u32, fields: &MessageFields<'_>) -> Outcome
    requires { number < 1_000_000_000 }
    ensures { result ≡ by_number state number fields.now }
{
    if number < state.next {
        return if is_value(POSS_DUP_FLAG, b"Y", fields) {
            rests(state)
        } else {
            ends(SourceEnd::TooLow, state, Asks::Nothing)
        };
    }
    if state.next < number {
        return ends(SourceEnd::Gap, state, Asks::Nothing);
    }
    let next = SourceState {
        phase: state.phase,
        next: number + 1,
    };
    in_turn(next, kind_of(fields))
}

/// What a message of a number asks.
#[tactic(auto, unfolding(crate::specs::Messages::on_numbered))]
fn on_numbered(
    names: &Names,
    state: SourceState,
    number: u32,
    fields: &MessageFields<'_>,
) -> Outcome
    requires { number < 1_000_000_000 }
    ensures { result ≡ on_numbered names.now state number fields.now }
{
    if !is_value(SENDER_COMP_ID, names.source.as_slice(), fields)
        || !is_value(TARGET_COMP_ID, names.own.as_slice(), fields)
    {
        return ends(SourceEnd::WrongName, state, Asks::Nothing);
    }
    match state.phase {
        SourcePhase::Asked => on_first(state, kind_of(fields), number),
        SourcePhase::Up => by_number(state, number, fields),
        SourcePhase::Ended(_) => rests(state),
    }
}

/// What the fields of a message ask.
#[tactic(auto, unfolding(crate::specs::Messages::on_fields))]
pub(crate) fn on_fields(names: &Names, state: SourceState, fields: &MessageFields<'_>) -> Outcome
    ensures { result ≡ on_fields names.now state fields.now }
{
    match message_number(fields) {
        Some(number) => on_numbered(names, state, number, fields),
        None => ends(SourceEnd::NoNumber, state, Asks::Nothing),
    }
}
