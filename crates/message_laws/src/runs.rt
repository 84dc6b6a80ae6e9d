//! A session over a whole list of inputs.
ghost use Rattle.std.specs.Prelude.{◌≡◌, IfOk, OnOk, OnErr};
ghost use Rattle.std.specs.List.{AllByRecursion};
ghost use Rattle.session_core.specs.Machine.{IsUp, rests};
ghost use Rattle.session_core.specs.Runs.{IsShort, send_if_up, machine_behind, Follows, Answers};

use fix_fields::Frame;
use session_core::{Input, Message, MessageList, Session, Turn};
use std::alloc::Global;
use venue_words::NoMemory;

/// A turn in which nothing happens.
fn quiet<'a>(alloc: Global, session: &Session) -> Turn<'a>
    ensures { result ≡ (rests session.now).turn }
{
    session.sending(Vec::new(alloc))
}

/// The list of these messages.
fn listed(alloc: Global, messages: &[Message]) -> Result<MessageList, NoMemory>
    ensures { IfOk result (λ list. list ≡ messages.now) }
{
    let mut list = MessageList::new(alloc);
    for message in messages {
        list.push(message.kind, message.body.as_slice())?;
    }
    Ok(list)
}

/// Sends application messages where the session is up.
#[tactic(auto, unfolding(session_core::specs::Machine::on_send))]
fn send_if_up<'a>(
    alloc: Global,
    session: &mut Session,
    messages: &[Message],
    moment: i64,
) -> Result<Turn<'a>, NoMemory>
    ensures machine { OnOk result (session.new ≡ (send_if_up session.old messages.now moment).machine) }
    ensures turn { IfOk result (λ turn. turn ≡ (send_if_up session.old messages.now moment).turn) }
    ensures up { OnErr result (IsUp session.old) }
    ensures err { OnErr result (session.new ≡ session.old) }
{
    if !session.is_up() {
        return Ok(quiet(alloc, session));
    }
    let list = listed(alloc, messages)?;
    let frames = session.send_all(&list, moment)?;
    Ok(session.sending(frames))
}

/// Works one input, each kind by the call of its name. What is to be sent is passed over where the session is not up.
#[tactic(auto, unfolding(session_core::specs::Machine::on_reject))]
pub fn work<'a>(
    alloc: Global,
    session: &mut Session,
    input: &'a Input,
) -> Result<Turn<'a>, NoMemory>
    requires { IsShort input.now }
    ensures answer { Answers session.old input.now result }
    ensures machine { session.new ≡ machine_behind session.old input.now result }
{
    match input {
        Input::Connection => {
            session.open();
            Ok(quiet(alloc, session))
        }
        Input::Frame { frame, moment } => match Frame::over(frame.as_slice()) {
            Some(frame) => session.take(frame, *moment),
            None => unreachable!(),
        },
        Input::TooLong { moment } => session.too_long(*moment),
        Input::Tick { moment } => session.tick(*moment),
        Input::Send { messages, moment } => {
            send_if_up(alloc, session, messages.as_slice(), *moment)
        }
        Input::Reject {
            number,
            kind,
            tag,
            reason,
            moment,
        } => {
            if !session.is_up() {
                return Ok(quiet(alloc, session));
            }
            let mut frames = Vec::with_capacity(alloc, 1)?;
            let frame = session.reject(*number, *kind, *tag, *reason, *moment)?;
            frames.push_reserved(frame);
            Ok(session.sending(frames))
        }
    }
}

/// Works a list of inputs in its order, and gives the answer to each. Where memory for the list of answers is
/// wanted, nothing changes; where it is wanted for one input, that is its answer and the next input follows.
pub fn work_all<'a>(
    alloc: Global,
    session: &mut Session,
    inputs: &'a [Input],
) -> Result<Vec<Result<Turn<'a>, NoMemory>>, NoMemory>
    requires { AllByRecursion IsShort inputs.now }
    ensures follows { IfOk result (λ answers. Follows session.old inputs.now answers.items session.new) }
    ensures err { OnErr result (session.new ≡ session.old) }
{
    let mut answers = Vec::with_capacity(alloc, inputs.len())?;
    for input in inputs {
        let answer = work(alloc, session, input);
        answers.push_reserved(answer);
    }
    Ok(answers)
}
