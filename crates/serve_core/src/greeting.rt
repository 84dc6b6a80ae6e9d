//! Who a connection is of.
ghost use Rattle.std.specs.Prelude.{◌≡◌, ◌≢◌, ◌<◌, ◌≤◌, ◌++◌, ℕ, List, Ok, Some, length, IfOk, IfSome};
ghost use Rattle.venue_words.specs.declared.limits.TheConstants.{MAX_MEMBERS};
ghost use Rattle.serve_core.specs.Greeting.{IsAmong, IsSaidBy, SayTheSame, greeted_by, greeting_of};

use fix_fields::{FieldFault, Frame, fields};
use fix_frames::{Framer, Next};
use quote_intake::number_in;
use session_core::lookup::message_number;
use session_core::tags::SENDER_COMP_ID;
use session_core::{EndCause, MessageFields};
use std::alloc::Global;
use venue_words::{Config, NoMemory};

/// What the bytes of a connection say of whose it is.
#[derive(Clone, Copy, Debug, PartialEq, Eq)]
pub enum Greeting {
    /// No frame that splits into fields has come yet.
    Unnamed,
    /// The first such frame names the member of this number.
    Member(u32),
    /// The connection ends so, and nothing is sent.
    Refused(EndCause),
}

/// Whose the connection is whose first frame has these fields.
fn greeted_by(config: &Config, fields: &MessageFields<'_>) -> Greeting
    requires { length config.now.members ≤ MAX_MEMBERS }
    ensures said { result ≡ greeted_by config.now fields.now }
    ensures some { result ≢ Greeting.Unnamed }
    ensures member { IsAmong (length config.now.members) result }
{
    let named = match fields.value_of(SENDER_COMP_ID) {
        Some(name) => number_in(config.members.as_slice(), name),
        None => None,
    };
    match named {
        Some(member) => Greeting::Member(member),
        None if message_number(fields).is_none() => Greeting::Refused(EndCause::NoNumber),
        None => Greeting::Refused(EndCause::WrongName),
    }
}

/// What a frame says of whose the connection is: nothing where it does not split into fields.
fn greeting_in(
    alloc: Global,
    config: &Config,
    frame: &Frame<'_>,
) -> Result<Option<Greeting>, NoMemory>
    requires members { length config.now.members ≤ MAX_MEMBERS }
    ensures said { IfOk result (λ said. IsSaidBy config.now frame.now.bytes.now said) }
    ensures some { IfOk result (λ said. said ≢ Some Greeting.Unnamed) }
    ensures member { IfOk result (λ said. IfSome said (IsAmong (length config.now.members))) }
{
    match fields(alloc, frame.content()) {
        Ok(fields) => Ok(Some(greeted_by(config, &MessageFields::of(fields)))),
        Err(FieldFault::NoMemory) => Err(NoMemory),
        Err(_) => Ok(None),
    }
}

/// Takes frames from a stream until one says whose the connection is.
fn next_greeting(alloc: Global, config: &Config, framer: &mut Framer) -> Result<Greeting, NoMemory>
    requires members { length config.now.members ≤ MAX_MEMBERS }
    ensures said { IfOk result (λ greeting. greeting ≡ greeting_of config.now framer.old.kept) }
    ensures on { result ≡ Ok Greeting.Unnamed → SayTheSame config.now framer.old.kept framer.new.kept }
    ensures member { IfOk result (IsAmong (length config.now.members)) }
{
    'frames: loop {
        match framer.next() {
            Next::Frame(frame) => {
                let said = greeting_in(alloc, config, &frame)?;
                match said {
                    Some(greeting) => return Ok(greeting),
                    None => {}
                }
            }
            Next::Wait => return Ok(Greeting::Unnamed),
            Next::TooLong => return Ok(Greeting::Refused(EndCause::TooLong)),
        }
    }
}

/// Takes the next piece of a connection of which no frame has told yet whose it is: what all bytes so far say. The framer has
/// what was not passed over of the bytes before.
pub fn hear(
    alloc: Global,
    config: &Config,
    framer: &mut Framer,
    piece: &[u8],
) -> Result<Greeting, NoMemory>
    requires members { length config.now.members ≤ MAX_MEMBERS }
    ensures said { IfOk result (λ greeting. (bytes : List ℕ) → SayTheSame config.now bytes framer.old.kept
        → greeting ≡ greeting_of config.now (bytes ++ piece.now)) }
    ensures on { result ≡ Ok Greeting.Unnamed → (bytes : List ℕ) → SayTheSame config.now bytes framer.old.kept
        → SayTheSame config.now (bytes ++ piece.now) framer.new.kept }
    ensures member { IfOk result (IsAmong (length config.now.members)) }
{
    framer.feed(piece)?;
    next_greeting(alloc, config, framer)
}
