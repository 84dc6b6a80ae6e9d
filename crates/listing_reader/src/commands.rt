//! Commands as lines tell them.
ghost use Rattle.std.specs.Prelude.{◌≡◌, ◌<◌, ◌^◌, IfOk, length, slice_index};
ghost use Rattle.listing_reader.specs.Told.{told_quote, told_request, told_command};

use crate::fields::{fields_of, told_bytes};
use crate::words::{place_in, split_word, told_side};
use fix_write::MessageType;
use order_fields::command_of;
use session_core::MessageFields;
use std::alloc::Global;
use venue_words::{Command, Config, NoMemory};

/// The quote of the words behind `Q`.
#[tactic(auto, unfolding(crate::specs::Told::told_quote))]
fn told_quote(text: &[u8], config: &Config) -> Command
    requires { length config.now.markets < 2 ^ 32 }
    ensures { result ≡ told_quote config.now text.now }
{
    let (market, sides) = split_word(text);
    let (bid, offer) = split_word(sides);
    Command::Quote {
        market: place_in(config.markets.as_slice(), market),
        bid: told_side(bid),
        offer: told_side(offer),
    }
}

/// What a member asks in a message of this type, by the words behind the type.
#[tactic(auto, unfolding(crate::specs::Told::told_request))]
fn told_request(
    alloc: Global,
    kind: MessageType,
    text: &[u8],
    config: &Config,
) -> Result<Command, NoMemory>
    requires { length config.now.members < 2 ^ 32 }
    ensures { IfOk result (λ command. command ≡ told_request config.now kind text.now) }
{
    let (member, fields) = split_word(text);
    let member = place_in(config.members.as_slice(), member);
    let bytes = told_bytes(alloc, fields)?;
    let fields = fields_of(alloc, bytes.as_slice())?;
    command_of(alloc, kind, member, &MessageFields::of(fields))
}

/// The first byte of a text, or 0.
fn first_byte(text: &[u8]) -> u8
    ensures { result ≡ slice_index text.now 0 }
{
    match text.first() {
        Some(byte) => *byte,
        None => 0,
    }
}

/// The command of its words. Of words that are no command it is some other command.
#[tactic(auto, unfolding(crate::specs::Told::told_command))]
pub fn told_command(alloc: Global, text: &[u8], config: &Config) -> Result<Command, NoMemory>
    requires markets { length config.now.markets < 2 ^ 32 }
    requires members { length config.now.members < 2 ^ 32 }
    ensures { IfOk result (λ command. command ≡ told_command config.now text.now) }
{
    let (_, behind) = split_word(text);
    let first = first_byte(text);
    if first == b'Q' {
        return Ok(told_quote(behind, config));
    }
    told_request(alloc, MessageType::of_byte(first), behind, config)
}
