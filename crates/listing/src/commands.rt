//! Commands, as a listing tells them.
ghost use Rattle.std.specs.Prelude.{◌≡◌, ◌++◌, OnOk};
ghost use Rattle.quote_text.specs.Sides.{side_text};
ghost use Rattle.listing.specs.Commands.{name_at, word, quote_text, request_text, command_text};

use crate::fields::push_terms;
use fix_write::{MessageType, push_byte_field, push_field};
use order_fields::tags::{CL_ORD_ID, ORIG_CL_ORD_ID, SIDE};
use quote_text::push_side;
use script_text::push_escaped_text;
use venue_words::{Bytes, Command, Config, NoMemory};

/// A name of the config, or nothing behind the last.
pub fn name_at(names: &[Bytes], place: u32) -> &[u8]
    ensures { result.now ≡ name_at names.now place }
{
    names.get(place as usize).map_or(&[], Bytes::as_slice)
}

/// Appends a space and a word.
pub fn push_word(out: &mut Vec<u8>, text: &[u8]) -> Result<(), NoMemory>
    ensures { OnOk result (out.new.items ≡ out.old.items ++ word text.now) }
{
    out.push(b' ')?;
    out.extend_from_slice(text)?;
    Ok(())
}

/// Appends a space and a side of a quote.
fn push_side_word(out: &mut Vec<u8>, cents: Option<u32>) -> Result<(), NoMemory>
    ensures { OnOk result (out.new.items ≡ out.old.items ++ word (side_text cents)) }
{
    out.push(b' ')?;
    push_side(out, cents)
}

/// Appends a quote of a market.
#[tactic(auto, unfolding(crate::specs::Commands::quote_text))]
fn push_quote(
    out: &mut Vec<u8>,
    market: &[u8],
    bid: Option<u32>,
    offer: Option<u32>,
) -> Result<(), NoMemory>
    ensures { OnOk result (out.new.items ≡ out.old.items ++ quote_text market.now bid offer) }
{
    out.push(b'Q')?;
    push_word(out, market)?;
    push_side_word(out, bid)?;
    push_side_word(out, offer)
}

/// Appends what a member asks: the message's type, the member's name, and the fields as text.
#[tactic(auto, unfolding(crate::specs::Commands::request_text))]
fn push_request(
    out: &mut Vec<u8>,
    kind: MessageType,
    member: &[u8],
    fields: &[u8],
) -> Result<(), NoMemory>
    ensures { OnOk result (out.new.items ≡ out.old.items ++ request_text kind member.now fields.now) }
{
    out.push(kind.byte())?;
    push_word(out, member)?;
    out.push(b' ')?;
    push_escaped_text(out, fields)?;
    Ok(())
}

/// Appends a command. `fields` is room for the fields of what a member asks. A refusal leaves a part of the command.
#[tactic(auto, unfolding(crate::specs::Commands::command_text))]
pub fn push_command(
    out: &mut Vec<u8>,
    fields: &mut Vec<u8>,
    config: &Config,
    command: &Command,
) -> Result<(), NoMemory>
    ensures { OnOk result (out.new.items ≡ out.old.items ++ command_text config.now command.now) }
{
    fields.clear();
    let (kind, member) = match command {
        Command::Quote { market, bid, offer } => {
            let market = name_at(config.markets.as_slice(), *market);
            return push_quote(out, market, *bid, *offer);
        }
        Command::New { member, id, terms } => {
            push_field(fields, CL_ORD_ID, id.as_slice())?;
            push_terms(fields, &terms.get())?;
            (MessageType::NewOrder, *member)
        }
        Command::Cancel { member, id, orig } => {
            push_field(fields, CL_ORD_ID, id.as_slice())?;
            push_field(fields, ORIG_CL_ORD_ID, orig.get().as_slice())?;
            (MessageType::CancelRequest, *member)
        }
        Command::Replace {
            member,
            id,
            orig,
            terms,
        } => {
            push_field(fields, CL_ORD_ID, id.as_slice())?;
            push_field(fields, ORIG_CL_ORD_ID, orig.get().as_slice())?;
            push_terms(fields, &terms.get())?;
            (MessageType::ReplaceRequest, *member)
        }
        Command::Status { member, id, side } => {
            push_field(fields, CL_ORD_ID, id.as_slice())?;
            push_byte_field(fields, SIDE, *side)?;
            (MessageType::StatusRequest, *member)
        }
    };
    let member = name_at(config.members.as_slice(), member);
    push_request(out, kind, member, fields.as_slice())
}
