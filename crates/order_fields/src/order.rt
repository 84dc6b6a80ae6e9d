//! What an order asks for, or the first reason for which it is refused.
ghost use Rattle.std.specs.Prelude.{◌≡◌, ◌≤◌, ◌<◌, IfOk, IfSome, length};
ghost use Rattle.venue_words.specs.declared.limits.TheConstants.{MAX_SYMBOLS};
ghost use Rattle.venue_words.specs.Conditions.{IsConfig};
ghost use Rattle.venue_words.specs.Floors.{setup_of};
ghost use Rattle.order_fields.specs.Order.{command_of, stray_refusal, stray_kind, symbol_of, decoded_of, order, Answers, CanSubmit};

use crate::reading::{amount_or_zero, code_or_zero, id_in, terms_of};
use crate::tables::{optional_of, required_of};
use crate::tags::{CL_ORD_ID, ORDER_QTY, ORIG_CL_ORD_ID, SIDE, SYMBOL};
use fix_write::MessageType;
use session_core::lookup::text_in;
use session_core::{MessageFields, Request, first_failed};
use std::alloc::Global;
use venue_words::{
    BoxedId, BoxedTerms, Bytes, Command, Config, Id, Kind, NoMemory, RefusedRequest, Report, Rule,
};

/// Why a message does not reach a book. Nothing is changed by it.
#[derive(Clone, Copy, Debug, PartialEq, Eq)]
pub enum Refusal {
    /// It fails a check: SessionRejectReason(373) and RefTagID(371) of the Reject (35=3) that answers it.
    Reject { reason: u8, tag: u32 },
    /// Its type is not that of an order (35=D, F, G or H): a BusinessMessageReject (35=j) answers it.
    Business,
    /// Memory was wanted.
    NoMemory,
}

/// What an order asks for.
#[derive(Debug, Drop)]
pub enum Decoded {
    /// A command to the book of a symbol, by its number in the config.
    Book { symbol: u32, command: Command },
    /// Its symbol is not configured, and this answers it.
    Stray { report: Report },
}

/// The command that an order asks of a book, whose fields are read as they stand: what is missing or has another form counts as
/// none, or as 0.
#[tactic(auto, unfolding(crate::specs::Order::command_of))]
pub fn command_of(
    alloc: Global,
    kind: MessageType,
    member: u32,
    fields: &MessageFields<'_>,
) -> Result<Command, NoMemory>
    ensures { IfOk result (λ command. command ≡ command_of kind member fields.now) }
{
    let id = id_in(alloc, CL_ORD_ID, fields)?;
    match kind {
        MessageType::NewOrder => Ok(Command::New {
            member,
            id,
            terms: BoxedTerms::new(alloc, terms_of(fields))?,
        }),
        MessageType::CancelRequest => Ok(Command::Cancel {
            member,
            id,
            orig: BoxedId::new(alloc, id_in(alloc, ORIG_CL_ORD_ID, fields)?)?,
        }),
        MessageType::ReplaceRequest => Ok(Command::Replace {
            member,
            id,
            orig: BoxedId::new(alloc, id_in(alloc, ORIG_CL_ORD_ID, fields)?)?,
            terms: BoxedTerms::new(alloc, terms_of(fields))?,
        }),
        _ => Ok(Command::Status {
            member,
            id,
            side: code_or_zero(SIDE, fields),
        }),
    }
}

/// The refusal of a cancel or a replace of a symbol that is not configured.
fn refused(
    alloc: Global,
    fields: &MessageFields<'_>,
    id: Id,
    request: RefusedRequest,
) -> Result<Kind, NoMemory>
    ensures { IfOk result (λ kind. kind ≡ stray_refusal fields.now id request) }
{
    Ok(Kind::Refused {
        id,
        orig: id_in(alloc, ORIG_CL_ORD_ID, fields)?,
        order: None,
        request,
        rule: Rule::UnknownSymbol,
    })
}

/// What answers an order of a symbol that is not configured.
#[tactic(auto, unfolding(crate::specs::Order::stray_kind))]
fn stray_kind(
    alloc: Global,
    kind: MessageType,
    fields: &MessageFields<'_>,
) -> Result<Kind, NoMemory>
    ensures { IfOk result (λ answer. answer ≡ stray_kind kind fields.now) }
{
    let id = id_in(alloc, CL_ORD_ID, fields)?;
    match kind {
        MessageType::NewOrder => Ok(Kind::Rejected {
            id,
            side: code_or_zero(SIDE, fields),
            quantity: amount_or_zero(ORDER_QTY, fields),
            rule: Rule::UnknownSymbol,
        }),
        MessageType::CancelRequest => refused(alloc, fields, id, RefusedRequest::Cancel),
        MessageType::ReplaceRequest => refused(alloc, fields, id, RefusedRequest::Replace),
        _ => Ok(Kind::Unknown {
            id,
            side: code_or_zero(SIDE, fields),
        }),
    }
}

/// The place of a symbol.
fn place_of(symbols: &[Bytes], name: &[u8]) -> Option<usize>
    ensures place { result ≡ symbol_of symbols.now name.now }
    ensures bound { IfSome result (λ place. place < length symbols.now) }
{
    symbols.iter().position(|symbol| symbol.as_slice() == name)
}

/// The number of a symbol.
fn symbol_of(symbols: &[Bytes], name: &[u8]) -> Option<u32>
    requires { length symbols.now ≤ MAX_SYMBOLS }
    ensures { result ≡ symbol_of symbols.now name.now }
{
    match place_of(symbols, name) {
        Some(place) => Some(place as u32),
        None => None,
    }
}

/// What an order that passes the checks asks for.
#[tactic(auto, unfolding(crate::specs::Order::decoded_of))]
fn decoded_of(
    alloc: Global,
    request: &Request<'_>,
    member: u32,
    config: &Config,
    moment: i64,
) -> Result<Decoded, NoMemory>
    requires { length config.now.symbols ≤ MAX_SYMBOLS }
    ensures { IfOk result (λ decoded. decoded ≡ decoded_of request.now member config.now moment) }
{
    let fields = &request.fields;
    match symbol_of(config.symbols.as_slice(), text_in(SYMBOL, fields)) {
        Some(symbol) => Ok(Decoded::Book {
            symbol,
            command: command_of(alloc, request.kind, member, fields)?,
        }),
        None => Ok(Decoded::Stray {
            report: Report {
                event: 0,
                place: request.number,
                member,
                moment,
                kind: stray_kind(alloc, request.kind, fields)?,
            },
        }),
    }
}

/// What a message of a configured member asks for, or the first refusal. The moment, in milliseconds since 1970-01-01
/// 00:00 UTC, is that of the report that answers an order of a symbol that is not configured; its place is the
/// message's MsgSeqNum(34), and its event is 0. An order is refused by the first check that it fails of those of every
/// message and its own type together.
#[tactic(auto, unfolding(crate::specs::Order::order))]
pub fn read_order(
    alloc: Global,
    request: &Request<'_>,
    member: u32,
    config: &Config,
    moment: i64,
) -> Result<Decoded, Refusal>
    requires { length config.now.symbols ≤ MAX_SYMBOLS }
    ensures order { Answers result (order request.now member config.now moment) }

    // The command of a configured member can be submitted to a floor that is set up by the config.
    ensures submittable { IsConfig config.now → member < length config.now.members
        → IfOk result (CanSubmit (setup_of config.now)) }
{
    if !request.kind.is_order() {
        return Err(Refusal::Business);
    }
    let required = required_of(request.kind);
    let optional = optional_of(request.kind);
    if let Some(failed) = first_failed(required, optional, &request.fields) {
        return Err(Refusal::Reject {
            reason: failed.reason,
            tag: failed.tag,
        });
    }
    match decoded_of(alloc, request, member, config, moment) {
        Ok(decoded) => Ok(decoded),
        Err(_) => Err(Refusal::NoMemory),
    }
}
