//! The bodies of reports, field by field.
ghost use Rattle.std.specs.Prelude.{◌≡◌, ◌∷◌, [], ◌++◌, decimal, option_map, OnOk, IfOk};
ghost use Rattle.fix_write.specs.Fields.{field};
ghost use Rattle.fix_write.specs.Moments.{moment_text};
ghost use Rattle.exec_reports.specs.Parts.{orig_in, quantity_in};
ghost use Rattle.exec_reports.specs.Texts.{order_id, exec_id, price_text, average_text, amount_text};
ghost use Rattle.exec_reports.specs.Bodies.{byte, field_if, execution_body, refusal_body, body_of, kind_of};

use crate::parts::{
    answer_of, cum_of, first_of, id_of, last_price_of, last_quantity_of, leaves_of, limit_of,
    notional_of, orig_of, price_of, reason_of, refusal_of, refuses, rule_of, side_of, status_of,
    time_of, type_of, type_of_report,
};
use crate::tags::{
    AVG_PX, CL_ORD_ID, CUM_QTY, CXL_REJ_REASON, CXL_REJ_RESPONSE_TO, EXEC_ID, EXEC_TYPE, LAST_PX,
    LAST_QTY, LEAVES_QTY, ORD_REJ_REASON, ORD_STATUS, ORD_TYPE, ORDER_ID, ORDER_QTY,
    ORIG_CL_ORD_ID, PEGGED_PRICE, PRICE, PRIORITY_EVENT, RULE_NUMBER, SIDE, SYMBOL, TRANSACT_TIME,
};
use crate::texts::{push_amount, push_average, push_exec_id, push_order_id, push_price};
use fix_write::digits::push_ended;
use fix_write::{MessageType, push_byte_field, push_field, push_moment_field, push_number_field};
use std::alloc::Global;
use venue_words::limits::SOH;
use venue_words::{Kind, NoMemory, Report};

/// Appends a tag and `=`.
fn push_tag(out: &mut Vec<u8>, tag: u32) -> Result<(), NoMemory>
    ensures { OnOk result (out.new.items ≡ out.old.items ++ decimal tag ++ 61 ∷ []) }
{
    push_ended(out, u64::from(tag), b'=')
}

#[tactic(auto, unfolding(fix_write::specs::Fields::field))]
fn push_order_id_field(out: &mut Vec<u8>, symbol: &[u8], first: Option<u32>) -> Result<(), NoMemory>
    ensures { OnOk result (out.new.items ≡ out.old.items ++ field ORDER_ID (order_id symbol.now first)) }
{
    push_tag(out, ORDER_ID)?;
    push_order_id(out, symbol, first)?;
    out.push(SOH)?;
    Ok(())
}

#[tactic(auto, unfolding(fix_write::specs::Fields::field))]
fn push_exec_id_field(
    out: &mut Vec<u8>,
    report: &Report,
    symbol: &[u8],
    member: &[u8],
) -> Result<(), NoMemory>
    ensures { OnOk result (out.new.items ≡ out.old.items
        ++ field EXEC_ID (exec_id symbol.now member.now report.now.event report.now.place)) }
{
    push_tag(out, EXEC_ID)?;
    push_exec_id(out, symbol, member, report.event, report.place)?;
    out.push(SOH)?;
    Ok(())
}

#[tactic(auto, unfolding(fix_write::specs::Fields::field))]
fn push_price_field(out: &mut Vec<u8>, tag: u32, units: u32) -> Result<(), NoMemory>
    ensures { OnOk result (out.new.items ≡ out.old.items ++ field tag (price_text units)) }
{
    push_tag(out, tag)?;
    push_price(out, units)?;
    out.push(SOH)?;
    Ok(())
}

#[tactic(auto, unfolding(fix_write::specs::Fields::field))]
fn push_average_field(out: &mut Vec<u8>, notional: u64, cum: u32) -> Result<(), NoMemory>
    ensures { OnOk result (out.new.items ≡ out.old.items ++ field AVG_PX (average_text notional cum)) }
{
    push_tag(out, AVG_PX)?;
    push_average(out, notional, cum)?;
    out.push(SOH)?;
    Ok(())
}

#[tactic(auto, unfolding(fix_write::specs::Fields::field))]
fn push_amount_field(out: &mut Vec<u8>, tag: u32, amount: i128) -> Result<(), NoMemory>
    ensures { OnOk result (out.new.items ≡ out.old.items ++ field tag (amount_text amount)) }
{
    push_tag(out, tag)?;
    push_amount(out, amount)?;
    out.push(SOH)?;
    Ok(())
}

fn push_transact_time(out: &mut Vec<u8>, report: &Report) -> Result<(), NoMemory>
    ensures { OnOk result (out.new.items ≡ out.old.items ++ field TRANSACT_TIME (moment_text report.now.moment)) }
{
    push_moment_field(out, TRANSACT_TIME, report.moment)
}

fn push_count(out: &mut Vec<u8>, tag: u32, count: u32) -> Result<(), NoMemory>
    ensures { OnOk result (out.new.items ≡ out.old.items ++ field tag (decimal count)) }
{
    push_number_field(out, tag, u64::from(count))
}

/// Appends the field of a number that is there.
fn push_number_if(out: &mut Vec<u8>, tag: u32, number: Option<u32>) -> Result<(), NoMemory>
    ensures { OnOk result (out.new.items ≡ out.old.items ++ field_if tag (option_map decimal number)) }
{
    match number {
        None => Ok(()),
        Some(number) => push_count(out, tag, number),
    }
}

/// The same of a code, which is a small number.
fn push_code_if(out: &mut Vec<u8>, tag: u32, code: Option<u8>) -> Result<(), NoMemory>
    ensures { OnOk result (out.new.items ≡ out.old.items ++ field_if tag (option_map decimal code)) }
{
    match code {
        None => Ok(()),
        Some(code) => push_count(out, tag, u32::from(code)),
    }
}

/// The same of a byte.
fn push_byte_if(out: &mut Vec<u8>, tag: u32, value: Option<u8>) -> Result<(), NoMemory>
    ensures { OnOk result (out.new.items ≡ out.old.items ++ field_if tag (option_map byte value)) }
{
    match value {
        None => Ok(()),
        Some(value) => push_byte_field(out, tag, value),
    }
}

/// The same of a price, which counts units of 0.005.
fn push_price_if(out: &mut Vec<u8>, tag: u32, units: Option<u32>) -> Result<(), NoMemory>
    ensures { OnOk result (out.new.items ≡ out.old.items ++ field_if tag (option_map price_text units)) }
{
    match units {
        None => Ok(()),
        Some(units) => push_price_field(out, tag, units),
    }
}

fn push_orig(out: &mut Vec<u8>, kind: &Kind) -> Result<(), NoMemory>
    ensures { OnOk result (out.new.items ≡ out.old.items ++ field_if ORIG_CL_ORD_ID (orig_in kind.now)) }
{
    match orig_of(kind) {
        Some(orig) => push_field(out, ORIG_CL_ORD_ID, orig.as_slice()),
        None => Ok(()),
    }
}

#[tactic(auto, unfolding(crate::specs::Parts::quantity_in))]
fn push_quantity(out: &mut Vec<u8>, kind: &Kind) -> Result<(), NoMemory>
    ensures { OnOk result (out.new.items ≡ out.old.items ++ field_if ORDER_QTY (quantity_in kind.now)) }
{
    match kind {
        Kind::Order { view, .. } => push_count(out, ORDER_QTY, view.quantity),
        Kind::Rejected { quantity, .. } => push_amount_field(out, ORDER_QTY, *quantity),
        Kind::Unknown { .. } | Kind::Refused { .. } => Ok(()),
    }
}

/// Room for the body of a report: all of it, for an order that the venue takes.
fn room(report: &Report, symbol: &[u8], member: &[u8]) -> usize {
    // The symbol stands in up to three fields, and the other fields have at most 192 bytes with their tags.
    let names = symbol.len().saturating_mul(3).saturating_add(member.len());
    let orig = orig_of(&report.kind).map_or(0, |orig| orig.as_slice().len());
    let ids = id_of(&report.kind).len().saturating_add(orig);
    names.saturating_add(ids).saturating_add(192)
}

/// Appends the body of an execution report.
fn push_execution_report(
    out: &mut Vec<u8>,
    report: &Report,
    symbol: &[u8],
    member: &[u8],
) -> Result<(), NoMemory>
    ensures { OnOk result (out.new.items ≡ out.old.items ++ execution_body report.now symbol.now member.now) }
{
    let kind = &report.kind;
    out.reserve(room(report, symbol, member))?;
    push_order_id_field(out, symbol, first_of(kind))?;
    push_field(out, CL_ORD_ID, id_of(kind))?;
    push_orig(out, kind)?;
    push_exec_id_field(out, report, symbol, member)?;
    push_byte_field(out, EXEC_TYPE, type_of_report(kind))?;
    push_byte_field(out, ORD_STATUS, status_of(kind))?;
    push_code_if(out, ORD_REJ_REASON, reason_of(report.event, kind))?;
    push_field(out, SYMBOL, symbol)?;
    push_byte_field(out, SIDE, side_of(kind))?;
    push_quantity(out, kind)?;
    push_byte_if(out, ORD_TYPE, type_of(kind))?;
    push_price_if(out, PRICE, limit_of(kind))?;
    push_number_if(out, LAST_QTY, last_quantity_of(kind))?;
    push_price_if(out, LAST_PX, last_price_of(kind))?;
    push_count(out, LEAVES_QTY, leaves_of(kind))?;
    push_count(out, CUM_QTY, cum_of(kind))?;
    push_average_field(out, notional_of(kind), cum_of(kind))?;
    push_transact_time(out, report)?;
    push_price_if(out, PEGGED_PRICE, price_of(kind))?;
    push_number_if(out, PRIORITY_EVENT, time_of(kind))?;
    push_code_if(out, RULE_NUMBER, rule_of(kind))?;
    Ok(())
}

/// Appends the body of a cancel reject.
fn push_cancel_reject(out: &mut Vec<u8>, report: &Report, symbol: &[u8]) -> Result<(), NoMemory>
    ensures { OnOk result (out.new.items ≡ out.old.items ++ refusal_body report.now symbol.now) }
{
    let kind = &report.kind;
    out.reserve(room(report, symbol, b""))?;
    push_order_id_field(out, symbol, first_of(kind))?;
    push_field(out, CL_ORD_ID, id_of(kind))?;
    push_orig(out, kind)?;
    push_byte_field(out, ORD_STATUS, status_of(kind))?;
    push_byte_if(out, CXL_REJ_RESPONSE_TO, answer_of(kind))?;
    push_code_if(out, CXL_REJ_REASON, refusal_of(kind))?;
    push_transact_time(out, report)?;
    push_code_if(out, RULE_NUMBER, rule_of(kind))?;
    Ok(())
}

/// Appends the body of a report: an execution report, or for a refused cancel or replace a cancel reject. `symbol` is the
/// symbol's name, or for a message that came to no book the value of Symbol(55) that was received; `member` is the
/// name of the report's member. A refusal leaves a part of it.
#[tactic(auto, unfolding(crate::specs::Bodies::body_of))]
pub fn push_body(
    out: &mut Vec<u8>,
    report: &Report,
    symbol: &[u8],
    member: &[u8],
) -> Result<(), NoMemory>
    ensures { OnOk result (out.new.items ≡ out.old.items ++ body_of report.now symbol.now member.now) }
{
    if refuses(&report.kind) {
        push_cancel_reject(out, report, symbol)
    } else {
        push_execution_report(out, report, symbol, member)
    }
}

/// The body of a report in memory of its own.
pub fn body(
    alloc: Global,
    report: &Report,
    symbol: &[u8],
    member: &[u8],
) -> Result<Vec<u8>, NoMemory>
    ensures { IfOk result (λ body. body.items ≡ body_of report.now symbol.now member.now) }
{
    let mut body = Vec::new(alloc);
    push_body(&mut body, report, symbol, member)?;
    Ok(body)
}

/// MsgType(35) of a report: that of a cancel reject, or of an execution report.
#[tactic(auto, unfolding(crate::specs::Bodies::kind_of))]
pub fn kind(report: &Report) -> MessageType
    ensures { result ≡ kind_of report.now }
{
    if refuses(&report.kind) {
        MessageType::CancelReject
    } else {
        MessageType::ExecutionReport
    }
}
