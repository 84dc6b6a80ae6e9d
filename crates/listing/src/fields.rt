//! The fields of orders, as a listing tells them.
ghost use Rattle.std.specs.Prelude.{◌≡◌, ◌++◌, decimal, OnOk, option_map};
ghost use Rattle.fix_write.specs.Fields.{field};
ghost use Rattle.exec_reports.specs.Bodies.{byte, field_if};
ghost use Rattle.exec_reports.specs.Texts.{amount_text};
ghost use Rattle.listing.specs.Commands.{order_terms, peg_terms, terms_fields};

use exec_reports::texts::push_amount;
use fix_write::digits::push_number;
use fix_write::{push_byte_field, push_number_field};
use order_fields::tags::{
    MIN_QTY, MIN_QTY_METHOD, ORD_TYPE, ORDER_QTY, PEG_MOVE_TYPE, PEG_OFFSET_TYPE, PEG_OFFSET_VALUE,
    PEG_PRICE_TYPE, PEG_ROUND_DIRECTION, PRICE, SIDE, TIME_IN_FORCE,
};
use venue_words::limits::SOH;
use venue_words::{NoMemory, Terms};

#[tactic(auto, unfolding(fix_write::specs::Fields::field))]
fn push_amount_field(out: &mut Vec<u8>, tag: u32, amount: i128) -> Result<(), NoMemory>
    ensures { OnOk result (out.new.items ≡ out.old.items ++ field tag (amount_text amount)) }
{
    push_number(out, u64::from(tag))?;
    out.push(b'=')?;
    push_amount(out, amount)?;
    out.push(SOH)?;
    Ok(())
}

/// The field of an amount, where it was received.
fn push_amount_if(out: &mut Vec<u8>, tag: u32, amount: Option<i128>) -> Result<(), NoMemory>
    ensures { OnOk result (out.new.items ≡ out.old.items ++ field_if tag (option_map amount_text amount)) }
{
    match amount {
        Some(amount) => push_amount_field(out, tag, amount),
        None => Ok(()),
    }
}

/// The field of a number, where it was received.
fn push_number_if(out: &mut Vec<u8>, tag: u32, number: Option<u32>) -> Result<(), NoMemory>
    ensures { OnOk result (out.new.items ≡ out.old.items ++ field_if tag (option_map decimal number)) }
{
    match number {
        Some(number) => push_number_field(out, tag, u64::from(number)),
        None => Ok(()),
    }
}

/// The field of a byte, where it was received.
fn push_byte_if(out: &mut Vec<u8>, tag: u32, value: Option<u8>) -> Result<(), NoMemory>
    ensures { OnOk result (out.new.items ≡ out.old.items ++ field_if tag (option_map byte value)) }
{
    match value {
        Some(value) => push_byte_field(out, tag, value),
        None => Ok(()),
    }
}

/// Appends what is to be traded.
#[tactic(auto, unfolding(crate::specs::Commands::order_terms))]
fn push_order_terms(out: &mut Vec<u8>, terms: &Terms) -> Result<(), NoMemory>
    ensures { OnOk result (out.new.items ≡ out.old.items ++ order_terms terms.now) }
{
    push_byte_field(out, SIDE, terms.side)?;
    push_amount_field(out, ORDER_QTY, terms.quantity)?;
    push_byte_field(out, ORD_TYPE, terms.kind)?;
    push_amount_if(out, PRICE, terms.price)?;
    push_byte_if(out, TIME_IN_FORCE, terms.force)?;
    push_amount_if(out, MIN_QTY, terms.minimum)?;
    push_number_if(out, MIN_QTY_METHOD, terms.method)
}

/// Appends how it is pegged.
#[tactic(auto, unfolding(crate::specs::Commands::peg_terms))]
fn push_peg_terms(out: &mut Vec<u8>, terms: &Terms) -> Result<(), NoMemory>
    ensures { OnOk result (out.new.items ≡ out.old.items ++ peg_terms terms.now) }
{
    push_number_if(out, PEG_PRICE_TYPE, terms.peg)?;
    push_amount_if(out, PEG_OFFSET_VALUE, terms.offset)?;
    push_number_if(out, PEG_OFFSET_TYPE, terms.offset_kind)?;
    push_number_if(out, PEG_MOVE_TYPE, terms.moves)?;
    push_number_if(out, PEG_ROUND_DIRECTION, terms.round)
}

/// Appends the terms of an order: those of its fields that were received. A refusal leaves a part of them.
pub fn push_terms(out: &mut Vec<u8>, terms: &Terms) -> Result<(), NoMemory>
    ensures { OnOk result (out.new.items ≡ out.old.items ++ terms_fields terms.now) }
{
    push_order_terms(out, terms)?;
    push_peg_terms(out, terms)
}
