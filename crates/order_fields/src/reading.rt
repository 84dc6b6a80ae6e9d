//! What the fields of an order say.
ghost use Rattle.std.specs.Prelude.{◌≡◌, IfOk};
ghost use Rattle.session_core.specs.Lookup.{text_in};
ghost use Rattle.order_fields.specs.Reading.{code_in, code_or_zero, amount_in, amount_or_zero, terms_of};

use crate::tags::{
    MIN_QTY, MIN_QTY_METHOD, ORD_TYPE, ORDER_QTY, PEG_MOVE_TYPE, PEG_OFFSET_TYPE, PEG_OFFSET_VALUE,
    PEG_PRICE_TYPE, PEG_ROUND_DIRECTION, PRICE, SIDE, TIME_IN_FORCE,
};
use fix_fields::amount;
use session_core::MessageFields;
use session_core::lookup::{number_in, single_byte, text_in};
use std::alloc::Global;
use venue_words::{Id, NoMemory, Terms};

/// The id that is the value of a tag.
pub fn id_in(alloc: Global, tag: u32, fields: &MessageFields<'_>) -> Result<Id, NoMemory>
    ensures { IfOk result (λ id. id ≡ text_in tag fields.now) }
{
    Ok(Id::copy_of(alloc, text_in(tag, fields))?)
}

/// The code of a tag, which is one byte.
#[tactic(auto, unfolding(crate::specs::Reading::code_in))]
fn code_in(tag: u32, fields: &MessageFields<'_>) -> Option<u8>
    ensures { result ≡ code_in tag fields.now }
{
    match fields.value_of(tag) {
        Some(bytes) => Some(single_byte(bytes)),
        None => None,
    }
}

/// The code of a tag that was checked to be there.
pub fn code_or_zero(tag: u32, fields: &MessageFields<'_>) -> u8
    ensures { result ≡ code_or_zero tag fields.now }
{
    code_in(tag, fields).unwrap_or(0)
}

/// The amount of a tag.
#[tactic(auto, unfolding(crate::specs::Reading::amount_in))]
fn amount_in(tag: u32, fields: &MessageFields<'_>) -> Option<i128>
    ensures { result ≡ amount_in tag fields.now }
{
    match fields.value_of(tag) {
        Some(bytes) => amount(bytes),
        None => None,
    }
}

/// The amount of a tag that was checked to be there.
pub fn amount_or_zero(tag: u32, fields: &MessageFields<'_>) -> i128
    ensures { result ≡ amount_or_zero tag fields.now }
{
    match amount_in(tag, fields) {
        Some(amount) => amount,
        None => 0,
    }
}

/// The terms of an order.
#[tactic(auto, unfolding(crate::specs::Reading::terms_of))]
pub fn terms_of(fields: &MessageFields<'_>) -> Terms
    ensures { result ≡ terms_of fields.now }
{
    Terms {
        side: code_or_zero(SIDE, fields),
        quantity: amount_or_zero(ORDER_QTY, fields),
        kind: code_or_zero(ORD_TYPE, fields),
        price: amount_in(PRICE, fields),
        force: code_in(TIME_IN_FORCE, fields),
        minimum: amount_in(MIN_QTY, fields),
        method: number_in(MIN_QTY_METHOD, fields),
        peg: number_in(PEG_PRICE_TYPE, fields),
        offset: amount_in(PEG_OFFSET_VALUE, fields),
        offset_kind: number_in(PEG_OFFSET_TYPE, fields),
        moves: number_in(PEG_MOVE_TYPE, fields),
        round: number_in(PEG_ROUND_DIRECTION, fields),
    }
}
