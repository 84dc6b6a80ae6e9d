//! What stands among the fields of a message. Where a tag stands more than once, its first field decides.
ghost use Rattle.std.specs.Prelude.{◌≡◌, ◌<◌, IfSome};
ghost use Rattle.std.specs.Option.{option_copied};
ghost use Rattle.session_core.specs.Lookup.{value_of, number_in, number_or_zero, text_in, is_value, is_yes, single_byte, kind_of, message_number};

use crate::message_fields::MessageFields;
use crate::tags::{MSG_SEQ_NUM, MSG_TYPE};
use fix_fields::{Field, number};
use fix_write::MessageType;

/// The value of a tag among fields that stand in a slice, as those of an entry do. Each field is looked at.
#[tactic(auto, unfolding(crate::specs::Lookup::value_of))]
pub fn value_in<'a>(tag: u32, fields: &[Field<'a>]) -> Option<&'a [u8]>
    ensures { option_copied result ≡ value_of tag fields.now }
{
    fields
        .iter()
        .find(|field| field.tag == tag)
        .map(|field| field.bytes)
}

/// The value of a tag as a number: 1 to 9 digits.
#[tactic(auto, unfolding(crate::specs::Lookup::number_in))]
pub fn number_in(tag: u32, fields: &MessageFields<'_>) -> Option<u32>
    ensures value { result ≡ number_in tag fields.now }
    ensures small { IfSome result (λ n. n < 1_000_000_000) }
{
    match fields.value_of(tag) {
        Some(bytes) => number(bytes),
        None => None,
    }
}

/// Whether the value of a tag among fields that stand in a slice is there and is this one.
#[tactic(auto, unfolding(crate::specs::Lookup::is_value))]
pub fn is_value_in(tag: u32, expected: &[u8], fields: &[Field<'_>]) -> bool
    ensures { result ≡ is_value tag expected.now fields.now }
{
    match value_in(tag, fields) {
        Some(bytes) => bytes == expected,
        None => false,
    }
}

/// Whether the value of a tag is there and is this one.
#[tactic(auto, unfolding(crate::specs::Lookup::is_value))]
pub fn is_value(tag: u32, expected: &[u8], fields: &MessageFields<'_>) -> bool
    ensures { result ≡ is_value tag expected.now fields.now }
{
    is_value_in(tag, expected, fields.rest_for(tag))
}

/// The value of a tag as a number, or 0.
pub(crate) fn number_or_zero(tag: u32, fields: &MessageFields<'_>) -> u32
    ensures value { result ≡ number_or_zero tag fields.now }
    ensures small { result < 1_000_000_000 }
{
    match number_in(tag, fields) {
        Some(n) => n,
        None => 0,
    }
}

/// The value of a tag, or nothing.
#[tactic(auto, unfolding(crate::specs::Lookup::text_in))]
pub fn text_in<'a>(tag: u32, fields: &MessageFields<'a>) -> &'a [u8]
    ensures { result.now ≡ text_in tag fields.now }
{
    match fields.value_of(tag) {
        Some(bytes) => bytes,
        None => &[],
    }
}

/// Whether the value of a tag is `Y`.
pub(crate) fn is_yes(tag: u32, fields: &MessageFields<'_>) -> bool
    ensures { result ≡ is_yes tag fields.now }
{
    is_value(tag, b"Y", fields)
}

/// The byte of a value that has exactly one, and else 0.
pub fn single_byte(bytes: &[u8]) -> u8
    ensures { result ≡ single_byte bytes.now }
{
    match bytes {
        [only] => *only,
        _ => 0,
    }
}

/// MsgType(35), by its byte where it has exactly one, and else by 0.
#[tactic(auto, unfolding(crate::specs::Lookup::kind_of))]
pub fn kind_of(fields: &MessageFields<'_>) -> MessageType
    ensures { result ≡ kind_of fields.now }
{
    match fields.value_of(MSG_TYPE) {
        Some(bytes) => MessageType::of_byte(single_byte(bytes)),
        None => MessageType::of_byte(0),
    }
}

/// MsgSeqNum(34), where it is a number from 1 to 999,999,999.
#[tactic(auto, unfolding(crate::specs::Lookup::message_number))]
pub fn message_number(fields: &MessageFields<'_>) -> Option<u32>
    ensures value { result ≡ message_number fields.now }
    ensures small { IfSome result (λ n. n < 1_000_000_000) }
{
    match number_in(MSG_SEQ_NUM, fields) {
        Some(0) => None,
        other => other,
    }
}
