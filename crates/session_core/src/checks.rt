//! The checks of a message over a table, which says what tags it must have and may have, and the form of each.
ghost use Rattle.std.specs.Prelude.{◌≡◌, []};
ghost use Rattle.session_core.specs.Checks.{has_form, first_empty, is_listed, is_read, first_repeated, first_missing, is_outside, first_outside, is_long, first_long, first_failed};

use crate::message_fields::MessageFields;
use crate::reasons::{
    TAG_MISSING, TAG_REPEATED, VALUE_MISSING, VALUE_OUT_OF_FORM, VALUE_OUT_OF_RANGE,
};
use crate::tags::{MSG_SEQ_NUM, MSG_TYPE, SENDER_COMP_ID, TARGET_COMP_ID};
use fix_fields::{amount, moment, number};
use venue_words::limits::MAX_ID_BYTES;

/// How the value of a tag may look.
#[derive(Clone, Copy, Debug, PartialEq, Eq)]
pub enum Form {
    /// 1 to 9 digits.
    Number,
    /// An amount in decimals, with a sign where it is below 0.
    Amount,
    /// Any one byte.
    Byte,
    /// A UTCTimestamp.
    Moment,
    /// `Y` or `N`.
    Boolean,
    /// Any bytes.
    Text,
    /// Any bytes, at most 64 of them.
    Identifier,
}

/// A tag of a table, and the form of its value.
#[derive(Clone, Copy, Debug, PartialEq, Eq)]
pub struct Item {
    pub tag: u32,
    pub form: Form,
}

/// A check that a message fails.
#[derive(Clone, Copy, Debug, PartialEq, Eq)]
pub struct FailedCheck {
    /// SessionRejectReason(373).
    pub reason: u8,
    /// RefTagID(371): the tag that fails it.
    pub tag: u32,
}

/// Whether a value has a form.
#[tactic(auto, unfolding(crate::specs::Checks::has_form))]
fn has_form(form: Form, bytes: &[u8]) -> bool
    ensures { result ≡ has_form form bytes.now }
{
    match form {
        Form::Number => number(bytes).is_some(),
        Form::Amount => amount(bytes).is_some(),
        Form::Byte => bytes.len() == 1,
        Form::Moment => moment(bytes).is_some(),
        Form::Boolean => bytes == b"Y".as_slice() || bytes == b"N".as_slice(),
        Form::Text | Form::Identifier => true,
    }
}

/// The tag of the first field with an empty value.
#[tactic(auto, unfolding(crate::specs::Checks::first_empty))]
fn first_empty(fields: &MessageFields<'_>) -> Option<u32>
    ensures { result ≡ first_empty fields.now }
{
    fields
        .as_slice()
        .iter()
        .find(|field| field.bytes.is_empty())
        .map(|field| field.tag)
}

#[tactic(auto, unfolding(crate::specs::Checks::is_listed))]
fn is_listed(tag: u32, items: &[Item]) -> bool
    ensures { result ≡ is_listed tag items.now }
{
    items.iter().any(|item| item.tag == tag)
}

/// The first of these tags that is missing.
#[tactic(auto, unfolding(crate::specs::Checks::first_missing))]
fn first_missing(items: &[Item], fields: &MessageFields<'_>) -> Option<u32>
    ensures { result ≡ first_missing items.now fields.now }
{
    items
        .iter()
        .find(|item| fields.value_of(item.tag).is_none())
        .map(|item| item.tag)
}

/// Whether a message of this table reads the tag.
fn is_read(required: &[Item], optional: &[Item], tag: u32) -> bool
    ensures { result ≡ is_read required.now optional.now tag }
{
    tag == MSG_SEQ_NUM
        || tag == MSG_TYPE
        || tag == SENDER_COMP_ID
        || tag == TARGET_COMP_ID
        || is_listed(tag, required)
        || is_listed(tag, optional)
}

/// The first field whose tag is read and stood before.
#[tactic(auto, unfolding(crate::specs::Checks::first_repeated))]
fn first_repeated(required: &[Item], optional: &[Item], fields: &MessageFields<'_>) -> Option<u32>
    ensures { result ≡ first_repeated required.now optional.now [] fields.now }
{
    for (i, field) in fields.as_slice().iter().enumerate() {
        if fields.stands_before(field.tag, i) && is_read(required, optional, field.tag) {
            return Some(field.tag);
        }
    }
    None
}

/// Whether a tag is there with a value outside its form.
fn is_outside(item: Item, fields: &MessageFields<'_>) -> bool
    ensures { result ≡ is_outside fields.now item }
{
    match fields.value_of(item.tag) {
        Some(bytes) => !has_form(item.form, bytes),
        None => false,
    }
}

/// The first of these tags that has a value outside its form.
#[tactic(auto, unfolding(crate::specs::Checks::first_outside))]
fn first_outside(items: &[Item], fields: &MessageFields<'_>) -> Option<u32>
    ensures { result ≡ first_outside items.now fields.now }
{
    items
        .iter()
        .find(|item| is_outside(**item, fields))
        .map(|item| item.tag)
}

/// Whether a tag is there with an identifier that is too long.
fn is_long(item: Item, fields: &MessageFields<'_>) -> bool
    ensures { result ≡ is_long fields.now item }
{
    match (item.form, fields.value_of(item.tag)) {
        (Form::Identifier, Some(bytes)) => MAX_ID_BYTES < bytes.len(),
        _ => false,
    }
}

/// The first of these tags that has an identifier that is too long.
#[tactic(auto, unfolding(crate::specs::Checks::first_long))]
fn first_long(items: &[Item], fields: &MessageFields<'_>) -> Option<u32>
    ensures { result ≡ first_long items.now fields.now }
{
    items
        .iter()
        .find(|item| is_long(**item, fields))
        .map(|item| item.tag)
}

/// The first check that a message fails, over the tags that it must have and may have, those of every message first:
/// an empty value, a read tag that stands twice, a missing tag, a value outside its form, an identifier of more than
/// 64 bytes.
#[tactic(auto, unfolding(crate::specs::Checks::first_failed))]
pub fn first_failed(
    required: &[Item],
    optional: &[Item],
    fields: &MessageFields<'_>,
) -> Option<FailedCheck>
    ensures { result ≡ first_failed required.now optional.now fields.now }
{
    if let Some(tag) = first_empty(fields) {
        return Some(FailedCheck {
            reason: VALUE_MISSING,
            tag,
        });
    }
    if let Some(tag) = first_repeated(required, optional, fields) {
        return Some(FailedCheck {
            reason: TAG_REPEATED,
            tag,
        });
    }
    if let Some(tag) = first_missing(required, fields) {
        return Some(FailedCheck {
            reason: TAG_MISSING,
            tag,
        });
    }
    if let Some(tag) = first_outside(required, fields) {
        return Some(FailedCheck {
            reason: VALUE_OUT_OF_FORM,
            tag,
        });
    }
    if let Some(tag) = first_outside(optional, fields) {
        return Some(FailedCheck {
            reason: VALUE_OUT_OF_FORM,
            tag,
        });
    }
    match first_long(required, fields) {
        Some(tag) => Some(FailedCheck {
            reason: VALUE_OUT_OF_RANGE,
            tag,
        }),
        None => None,
    }
}
