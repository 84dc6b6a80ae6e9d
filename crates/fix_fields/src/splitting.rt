//! Splits the content of a frame into fields.
ghost use Rattle.std.specs.Prelude.{◌≡◌, ℕ, ◌+◌, ◌^◌, ◌<◌, ◌≤◌, length, drop, List, Option, IfOk, IfSome};
ghost use Rattle.std.specs.List.{position};
ghost use Rattle.fix_fields.specs.Forms.{tag_of};
ghost use Rattle.fix_fields.specs.Fronts.{IsInFront, valued, tagged_cut};
ghost use Rattle.fix_fields.specs.Fields.{is_end, is_length, data_behind, plain_cut, data_cut, cut_at, split, CutsAs, SplitsAs};
ghost use Rattle.fix_fields.specs.Spelling.{AreFields, spellings};
ghost use Rattle.fix_fields.specs.declared.field.Field.{Field};

use crate::field::{Field, FieldFault};
use crate::forms::{number, numeral, place_of};
use std::alloc::Global;
use venue_words::limits::{MAX_FRAME_BYTES, SOH};

/// RawDataLength and EncodedTextLen, which give the length of the field behind them.
const RAW_DATA_LENGTH: u32 = 95;

const ENCODED_TEXT_LEN: u32 = 354;

/// So many fields have room at once: an order seldom has more.
const USUAL_FIELDS: usize = 24;

/// The data that must follow a field which gives its length.
#[derive(Clone, Copy, Debug)]
pub(crate) struct Due {
    tag: u32,
    size: u32,
}

/// The tag that bytes spell: 1 to 5 digits, the first not 0.
#[tactic(auto, unfolding(crate::specs::Forms::tag_of))]
fn tag_of(bytes: &[u8]) -> Option<u32>
    ensures { result ≡ tag_of bytes.now }
{
    if bytes.is_empty() || bytes.len() > 5 || bytes[0] == b'0' {
        return None;
    }
    match numeral(bytes) {
        Some(value) => Some(value as u32),
        None => None,
    }
}

/// Whether a field gives the length of the data behind it.
fn is_length(tag: u32) -> bool
    ensures { result ≡ is_length tag }
{
    tag == RAW_DATA_LENGTH || tag == ENCODED_TEXT_LEN
}

/// The data that must follow a field.
#[tactic(auto, unfolding(crate::specs::Fields::data_behind))]
fn data_behind(tag: u32, bytes: &[u8]) -> Option<Due>
    ensures { result ≡ data_behind tag bytes.now }
{
    if !is_length(tag) {
        return None;
    }
    let size = number(bytes)?;
    Some(Due { tag: tag + 1, size })
}

/// The field of a tag with its value, which takes so many bytes; where it gives a length, that has to be a number.
fn valued(at: u32, tag: u32, bytes: &[u8], size: usize) -> Result<(Field<'_>, usize), FieldFault>
    ensures value { CutsAs result (valued at tag bytes.now size) }
    ensures size { IfOk result (λ cut. cut.1 ≡ size) }
{
    if is_length(tag) && number(bytes).is_none() {
        return Err(FieldFault::DataShort { at });
    }
    Ok((Field { tag, bytes }, size))
}

/// The tag that bytes spell up to a `=`, and the place of that `=`.
fn tag_in_front(bytes: &[u8]) -> Option<(u32, usize)>
    ensures { IfSome result (λ found. IsInFront found.0 found.1 bytes.now) }
{
    let mut tag: u64 = 0;
    for (i, byte) in bytes.iter().enumerate() {
        if *byte == b'=' {
            if i == 0 || bytes[0] == b'0' {
                return None;
            }
            return Some((tag as u32, i));
        }
        if i >= 5 || !byte.is_ascii_digit() {
            return None;
        }
        tag = tag * 10 + (*byte - b'0') as u64;
    }
    None
}

/// The end of a value. It is called, since a loop inlined into those around it has their counts to keep.
#[inline(never)]
fn end_of(bytes: &[u8]) -> Option<usize>
    ensures { result ≡ position is_end bytes.now }
{
    place_of(SOH, bytes)
}

/// The field of a tag whose value is at the front of the rest, and how many bytes it takes with those before the value.
#[tactic(auto, unfolding(crate::specs::Fronts::tagged_cut))]
fn tagged_field(
    at: u32,
    tag: u32,
    before: usize,
    rest: &[u8],
) -> Result<(Field<'_>, usize), FieldFault>
    requires { before + length rest.now < 2 ^ 63 }
    ensures value { CutsAs result (tagged_cut at tag before rest.now) }
    ensures size { IfOk result (λ cut. (0 < cut.1) × (cut.1 ≤ before + length rest.now)) }
{
    let end = end_of(rest).ok_or(FieldFault::NoEnd { at })?;
    let bytes = &rest[..end];
    valued(at, tag, bytes, before + end + 1)
}

/// A field at the front of the rest that begins with no tag, or with a tag that is none.
#[tactic(auto, unfolding(crate::specs::Fields::plain_cut))]
fn untagged_field(at: u32, rest: &[u8]) -> Result<(Field<'_>, usize), FieldFault>
    ensures value { CutsAs result (plain_cut at rest.now) }
    ensures size { IfOk result (λ cut. (0 < cut.1) × (cut.1 ≤ length rest.now)) }
{
    let end = place_of(SOH, rest).ok_or(FieldFault::NoEnd { at })?;
    let line = &rest[..end];
    let equals = place_of(b'=', line).ok_or(FieldFault::NoEquals { at })?;
    let tag = tag_of(&line[..equals]).ok_or(FieldFault::BadTag { at })?;
    valued(at, tag, &line[equals + 1..], end + 1)
}

/// The field at the front of the rest, which ends at the first SOH, and how many bytes it takes.
fn plain_field(at: u32, rest: &[u8]) -> Result<(Field<'_>, usize), FieldFault>
    ensures value { CutsAs result (plain_cut at rest.now) }
    ensures size { IfOk result (λ cut. (0 < cut.1) × (cut.1 ≤ length rest.now)) }
{
    match tag_in_front(rest) {
        Some((tag, equals)) => tagged_field(at, tag, equals + 1, &rest[equals + 1..]),
        None => untagged_field(at, rest),
    }
}

/// The field with the data that must stand at the front of the rest, and how many bytes it takes.
#[tactic(auto, unfolding(crate::specs::Fields::data_cut))]
fn data_field(at: u32, due: Due, rest: &[u8]) -> Result<(Field<'_>, usize), FieldFault>
    ensures value { CutsAs result (data_cut at due rest.now) }
    ensures size { IfOk result (λ cut. (0 < cut.1) × (cut.1 ≤ length rest.now)) }
{
    let front: &[u8] = if due.tag == 96 { b"96=" } else { b"355=" };
    let start = front.len();
    let end = start + due.size as usize;
    if !rest.starts_with(front) || rest.len() <= end || rest[end] != SOH {
        return Err(FieldFault::DataShort { at });
    }
    let tag = due.tag;
    let bytes = &rest[start..end];
    Ok((Field { tag, bytes }, end + 1))
}

/// The next field, and how many bytes it takes.
fn next_field(at: u32, due: Option<Due>, rest: &[u8]) -> Result<(Field<'_>, usize), FieldFault>
    ensures value { CutsAs result (cut_at at due rest.now) }
    ensures size { IfOk result (λ cut. (0 < cut.1) × (cut.1 ≤ length rest.now)) }
{
    match due {
        None => plain_field(at, rest),
        Some(due) => data_field(at, due, rest),
    }
}

/// The fields, one by one from the front.
fn split_fields(alloc: Global, bytes: &[u8]) -> Result<Vec<Field<'_>>, FieldFault>
    requires { length bytes.now ≤ MAX_FRAME_BYTES }
    ensures { SplitsAs result (split bytes.now) }
{
    let mut found = Vec::with_capacity(alloc, USUAL_FIELDS)?;
    let mut due: Option<Due> = None;
    let mut at = 0;
    while at < bytes.len() || due.is_some() {
        let (field, size) = next_field(at as u32, due, &bytes[at..])?;
        due = data_behind(field.tag, field.bytes);
        found.push(field)?;
        at += size;
    }
    Ok(found)
}

/// The fields of the content of a frame: what stands between BodyLength and CheckSum, with tag, `=`, value and SOH
/// one behind the other. A value holds no SOH, except in RawData (96) and EncodedText (355), which have as many bytes
/// as the field before them says (95, 354). An error is the first fault from the left.
pub fn fields(alloc: Global, bytes: &[u8]) -> Result<Vec<Field<'_>>, FieldFault>
    requires { length bytes.now ≤ MAX_FRAME_BYTES }

    // What is found is fields, and spells the bytes.
    ensures found { IfOk result (λ v. AreFields None v.items × (bytes.now ≡ spellings v.items)) }

    // Where fields spell the bytes, they are found, unless memory runs out.
    ensures only { (fields : List Field) → AreFields None fields → bytes.now ≡ spellings fields
        → SplitsAs result (Ok fields) }

    // Which fault it is, and where.
    ensures exact { SplitsAs result (split bytes.now) }
{
    split_fields(alloc, bytes)
}
