//! Bytes as text on one line.
ghost use Rattle.std.specs.Prelude.{◌≡◌, ◌<◌, ◌++◌, ◌∷◌, true, [], Some, None, IfOk, IfSome, IfNone, OnOk, length, map, option_map, if◌then◌else◌, ◌==◌};
ghost use Rattle.std.specs.List.{list_all};
ghost use Rattle.script_text.specs.Escaping.{hexadecimal, is_plain, is_plain_or, replaced, escaped, escape_text, hexadecimal_value, lone_byte, paired_byte, before_bytes, text_of, behind_backslash};

use std::alloc::{AllocError, Global};
use venue_words::NoMemory;
use venue_words::limits::SOH;

fn hexadecimal(digit: u8) -> u8
    requires { digit < 16 }
    ensures { result ≡ hexadecimal digit }
{
    if digit < 10 {
        b'0' + digit
    } else {
        b'A' + (digit - 10)
    }
}

/// Whether a byte stands for itself.
fn is_plain(byte: u8) -> bool
    ensures { result ≡ is_plain byte }
{
    b' ' <= byte && (byte <= b'~' && (byte != b'|' && byte != b'\\'))
}

/// Whether each byte is plain or this one. It looks at all of them, so that it compiles to a few steps for 16 bytes.
fn are_plain_or(bytes: &[u8], other: u8) -> bool
    ensures { result ≡ list_all (is_plain_or other) bytes.now }
{
    let mut passed = true;
    for byte in bytes {
        passed = passed & (*byte == other || is_plain(*byte));
    }
    passed
}

/// A byte, or `new` where it is `old`.
fn replaced(byte: u8, old: u8, new: u8) -> u8
    ensures { result ≡ replaced old new byte }
{
    if byte == old { new } else { byte }
}

/// Puts one byte in the place of another. It writes each place, for the same reason.
fn replace(bytes: &mut [u8], old: u8, new: u8)
    ensures { bytes.new ≡ map (replaced old new) bytes.old }
{
    for byte in bytes.iter_mut() {
        *byte = replaced(*byte, old, new);
    }
}

/// Appends what stands for a byte.
#[tactic(auto, unfolding(crate::specs::Escaping::escaped))]
fn push_escaped(out: &mut Vec<u8>, byte: u8) -> Result<(), AllocError>
    ensures { OnOk result (out.new.items ≡ out.old.items ++ escaped byte) }
{
    if byte == SOH {
        out.push(b'|')?;
    } else if is_plain(byte) {
        out.push(byte)?;
    } else {
        out.extend_from_slice(&[b'\\', hexadecimal(byte / 16), hexadecimal(byte % 16)])?;
    }
    Ok(())
}

/// Appends the text of bytes, each of which is plain or SOH.
fn push_plain_text(out: &mut Vec<u8>, bytes: &[u8]) -> Result<(), AllocError>
    requires { list_all (is_plain_or 1) bytes.now ≡ true }
    ensures { OnOk result (out.new.items ≡ out.old.items ++ escape_text bytes.now) }
{
    let start = out.len();
    out.extend_from_slice(bytes)?;
    replace(&mut out[start..], SOH, b'|');
    Ok(())
}

/// Appends the text of bytes byte by byte.
#[tactic(auto, unfolding(crate::specs::Escaping::escape_text))]
fn push_each(out: &mut Vec<u8>, bytes: &[u8]) -> Result<(), AllocError>
    ensures { OnOk result (out.new.items ≡ out.old.items ++ escape_text bytes.now) }
{
    for byte in bytes {
        push_escaped(out, *byte)?;
    }
    Ok(())
}

/// Appends the text of bytes: SOH as `|`, plain bytes as themselves, the others as `\\HH`. A refusal leaves a part.
pub fn push_escaped_text(out: &mut Vec<u8>, bytes: &[u8]) -> Result<(), AllocError>
    ensures { OnOk result (out.new.items ≡ out.old.items ++ escape_text bytes.now) }
{
    if are_plain_or(bytes, SOH) {
        push_plain_text(out, bytes)
    } else {
        push_each(out, bytes)
    }
}

/// The text of bytes on one line: SOH as `|`, plain bytes as themselves, the others as `\\HH`. `unescape` gives the
/// bytes back.
#[tactic(auto, using(crate::proofs::Texts::text_back))]
pub fn escape(alloc: Global, bytes: &[u8]) -> Result<Vec<u8>, NoMemory>
    ensures text { IfOk result (λ text. text.items ≡ escape_text bytes.now) }
    ensures bytes { IfOk result (λ text. text_of text.items ≡ Some bytes.now) }
{
    let mut out = Vec::new(alloc);
    push_escaped_text(&mut out, bytes)?;
    Ok(out)
}

/// The value of an upper-case hexadecimal digit.
#[tactic(auto, unfolding(crate::specs::Escaping::hexadecimal_value))]
fn hexadecimal_value(digit: u8) -> Option<u8>
    ensures value { result ≡ hexadecimal_value digit }
    ensures small { IfSome result (λ value. value < 16) }
{
    if b'0' <= digit && digit <= b'9' {
        Some(digit - b'0')
    } else if b'A' <= digit && digit <= b'F' {
        Some(digit - b'A' + 10)
    } else {
        None
    }
}

/// The byte that two hexadecimal digits write.
#[tactic(auto, unfolding(crate::specs::Escaping::paired_byte))]
fn paired_byte(high: u8, low: u8) -> Option<u8>
    ensures { result ≡ paired_byte high low }
{
    match (hexadecimal_value(high), hexadecimal_value(low)) {
        (Some(high), Some(low)) => Some(high * 16 + low),
        _ => None,
    }
}

/// The byte that a character other than `\\` stands for.
#[tactic(auto, unfolding(crate::specs::Escaping::lone_byte))]
fn lone_byte(character: u8) -> Option<u8>
    ensures { result ≡ lone_byte character }
{
    if character == b'|' {
        Some(SOH)
    } else if is_plain(character) {
        Some(character)
    } else {
        None
    }
}

/// The byte of the two digits behind a backslash, and the text behind them.
#[tactic(auto, unfolding(crate::specs::Escaping::text_of))]
fn first_pair(text: &[u8]) -> Option<(u8, &[u8])>
    ensures some { IfSome result (λ first. behind_backslash text.now ≡ before_bytes (Some first.0) (text_of first.1.now)) }
    ensures shorter { IfSome result (λ first. length first.1.now < length text.now) }
    ensures none { IfNone result (behind_backslash text.now ≡ None) }
{
    let (high, behind) = text.split_first()?;
    let (low, behind) = behind.split_first()?;
    match paired_byte(*high, *low) {
        Some(byte) => Some((byte, behind)),
        None => None,
    }
}

/// The first byte that a text stands for, and the text behind it, or none where the text is empty or begins otherwise.
#[tactic(auto, unfolding(crate::specs::Escaping::text_of))]
fn first_byte(text: &[u8]) -> Option<(u8, &[u8])>
    ensures some { IfSome result (λ first. text_of text.now ≡ before_bytes (Some first.0) (text_of first.1.now)) }
    ensures shorter { IfSome result (λ first. length first.1.now < length text.now) }
    ensures none { IfNone result (text_of text.now ≡ (if length text.now == 0 then Some [] else None)) }
{
    let (character, behind) = text.split_first()?;
    if *character == b'\\' {
        return first_pair(behind);
    }
    match lone_byte(*character) {
        Some(byte) => Some((byte, behind)),
        None => None,
    }
}

/// The bytes that a text stands for, each character of which is plain or a bar.
fn unescape_plain(alloc: Global, text: &[u8]) -> Result<Vec<u8>, NoMemory>
    requires { list_all (is_plain_or 124) text.now ≡ true }
    ensures { IfOk result (λ bytes. text_of text.now ≡ Some bytes.items) }
{
    let mut bytes = Vec::from_slice(alloc, text)?;
    replace(bytes.as_mut_slice(), b'|', SOH);
    Ok(bytes)
}

/// The bytes that a text stands for, one after the other, or none where it is no text.
fn unescape_each(alloc: Global, text: &[u8]) -> Result<Option<Vec<u8>>, NoMemory>
    ensures { IfOk result (λ bytes. option_map (λ bytes. bytes.items) bytes ≡ text_of text.now) }
{
    let mut bytes = Vec::with_capacity(alloc, text.len())?;
    let mut rest = text;
    while let Some((byte, behind)) = first_byte(rest) {
        bytes.push_reserved(byte);
        rest = behind;
    }
    Ok(if rest.is_empty() { Some(bytes) } else { None })
}

/// The bytes that a text stands for, or none where it is no text: `|` stands for SOH, `\\HH` with two upper-case
/// hexadecimal digits for that byte, and each byte from 0x20 to 0x7E but these two for itself.
pub fn unescape(alloc: Global, text: &[u8]) -> Result<Option<Vec<u8>>, NoMemory>
    ensures { IfOk result (λ bytes. option_map (λ bytes. bytes.items) bytes ≡ text_of text.now) }
{
    if are_plain_or(text, b'|') {
        Ok(Some(unescape_plain(alloc, text)?))
    } else {
        unescape_each(alloc, text)
    }
}
