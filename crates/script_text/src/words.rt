//! The words of a line, and the forms that they may have.
ghost use Rattle.std.specs.Prelude.{◌≡◌, ◌<◌, ◌≤◌, ◌^◌, ◌==◌, ◌+◌, ◌∷◌, [], map, take, drop, IfOk, IfSome, IfNone, length, position};
ghost use Rattle.std.specs.List.{list_all};
ghost use Rattle.quote_intake.specs.Words.{words_of};
ghost use Rattle.script_text.specs.Words.{is_name, limit_of, tick_of, script_moment, is_letter, is_name_byte, behind_word};

use fix_fields::moment;
use quote_intake::{digits, first_space};
use std::alloc::{AllocError, Global};
use venue_words::limits::{MAX_EVENTS, MAX_NAME_BYTES};

/// The first word of a line and what stands behind its space, or none where the line has one word.
pub fn cut_word(line: &[u8]) -> Option<(&[u8], &[u8])>
    ensures words { IfSome result (λ cut. words_of line.now ≡ cut.0.now ∷ words_of cut.1.now) }
    ensures behind { IfSome result (λ cut. cut.1.now ≡ behind_word cut.0.now line.now) }
    ensures none { IfNone result (words_of line.now ≡ line.now ∷ []) }
{
    match first_space(line) {
        Some(at) => Some((&line[..at], &line[at + 1..])),
        None => None,
    }
}

/// The words of a line, which are parted by one space.
pub fn words_of<'a>(alloc: Global, line: &'a [u8]) -> Result<Vec<&'a [u8]>, AllocError>
    ensures { IfOk result (λ words. map (λ word. word.now) words.items ≡ words_of line.now) }
{
    let mut words = Vec::new(alloc);
    let mut rest = line;
    while let Some(at) = first_space(rest) {
        words.push(&rest[..at])?;
        rest = &rest[at + 1..];
    }
    words.push(rest)?;
    Ok(words)
}

#[tactic(auto, unfolding(crate::specs::Words::is_letter))]
fn is_letter(b: u8) -> bool
    ensures { result ≡ is_letter b }
{
    (b'A' <= b && b <= b'Z') || (b'a' <= b && b <= b'z')
}

#[tactic(auto, unfolding(crate::specs::Words::is_name_byte))]
fn is_name_byte(b: u8) -> bool
    ensures { result ≡ is_name_byte b }
{
    is_letter(b) || (b.is_ascii_digit() || (b == b'.' || b == b'_'))
}

fn are_name_bytes(text: &[u8]) -> bool
    ensures { result ≡ list_all is_name_byte text.now }
{
    for b in text {
        if !is_name_byte(*b) {
            return false;
        }
    }
    true
}

/// Whether a text has the form of a name.
#[tactic(auto, unfolding(crate::specs::Words::is_name))]
pub fn is_name(text: &[u8]) -> bool
    ensures { result ≡ is_name text.now }
{
    0 < text.len() && (text.len() <= MAX_NAME_BYTES && (is_letter(text[0]) && are_name_bytes(text)))
}

/// The limit that a text writes.
#[tactic(auto, unfolding(crate::specs::Words::limit_of))]
pub fn limit_of(text: &[u8]) -> Option<u32>
    ensures { result ≡ limit_of text.now }
{
    if text.is_empty() || text.len() > 7 || text[0] == b'0' {
        return None;
    }
    let value = digits(text)?;
    if value <= MAX_EVENTS {
        Some(value)
    } else {
        None
    }
}

/// The units of the tick that a text writes.
#[tactic(auto, unfolding(crate::specs::Words::tick_of))]
pub fn tick_of(text: &[u8]) -> Option<u32>
    ensures { result ≡ tick_of text.now }
{
    if text == b"0.01".as_slice() {
        Some(2)
    } else if text == b"0.05".as_slice() {
        Some(10)
    } else {
        None
    }
}

/// The moment that a text writes as `YYYYMMDD-HH:MM:SS.sss`, in milliseconds since 1970-01-01 00:00 UTC.
#[tactic(auto, unfolding(crate::specs::Words::script_moment))]
pub fn script_moment(text: &[u8]) -> Option<i64>
    ensures { result ≡ script_moment text.now }
{
    if text.len() == 21 { moment(text) } else { None }
}
