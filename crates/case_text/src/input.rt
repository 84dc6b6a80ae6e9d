//! What a case is given.
ghost use Rattle.std.specs.Prelude.{◌<◌, IfSome, length};

use fix_fields::number;
use script_text::words::cut_word;
use std::alloc::Global;
use venue_words::NoMemory;

/// What stands between quotation marks, or the whole text where they are not there: so an end that is a space can be seen.
fn unquoted(text: &[u8]) -> &[u8] {
    match text {
        [b'"', inner @ .., b'"'] => inner,
        _ => text,
    }
}

/// Where a byte stands.
fn place_of(text: &[u8], byte: u8) -> Option<usize>
    ensures { IfSome result (λ at. at < length text.now) }
{
    text.iter().position(|found| *found == byte)
}

/// Appends a text so many times, in which `#` stands for how often it came before.
fn push_repeated(
    alloc: Global,
    out: &mut Vec<u8>,
    count: u32,
    text: &[u8],
) -> Result<(), NoMemory> {
    for turn in 0..count {
        for byte in text {
            if *byte == b'#' {
                out.extend_from_slice(format!(in alloc; "{turn}")?.as_bytes())?;
            } else {
                out.push(*byte)?;
            }
        }
    }
    Ok(())
}

/// The input that a text is. Quotation marks around it are left out, and `{COUNT TEXT}`, which may stand in it once, is that text
/// so many times, in which `#` stands for how often it came before.
pub fn expanded(alloc: Global, text: &[u8]) -> Result<Vec<u8>, NoMemory> {
    let text = unquoted(text);
    let mut out = Vec::new(alloc);
    let (Some(begin), Some(end)) = (place_of(text, b'{'), place_of(text, b'}')) else {
        out.extend_from_slice(text)?;
        return Ok(out);
    };
    if begin < end {
        out.extend_from_slice(&text[..begin])?;
        if let Some((count, repeated)) = cut_word(&text[begin + 1..end]) {
            push_repeated(alloc, &mut out, number(count).unwrap_or(0), repeated)?;
        }
        out.extend_from_slice(&text[end + 1..])?;
    }
    Ok(out)
}
