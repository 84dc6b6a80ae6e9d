//! Bytes as text, and back.
use case_text::Told;
use script_text::{push_escaped_text, unescape};
use venue_words::NoMemory;

/// Tells the bytes of a text in hexadecimal, and their own text.
fn tell_text(input: &[u8], told: &mut Told) -> Result<(), NoMemory> {
    let Some(bytes) = unescape(told.alloc, input)? else {
        told.word("no text");
        return Ok(());
    };
    told.push(" =");
    for byte in bytes.as_slice() {
        told.push(format!(in told.alloc; " {byte:02X}")?.as_str());
    }
    let mut text = Vec::from_slice(told.alloc, b" = ")?;
    push_escaped_text(&mut text, bytes.as_slice())?;
    told.push(String::from_utf8_lossy(told.alloc, text.as_slice())?.as_str());
    Ok(())
}

/// `text` tells the bytes that a text stands for, and the text that stands for these.
pub fn play(word: &str, input: &[u8], told: &mut Told) -> Result<bool, NoMemory> {
    if word != "text" {
        return Ok(false);
    }
    tell_text(input, told)?;
    Ok(true)
}
