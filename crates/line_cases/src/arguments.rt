//! Words as a user types them, and what people are told.
use case_text::Told;
use program_words::read_words;
use script_text::{LimitCause, LineCause};
use terminal_hints::{limit_advice, line_advice, refused_line};
use venue_words::NoMemory;

/// Tells the words that are read, each with a `|` behind it, of words that are given so.
fn tell_arguments(input: &[u8], told: &mut Told) -> Result<(), NoMemory> {
    let mut words = Vec::new(told.alloc);
    for word in input.split(|byte| *byte == b'|') {
        words.push(String::from_utf8_lossy(told.alloc, word)?)?;
    }
    let _ = words.pop();
    match read_words(told.alloc, words.as_slice()) {
        Ok(read) => {
            told.push(" = ");
            for word in &read {
                told.push(word);
                told.push("|");
            }
        }
        Err(fault) => told.code(&fault),
    }
    Ok(())
}

/// Tells a line of a text, and what is odd at its ends.
fn tell_refused(number: u32, input: &[u8], told: &mut Told) {
    let line = refused_line(input, number);
    told.push(" = ");
    told.bytes(line.text);
    if line.has_carriage_return {
        told.push(" with a carriage return");
    }
    if line.has_byte_order_mark {
        told.push(" with a byte order mark");
    }
}

/// Tells whether an advice has a text.
fn tell_advice(advice: &str, input: &[u8], told: &mut Told) -> Result<(), NoMemory> {
    let text = String::from_utf8_lossy(told.alloc, input)?;
    told.word(if advice.contains(text.as_str()) {
        "told"
    } else {
        "not told"
    });
    Ok(())
}

/// `arguments` tells what is read of words; `first_line` and `second_line` a line as it is shown where it was refused;
/// `tick_advice` and `symbols_advice` whether a text is in what is advised.
pub fn play(word: &str, input: &[u8], told: &mut Told) -> Result<bool, NoMemory> {
    match word {
        "arguments" => tell_arguments(input, told)?,
        "first_line" => tell_refused(1, input, told),
        "second_line" => tell_refused(2, input, told),
        "tick_advice" => tell_advice(line_advice(LineCause::BadTick), input, told)?,
        "symbols_advice" => tell_advice(limit_advice(LimitCause::Symbols), input, told)?,
        _ => return Ok(false),
    }
    Ok(true)
}
