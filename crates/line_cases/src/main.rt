//! Plays worked cases of what reads and writes lines: repeats each line of standard input with what comes of it. A line is a word
//! and its input, which may be in quotation marks and repeat a part, and in which, behind a word that ends with `!`, `|` stands for
//! SOH and `\HH` for any byte; a line that is empty or begins with `#` says nothing.
#![tactic(auto)]

mod arguments;
mod configs;
mod endings;
mod files;
mod listings;
mod prices;
mod scripts;
mod terms;
mod texts;

use case_text::{Told, expanded};
use script_text::unescape;
use std::io;
use venue_words::NoMemory;

/// Tells what comes of a word and its input.
fn play_word(word: &str, input: &[u8], told: &mut Told) -> Result<bool, NoMemory> {
    Ok(
        terms::play(word, input, told)?
            || prices::play(word, input, told)?
            || arguments::play(word, input, told)?
            || texts::play(word, input, told)?
            || scripts::play(word, input, told)?
            || files::play(word, input, told)?
            || configs::play(word, input, told)?
            || endings::play(word, input, told)?
            || listings::play(word, input, told)?,
    )
}

/// Tells what comes of a line.
fn play(line: &str, told: &mut Told) -> Result<(), NoMemory> {
    if line.is_empty() || line.starts_with('#') {
        return Ok(());
    }
    let (word, text) = line.split_once(' ').unwrap_or((line, ""));
    let text = expanded(told.alloc, text.as_bytes())?;
    let is_known = match word.strip_suffix('!') {
        Some(word) => match unescape(told.alloc, text.as_slice())? {
            Some(input) => play_word(word, input.as_slice(), told)?,
            None => false,
        },
        None => play_word(word, text.as_slice(), told)?,
    };
    if !is_known {
        told.word("no such case");
    }
    Ok(())
}

fn out_of_memory(_: NoMemory) -> io::Error {
    io::Error::from(io::ErrorKind::OutOfMemory)
}

fn main(rt: HostRuntime) -> io::Result<()> {
    for line in rt.lines(rt.alloc()) {
        let line = line?;
        let mut told = Told::new(rt.alloc(), line.as_str())?;
        play(line.as_str(), &mut told).map_err(out_of_memory)?;
        if told.is_short {
            return Err(out_of_memory(NoMemory));
        }
        let text = told.text;
        println!(rt; "{text}")?;
    }
    Ok(())
}
