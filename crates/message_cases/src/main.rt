//! Plays worked cases: repeats each line of standard input with what comes of it. A line is a word and its input, in which `|`
//! stands for SOH and `\HH` for any byte, and which may be in quotation marks and repeat a part; a line that is empty or begins with
//! `#` says nothing.
#![tactic(auto)]

mod frames;
mod market;
mod numbers;
mod orders;
mod reports;
mod sessions;
mod writing;

use case_text::{Told, expanded};
use market::Recording;
use script_text::unescape;
use sessions::Desk;
use std::alloc::Global;
use std::io;
use venue_words::NoMemory;

/// What lasts from line to line.
#[derive(Drop)]
struct State {
    desk: Desk,
    recording: Recording,
}

impl State {
    fn new(alloc: Global) -> Result<State, NoMemory> {
        Ok(State {
            desk: Desk::new(alloc)?,
            recording: Recording::new(alloc, b"")?,
        })
    }
}

/// Tells what comes of a word and its input.
fn play_word(
    state: &mut State,
    word: &str,
    input: &[u8],
    told: &mut Told,
) -> Result<bool, NoMemory> {
    Ok(
        numbers::play(word, input, told)
            || writing::play(word, input, told)?
            || frames::play(word, input, told)?
            || sessions::play(&mut state.desk, word, input, told)?
            || orders::play(word, input, told)?
            || reports::play(word, input, told)?
            || market::play(&mut state.recording, word, input, told)?,
    )
}

/// The input that a text is, if it is one.
fn input_of(alloc: Global, text: &str) -> Result<Option<Vec<u8>>, NoMemory> {
    let text = expanded(alloc, text.as_bytes())?;
    unescape(alloc, text.as_slice())
}

/// Tells what comes of a line.
fn play(state: &mut State, line: &str, told: &mut Told) -> Result<(), NoMemory> {
    if line.is_empty() || line.starts_with('#') {
        return Ok(());
    }
    let (word, text) = line.split_once(' ').unwrap_or((line, ""));
    match &input_of(told.alloc, text)? {
        Some(input) => {
            if !play_word(state, word, input.as_slice(), told)? {
                told.word("no such word");
            }
        }
        None => told.word("no text"),
    }
    Ok(())
}

fn out_of_memory(_: NoMemory) -> io::Error {
    io::Error::from(io::ErrorKind::OutOfMemory)
}

/// Repeats a line with what comes of it.
fn repeat_line(rt: &HostRuntime, state: &mut State, line: &str) -> io::Result<()> {
    let mut told = Told::new(rt.alloc(), line)?;
    play(state, line, &mut told).map_err(out_of_memory)?;
    if told.is_short {
        return Err(out_of_memory(NoMemory));
    }
    let text = told.text;
    println!(rt; "{text}")?;
    Ok(())
}

/// Repeats each line of standard input.
fn repeat_lines(rt: &HostRuntime, state: &mut State) -> io::Result<()> {
    for line in rt.lines(rt.alloc()) {
        let line = line?;
        repeat_line(rt, state, line.as_str())?;
    }
    Ok(())
}

fn main(rt: HostRuntime) -> io::Result<()> {
    let mut state = State::new(rt.alloc()).map_err(out_of_memory)?;
    let repeated = repeat_lines(&rt, &mut state);
    drop(state);
    repeated
}
