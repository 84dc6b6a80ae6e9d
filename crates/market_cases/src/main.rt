//! Plays worked cases of the market's rules: repeats each line of standard input with what comes of it. A line is a word and its
//! input; a line that is empty or begins with `#` says nothing.
#![tactic(auto)]

mod commands;
mod days;
mod minimums;
mod national;
mod pegs;
mod reports;
mod ticks;

use case_text::{Told, Words};
use days::Day;
use national::National;
use std::alloc::Global;
use std::io;
use venue_words::NoMemory;

/// What lasts from line to line.
#[derive(Drop)]
struct Desk {
    day: Day,
    national: National,
}

impl Desk {
    fn new(alloc: Global) -> Result<Desk, NoMemory> {
        Ok(Desk {
            day: Day::new(alloc, b"0.01"),
            national: National::new(alloc, 0)?,
        })
    }

    /// Tells what comes of a word and its input.
    fn play_word(
        &mut self,
        word: &str,
        words: &Words<'_>,
        told: &mut Told,
    ) -> Result<bool, NoMemory> {
        Ok(
            self.day.play(word, words, told)?
                || self.national.play(word, words, told)?
                || pegs::play(word, words, told)
                || minimums::play(word, words, told),
        )
    }

    /// Tells what comes of a line.
    fn play(&mut self, line: &str, told: &mut Told) -> Result<(), NoMemory> {
        if line.is_empty() || line.starts_with('#') {
            return Ok(());
        }
        let (word, input) = line.split_once(' ').unwrap_or((line, ""));
        let words = Words::new(told.alloc, input.as_bytes())?;
        if !self.play_word(word, &words, told)? {
            told.word("no such word");
        }
        Ok(())
    }
}

fn out_of_memory(_: NoMemory) -> io::Error {
    io::Error::from(io::ErrorKind::OutOfMemory)
}

fn main(rt: HostRuntime) -> io::Result<()> {
    let mut desk = Desk::new(rt.alloc()).map_err(out_of_memory)?;
    for line in rt.lines(rt.alloc()) {
        let line = line?;
        let mut told = Told::new(rt.alloc(), line.as_str())?;
        desk.play(line.as_str(), &mut told).map_err(out_of_memory)?;
        if told.is_short {
            return Err(out_of_memory(NoMemory));
        }
        let text = told.text;
        println!(rt; "{text}")?;
    }
    Ok(())
}
