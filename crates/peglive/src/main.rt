//! Runs a trading day: `peglive CONFIG JOURNAL ADDRESS DESK` lets members in at an address and operators at a desk, keeps every
//! line that comes in on the disk before anybody is sent what it made, and after a crash goes on from there.
#![tactic(auto)]

ghost use Rattle.std.specs.Prelude.{◌≡◌};

mod access;
mod check;
mod config;
mod day;
mod exit;
mod file;
mod words;

use crate::check::check;
use crate::day::serve;
use crate::exit::Exit;
use crate::file::work;
use crate::words::{Question, program, question_of};
use clap::error::ErrorKind;
use program_words::WordFault;
use program_words::arguments::arguments;
use std::marker::Brand;
use std::process::ExitCode;
use std::sync::ledger::{Blank, Ledger};

/// Says how the program ends.
fn tell(rt: &HostRuntime, exit: Exit) -> ExitCode {
    if exit != Exit::Done {
        let _ = eprintln!(rt; "peglive: {exit}");
    }
    ExitCode::from(exit.code())
}

/// Does what is asked.
fn run<L: Ledger>(rt: &HostRuntime, question: Question<'_>, blank: Blank) -> Exit
    requires { (blank.name ≡ L.name) × (blank.parts ≡ L.parts) × (L.parts ≡ 1) }
{
    match question {
        Question::Check(config) => check(rt, config),
        Question::Serve(day, service) => serve::<L>(rt, day, service, blank),
        Question::Work(day, file) => work::<L>(rt, day, file, blank),
        Question::Unclear => Exit::BadWords,
    }
}

/// Reads the words, and does what they ask for.
fn answer(rt: &HostRuntime, words: &[String]) -> Exit {
    let Ok(command) = program(rt.alloc()) else {
        return Exit::NoMemory;
    };
    let matches = match command.try_get_matches_from(words) {
        Ok(matches) => matches,
        Err(error) if error.kind() == ErrorKind::OutOfMemory => return Exit::NoMemory,
        Err(error) => {
            let code = error.exit_code();
            return match error.print(rt) {
                Ok(()) if code == 0 => Exit::Done,
                Ok(()) => Exit::BadWords,
                Err(_) => Exit::Unwritten,
            };
        }
    };
    run::<Brand>(rt, question_of(&matches), Blank::new(1))
}

fn main(rt: HostRuntime) -> ExitCode {
    let exit = match arguments(&rt) {
        Ok(words) => answer(&rt, words.as_slice()),
        Err(WordFault::BadWords) => Exit::BadWords,
        Err(WordFault::NoMemory) => Exit::NoMemory,
    };
    tell(&rt, exit)
}
