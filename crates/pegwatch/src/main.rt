//! Shows a running day: `pegwatch JOURNAL DESK ADDRESS` follows a day's journal, and answers with a page and with Prometheus' text.
#![tactic(auto)]

ghost use Rattle.std.specs.Prelude.{◌≡◌};

mod desk;
mod exit;
mod guest;
mod guests;
mod once;
mod serving;
mod watch;
mod words;

use crate::exit::Exit;
use crate::once::tell_once;
use crate::serving::serve;
use crate::words::{Question, program, question_of};
use clap::error::ErrorKind;
use program_words::WordFault;
use program_words::arguments::arguments;
use std::marker::Brand;
use std::process::ExitCode;
use std::sync::ledger::{Blank, Ledger};

/// Says how the program ends.
fn tell(rt: &HostRuntime, exit: Exit) -> ExitCode {
    if exit != Exit::Done {
        let _ = eprintln!(rt; "pegwatch: {exit}");
    }
    ExitCode::from(exit.code())
}

/// Does what is asked.
fn run<L: Ledger>(rt: &HostRuntime, question: Question<'_>, blank: Blank) -> Exit
    requires { (blank.name ≡ L.name) × (blank.parts ≡ L.parts) × (L.parts ≡ 1) }
{
    match question {
        Question::Serve(day) => serve::<L>(rt, day, blank),
        Question::Once(journal) => tell_once::<L>(rt, journal, blank),
        Question::Unclear => Exit::BadWords,
    }
}

/// Reads the words, and does what they ask for.
fn answer(rt: &HostRuntime, words: &[String]) -> Exit {
    let Ok(command) = program(rt.alloc()) else {
        return Exit::NoMemory;
    };
    let matches = match command.try_get_matches_from(words) {
        Ok(matches) => matches,
        Err(error) if error.kind() == ErrorKind::OutOfMemory => return Exit::NoMemory,
        Err(error) => {
            let code = error.exit_code();
            return match error.print(rt) {
                Ok(()) if code == 0 => Exit::Done,
                Ok(()) => Exit::BadWords,
                Err(_) => Exit::Unwritten,
            };
        }
    };
    run::<Brand>(rt, question_of(&matches), Blank::new(1))
}

fn main(rt: HostRuntime) -> ExitCode {
    let exit = match arguments(&rt) {
        Ok(words) => answer(&rt, words.as_slice()),
        Err(WordFault::BadWords) => Exit::BadWords,
        Err(WordFault::NoMemory) => Exit::NoMemory,
    };
    tell(&rt, exit)
}
