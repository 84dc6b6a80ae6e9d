//! Takes live market data: `pegfeed CONFIG MARKETDATA_ADDRESS SENDER TARGET DESK [SYMBOL ..]` connects to a source of FIX market data and
//! writes the quotes of its snapshots to a desk.
#![tactic(auto)]

mod desk;
mod exit;
mod log;
mod run;
mod source;
mod words;

use crate::exit::Exit;
use crate::run::run;
use crate::words::{plan_of, program, symbols_of};
use clap::error::ErrorKind;
use io_edge::FileShelf;
use line_reader::{ConfigFault, read_config};
use program_words::WordFault;
use program_words::arguments::arguments;
use quote_intake::number_in;
use std::process::ExitCode;
use venue_words::Config;
use venue_words::limits::{MAX_CONFIG_BYTES, MAX_SYMBOLS};

/// Says how the program ends.
fn tell(rt: &HostRuntime, exit: Exit) -> ExitCode {
    if exit != Exit::Done {
        let _ = eprintln!(rt; "pegfeed: {exit}");
    }
    ExitCode::from(exit.code())
}

/// Whether all of these symbols are in the config.
fn are_known(config: &Config, symbols: &[&str]) -> bool {
    let names = config.symbols.as_slice();
    if names.len() > MAX_SYMBOLS {
        return false;
    }
    for symbol in symbols {
        if number_in(names, symbol.as_bytes()).is_none() {
            return false;
        }
    }
    true
}

/// Reads the words and the config, and does what they ask for.
fn answer(rt: &HostRuntime, words: &[String]) -> Exit {
    let Ok(command) = program(rt.alloc()) else {
        return Exit::NoMemory;
    };
    let matches = match command.try_get_matches_from(words) {
        Ok(matches) => matches,
        Err(error) if error.kind() == ErrorKind::OutOfMemory => return Exit::NoMemory,
        Err(error) => {
            let code = error.exit_code();
            return match error.print(rt) {
                Ok(()) if code == 0 => Exit::Done,
                Ok(()) => Exit::BadWords,
                Err(_) => Exit::Unwritten,
            };
        }
    };
    let Some(plan) = plan_of(&matches) else {
        return Exit::BadWords;
    };
    let mut shelf = FileShelf::new(rt);
    let config = match read_config(rt.alloc(), &mut shelf, plan.config, MAX_CONFIG_BYTES) {
        Ok(file) => file.config,
        Err(ConfigFault::ReadFault) => return Exit::Unread,
        Err(ConfigFault::NoMemory) => return Exit::NoMemory,
        Err(_) => return Exit::BadConfig,
    };
    let Ok(symbols) = symbols_of(rt.alloc(), &matches) else {
        return Exit::NoMemory;
    };
    if !are_known(&config, &symbols) {
        return Exit::UnknownSymbol;
    }
    run(rt, &config, &plan, &symbols)
}

fn main(rt: HostRuntime) -> ExitCode {
    let exit = match arguments(&rt) {
        Ok(words) => answer(&rt, words.as_slice()),
        Err(WordFault::BadWords) => Exit::BadWords,
        Err(WordFault::NoMemory) => Exit::NoMemory,
    };
    tell(&rt, exit)
}
