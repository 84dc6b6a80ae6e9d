//! The words of the command line.
use clap::{Arg, ArgAction, ArgMatches, Command};
use std::alloc::{AllocError, Global};

/// What the words mean, for `--help`.
const HELP: &str = "\
Takes live market data: connects to a source of FIX market data (FIX 5.0 SP2 over FIXT.1.1),
and writes the quotes of its snapshots to a desk, a line `Q SYMBOL MARKET BID OFFER` each.
After a break on either side it connects to both again.

  pegfeed CONFIG MARKETDATA_ADDRESS SENDER TARGET DESK [SYMBOL ..]

DESK is a path with a / in it (a Unix socket), an address as 127.0.0.1:7002, or - for standard
output. Where symbols are named they are asked for; else what the source sends is taken.";

/// What is asked.
#[derive(Clone, Copy, Debug)]
pub struct Plan<'a> {
    /// The file of the config.
    pub config: &'a str,
    /// Where the source listens.
    pub source: &'a str,
    /// Our CompID.
    pub sender: &'a str,
    /// The source's CompID.
    pub target: &'a str,
    /// Where the quotes go.
    pub desk: &'a str,
    /// How many milliseconds apart quotes of a symbol at a market pass.
    pub pace: Option<u64>,
    /// The program ends with the first session.
    pub is_once: bool,
}

fn word<'a>(alloc: Global, name: &'static str, help: &'static str) -> Arg<'a> {
    Arg::new(alloc, name).help(help).required(true)
}

/// The program as the command line's reader takes it.
pub fn program<'a>(alloc: Global) -> Result<Command<'a>, AllocError> {
    Command::new(alloc, "pegfeed")
        .no_binary_name(true)
        .version("0.2.0")
        .about(HELP)
        .arg_required_else_help(true)
        .arg(word(alloc, "CONFIG", "The config of the day"))?
        .arg(word(
            alloc,
            "MARKETDATA_ADDRESS",
            "Where the source listens, as feed.example:9001",
        ))?
        .arg(word(alloc, "SENDER", "Our CompID, which the source knows us by"))?
        .arg(word(alloc, "TARGET", "The CompID of the source"))?
        .arg(word(alloc, "DESK", "Where the quotes go"))?
        .arg(
            Arg::new(alloc, "SYMBOL")
                .num_args(0..)
                .help("Symbols of the config that are asked for"),
        )?
        .arg(
            Arg::new(alloc, "conflate")
                .long("conflate")
                .value_name("MS")
                .help(
                    "At most one quote of a symbol at a market in so many milliseconds, the last one",
                ),
        )?
        .arg(
            Arg::new(alloc, "once")
                .long("once")
                .action(ArgAction::SetTrue)
                .help("End with the first session, for tests"),
        )
}

/// The milliseconds of `--conflate`: 1 to 60,000, or none without it; an error where the word is no such number.
fn pace_of(matches: &ArgMatches<'_>) -> Result<Option<u64>, ()> {
    let Some(word) = matches.get_str("conflate") else {
        return Ok(None);
    };
    match word.parse::<u64>() {
        Ok(pace) if 1 <= pace && pace <= 60_000 => Ok(Some(pace)),
        _ => Err(()),
    }
}

/// Whether a word can stand as a CompID in a message.
fn is_comp_id(word: &str) -> bool {
    !word.is_empty() && word.len() <= 64 && word.as_bytes().iter().all(|byte| *byte > b' ')
}

/// What is asked, or none where the words are no such thing.
pub fn plan_of<'a>(matches: &ArgMatches<'a>) -> Option<Plan<'a>> {
    let Ok(pace) = pace_of(matches) else {
        return None;
    };
    let plan = Plan {
        config: matches.get_str("CONFIG")?,
        source: matches.get_str("MARKETDATA_ADDRESS")?,
        sender: matches.get_str("SENDER")?,
        target: matches.get_str("TARGET")?,
        desk: matches.get_str("DESK")?,
        pace,
        is_once: matches.get_flag("once"),
    };
    if !is_comp_id(plan.sender) || !is_comp_id(plan.target) {
        return None;
    }
    Some(plan)
}

/// The symbols that are asked for.
pub fn symbols_of<'a>(alloc: Global, matches: &ArgMatches<'a>) -> Result<Vec<&'a str>, AllocError> {
    let mut symbols = Vec::new(alloc);
    if let Some(words) = matches.get_strs("SYMBOL") {
        for word in words {
            symbols.push(*word)?;
        }
    }
    Ok(symbols)
}
