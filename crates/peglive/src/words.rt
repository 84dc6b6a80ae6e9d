//! The words of the command line.
use clap::{Arg, ArgMatches, Command};
use std::alloc::{AllocError, Global};

/// What is asked.
#[derive(Clone, Copy, Debug)]
pub enum Question<'a> {
    /// A day over sockets.
    Serve(Day<'a>, Service<'a>),
    /// A day of the lines of this file, its output on standard output.
    Work(Day<'a>, &'a str),
    /// Whether the config in this file will do.
    Check(&'a str),
    /// The words are none of these.
    Unclear,
}

/// The files of a day.
#[derive(Clone, Copy, Debug)]
pub struct Day<'a> {
    pub config: &'a str,
    pub journal: &'a str,
}

/// How a day over sockets is served.
#[derive(Clone, Copy, Debug)]
pub struct Service<'a> {
    /// Where members connect.
    pub members: &'a str,
    /// Where operators connect.
    pub desk: &'a str,
    /// The file of who may log on from where.
    pub access: Option<&'a str>,
    /// How long a market may say nothing before its quotes are taken away, in milliseconds; 0 is no limit.
    pub stale: u64,
}

/// The longest time in which a market may say nothing, in seconds: a day.
const MAX_STALE_SECONDS: u64 = 86_400;

/// The same where nothing is said of it.
const STALE_SECONDS: u64 = 5;

/// What the words mean, for `--help`.
const HELP: &str = "\
Runs a trading day. Every line that comes in is on the disk before anybody is sent
what it made, so a venue that was killed goes on where it was: start it again with
the same words.

  peglive CONFIG JOURNAL ADDRESS DESK   members connect at ADDRESS, as 127.0.0.1:7001;
                                        operators at DESK, a path with a / in it (a Unix
                                        socket) or an address of this machine
  peglive CONFIG JOURNAL - FILE         works the lines of FILE without sockets, and
                                        prints what members would be sent
  peglive check CONFIG                  says what is wrong with a config, or what it takes

Without --access members are let in from this machine alone, and any program on it
may log on as any of them. With --access FILE a member logs on as a line of FILE says:

  NAME FROM NETWORK                     at ADDRESS, from 10.1.0.0/16 or fd00::/8, say
  NAME AT ADDRESS                       at this further address, where nobody else may

The quotes of a market of which no line comes to the desk for SECONDS are taken away,
5 where --stale is not given, and never with --stale 0; KEEP MARKET is such a line.";

fn word<'a>(alloc: Global, name: &'static str, help: &'static str) -> Arg<'a> {
    Arg::new(alloc, name).help(help)
}

/// The program as the command line's reader takes it.
pub fn program<'a>(alloc: Global) -> Result<Command<'a>, AllocError> {
    Command::new(alloc, "peglive")
        .no_binary_name(true)
        .version("0.2.0")
        .about(HELP)
        .arg_required_else_help(true)
        .arg(word(alloc, "CONFIG", "The config of the day, or the word check"))?
        .arg(word(
            alloc,
            "JOURNAL",
            "The day's journal, which is made where it is not there",
        ))?
        .arg(word(alloc, "ADDRESS", "Where members connect"))?
        .arg(word(alloc, "DESK", "Where operators connect"))?
        .arg(
            Arg::new(alloc, "access")
                .long("access")
                .value_name("FILE")
                .help("Who may log on from where"),
        )?
        .arg(
            Arg::new(alloc, "stale")
                .long("stale")
                .value_name("SECONDS")
                .help("How long a market may say nothing"),
        )
}

/// How long a market may say nothing, in milliseconds.
fn stale_of(word: Option<&str>) -> Option<u64> {
    let seconds = match word {
        Some(word) => word.parse::<u64>().ok()?,
        None => STALE_SECONDS,
    };
    if seconds > MAX_STALE_SECONDS {
        return None;
    }
    Some(seconds * 1_000)
}

/// What is asked.
pub fn question_of<'a>(matches: &ArgMatches<'a>) -> Question<'a> {
    let words = (
        matches.get_str("CONFIG"),
        matches.get_str("JOURNAL"),
        matches.get_str("ADDRESS"),
        matches.get_str("DESK"),
    );
    match words {
        (Some("check"), Some(config), None, None) => Question::Check(config),
        (Some(config), Some(journal), Some("-"), Some(file)) => {
            Question::Work(Day { config, journal }, file)
        }
        (Some(config), Some(journal), Some(members), Some(desk)) => {
            match stale_of(matches.get_str("stale")) {
                Some(stale) => Question::Serve(
                    Day { config, journal },
                    Service {
                        members,
                        desk,
                        access: matches.get_str("access"),
                        stale,
                    },
                ),
                None => Question::Unclear,
            }
        }
        _ => Question::Unclear,
    }
}
