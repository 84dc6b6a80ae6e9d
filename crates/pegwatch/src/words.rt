//! The words of the command line.
use clap::{Arg, ArgAction, ArgMatches, Command};
use std::alloc::{AllocError, Global};

/// What is asked.
#[derive(Clone, Copy, Debug)]
pub enum Question<'a> {
    /// The page of a day.
    Serve(Day<'a>),
    /// The figures of this journal, once.
    Once(&'a str),
    /// The words are none of these.
    Unclear,
}

/// A day that is shown.
#[derive(Clone, Copy, Debug)]
pub struct Day<'a> {
    pub journal: &'a str,
    pub desk: &'a str,
    pub address: &'a str,
    /// Other machines may look.
    pub public: bool,
    /// After how many seconds a quote is stale.
    pub stale: Option<&'a str>,
}

/// What the words mean, for `--help`.
const HELP: &str = "\
Shows a running day. It follows the day's journal, which the venue writes, and takes
part in nothing: a slow reader, a kill or a crash of it cannot hurt the venue.

  pegwatch JOURNAL DESK ADDRESS   a page at http://ADDRESS/, and Prometheus' text at
                                  http://ADDRESS/metrics; DESK is the venue's desk, which
                                  is asked once a second for what waits, or - for none
  pegwatch JOURNAL                prints Prometheus' text of the journal as it is

ADDRESS is one of this machine, as 127.0.0.1:9464. With --public it may be any: whoever
reaches it then sees every quote, order count and trade, and nothing asks who he is.";

fn word<'a>(alloc: Global, name: &'static str, help: &'static str) -> Arg<'a> {
    Arg::new(alloc, name).help(help)
}

/// The program as the command line's reader takes it.
pub fn program<'a>(alloc: Global) -> Result<Command<'a>, AllocError> {
    Command::new(alloc, "pegwatch")
        .no_binary_name(true)
        .version("0.2.0")
        .about(HELP)
        .arg_required_else_help(true)
        .arg(word(alloc, "JOURNAL", "The day's journal"))?
        .arg(word(
            alloc,
            "DESK",
            "The venue's desk: a path with a / in it, or an address; - for none",
        ))?
        .arg(word(alloc, "ADDRESS", "Where the page is"))?
        .arg(
            Arg::new(alloc, "stale")
                .long("stale")
                .value_name("SECONDS")
                .help("After how long a quote is marked stale; 5 where it is not said"),
        )?
        .arg(
            Arg::new(alloc, "public")
                .long("public")
                .action(ArgAction::SetTrue)
                .help("Other machines may look"),
        )
}

/// What is asked.
pub fn question_of<'a>(matches: &ArgMatches<'a>) -> Question<'a> {
    let words = (
        matches.get_str("JOURNAL"),
        matches.get_str("DESK"),
        matches.get_str("ADDRESS"),
    );
    match words {
        (Some(journal), None, None) => Question::Once(journal),
        (Some(journal), Some(desk), Some(address)) => Question::Serve(Day {
            journal,
            desk,
            address,
            public: matches.get_flag("public"),
            stale: matches.get_str("stale"),
        }),
        _ => Question::Unclear,
    }
}
