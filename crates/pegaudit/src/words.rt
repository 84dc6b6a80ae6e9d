//! The words of the command line.
ghost use Rattle.std.specs.Prelude.{◌≤◌, ◌<◌, IfSome};

use crate::day::Part;
use audit_core::AuditFiles;
use audit_telling::telling::Place;
use clap::{Arg, ArgMatches, Command};
use std::alloc::{AllocError, Global};

/// What is asked of a day.
#[derive(Clone, Copy, Debug)]
pub enum DayQuestion<'a> {
    /// Whether the listing is what the market's rules make of its own events, and these are what the feeds ask, where some are named.
    Verify,
    /// Its trades.
    Trades,
    /// What each member did in each symbol.
    Summary,
    /// A picture of the day of the symbol with this name.
    Chart(&'a str),
    /// The day as a page.
    Report,
    /// The book of the symbol with this name after an event.
    Book(&'a str, Place<'a>),
    /// The life of the order of the symbol with this name that entered at an event.
    Order(&'a str, Place<'a>),
}

/// What is asked, and of which files.
#[derive(Clone, Copy, Debug)]
pub enum Question<'a> {
    Day(AuditFiles<'a>, DayQuestion<'a>),
    /// A part of the journal in this file, where there is such a part.
    Journal(&'a str, Option<Part>),
    /// What each line of the script in this file does.
    Explain(&'a str),
}

/// The words behind a subcommand's name.
#[derive(Clone, Copy)]
enum Words {
    /// A config and a listing.
    Files,
    /// These, and feeds.
    Feeds,
    /// These, and a symbol.
    Symbol,
    /// These, a symbol, and what names an event: its number, a time of day, or a member and a ClOrdID.
    Event,
    /// A script.
    Script,
    /// A journal, and which part of it.
    Journal,
}

/// A subcommand: its name, what it does, and its words.
#[derive(Clone, Copy)]
struct Subcommand {
    name: &'static str,
    about: &'static str,
    words: Words,
}

/// What the program can do.
const SUBCOMMANDS: &[Subcommand] = &[
    Subcommand {
        name: "verify",
        about: "Says whether a listing is what the market's rules make of its own events, or the first line that differs",
        words: Words::Feeds,
    },
    Subcommand {
        name: "trades",
        about: "Verifies a listing, and puts each trade with its parties and the national quote",
        words: Words::Files,
    },
    Subcommand {
        name: "summary",
        about: "Verifies a listing, and puts what each member did in each symbol: events, trades, shares, what rests, what was rejected by which rule",
        words: Words::Files,
    },
    Subcommand {
        name: "chart",
        about: "Verifies a listing, and puts a picture of a symbol's day, as SVG: quotes, trades and the shares that rest",
        words: Words::Symbol,
    },
    Subcommand {
        name: "book",
        about: "Verifies a listing, and puts both sides of a symbol's book after an event, as they queue and by price",
        words: Words::Event,
    },
    Subcommand {
        name: "order",
        about: "Verifies a listing, and puts the life of the order that entered at an event: its prices and times, its place, its trades, its end",
        words: Words::Event,
    },
    Subcommand {
        name: "report",
        about: "Verifies a listing, and puts the day as a page in HTML: the verdict, what was traded, by whom, and what became of each order",
        words: Words::Feeds,
    },
    Subcommand {
        name: "journal",
        about: "Puts the lines of a live venue's journal, which may be running, as a script",
        words: Words::Journal,
    },
    Subcommand {
        name: "explain",
        about: "Tells what each line of a script does, what is sent behind it, and why nothing is",
        words: Words::Script,
    },
];

/// A word that has to be there.
fn word<'a>(alloc: Global, name: &'static str, help: &'static str) -> Arg<'a> {
    Arg::new(alloc, name).required(true).help(help)
}

/// A subcommand that takes a config and a listing, too.
fn with_files<'a>(alloc: Global, command: Command<'a>) -> Result<Command<'a>, AllocError> {
    command
        .arg(word(alloc, "CONFIG", "The config that the venue ran with"))?
        .arg(word(alloc, "LISTING", "The listing that the venue put, as it is"))
}

/// A subcommand that takes a symbol behind its files, too.
fn with_symbol<'a>(alloc: Global, command: Command<'a>) -> Result<Command<'a>, AllocError> {
    with_files(alloc, command)?.arg(word(alloc, "SYMBOL", "A symbol of the config"))
}

/// A subcommand that takes these words, too.
fn with_words<'a>(
    alloc: Global,
    command: Command<'a>,
    words: Words,
) -> Result<Command<'a>, AllocError> {
    match words {
        Words::Files => with_files(alloc, command),
        Words::Feeds => with_files(alloc, command)?.arg(
            Arg::new(alloc, "FEED").num_args(0..).help(
                "The feeds of the day, as pegvenue had them: whether the listing's events are what they ask",
            ),
        ),
        Words::Symbol => with_symbol(alloc, command),
        Words::Event => with_symbol(alloc, command)?.arg(word(
            alloc,
            "EVENT",
            "The number of one of the symbol's events, from 1; or a time of day as 14:30:00.123, for the last event by then; or MEMBER CLORDID, for an order",
        )
        .num_args(1..=2)),
        Words::Journal => command
            .arg(word(alloc, "JOURNAL", "The journal of a live venue"))?
            .arg(Arg::new(alloc, "PART").help(
                "config: its header; feed: the lines after it; listing: what a venue lists of the two",
            )),
        Words::Script => command.arg(word(alloc, "SCRIPT", "A script, as pegreplay reads it")),
    }
}

/// A subcommand as the command line's reader takes it.
fn command_of<'a>(alloc: Global, asked: &Subcommand) -> Result<Command<'a>, AllocError> {
    let command = Command::new(alloc, asked.name).about(asked.about);
    with_words(alloc, command, asked.words)
}

/// What the program can do.
pub fn program<'a>(alloc: Global) -> Result<Command<'a>, AllocError> {
    let mut program = Command::new(alloc, "pegaudit")
        .no_binary_name(true)
        .version("0.2.0")
        .about(
            "Audits a venue's day from its listing, or from a live venue's journal: --journal JOURNAL in the place of CONFIG LISTING",
        )
        .subcommand_required(true)
        .arg_required_else_help(true);
    for asked in SUBCOMMANDS {
        program = program.subcommand(command_of(alloc, asked)?)?;
    }
    Ok(program)
}

/// The files of a subcommand.
fn files_of<'a>(command: &ArgMatches<'a>) -> Option<AuditFiles<'a>> {
    Some(AuditFiles {
        config: command.get_str("CONFIG")?,
        listing: command.get_str("LISTING")?,
    })
}

/// The number of an event: digits, of which the first is no zero.
fn event_in(text: &str) -> Option<u32> {
    let first = *text.as_bytes().first()?;
    if first == b'0' || !text.as_bytes().iter().all(u8::is_ascii_digit) {
        return None;
    }
    text.parse::<u32>().ok()
}

/// The number of some decimal digits of a text, where it is at most this.
fn digits_at(text: &[u8], from: usize, to: usize, most: u32) -> Option<u32>
    requires { most < 1000 }
    ensures { IfSome result (λ number. number ≤ most) }
{
    let mut number = 0;
    for byte in text.get(from..to)? {
        if !byte.is_ascii_digit() || 999 < number {
            return None;
        }
        number = number * 10 + u32::from(*byte - b'0');
    }
    if number <= most { Some(number) } else { None }
}

/// Whether a text has this byte at a place.
fn has_at(text: &[u8], place: usize, byte: u8) -> bool {
    text.get(place).copied() == Some(byte)
}

/// The milliseconds since midnight of a time of day: `14:30`, `14:30:00` or `14:30:00.123`.
fn time_in(text: &str) -> Option<u32> {
    let text = text.as_bytes();
    let hours = digits_at(text, 0, 2, 23)?;
    let minutes = digits_at(text, 3, 5, 59)?;
    let begin = (hours * 60 + minutes) * 60_000;
    if !has_at(text, 2, b':') {
        return None;
    }
    if text.len() == 5 {
        return Some(begin);
    }
    let seconds = digits_at(text, 6, 8, 59)?;
    if !has_at(text, 5, b':') {
        return None;
    }
    if text.len() == 8 {
        return Some(begin + seconds * 1000);
    }
    let rest = digits_at(text, 9, 12, 999)?;
    if !has_at(text, 8, b'.') || text.len() != 12 {
        return None;
    }
    Some(begin + seconds * 1000 + rest)
}

/// What names an event.
fn place_in<'a>(words: &[&'a str]) -> Option<Place<'a>> {
    match words {
        [word] => {
            if let Some(event) = event_in(word) {
                return Some(Place::Event(event));
            }
            Some(Place::Time(word, time_in(word)?))
        }
        [member, id] => Some(Place::Id(member, id)),
        _ => None,
    }
}

/// A symbol's name, and what names an event of it.
fn event_of<'a>(command: &ArgMatches<'a>) -> Option<(&'a str, Place<'a>)> {
    Some((
        command.get_str("SYMBOL")?,
        place_in(command.get_strs("EVENT")?)?,
    ))
}

/// The feeds that are named behind a listing.
pub fn feeds_of<'m, 'a>(matches: &'m ArgMatches<'a>) -> Option<&'m [&'a str]> {
    match matches.subcommand_matches("verify") {
        Some(verify) => verify.get_strs("FEED"),
        None => matches.subcommand_matches("report")?.get_strs("FEED"),
    }
}

/// The part of a journal that a word names.
fn part_in(word: Option<&str>) -> Option<Part> {
    match word {
        None => Some(Part::Script),
        Some("config") => Some(Part::Config),
        Some("feed") => Some(Part::Feed),
        Some("listing") => Some(Part::Listing),
        Some(_) => None,
    }
}

/// What is asked of a day by a subcommand of this name.
fn day_question<'a>(name: &str, command: &ArgMatches<'a>) -> Option<DayQuestion<'a>> {
    match name {
        "verify" => Some(DayQuestion::Verify),
        "trades" => Some(DayQuestion::Trades),
        "summary" => Some(DayQuestion::Summary),
        "report" => Some(DayQuestion::Report),
        "chart" => Some(DayQuestion::Chart(command.get_str("SYMBOL")?)),
        "book" => {
            let (symbol, place) = event_of(command)?;
            Some(DayQuestion::Book(symbol, place))
        }
        "order" => {
            let (symbol, place) = event_of(command)?;
            Some(DayQuestion::Order(symbol, place))
        }
        _ => None,
    }
}

/// What is asked.
pub fn question_of<'a>(matches: &ArgMatches<'a>) -> Option<Question<'a>> {
    if let Some(explain) = matches.subcommand_matches("explain") {
        return Some(Question::Explain(explain.get_str("SCRIPT")?));
    }
    if let Some(journal) = matches.subcommand_matches("journal") {
        let part = part_in(journal.get_str("PART"));
        return Some(Question::Journal(journal.get_str("JOURNAL")?, part));
    }
    for asked in SUBCOMMANDS {
        if let Some(command) = matches.subcommand_matches(asked.name) {
            let question = day_question(asked.name, command)?;
            return Some(Question::Day(files_of(command)?, question));
        }
    }
    None
}
