//! The day that is asked about: where its files are, and a live venue's journal in their place.
use crate::progress::{ProgressShelf, shelf_of};
use audit_core::AuditFiles;
use audit_journal::{
    CONFIG, DayFault, DayShelf, FEED, JournalFault, body_of, files_of_day, head_of, read_journal,
    text_of,
};
use audit_telling::exit::{Exit, told};
use io_edge::{FileShelf, MemShelf};
use std::alloc::{AllocError, Global};
use std::io::Write;
use std::sync::Wait;
use std::thread::Threads;
use venue_words::Bytes;

/// Files of the system, or those of a day in memory.
pub(crate) type AuditShelf<'a> = DayShelf<ProgressShelf<'a, FileShelf<'a, HostRuntime>>>;

/// The day that is asked about.
#[derive(Drop)]
pub(crate) struct Day<'a> {
    pub(crate) files: AuditFiles<'a>,
    pub(crate) shelf: AuditShelf<'a>,
}

/// A part of a journal, as text.
#[derive(Clone, Copy, Debug, PartialEq, Eq)]
pub enum Part {
    /// All its lines: a script.
    Script,
    /// The header: a config.
    Config,
    /// The lines after it: a feed.
    Feed,
    /// What a venue lists of the two.
    Listing,
}

/// The word in the place of a config and a listing, before a journal's name.
const FLAG: &str = "--journal";

/// The journal that is named in the place of files: right after the subcommand.
pub(crate) fn journal_in(words: &[String]) -> Option<&str> {
    match words {
        [_, flag, name, ..] if flag.as_str() == FLAG => Some(name.as_str()),
        _ => None,
    }
}

/// The words with the names of the day's files in that place, where the listing has the journal's own name. What takes feeds is
/// audited beside the journal's own too.
pub(crate) fn words_of_day(alloc: Global, words: &[String]) -> Result<Vec<String>, AllocError> {
    let takes_feeds = words.first().is_some_and(|word| word.as_str() == "verify"
        || word.as_str() == "report");
    let mut made = Vec::new(alloc);
    for (place, word) in words.iter().enumerate() {
        match place {
            1 => made.push(String::from_str(alloc, CONFIG)?)?,
            2 => {
                made.push(String::from_str(alloc, word)?)?;
                if takes_feeds {
                    made.push(String::from_str(alloc, FEED)?)?;
                }
            }
            _ => made.push(String::from_str(alloc, word)?)?,
        }
    }
    Ok(made)
}

/// Tells why a journal was not read.
fn tell_unread(rt: &HostRuntime, name: &str, fault: JournalFault) -> Exit {
    match fault {
        JournalFault::ReadFault => told(
            eprintln!(rt; "pegaudit: {name}: can't be read"),
            Exit::ReadFault,
        ),
        JournalFault::Damaged { at } => told(
            eprintln!(rt; "pegaudit: {name}: no whole line at byte {at}: damaged, or no journal"),
            Exit::BadLine,
        ),
        JournalFault::TooLong => told(
            eprintln!(rt; "pegaudit: {name}: longer than a journal that is read"),
            Exit::Limit,
        ),
        JournalFault::NoMemory => Exit::NoMemory,
    }
}

/// Tells why a journal's lines have no listing.
fn tell_unlisted(rt: &HostRuntime, name: &str, fault: DayFault) -> Exit {
    match fault {
        DayFault::Refused(_) => told(
            eprintln!(rt; "pegaudit: {name}: its lines are not those of a venue's day"),
            Exit::BadLine,
        ),
        DayFault::NoMemory => Exit::NoMemory,
    }
}

/// The lines of a journal.
fn lines_in(rt: &HostRuntime, name: &str) -> Result<Vec<Bytes>, Exit> {
    let mut shelf = shelf_of(rt);
    match read_journal(rt.alloc(), name, &mut shelf) {
        Ok(lines) => Ok(lines),
        Err(fault) => Err(tell_unread(rt, name, fault)),
    }
}

/// The files of the day of a journal.
fn day_in<R: Threads + Wait + Sync>(
    threads: &R,
    rt: &HostRuntime,
    name: &str,
) -> Result<Vec<(String, Vec<u8>)>, Exit> {
    let lines = lines_in(rt, name)?;
    match files_of_day(threads, rt.alloc(), &lines) {
        Ok(files) => Ok(files),
        Err(fault) => Err(tell_unlisted(rt, name, fault)),
    }
}

/// A day's files, of which the listing has this name.
fn named(
    alloc: Global,
    files: Vec<(String, Vec<u8>)>,
    name: &str,
) -> Result<Vec<(String, Vec<u8>)>, AllocError> {
    let mut files = files;
    if let Some((_, listing)) = files.pop() {
        files.push((String::from_str(alloc, name)?, listing))?;
    }
    Ok(files)
}

/// Where the files are: in memory, where a journal is named, and else in the system.
pub(crate) fn audit_shelf<'a, R: Threads + Wait + Sync>(
    threads: &R,
    rt: &'a HostRuntime,
    journal: Option<&str>,
) -> Result<AuditShelf<'a>, Exit> {
    match journal {
        Some(name) => {
            let Ok(files) = named(rt.alloc(), day_in(threads, rt, name)?, name) else {
                return Err(Exit::NoMemory);
            };
            let no_fails = Vec::new(rt.alloc());
            Ok(DayShelf::Day(MemShelf::new(files, 65_536, no_fails)))
        }
        None => Ok(DayShelf::Files(shelf_of(rt))),
    }
}

/// The listing of the day of a journal.
fn listing_text<R: Threads + Wait + Sync>(
    threads: &R,
    rt: &HostRuntime,
    name: &str,
) -> Result<Vec<u8>, Exit> {
    let mut files = day_in(threads, rt, name)?;
    match files.pop() {
        Some((_, listing)) => Ok(listing),
        None => Err(Exit::NoMemory),
    }
}

/// A part of lines as a text.
fn lines_text(alloc: Global, lines: &[Bytes], part: Part) -> Result<Vec<u8>, AllocError> {
    match part {
        Part::Config => text_of(alloc, head_of(lines)),
        Part::Feed => text_of(alloc, body_of(lines)),
        Part::Script | Part::Listing => text_of(alloc, lines),
    }
}

/// The text of a part of a journal.
fn part_text<R: Threads + Wait + Sync>(
    threads: &R,
    rt: &HostRuntime,
    name: &str,
    part: Part,
) -> Result<Vec<u8>, Exit> {
    if part == Part::Listing {
        return listing_text(threads, rt, name);
    }
    let lines = lines_in(rt, name)?;
    match lines_text(rt.alloc(), &lines, part) {
        Ok(text) => Ok(text),
        Err(_) => Err(Exit::NoMemory),
    }
}

/// Puts a part of a journal.
pub(crate) fn put_journal<R: Threads + Wait + Sync>(
    threads: &R,
    rt: &HostRuntime,
    name: &str,
    part: Option<Part>,
) -> Exit {
    let Some(part) = part else {
        return told(
            eprintln!(rt; "pegaudit: PART is config, feed or listing"),
            Exit::BadWords,
        );
    };
    match part_text(threads, rt, name, part) {
        Ok(text) => told(rt.stdout().write_all(&text), Exit::Done),
        Err(exit) => exit,
    }
}
