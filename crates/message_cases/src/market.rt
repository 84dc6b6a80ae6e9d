//! Snapshots of market data, and the feeds of recorded sessions.
use crate::sessions::Desk;
use case_text::{Told, Words};
use fix_fields::number;
use fix_write::wrap;
use io_edge::{MemShelf, MemSink};
use market_data::{Snapshot, SnapshotRefusal, exit_code, market_feed, read_snapshot};
use script_text::read_header;
use session_core::Request;
use std::alloc::{AllocError, Global};
use std::mem::replace;
use venue_words::NoMemory;

/// Markets N and P, and symbol X.
const CONFIG: &[u8] = b"PEGV 1\nMARKET N\nMARKET P\nSYMBOL X 100\nBEGIN 20240102-14:30:00.000\n";

fn tell_quotes(snapshot: &Snapshot, told: &mut Told) {
    told.word("symbol ");
    told.show(&snapshot.symbol);
    for command in snapshot.quotes.as_slice() {
        told.push("\n ");
        told.code(command);
    }
}

/// What a message is read as with that config.
fn read(alloc: Global, request: &Request<'_>) -> Result<Snapshot, SnapshotRefusal> {
    match read_header(alloc, CONFIG) {
        Ok((config, _)) => read_snapshot(alloc, request, &config),
        Err(_) => Err(SnapshotRefusal::NoMemory),
    }
}

/// Tells the quotes of what was read, or why it is refused.
fn tell_read(read: &Result<Snapshot, SnapshotRefusal>, told: &mut Told) -> Result<(), NoMemory> {
    match read {
        Ok(snapshot) => tell_quotes(snapshot, told),
        Err(SnapshotRefusal::Reject { reason, tag }) => {
            told.word("refused by reason ");
            told.show(reason);
            told.push(" at ");
            told.show(tag);
        }
        Err(SnapshotRefusal::NoMemory) => return Err(NoMemory),
    }
    Ok(())
}

/// Tells what a message is read as, where there is one.
fn tell_request(request: &Option<Request<'_>>, told: &mut Told) -> Result<(), NoMemory> {
    match request {
        Some(request) => tell_read(&read(told.alloc, request), told),
        None => {
            told.word("no message");
            Ok(())
        }
    }
}

/// Tells the quotes of a snapshot of that config, or why it is refused.
fn tell_snapshot(content: &[u8], told: &mut Told) -> Result<(), NoMemory> {
    let frame = wrap(told.alloc, content)?;
    let turn = Desk::turn_behind_logon(told.alloc, frame.as_slice())?;
    let done = tell_request(&turn.request, told);
    drop(turn);
    done
}

/// The bytes of a market data session, and the config that it is read with.
#[derive(Drop)]
pub struct Recording {
    config: Vec<u8>,
    stream: Vec<u8>,
}

impl Recording {
    /// A recording without bytes, with a config that is given or the usual one.
    pub fn new(alloc: Global, config: &[u8]) -> Result<Recording, AllocError> {
        let config = if config.is_empty() { CONFIG } else { config };
        Ok(Recording {
            config: Vec::from_slice(alloc, config)?,
            stream: Vec::new(alloc),
        })
    }

    /// Adds the frame of a content.
    fn push(&mut self, alloc: Global, content: &[u8]) -> Result<(), NoMemory> {
        let frame = wrap(alloc, content)?;
        self.stream.extend_from_slice(frame.as_slice())?;
        Ok(())
    }

    /// A config `c` and an input `i`, in pieces of this size.
    fn shelf(&self, alloc: Global, piece: u32) -> Result<MemShelf, AllocError> {
        let mut files = Vec::new(alloc);
        files.push(file(alloc, "c", self.config.as_slice())?)?;
        files.push(file(alloc, "i", self.stream.as_slice())?)?;
        Ok(MemShelf::new(files, (piece as usize).max(1), Vec::new(alloc)))
    }

    /// Tells the exit status of a run with the words behind the size of a piece, its feed, and what else is told.
    fn run(&self, input: &[u8], told: &mut Told) -> Result<(), NoMemory> {
        let words = Words::new(told.alloc, input)?;
        let names = names_of(told.alloc, words.list.as_slice())?;
        let piece = number(words.at(0)).unwrap_or(1);
        let mut shelf = self.shelf(told.alloc, piece)?;
        tell_feed(names.as_slice(), &mut shelf, told);
        Ok(())
    }
}

/// A file with this name and these bytes.
fn file(alloc: Global, name: &str, bytes: &[u8]) -> Result<(String, Vec<u8>), AllocError> {
    let name = String::from_str(alloc, name)?;
    Ok((name, Vec::from_slice(alloc, bytes)?))
}

/// The words behind the first one.
fn names_of(alloc: Global, words: &[&[u8]]) -> Result<Vec<String>, AllocError> {
    let mut names = Vec::new(alloc);
    for word in words.iter().skip(1) {
        names.push(String::from_utf8_lossy(alloc, *word)?)?;
    }
    Ok(names)
}

fn tell_feed(words: &[String], shelf: &mut MemShelf, told: &mut Told) {
    let alloc = told.alloc;
    let mut out = MemSink::new(alloc, Vec::new(alloc));
    let mut err = MemSink::new(alloc, Vec::new(alloc));
    let status = market_feed(alloc, words, shelf, &mut out, &mut err);
    told.value(&exit_code(status));
    if !out.bytes().is_empty() {
        told.line(out.bytes());
    }
    if !err.bytes().is_empty() {
        told.line(err.bytes());
    }
}

/// `snapshot` tells its quotes; `recording` begins anew, `recorded` adds a message, and `market_feed PIECE WORD..` runs.
pub fn play(
    recording: &mut Recording,
    word: &str,
    input: &[u8],
    told: &mut Told,
) -> Result<bool, NoMemory> {
    match word {
        "snapshot" => tell_snapshot(input, told)?,
        "recording" => drop(replace(recording, Recording::new(told.alloc, input)?)),
        "recorded" => recording.push(told.alloc, input)?,
        "market_feed" => recording.run(input, told)?,
        _ => return Ok(false),
    }
    Ok(true)
}
