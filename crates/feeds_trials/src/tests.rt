//! Runs over files and sinks in memory.
ghost use Rattle.std.specs.Prelude.{◌<◌};

mod failing;
mod full;
mod many;
mod market;
mod market_sessions;
mod paced;
mod refused;

use feed_work::{Pace, Unpaced};
use feeds_core::{FeedsStatus, run_feeds};
use io_edge::{MemShelf, MemSink};
use std::alloc::{AllocError, Global};
use std::str::from_utf8;
use std::sync::Wait;
use std::thread::Threads;

/// Two members, one market and one symbol.
const CONFIG: &str =
    "PEGV 1\nMEMBER A\nMEMBER B\nMARKET N\nSYMBOL X 100\nBEGIN 20240102-14:30:00.000\n";

/// Calls of the shelf, of the output and of the second sink that fail; 0 is none.
type Fails = (u64, u64, u64);

/// What a run came to: its status, its output, and what was told of it.
#[derive(Drop)]
struct Ran {
    status: FeedsStatus,
    out: MemSink,
    err: MemSink,
}

impl Ran {
    /// Whether the run ended so, and put and told this.
    fn came_to(&self, status: FeedsStatus, out: &str, err: &str) -> bool {
        self.status == status
            && self.out.bytes() == out.as_bytes()
            && self.err.bytes() == err.as_bytes()
    }

    /// Its output, and nothing where that is no text.
    fn text(&self) -> &str {
        from_utf8(self.out.bytes()).unwrap_or("")
    }
}

/// The name of a feed's file.
fn feed_name(alloc: Global, number: usize) -> Result<String, AllocError> {
    format!(in alloc; "feed{number}")
}

/// The files of a config and of feeds.
fn files_of(
    alloc: Global,
    config: &str,
    feeds: &[&str],
) -> Result<Vec<(String, Vec<u8>)>, AllocError> {
    let mut files = Vec::new(alloc);
    files.push((
        String::from_str(alloc, "config")?,
        Vec::from_slice(alloc, config.as_bytes())?,
    ))?;
    for (k, feed) in feeds.iter().enumerate() {
        files.push((
            feed_name(alloc, k)?,
            Vec::from_slice(alloc, feed.as_bytes())?,
        ))?;
    }
    Ok(files)
}

/// The names of a config's file and of so many feeds'.
fn names_of(alloc: Global, feeds: usize) -> Result<Vec<String>, AllocError> {
    let mut names = Vec::new(alloc);
    names.push(String::from_str(alloc, "config")?)?;
    for k in 0..feeds {
        names.push(feed_name(alloc, k)?)?;
    }
    Ok(names)
}

/// Runs the files of these names.
fn run_files<R: Threads + Wait + Sync, P: Pace + Sync>(
    rt: &R,
    alloc: Global,
    pace: &P,
    names: &[String],
    shelf: &mut MemShelf,
    fails: Fails,
) -> Result<Ran, AllocError> {
    let mut out = MemSink::new(alloc, vec![in alloc; fails.1]?);
    let mut err = MemSink::new(alloc, vec![in alloc; fails.2]?);
    let status = run_feeds(rt, alloc, names, pace, shelf, &mut out, &mut err);
    Ok(Ran { status, out, err })
}

/// Runs a config and feeds in pieces of this size.
fn run_paced<R: Threads + Wait + Sync, P: Pace + Sync>(
    rt: &R,
    alloc: Global,
    pace: &P,
    texts: (&str, &[&str]),
    piece: usize,
    fails: Fails,
) -> Result<Ran, AllocError>
    requires { 0 < piece }
{
    let calls = vec![in alloc; fails.0]?;
    let names = names_of(alloc, texts.1.len())?;
    let mut shelf = MemShelf::new(files_of(alloc, texts.0, texts.1)?, piece, calls);
    let ran = run_files(rt, alloc, pace, names.as_slice(), &mut shelf, fails);
    drop(shelf);
    drop(names);
    ran
}

/// Runs a config and feeds in large pieces.
fn run<R: Threads + Wait + Sync>(
    rt: &R,
    alloc: Global,
    config: &str,
    feeds: &[&str],
) -> Result<Ran, AllocError> {
    run_paced(rt, alloc, &Unpaced, (config, feeds), 4096, (0, 0, 0))
}

/// A word of a line, counted from 0.
fn word_of(line: &str, place: usize) -> &str {
    match line.split(' ').nth(place) {
        Some(word) => word,
        None => "",
    }
}
