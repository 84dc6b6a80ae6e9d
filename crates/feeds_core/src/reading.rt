//! Feeds that are read from a shelf.
ghost use Rattle.std.specs.Prelude.{◌≡◌, ◌≢◌, ◌≤◌, true, None, Err, IfOk, IfSome, IsErr, IsNone, IsTrue, length, map};
ghost use Rattle.io_edge.specs.Files.{HasFile, file_named};
ghost use Rattle.venue_words.specs.Causes.{Rose};
ghost use Rattle.line_reader.specs.Reading.{before_lines};
ghost use Rattle.feeds_core.specs.FeedTexts.{Keeps, KeepsAll};
ghost use Rattle.feeds_core.specs.FeedFiles.{texts_named, HasAll};

use crate::feed_text::{FeedEnd, FeedText};
use io_edge::Shelf;
use line_reader::{LineReader, NextLine};
use std::alloc::{AllocError, AllocFailed, Global};
use venue_words::NoMemory;
use venue_words::limits::MAX_CONFIG_BYTES;

/// Why feeds were not read.
#[derive(Clone, Copy, Debug, PartialEq, Eq)]
pub enum ReadRefusal {
    /// A file could not be opened or read.
    ReadFault,
    /// Memory was wanted.
    NoMemory,
}

impl From<NoMemory> for ReadRefusal {
    ghost use Rattle.feeds_core.specs.declared.reading.ReadRefusal.TheVariants.{NoMemory as memory};

    ghost from_gives = { λ _ refusal. refusal ≡ memory };

    fn from(_error: NoMemory) -> ReadRefusal {
        ReadRefusal::NoMemory
    }
}

impl From<AllocError> for ReadRefusal {
    ghost use Rattle.feeds_core.specs.declared.reading.ReadRefusal.TheVariants.{NoMemory as memory};

    ghost from_gives = { λ _ refusal. refusal ≡ memory };

    fn from(_error: AllocError) -> ReadRefusal {
        ReadRefusal::NoMemory
    }
}

impl<T: Drop> From<AllocFailed<T>> for ReadRefusal {
    ghost use Rattle.feeds_core.specs.declared.reading.ReadRefusal.TheVariants.{NoMemory as memory};

    ghost from_gives = { λ _ refusal. refusal ≡ memory };

    fn from(_error: AllocFailed<T>) -> ReadRefusal {
        ReadRefusal::NoMemory
    }
}

/// Reads the file that was begun up to its end, or to what makes it a refused one. So many bytes of files stand before it.
fn keep<H: Shelf>(
    alloc: Global,
    already: u64,
    reader: &mut LineReader,
    shelf: &mut H,
) -> Result<FeedText, ReadRefusal>
    requires begun { IsTrue (H.begun shelf.old) }
    requires start { reader.old ≡ before_lines already MAX_CONFIG_BYTES }
    requires within { already ≤ MAX_CONFIG_BYTES }
    ensures keeps { IfOk result (λ kept. IfSome (H.left shelf.old) (λ text. Keeps already text kept)) }
    ensures told { H.told shelf.new ≡ H.told shelf.old }
    ensures later { H.faults shelf.old ≤ H.faults shelf.new }
    ensures fault { result ≡ Err ReadRefusal.ReadFault → Rose (H.faults shelf.old) (H.faults shelf.new) }
    ensures sure { IsTrue (H.sure shelf.old) → IsTrue (H.sure shelf.new) × (result ≢ Err ReadRefusal.ReadFault) }
{
    let mut lines = Vec::new(alloc);
    loop {
        let end = match reader.next(shelf) {
            NextLine::Line { text, is_over } => {
                lines.extend_from_slice(text)?;
                lines.push(b'\n')?;
                if !is_over {
                    continue;
                }
                FeedEnd::Over
            }
            NextLine::End { rest } if rest.is_empty() => FeedEnd::Whole,
            NextLine::End { .. } => FeedEnd::Unended,
            NextLine::TooLong => FeedEnd::TooLong,
            NextLine::ReadFault => return Err(ReadRefusal::ReadFault),
        };
        return Ok(FeedText {
            already,
            lines,
            end,
        });
    }
}

/// Reads the feed of this name, where so many bytes of files stand before it.
fn read_feed<H: Shelf>(
    alloc: Global,
    shelf: &mut H,
    name: &str,
    already: u64,
) -> Result<FeedText, ReadRefusal>
    requires { already ≤ MAX_CONFIG_BYTES }
    ensures keeps { IfSome (H.told shelf.old) (λ files. IfSome (file_named files name.now) (λ text.
        IfOk result (Keeps already text))) }
    ensures missing { IfSome (H.told shelf.old) (λ files. IsNone (file_named files name.now) → IsErr result) }
    ensures told { H.told shelf.new ≡ H.told shelf.old }
    ensures later { H.faults shelf.old ≤ H.faults shelf.new }
    ensures fault { result ≡ Err ReadRefusal.ReadFault → Rose (H.faults shelf.old) (H.faults shelf.new) }
    ensures sure { IsTrue (H.sure shelf.old) →
        IsTrue (H.sure shelf.new) × (HasFile (H.told shelf.old) name.now → result ≢ Err ReadRefusal.ReadFault) }
{
    let mut reader = LineReader::new(alloc, already, MAX_CONFIG_BYTES)?;
    match shelf.begin(name) {
        Ok(()) => keep(alloc, already, &mut reader, shelf),
        Err(_) => Err(ReadRefusal::ReadFault),
    }
}

/// Reads the feeds of these names one after the other, where so many bytes of files stand before them. Of a file that is refused
/// no more is kept than what shows that; the files behind it are read all the same.
pub fn read_feeds<H: Shelf>(
    alloc: Global,
    shelf: &mut H,
    names: &[&str],
    already: u64,
) -> Result<Vec<FeedText>, ReadRefusal>
    requires { already ≤ MAX_CONFIG_BYTES }
    ensures count { IfOk result (λ kepts. length kepts.items ≡ length names.now) }
    ensures keeps { IfSome (H.told shelf.old) (λ files. IfSome (texts_named files (map (λ name. name.now) names.now)) (λ texts.
        IfOk result (λ kepts. KeepsAll true already texts kepts.items))) }
    ensures missing { IfSome (H.told shelf.old) (λ files. texts_named files (map (λ name. name.now) names.now) ≡ None → IsErr result) }
    ensures told { H.told shelf.new ≡ H.told shelf.old }
    ensures later { H.faults shelf.old ≤ H.faults shelf.new }
    ensures fault { result ≡ Err ReadRefusal.ReadFault → Rose (H.faults shelf.old) (H.faults shelf.new) }
    ensures sure { IsTrue (H.sure shelf.old) → IsTrue (H.sure shelf.new)
        × (HasAll (H.told shelf.old) (map (λ name. name.now) names.now) → result ≢ Err ReadRefusal.ReadFault) }
{
    let mut feeds = Vec::new(alloc);
    let mut bytes = already;
    for name in names {
        let feed = match read_feed(alloc, shelf, name, bytes) {
            Ok(feed) => feed,
            Err(refusal) => return Err(refusal),
        };
        bytes = feed.bytes();
        feeds.push(feed)?;
    }
    Ok(feeds)
}
