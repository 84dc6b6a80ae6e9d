//! A day's journal as a config and the listing of what its feed asks for.
ghost use Rattle.std.specs.Prelude.{◌≡◌, ◌++◌, [], ◌∷◌, Some, IfOk};
ghost use Rattle.io_edge.specs.Memory.{files_of};
ghost use Rattle.program_words.specs.Words.{texts};
ghost use Rattle.audit_journal.specs.Days.{head_of, body_of, text_of, IsListingOf, AreFilesOf};
ghost use Rattle.audit_journal.specs.declared.making.TheConstants.{CONFIG, FEED, LISTING};

use crate::day::{body_of, head_of, text_of};
use feed_work::Unpaced;
use feeds_core::{FeedsStatus, run_feeds};
use io_edge::{MemShelf, MemSink, Sink};
use std::alloc::{AllocError, Global};
use std::sync::Wait;
use std::thread::Threads;
use venue_words::Bytes;

/// The names of the three files.
pub const CONFIG: &str = "journal.config";

pub const FEED: &str = "journal.feed";

pub const LISTING: &str = "journal.listing";

/// Why a day has no listing.
#[derive(Clone, Copy, Debug, PartialEq, Eq, Drop)]
pub enum DayFault {
    /// A venue takes its lines so far and no further: the journal is of another program.
    Refused(FeedsStatus),
    /// Out of memory.
    NoMemory,
}

impl From<AllocError> for DayFault {
    ghost use Rattle.audit_journal.specs.declared.making.DayFault.TheVariants.{NoMemory as memory};

    ghost from_gives = { λ _ fault. fault ≡ memory };

    fn from(_error: AllocError) -> DayFault {
        DayFault::NoMemory
    }
}

/// The names of a config and its feed, as words.
fn names(alloc: Global) -> Result<Vec<String>, AllocError>
    ensures { IfOk result (λ words. texts words.items ≡ CONFIG.now ∷ FEED.now ∷ []) }
{
    let mut words = Vec::new(alloc);
    words.push(String::from_str(alloc, CONFIG)?)?;
    words.push(String::from_str(alloc, FEED)?)?;
    Ok(words)
}

/// The config and the feed of the lines of a day, as files under their names.
fn inputs(alloc: Global, lines: &[Bytes]) -> Result<Vec<(String, Vec<u8>)>, AllocError>
    ensures { IfOk result (λ files. files_of files.items ≡ (CONFIG.now, text_of (head_of lines.now)) ∷ (FEED.now, text_of (body_of lines.now)) ∷ []) }
{
    let mut files = Vec::new(alloc);
    files.push((
        String::from_str(alloc, CONFIG)?,
        text_of(alloc, head_of(lines))?,
    ))?;
    files.push((
        String::from_str(alloc, FEED)?,
        text_of(alloc, body_of(lines))?,
    ))?;
    Ok(files)
}

/// With the listing as a further file.
fn with_listing(
    alloc: Global,
    inputs: Vec<(String, Vec<u8>)>,
    listing: Vec<u8>,
) -> Result<Vec<(String, Vec<u8>)>, AllocError>
    ensures { IfOk result (λ files. files_of files.items ≡ files_of inputs.items ++ (LISTING.now, listing.items) ∷ []) }
{
    let mut files = inputs;
    files.push((String::from_str(alloc, LISTING)?, listing))?;
    Ok(files)
}

/// What a sink in memory has.
fn text_in(alloc: Global, out: &MemSink) -> Result<Vec<u8>, AllocError>
    ensures { IfOk result (λ text. ⟦<MemSink as Sink>⟧.told out.now ≡ Some text.items) }
{
    Vec::from_slice(alloc, out.bytes())
}

/// The listing that a venue prints of the lines of a day.
fn listing_of<R: Threads + Wait + Sync>(
    rt: &R,
    alloc: Global,
    lines: &[Bytes],
) -> Result<Vec<u8>, DayFault>
    ensures { IfOk result (λ listing. IsListingOf (text_of (head_of lines.now)) (text_of (body_of lines.now)) listing.items) }
{
    let words = names(alloc)?;
    let mut shelf = MemShelf::new(inputs(alloc, lines)?, 65_536, Vec::new(alloc));
    let mut out = MemSink::new(alloc, Vec::new(alloc));
    let mut err = MemSink::new(alloc, Vec::new(alloc));
    match run_feeds(rt, alloc, &words, &Unpaced, &mut shelf, &mut out, &mut err) {
        FeedsStatus::Done => Ok(text_in(alloc, &out)?),
        FeedsStatus::NoMemory | FeedsStatus::ReadFault | FeedsStatus::WriteFault => {
            Err(DayFault::NoMemory)
        }
        refused => Err(DayFault::Refused(refused)),
    }
}

/// The config, the feed and the listing of the lines of a day, as files under their names.
pub fn files_of_day<R: Threads + Wait + Sync>(
    rt: &R,
    alloc: Global,
    lines: &[Bytes],
) -> Result<Vec<(String, Vec<u8>)>, DayFault>
    ensures files { IfOk result (λ files. AreFilesOf lines.now (files_of files.items)) }
{
    let listing = listing_of(rt, alloc, lines)?;
    let inputs = inputs(alloc, lines)?;
    Ok(with_listing(alloc, inputs, listing)?)
}
