//! The lines that were read last, for whoever tells of the one that differs.
ghost use Rattle.std.specs.Prelude.{◌≡◌, ◌≤◌, length};

use io_edge::{Failed, Shelf};
use std::alloc::Global;
use venue_words::NoMemory;

/// So many bytes are kept at least, where there are as many.
const KEPT: usize = 131_072;

/// A shelf that keeps the lines of the file that was read last, and counts them.
#[derive(Drop)]
pub struct KeptShelf<H: Drop> {
    inner: H,
    /// The last bytes, from the beginning of a line on.
    tail: Vec<u8>,
    /// How many lines ended before them, and in all.
    before: u64,
    ended: u64,
    /// Whether it ran out of memory, so that nothing is kept.
    is_lost: bool,
}

/// How many lines end in a text.
fn ends_in(text: &[u8]) -> u64 {
    let mut ends = 0u64;
    for byte in text {
        if *byte == b'\n' {
            ends = ends.saturating_add(1);
        }
    }
    ends
}

/// How many lines end in the front of a text.
fn ends_before(text: &[u8], cut: usize) -> u64 {
    match text.get(..cut) {
        Some(front) => ends_in(front),
        None => 0,
    }
}

/// Where the line begins in which a place of a text stands.
fn line_start(text: &[u8], place: usize) -> usize
    ensures { result ≤ length text.now }
{
    let end = place.min(text.len());
    for back in 0..end {
        let before = end - 1 - back;
        if text[before] == b'\n' {
            return before + 1;
        }
    }
    0
}

/// The line of a number in a text, counted from 0, without its LF.
fn line_in(text: &[u8], number: u64) -> Option<&[u8]> {
    let mut left = number;
    let mut begin = 0usize;
    for place in 0..text.len() {
        if text[place] == b'\n' {
            if left == 0 {
                return text.get(begin..place);
            }
            left -= 1;
            begin = place + 1;
        }
    }
    if left == 0 && begin < text.len() {
        text.get(begin..)
    } else {
        None
    }
}

impl<H: Shelf + Drop> KeptShelf<H> {
    /// Nothing was read yet.
    pub fn new(alloc: Global, inner: H) -> KeptShelf<H>
        ensures { result.inner ≡ inner }
    {
        KeptShelf {
            inner,
            tail: Vec::new(alloc),
            before: 0,
            ended: 0,
            is_lost: false,
        }
    }

    /// How many lines ended.
    pub fn ended(&self) -> u64 {
        self.ended
    }

    /// The line of a number, counted from 1, where it is one of the last.
    pub fn line(&self, number: u64) -> Option<&[u8]> {
        let place = number.checked_sub(1)?.checked_sub(self.before)?;
        line_in(self.tail.as_slice(), place)
    }

    /// Keeps bytes that were read.
    fn keep(&mut self, bytes: &[u8]) -> Result<(), NoMemory>
        ensures { self.new.inner ≡ self.old.inner }
    {
        self.ended = self.ended.saturating_add(ends_in(bytes));
        self.tail.extend_from_slice(bytes)?;
        if self.tail.len() > 2 * KEPT {
            let cut = line_start(self.tail.as_slice(), self.tail.len() - KEPT);
            let gone = ends_before(self.tail.as_slice(), cut);
            self.before = self.before.saturating_add(gone);
            let rest = self.tail.len() - cut;
            self.tail.copy_within(cut.., 0);
            self.tail.truncate(rest);
        }
        Ok(())
    }
}

impl<H: Shelf + Drop> Shelf for KeptShelf<H> {
    ghost faults = { λ s. H.faults s.inner };

    ghost told = { λ s. H.told s.inner };

    ghost left = { λ s. H.left s.inner };

    ghost begun = { λ s. H.begun s.inner };

    ghost sure = { λ s. H.sure s.inner };

    fn begin(&mut self, name: &str) -> Result<(), Failed> {
        self.tail.clear();
        self.before = 0;
        self.ended = 0;
        self.is_lost = false;
        self.inner.begin(name)
    }

    fn pull(&mut self, buffer: &mut [u8]) -> Result<usize, Failed> {
        let count = self.inner.pull(buffer)?;
        if !self.is_lost && self.keep(&buffer[..count]).is_err() {
            self.is_lost = true;
            self.tail.clear();
        }
        Ok(count)
    }
}
