//! An edge in memory.
ghost use Rattle.std.specs.Prelude.{◌≡◌, ◌-◌, ◌≤◌, ◌++◌, [], ◌∷◌, length, take, All, IfOk, IfSome, OnOk};
ghost use Rattle.day_journal.specs.Log.{IsShortLine};
ghost use Rattle.live_core.specs.Lines.{IsBeginning};

use super::random::Random;
use io_edge::{Calls, Failed};
use live_core::{Edge, Going};
use std::alloc::{AllocError, Global};
use venue_words::Bytes;
use venue_words::limits::MAX_LINE_BYTES;

/// Brings lines that were given, a number that looks random in each round, and keeps what is put. A call that is to fail brings
/// nothing, or puts half.
#[derive(Drop)]
pub struct MemEdge {
    alloc: Global,
    lines: Vec<Bytes>,
    /// How many were brought.
    at: usize,
    sizes: Random,
    most: u32,
    put: Vec<u8>,
    calls: Calls,
}

impl MemEdge {
    /// Rounds have one to `most` lines. `fails` lists the numbers of the calls that fail, counted from 1.
    pub fn new(alloc: Global, lines: Vec<Bytes>, most: u32, fails: Vec<u64>) -> MemEdge {
        MemEdge {
            alloc,
            lines,
            at: 0,
            sizes: Random(7),
            most: most.max(1),
            put: Vec::new(alloc),
            calls: Calls::new(fails),
        }
    }

    /// All that was put.
    pub fn put_text(&self) -> &[u8] {
        &self.put
    }
}

/// Adds a copy of a line.
fn push_copy(alloc: Global, line: &[u8], lines: &mut Vec<Bytes>) -> Result<(), AllocError>
    ensures { OnOk result (lines.new.items ≡ lines.old.items ++ line.now ∷ []) }
{
    lines.push(Bytes::copy_of(alloc, line)?)?;
    Ok(())
}

/// Copies of the lines between two places; none where one is too long.
fn copies(
    alloc: Global,
    all: &[Bytes],
    from: usize,
    to: usize,
) -> Result<Option<Vec<Bytes>>, AllocError>
    requires order { from ≤ to }
    requires within { to ≤ length all.now }
    ensures taken { IfOk result (λ made. IfSome made (λ copies. take to all.now ≡ take from all.now ++ copies.items)) }
    ensures short { IfOk result (λ made. IfSome made (λ copies. All IsShortLine copies.items)) }
{
    let mut copies = Vec::new(alloc);
    let mut at = from;
    while at < to {
        let line = all[at].as_slice();
        if line.len() > MAX_LINE_BYTES {
            return Ok(None);
        }
        push_copy(alloc, line, &mut copies)?;
        at += 1;
    }
    Ok(Some(copies))
}

/// Adds the first half of a text, if there is memory.
fn put_half(put: &mut Vec<u8>, text: &[u8])
    ensures { IsBeginning put.old.items put.new.items text.now }
{
    match put.extend_from_slice(&text[..text.len() / 2]) {
        Ok(()) => {}
        Err(_) => {}
    }
}

impl Edge for MemEdge {
    ghost faults = { λ e. e.calls.faults };

    ghost brought = { λ e. take e.at e.lines.items };

    ghost told = { λ e. e.put.items };

    ghost rounds_left = { λ e. length e.lines.items - e.at };

    fn begin(&mut self, _had: &[Bytes]) {}

    fn round(&mut self, lines: &mut Vec<Bytes>) -> Result<Going, Failed> {
        self.calls.call()?;
        let most = self.most.max(1);
        let count = 1 + self.sizes.below(most) as usize;
        let end = self.at.saturating_add(count).min(self.lines.len());
        if end <= self.at {
            return Ok(Going::Stop);
        }
        let made = copies(self.alloc, &self.lines, self.at, end);
        match self.calls.kept(made)? {
            Some(copies) => *lines = copies,
            None => return Err(self.calls.fail()),
        }
        self.at = end;
        Ok(Going::On)
    }

    fn put(&mut self, text: &[u8]) -> Result<(), Failed> {
        if let Err(failed) = self.calls.call() {
            put_half(&mut self.put, text);
            return Err(failed);
        }
        let made = self.put.extend_from_slice(text);
        self.calls.kept(made)
    }
}
