//! Rows of a table in boxes of 200, which a browser lays out when they come into sight.
ghost use Rattle.std.specs.Prelude.{◌≡◌, ◌≤◌, ◌+◌, ◌↔◌, ◌++◌, ◌∷◌, ℕ, List, [], take, IsTrue, OnOk};
ghost use Rattle.audit_html.specs.Chunks.{Adds, Box, Holds, boxed, opening};

use crate::texts::push;
use std::alloc::Global;
use venue_words::NoMemory;

/// The first rows of a table, and how many there are.
#[derive(Drop)]
pub struct Chunks {
    pub text: Vec<u8>,
    /// At most so many rows are held.
    pub most: u32,
    /// So many are.
    pub shown: u32,
    /// So many there are.
    pub all: u64,
}

/// How a box of rows begins and ends.
#[derive(Clone, Copy)]
pub struct Tags<'a> {
    pub begin: &'a [u8],
    pub end: &'a [u8],
}

/// Appends what stands before the row of a number.
fn push_opening(out: &mut Vec<u8>, tags: Tags<'_>, number: u32) -> Result<(), NoMemory>
    ensures { OnOk result ((box : Box) → tags.entry.begin.now ≡ box.begin → tags.entry.end.now ≡ box.end
        → out.new.items ≡ out.old.items ++ opening box number) }
{
    if number % 200 != 0 {
        return Ok(());
    }
    if number != 0 {
        push(out, tags.end)?;
    }
    push(out, tags.begin)?;
    Ok(())
}

impl Chunks {
    /// No rows, and room for so many.
    pub fn new(alloc: Global, most: u32) -> Chunks
        ensures none { (box : Box) → Holds box [] result }
        ensures most { result.most ≡ most }
    {
        Chunks {
            text: Vec::new(alloc),
            most,
            shown: 0,
            all: 0,
        }
    }

    /// Whether no more rows are held.
    pub fn is_full(&self) -> bool
        ensures { IsTrue result ↔ (self.now.most ≤ self.now.shown) }
    {
        self.most <= self.shown
    }

    /// Counts a row. More than a `u64` counts would not be there in any memory.
    fn count(&mut self) -> Result<(), NoMemory>
        ensures { OnOk result (self.new ≡ record self.old { all = self.old.all + 1 }) }
    {
        let Some(all) = self.all.checked_add(1) else {
            return Err(NoMemory);
        };
        self.all = all;
        Ok(())
    }

    /// Counts a row that is not held.
    pub fn skip(&mut self) -> Result<(), NoMemory>
        requires { self.old.most ≤ self.old.shown }
        ensures { OnOk result ((box : Box) (row : List ℕ) → Adds box (row ∷ []) self.old self.new) }
    {
        self.count()?;
        Ok(())
    }

    /// Adds a row: it is held where there is room, and counted.
    pub fn add(&mut self, tags: Tags<'_>, row: &[u8]) -> Result<(), NoMemory>
        ensures { OnOk result ((box : Box) → tags.entry.begin.now ≡ box.begin → tags.entry.end.now ≡ box.end
            → Adds box (row.now ∷ []) self.old self.new) }
    {
        if self.most <= self.shown {
            self.skip()?;
            return Ok(());
        }
        push_opening(&mut self.text, tags, self.shown)?;
        push(&mut self.text, row)?;
        self.shown += 1;
        self.count()?;
        Ok(())
    }

    /// Appends the rows in their boxes.
    pub fn push_boxed(&self, out: &mut Vec<u8>, tags: Tags<'_>) -> Result<(), NoMemory>
        ensures { OnOk result ((box : Box) (rows : List (List ℕ)) → tags.entry.begin.now ≡ box.begin → tags.entry.end.now ≡ box.end
            → Holds box rows self.now → out.new.items ≡ out.old.items ++ boxed box (take self.now.most rows)) }
    {
        if self.shown == 0 {
            return Ok(());
        }
        push(out, self.text.as_slice())?;
        push(out, tags.end)?;
        Ok(())
    }
}
