//! The outside in memory, for tests and for programs that hold their input.
ghost use Rattle.std.specs.Prelude.{◌≡◌, ◌<◌, ◌≤◌, ◌+◌, ◌-◌, ◌^◌, ◌==◌, ◌++◌, ℕ, Bool, true, false, List, Some, None, [], length, take, drop, min, vec_len, IsTrue, IsSome, IfSome, MatchOption, slice_get, is_some};
ghost use Rattle.venue_words.specs.Causes.{HasCause, Rose};
ghost use Rattle.std.specs.Io.KnownBytes.{Consumes, IsAtEnd};
ghost use Rattle.io_edge.specs.Files.{Files, file_named};
ghost use Rattle.io_edge.specs.Memory.{files_of, left_at, IsFileAt};

use crate::calls::Calls;
use crate::edge::{Failed, Shelf, Sink};
use std::alloc::Global;

/// The place of the first file of this name.
fn place_of(files: &[(String, Vec<u8>)], name: &str) -> Option<usize>
    ensures { IsFileAt files.now name.now result }
{
    for (k, file) in files.iter().enumerate() {
        if file.0.as_str() == name {
            return Some(k);
        }
    }
    None
}

/// Fills the front of the buffer with the bytes from a place on, at most so many.
fn fill(buffer: &mut [u8], bytes: &[u8], at: usize, most: usize) -> usize
    requires room { 0 < length buffer.old }
    requires most { 0 < most }
    ensures bound { result ≤ length buffer.new }
    ensures bytes { drop at bytes.now ≡ take result buffer.new ++ drop (at + result) bytes.now }
    ensures end { result ≡ 0 → drop at bytes.now ≡ [] }
    ensures inside { at + result < 2 ^ 64 }
{
    if at >= bytes.len() {
        return 0;
    }
    let count = (bytes.len() - at).min(most).min(buffer.len());
    buffer[..count].copy_from_slice(&bytes[at..at + count]);
    count
}

/// Files in memory.
#[derive(Drop)]
struct Stock {
    files: Vec<(String, Vec<u8>)>,
    piece: usize,
    file: Option<usize>,
    at: usize,
    ghost some_at_once: { 0 < piece },
}

impl Stock {
    fn new(files: Vec<(String, Vec<u8>)>, piece: usize) -> Stock
        requires { 0 < piece }
        ensures { result.files ≡ files }
    {
        Stock {
            files,
            piece,
            file: None,
            at: 0,
        }
    }

    fn close(&mut self)
        ensures { self.new ≡ record self.old { file = None } }
    {
        self.file = None;
    }

    fn begin(&mut self, name: &str) -> bool
        ensures files { self.new.files ≡ self.old.files }
        ensures begun { IsTrue result → IsTrue (is_some self.new.file) }
        ensures opens { IsTrue result → left_at self.new.files.items self.new.file self.new.at
            ≡ file_named (files_of self.old.files.items) name.now }
        ensures closed { result ≡ false → self.new.file ≡ None }
        ensures there { result ≡ is_some (file_named (files_of self.old.files.items) name.now) }
    {
        let found = place_of(&self.files, name);
        if found.is_some() {
            self.file = found;
            self.at = 0;
            true
        } else {
            self.file = None;
            false
        }
    }

    fn pull(&mut self, buffer: &mut [u8]) -> usize
        requires { 0 < length buffer.old }
        ensures files { self.new.files ≡ self.old.files }
        ensures file { self.new.file ≡ self.old.file }
        ensures bound { result ≤ length buffer.new }
        ensures bytes { Consumes (left_at self.old.files.items self.old.file self.old.at)
            (left_at self.new.files.items self.new.file self.new.at) (take result buffer.new) }
        ensures end { result ≡ 0 → IsAtEnd (left_at self.new.files.items self.new.file self.new.at) }
    {
        let Some(place) = self.file else {
            return 0;
        };
        if place >= self.files.len() {
            return 0;
        }
        let count = fill(buffer, self.files[place].1.as_slice(), self.at, self.piece);
        self.at += count;
        count
    }
}

/// Files in memory, with calls that fail where their numbers are listed, counted from 1.
#[derive(Drop)]
pub struct MemShelf {
    stock: Stock,
    calls: Calls,
}

impl MemShelf {
    /// `piece` is the most that one pull gives.
    pub fn new(files: Vec<(String, Vec<u8>)>, piece: usize, fails: Vec<u64>) -> MemShelf
        requires { 0 < piece }
        ensures told { ⟦<MemShelf as Shelf>⟧.told result ≡ Some (files_of files.items) }
        ensures faults { ⟦<MemShelf as Shelf>⟧.faults result ≡ 0 }
    {
        MemShelf {
            stock: Stock::new(files, piece),
            calls: Calls::new(fails),
        }
    }
}

impl Shelf for MemShelf {
    ghost faults = { λ s. s.calls.faults };

    ghost told = { λ s. Some (files_of s.stock.files.items) };

    ghost left = { λ s. left_at s.stock.files.items s.stock.file s.stock.at };

    ghost begun = { λ s. is_some s.stock.file };

    ghost sure = { λ _. false };

    fn begin(&mut self, name: &str) -> Result<(), Failed> {
        self.stock.close();
        self.calls.call()?;
        if self.stock.begin(name) {
            Ok(())
        } else {
            Err(self.calls.fail())
        }
    }

    fn pull(&mut self, buffer: &mut [u8]) -> Result<usize, Failed> {
        self.calls.call()?;
        Ok(self.stock.pull(buffer))
    }
}

/// Files in memory that are always read.
#[derive(Drop)]
pub struct SureShelf {
    stock: Stock,
    faults: u64,
}

impl SureShelf {
    /// `piece` is the most that one pull gives.
    pub fn new(files: Vec<(String, Vec<u8>)>, piece: usize) -> SureShelf
        requires { 0 < piece }
        ensures told { ⟦<SureShelf as Shelf>⟧.told result ≡ Some (files_of files.items) }
        ensures sure { ⟦<SureShelf as Shelf>⟧.sure result ≡ true }
        ensures faults { ⟦<SureShelf as Shelf>⟧.faults result ≡ 0 }
    {
        SureShelf {
            stock: Stock::new(files, piece),
            faults: 0,
        }
    }
}

impl Shelf for SureShelf {
    ghost faults = { λ s. s.faults };

    ghost told = { λ s. Some (files_of s.stock.files.items) };

    ghost left = { λ s. left_at s.stock.files.items s.stock.file s.stock.at };

    ghost begun = { λ s. is_some s.stock.file };

    ghost sure = { λ _. true };

    fn begin(&mut self, name: &str) -> Result<(), Failed> {
        if self.stock.begin(name) {
            return Ok(());
        }
        self.faults = self.faults.saturating_add(1);
        Err(Failed)
    }

    fn pull(&mut self, buffer: &mut [u8]) -> Result<usize, Failed> {
        Ok(self.stock.pull(buffer))
    }
}

/// Keeps what was put, with calls that fail where their numbers are listed, counted from 1.
#[derive(Drop)]
pub struct MemSink {
    bytes: Vec<u8>,
    calls: Calls,
}

impl MemSink {
    /// Nothing was put yet. Want of memory counts as a fault.
    pub fn new(alloc: Global, fails: Vec<u64>) -> MemSink
        ensures told { ⟦<MemSink as Sink>⟧.told result ≡ Some [] }
        ensures faults { ⟦<MemSink as Sink>⟧.faults result ≡ 0 }
    {
        MemSink {
            bytes: Vec::new(alloc),
            calls: Calls::new(fails),
        }
    }

    /// What was put.
    pub fn bytes(&self) -> &[u8]
        ensures { ⟦<MemSink as Sink>⟧.told self.now ≡ Some result.now }
    {
        self.bytes.as_slice()
    }
}

impl Sink for MemSink {
    ghost faults = { λ s. s.calls.faults };

    ghost told = { λ s. Some s.bytes.items };

    ghost waiting = { λ _. [] };

    fn put(&mut self, piece: &[u8]) -> Result<(), Failed> {
        self.calls.call()?;
        if self.bytes.extend_from_slice(piece).is_err() {
            return Err(self.calls.fail());
        }
        Ok(())
    }

    fn flush(&mut self) -> Result<(), Failed> {
        self.calls.call()
    }
}

/// Takes all bytes and keeps none.
#[derive(Clone, Copy, Debug)]
pub struct SureSink;

impl SureSink {
    /// A sink that never fails.
    pub fn new() -> SureSink
        ensures { ⟦<SureSink as Sink>⟧.faults result ≡ 0 }
    {
        SureSink
    }
}

impl Sink for SureSink {
    ghost faults = { λ _. 0 };

    ghost told = { λ _. None };

    ghost waiting = { λ _. [] };

    fn put(&mut self, _piece: &[u8]) -> Result<(), Failed> {
        Ok(())
    }

    fn flush(&mut self) -> Result<(), Failed> {
        Ok(())
    }
}
