//! Files and streams of the system, over any files and any writer: what these tell of their bytes is told on. What the
//! system's own hold is told nowhere.
ghost use Rattle.std.specs.Prelude.{◌≡◌, ◌≤◌, ◌<◌, ℕ, [], None, false, length, take, is_some, option_and_then, IfOk, MatchResult};
ghost use Rattle.std.specs.Io.KnownBytes.{Appends};
ghost use Rattle.venue_words.specs.Causes.{HasCause, Rose};
ghost use Rattle.io_edge.specs.Grows.{AppendsPrefix};

use crate::edge::{Failed, Shelf, Sink};
use std::fs;
use std::io::{Read, Write};
use std::rt::Files;

/// The files of the system. It tells nothing of what they hold; of an open file it tells what is left as far as the file does.
#[derive(Drop)]
pub struct FileShelf<'a, R: Files> {
    rt: &'a R,
    file: Option<R::File>,
    faults: u64,
}

impl<'a, R: Files> FileShelf<'a, R> {
    /// Over the files of the system; none is open.
    pub fn new(rt: &'a R) -> FileShelf<'a, R>
        ensures shut { ⟦<FileShelf<'a, R> as Shelf>⟧.begun result ≡ false }
        ensures faults { ⟦<FileShelf<'a, R> as Shelf>⟧.faults result ≡ 0 }
    {
        FileShelf {
            rt,
            file: None,
            faults: 0,
        }
    }

    fn fail(&mut self) -> Failed
        ensures later { self.old.faults ≤ self.new.faults }
        ensures rose { Rose self.old.faults self.new.faults }
        ensures same { self.new ≡ record self.old { faults = self.new.faults } }
    {
        self.faults = self.faults.saturating_add(1);
        Failed
    }
}

impl<'a, R: Files> Shelf for FileShelf<'a, R> {
    ghost faults = { λ s. s.faults };

    ghost told = { λ _. None };

    ghost left = { λ s. option_and_then (λ file. R.File.remaining file) s.file };

    ghost begun = { λ s. is_some s.file };

    ghost sure = { λ _. false };

    fn begin(&mut self, name: &str) -> Result<(), Failed> {
        self.file = None;
        match fs::open(self.rt, name) {
            Ok(file) => {
                self.file = Some(file);
                Ok(())
            }
            Err(_) => Err(self.fail()),
        }
    }

    fn pull(&mut self, buffer: &mut [u8]) -> Result<usize, Failed> {
        let count = match &mut self.file {
            Some(file) => file.read(buffer),
            None => return Ok(0),
        };
        match count {
            Ok(count) => Ok(count),
            Err(_) => Err(self.fail()),
        }
    }
}

/// A stream of the system, to which each piece is written at once. It tells what it has as far as the writer does.
#[derive(Drop)]
pub struct StreamSink<W: Write> {
    inner: W,
    faults: u64,
}

impl<W: Write> StreamSink<W> {
    /// Over a stream of the system, as standard output.
    pub fn new(inner: W) -> StreamSink<W>
        ensures told { ⟦<StreamSink<W> as Sink>⟧.told result ≡ W.contents inner }
        ensures faults { ⟦<StreamSink<W> as Sink>⟧.faults result ≡ 0 }
    {
        StreamSink { inner, faults: 0 }
    }

    /// Writes the front of the piece, and says how much that is.
    fn put_some(&mut self, piece: &[u8]) -> Result<usize, Failed>
        ensures cause { HasCause self.old.faults self.new.faults result }
        ensures count { IfOk result (λ n. (0 < n) × (n ≤ length piece.now)) }
        ensures bytes { MatchResult result
            (λ n. Appends (W.contents self.old.inner) (W.contents self.new.inner) (take n piece.now))
            (λ _. AppendsPrefix (W.contents self.old.inner) (W.contents self.new.inner) piece.now) }
    {
        match self.inner.write(piece) {
            Ok(count) if 0 < count && count <= piece.len() => Ok(count),
            _ => {
                self.faults = self.faults.saturating_add(1);
                Err(Failed)
            }
        }
    }
}

impl<W: Write> Sink for StreamSink<W> {
    ghost faults = { λ s. s.faults };

    ghost told = { λ s. W.contents s.inner };

    ghost waiting = { λ _. [] };

    fn put(&mut self, piece: &[u8]) -> Result<(), Failed> {
        let mut done = 0usize;
        while done < piece.len() {
            done += self.put_some(&piece[done..])?;
        }
        Ok(())
    }

    fn flush(&mut self) -> Result<(), Failed> {
        Ok(())
    }
}
