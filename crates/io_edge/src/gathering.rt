//! A stream of the system that is written in large pieces.
ghost use Rattle.std.specs.Prelude.{◌≡◌, ◌≤◌, ◌+◌, ◌++◌, [], length, IfOk, OnOk, None, vec_capacity, vec_len};
ghost use Rattle.std.specs.Io.KnownBytes.{Appends};
ghost use Rattle.venue_words.specs.Causes.{HasCause};
ghost use Rattle.io_edge.specs.Gathering.{bytes_in_all, bytes_waiting, bytes_written};
ghost use Rattle.io_edge.specs.Grows.{Puts};

use crate::adapters::StreamSink;
use crate::edge::{Failed, Sink};
use std::alloc::{AllocError, Global};
use std::io::Write;

/// The room for what is gathered, in bytes.
const ROOM: usize = 65_536;

/// A stream of the system, to which small pieces are written together. As a sink it tells nothing of what it has, since a
/// failed put may lose bytes that waited; its own clauses say what its calls do to the bytes of a writer that tells them. At the
/// end only `flush` writes what still waits; a sink that is dropped without it loses that.
#[derive(Drop)]
pub struct GatheringSink<W: Write> {
    stream: StreamSink<W>,
    gathered: Vec<u8>,
}

impl<W: Write + Drop> GatheringSink<W> {
    /// Over a stream of the system, as standard output. The room of 65,536 bytes is taken here and never grows.
    pub fn new(alloc: Global, inner: W) -> Result<GatheringSink<W>, AllocError>
        ensures empty { IfOk result (λ sink. ⟦<GatheringSink<W> as Sink>⟧.waiting sink ≡ []) }
        ensures written { IfOk result (λ sink. bytes_written W.contents sink ≡ W.contents inner) }
        ensures faults { IfOk result (λ sink. ⟦<GatheringSink<W> as Sink>⟧.faults sink ≡ 0) }
    {
        let gathered = Vec::with_capacity(alloc, ROOM)?;
        Ok(GatheringSink {
            stream: StreamSink::new(inner),
            gathered,
        })
    }
}

impl<W: Write> GatheringSink<W> {
    /// Appends a piece for which there is room.
    fn gather(&mut self, piece: &[u8])
        requires room { vec_len self.old.gathered + length piece.now ≤ vec_capacity self.old.gathered }
        ensures stream { self.new.stream ≡ self.old.stream }
        ensures gathered { self.new.gathered.items ≡ self.old.gathered.items ++ piece.now }
    {
        let Ok(()) = self.gathered.extend_from_slice(piece) else {
            unreachable!()
        };
    }

    /// Writes what was gathered. Where that fails it is dropped, so that nothing is written twice.
    fn write_gathered(&mut self) -> Result<(), Failed>
        ensures empty { self.new.gathered.items ≡ [] }
        ensures room { vec_len self.new.gathered ≡ 0 }
        ensures wrote { Puts (bytes_written W.contents self.old) (bytes_written W.contents self.new) result (bytes_waiting self.old) }
        ensures cause { HasCause (⟦<StreamSink<W> as Sink>⟧.faults self.old.stream) (⟦<StreamSink<W> as Sink>⟧.faults self.new.stream) result }
    {
        let written = self.stream.put(self.gathered.as_slice());
        self.gathered.clear();
        written
    }
}

impl<W: Write> Sink for GatheringSink<W> {
    ghost faults = { λ s. ⟦<StreamSink<W> as Sink>⟧.faults s.stream };

    ghost told = { λ _. None };

    ghost waiting = { λ s. s.gathered.items };

    /// Where it succeeds, the bytes of the writer and those that wait grew by the piece.
    fn put(&mut self, piece: &[u8]) -> Result<(), Failed>
        ensures kept { OnOk result (Appends (bytes_in_all W.contents self.old) (bytes_in_all W.contents self.new) piece.now) }
        ensures bytes { Puts (⟦<GatheringSink<W> as Sink>⟧.told self.old) (⟦<GatheringSink<W> as Sink>⟧.told self.new) result piece.now }
        ensures cause { HasCause (⟦<GatheringSink<W> as Sink>⟧.faults self.old) (⟦<GatheringSink<W> as Sink>⟧.faults self.new) result }
    {
        if piece.len() <= self.gathered.capacity() - self.gathered.len() {
            self.gather(piece);
            return Ok(());
        }
        self.write_gathered()?;
        if piece.len() > self.gathered.capacity() {
            return self.stream.put(piece);
        }
        self.gather(piece);
        Ok(())
    }

    /// The bytes of the writer grew by those that waited, or where it fails by a prefix of them.
    fn flush(&mut self) -> Result<(), Failed>
        ensures wrote { Puts (bytes_written W.contents self.old) (bytes_written W.contents self.new) result (bytes_waiting self.old) }
        ensures told { ⟦<GatheringSink<W> as Sink>⟧.told self.new ≡ ⟦<GatheringSink<W> as Sink>⟧.told self.old }
        ensures written { OnOk result (⟦<GatheringSink<W> as Sink>⟧.waiting self.new ≡ []) }
        ensures cause { HasCause (⟦<GatheringSink<W> as Sink>⟧.faults self.old) (⟦<GatheringSink<W> as Sink>⟧.faults self.new) result }
    {
        self.write_gathered()
    }
}
