//! The lines of a file that is read.
ghost use Rattle.std.specs.Prelude.{◌≡◌, ◌≢◌, ◌≤◌, ◌<◌, ◌+◌, ◌-◌, ◌^◌, ◌++◌, ◌∷◌, length, take, drop, IsTrue, IfOk, IfSome, IfNone, ⊤, false};
ghost use Rattle.io_edge.specs.Files.{StaysSure};
ghost use Rattle.venue_words.specs.Causes.{HasCause, Rose};

use crate::window::{READ_BYTES, buffer_of, line_end, refill};
use io_edge::{Failed, Shelf};
use std::alloc::Global;
use std::marker::Model;
use venue_words::NoMemory;
use venue_words::limits::MAX_LINE_BYTES;

/// The bytes of a reader's buffer: those of the longest line, and behind them those of one read.
const BUFFER_BYTES: usize = MAX_LINE_BYTES + READ_BYTES;

/// What comes next in a file.
#[derive(Clone, Copy, Debug)]
pub enum NextLine<'a> {
    /// The next whole line, without its LF. `is_over` says that it holds the byte that passes the limit.
    Line { text: &'a [u8], is_over: bool },
    /// The file is at its end, and these bytes stand behind its last LF.
    End { rest: &'a [u8] },
    /// The next line has more bytes before its LF, or before the file's end, than a line may have.
    TooLong,
    /// A read failed. What was read before it is kept, and `next` may be called again.
    ReadFault,
}

/// What is held of the next line.
enum Sought {
    Line { len: usize },
    End,
    TooLong,
    ReadFault,
}

/// Hands out the lines of the file that was begun on a shelf, one by one. It holds no more of the file than one line and
/// what one read gave, and takes no memory after `new`.
pub struct LineReader {
    buffer: Vec<u8>,
    start: usize,
    end: usize,
    lines: u32,
    bytes: u64,
    most: u64,
}

// Written out, so that crates above let go of one by this theorem, and not part by part.
impl Drop for LineReader {
    fn drop(self) {
        let LineReader {
            buffer: _,
            start: _,
            end: _,
            lines: _,
            bytes: _,
            most: _,
        } = self;
    }
}

impl Model for LineReader {
    ghost use Rattle.std.specs.Prelude.{length};
    ghost use Rattle.line_reader.specs.Reading.{Reading, reading, IsSound};

    ghost Value = { Reading };

    ghost view = { λ r. reading r.lines r.bytes r.most r.buffer.items r.start r.end };

    ghost invariant = { λ r. IsSound r.lines r.bytes r.most (length r.buffer.items) r.start r.end };
}

impl LineReader {
    ghost use Rattle.std.specs.Borrow.{sem};
    ghost use Rattle.script_text.specs.Lines.{has_end};
    ghost use Rattle.line_reader.specs.Reading.{holds, before_lines, Reads};
    ghost use Rattle.line_reader.specs.NextLines.{Gives, Rests};
    ghost use Rattle.line_reader.specs.Seeking.{Finds, Refills};
    ghost use Rattle.line_reader.specs.contracts.reader.LineReader.{the_row};

    /// Before a file's first line. Bytes are counted from `already` on, since several files may share a limit, and `most` is
    /// the greatest number of them.
    pub fn new(alloc: Global, already: u64, most: u64) -> Result<LineReader, NoMemory>
        requires within { already ≤ most }
        requires most { most < 2 ^ 31 }
        ensures { IfOk result (λ reader. reader ≡ before_lines already most) }
    {
        Ok(LineReader {
            buffer: buffer_of(alloc, BUFFER_BYTES)?,
            start: 0,
            end: 0,
            lines: 0,
            bytes: already,
            most,
        })
    }

    /// How many lines were handed out.
    pub fn lines(&self) -> u32
        ensures lines { result ≡ self.now.lines }
        ensures few { result < 2 ^ 32 - 1 }
    {
        self.lines
    }

    /// How many bytes stand before the next line, from `already` on.
    pub fn bytes(&self) -> u64
        ensures { result ≡ self.now.bytes }
    {
        self.bytes
    }

    /// Where the next line ends in what is held, if it does not end in the first `clear` bytes.
    fn line_end(&self, clear: usize) -> Option<usize>
        requires inside { clear ≤ length self.now.held }
        requires clear { has_end (take clear self.now.held) ≡ false }
        ensures within { IfSome result (λ at. at < length self.now.held) }
        ensures clear { IfSome result (λ at. has_end (take at self.now.held) ≡ false) }
        ensures whole { IfSome result (λ at. self.now.held ≡ take at self.now.held ++ 10 ∷ drop (at + 1) self.now.held) }
        ensures none { IfNone result (has_end self.now.held ≡ false) }
    {
        line_end(&self.buffer[self.start..self.end], clear)
    }

    /// How many bytes are held.
    fn held(&self) -> usize
        ensures { result ≡ length self.now.held }
    {
        self.end - self.start
    }

    /// Reads once more, behind what is held.
    fn refill<H: Shelf>(&mut self, shelf: &mut H) -> Result<usize, Failed>
        requires begun { IsTrue (H.begun shelf.old) }
        requires short { length self.old.held ≤ MAX_LINE_BYTES }
        ensures held { self.new ≡ holds self.old self.new.held }
        ensures size { length self.new.held ≤ BUFFER_BYTES }
        ensures reads { Refills (H.left shelf.old) (H.left shelf.new) self.old.held self.new.held result }
        ensures told { H.told shelf.new ≡ H.told shelf.old }
        ensures begun { IsTrue (H.begun shelf.new) }
        ensures cause { HasCause (H.faults shelf.old) (H.faults shelf.new) result }
        ensures sure { IsTrue (H.sure shelf.old) → StaysSure ⊤
            (H.faults shelf.old) (H.faults shelf.new) (H.sure shelf.new) result }
    {
        let held = self.end - self.start;
        let count = refill(shelf, self.buffer.as_mut_slice(), self.start, self.end);
        self.start = 0;
        self.end = held;
        match count {
            Ok(count) => {
                self.end = held + count;
                Ok(count)
            }
            Err(failed) => Err(failed),
        }
    }

    /// Reads until the next line is held, or it is known that there is none.
    fn seek<H: Shelf>(&mut self, shelf: &mut H) -> Sought
        requires begun { IsTrue (H.begun shelf.old) }
        ensures held { self.new ≡ holds self.old self.new.held }
        ensures reads { Reads (H.left shelf.old) (H.left shelf.new) self.old.held self.new.held }
        ensures finds { Finds self.new.held (H.left shelf.new) result }
        ensures told { H.told shelf.new ≡ H.told shelf.old }
        ensures begun { IsTrue (H.begun shelf.new) }
        ensures later { H.faults shelf.old ≤ H.faults shelf.new }
        ensures fault { result ≡ Sought.ReadFault → Rose (H.faults shelf.old) (H.faults shelf.new) }
        ensures sure { IsTrue (H.sure shelf.old) → IsTrue (H.sure shelf.new) × (result ≢ Sought.ReadFault) }
    {
        let mut clear = 0usize;
        loop {
            if let Some(len) = self.line_end(clear) {
                return if len > MAX_LINE_BYTES {
                    Sought::TooLong
                } else {
                    Sought::Line { len }
                };
            }
            clear = self.held();
            if clear > MAX_LINE_BYTES {
                return Sought::TooLong;
            }
            match self.refill(shelf) {
                Ok(0) => return Sought::End,
                Ok(_) => {}
                Err(_) => return Sought::ReadFault,
            }
        }
    }

    /// The next line of the file that was begun on the shelf, or why there is none. The caller stops at a line that is over.
    pub fn next<H: Shelf>(&mut self, shelf: &mut H) -> NextLine<'_>
        requires begun { IsTrue (H.begun shelf.old) }
        requires within { self.old.bytes ≤ self.old.most }
        ensures* gives { sem 𝓛 (Rests the_row self.entry (λ new.
            Gives self.old (H.left shelf.old) new (H.left shelf.new) result)) }
        ensures told { H.told shelf.new ≡ H.told shelf.old }
        ensures begun { IsTrue (H.begun shelf.new) }
        ensures later { H.faults shelf.old ≤ H.faults shelf.new }
        ensures fault { result ≡ NextLine.ReadFault → Rose (H.faults shelf.old) (H.faults shelf.new) }
        ensures sure { IsTrue (H.sure shelf.old) → IsTrue (H.sure shelf.new) × (result ≢ NextLine.ReadFault) }
    {
        match self.seek(shelf) {
            Sought::Line { len } => {
                let from = self.start;
                self.start = from + len + 1;
                self.lines += 1;
                self.bytes += len as u64 + 1;
                NextLine::Line {
                    text: &self.buffer[from..from + len],
                    is_over: self.most < self.bytes,
                }
            }
            Sought::End => NextLine::End {
                rest: &self.buffer[self.start..self.end],
            },
            Sought::TooLong => NextLine::TooLong,
            Sought::ReadFault => NextLine::ReadFault,
        }
    }
}
