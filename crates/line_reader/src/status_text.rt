//! A short text that takes no memory.
ghost use Rattle.std.specs.Prelude.{◌≡◌, ◌≤◌, ◌+◌, ◌++◌, ◌∷◌, [], ◌↔◌, IsTrue, length, decimal};
ghost use Rattle.io_edge.specs.Grows.{Puts};
ghost use Rattle.venue_words.specs.Causes.{HasCause};

use io_edge::{Failed, Sink};
use itoa::Buffer;
use std::fmt;
use std::marker::Model;
use std::str::from_utf8;

/// The most bytes of a status's text, with the program's name.
pub const MAX_STATUS_BYTES: usize = 128;

/// What is told of a status, laid on the stack piece by piece.
#[derive(Drop)]
pub struct StatusText {
    bytes: [u8; 129],
    len: usize,
}

impl Model for StatusText {
    ghost use Rattle.std.specs.Prelude.{List, ℕ, ◌≤◌, take};

    ghost Value = { List ℕ };

    ghost view = { λ t. take t.len t.bytes };

    ghost invariant = { λ t. t.len ≤ 128 };
}

impl StatusText {
    /// Without a byte.
    pub fn new() -> StatusText
        ensures { result ≡ [] }
    {
        StatusText {
            bytes: [0; 129],
            len: 0,
        }
    }

    /// How many bytes it has.
    pub fn len(&self) -> usize
        ensures { result ≡ length self.now }
    {
        self.len
    }

    /// Whether it has no byte.
    pub fn is_empty(&self) -> bool
        ensures { IsTrue result ↔ (self.now ≡ []) }
    {
        self.len == 0
    }

    /// Appends some bytes.
    pub fn push(&mut self, bytes: &[u8])
        requires { length self.old + length bytes.now ≤ MAX_STATUS_BYTES }
        ensures bytes { self.new ≡ self.old ++ bytes.now }
        ensures size { length self.new ≡ length self.old + length bytes.now }
    {
        let end = self.len + bytes.len();
        self.bytes[self.len..end].copy_from_slice(bytes);
        self.len = end;
    }

    /// Appends a number in digits, of which there are at most 20.
    pub fn push_number(&mut self, number: u64)
        requires { length self.old + 20 ≤ MAX_STATUS_BYTES }
        ensures digits { self.new ≡ self.old ++ decimal number }
        ensures size { length self.new ≤ length self.old + 20 }
    {
        let mut buffer = Buffer::new();
        self.push(buffer.format(number).as_bytes());
    }

    /// Puts the text and an LF.
    pub(crate) fn put_line<E: Sink>(self, err: &mut E) -> Result<(), Failed>
        ensures bytes { Puts (E.told err.old) (E.told err.new) result (self ++ 10 ∷ []) }
        ensures cause { HasCause (E.faults err.old) (E.faults err.new) result }
    {
        let StatusText { mut bytes, len } = self;
        bytes[len] = b'\n';
        err.put(&bytes[..len + 1])
    }
}

impl fmt::Display for StatusText {
    ghost use Rattle.std.specs.Prelude.{Some};

    ghost output = { λ text. Some text };

    fn fmt<W: fmt::Write>(&self, f: &mut fmt::Formatter<W>) -> fmt::Result {
        match from_utf8(&self.bytes[..self.len]) {
            Ok(text) => f.write_str(text),
            Err(_) => Err(fmt::Error),
        }
    }
}
