//! A connection, and what is known of its readiness.
ghost use Rattle.std.specs.Prelude.{◌≤◌, length, IfSome};
ghost use Rattle.socket_ports.specs.Reads.{IsWithin};

use crate::door::{Moved, Stream};
use ports::Came;
use std::net::SocketAddr;

/// A connection. The system tells only of changes, so what it told stands until a call finds nothing.
#[derive(Drop)]
pub struct Connection {
    stream: Stream,
    readable: bool,
    writable: bool,
    /// The other side has said that it sends no more, so that a short read is not the last word.
    ends: bool,
}

impl Connection {
    pub fn new(stream: Stream) -> Connection {
        Connection {
            stream,
            readable: true,
            writable: true,
            ends: false,
        }
    }

    /// The address that it came from, if it came from one.
    pub fn address(&self) -> Option<SocketAddr> {
        self.stream.address()
    }

    /// The system told of a change.
    pub fn note(&mut self, readable: bool, writable: bool, ends: bool) {
        self.readable = self.readable || readable || ends;
        self.writable = self.writable || writable;
        self.ends = self.ends || ends;
    }

    /// Whether a read may find something.
    pub fn is_readable(&self) -> bool {
        self.readable
    }

    /// Reads what is there, up to the room; none where the call failed.
    pub fn read(&mut self, room: &mut [u8]) -> Option<Came>
        ensures within { IfSome result (λ came. IsWithin came room.new) }
    {
        if !self.readable {
            return Some(Came::Nothing);
        }
        match self.stream.read(room) {
            Moved::Bytes(0) => Some(Came::End),
            Moved::Bytes(count) => {
                self.readable = self.ends || count >= room.len();
                Some(Came::Bytes(count.min(room.len())))
            }
            Moved::Nothing => {
                self.readable = false;
                Some(Came::Nothing)
            }
            Moved::Failed => None,
        }
    }

    /// Writes a beginning of these bytes, and answers how long it was; none where the call failed.
    pub fn write(&mut self, bytes: &[u8]) -> Option<usize>
        ensures within { IfSome result (λ count. count ≤ length bytes.now) }
    {
        if !self.writable || bytes.is_empty() {
            return Some(0);
        }
        match self.stream.write(bytes) {
            Moved::Bytes(count) => {
                self.writable = count >= bytes.len();
                Some(count.min(bytes.len()))
            }
            Moved::Nothing => {
                self.writable = false;
                Some(0)
            }
            Moved::Failed => None,
        }
    }
}
