//! A connection of somebody who looks.
ghost use Rattle.std.specs.Prelude.{◌≤◌, length};

use mio::net::TcpStream;
use mio::{Interest, Registry, Token};
use std::alloc::{AllocError, Global};
use std::io::{self, ErrorKind, Read, Write};

/// How long a connection may take in all, in milliseconds.
const MOST_MILLISECONDS: u64 = 5_000;

/// The most bytes of a request.
const MAX_REQUEST_BYTES: usize = 8_192;

/// How many bytes are read at once.
const READ_BYTES: usize = 2_048;

/// The most calls of the system in a row for one connection.
const MOST_CALLS: usize = 1_024;

/// A connection: a request comes, and its answer goes.
#[derive(Drop)]
pub struct Guest {
    stream: TcpStream,
    came: Vec<u8>,
    out: Vec<u8>,
    sent: usize,
    /// When it came.
    since: u64,
    answered: bool,
    /// He sends no more.
    over: bool,
    dead: bool,
}

impl Guest {
    pub fn new(alloc: Global, stream: TcpStream, now: u64) -> Guest {
        Guest {
            stream,
            came: Vec::new(alloc),
            out: Vec::new(alloc),
            sent: 0,
            since: now,
            answered: false,
            over: false,
            dead: false,
        }
    }

    /// Has the system tell of changes.
    pub fn register(&mut self, registry: &Registry, token: Token) -> io::Result<()> {
        let both = Interest::READABLE | Interest::WRITABLE;
        registry.register(&mut self.stream, token, both)
    }

    /// Whether it is to be let go: its answer has gone, it failed, or it takes too long.
    pub fn is_done(&self, now: u64) -> bool {
        self.dead
            || self.over && self.came.is_empty()
            || self.answered && self.sent >= self.out.len()
            || now.saturating_sub(self.since) > MOST_MILLISECONDS
    }

    /// The bytes of a request that is not yet answered.
    pub fn request(&self) -> Option<&[u8]> {
        if self.answered || self.dead || self.came.is_empty() {
            return None;
        }
        Some(&self.came)
    }

    /// Reads what is there. Whose request is too long is disconnected.
    pub fn read(&mut self) -> Result<(), AllocError> {
        let mut room = [0u8; READ_BYTES];
        for _ in 0..MOST_CALLS {
            if self.answered || self.over || self.dead || self.came.len() >= MAX_REQUEST_BYTES {
                break;
            }
            match self.stream.read(&mut room) {
                Ok(0) => self.over = true,
                Ok(count) => {
                    let count = count.min(READ_BYTES);
                    self.came.extend_from_slice(&room[..count])?;
                }
                Err(error) if error.kind() == ErrorKind::WouldBlock => return Ok(()),
                Err(_) => self.dead = true,
            }
        }
        if !self.answered && self.came.len() >= MAX_REQUEST_BYTES {
            self.dead = true;
        }
        Ok(())
    }

    /// Answers by these bytes.
    pub fn answer(&mut self, head: &[u8], body: &[u8]) -> Result<(), AllocError> {
        self.out.extend_from_slice(head)?;
        self.out.extend_from_slice(body)?;
        self.answered = true;
        Ok(())
    }

    /// Writes what waits, as far as it is taken.
    pub fn write(&mut self) {
        for _ in 0..MOST_CALLS {
            if self.dead || self.sent >= self.out.len() {
                return;
            }
            match self.stream.write(&self.out[self.sent..]) {
                Ok(0) => self.dead = true,
                Ok(count) => self.sent = self.sent.saturating_add(count),
                Err(error) if error.kind() == ErrorKind::WouldBlock => return,
                Err(_) => self.dead = true,
            }
        }
    }
}
