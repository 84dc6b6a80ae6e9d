//! An operator's connection: words come in by the line, answers go out.
ghost use Rattle.std.specs.Prelude.{◌≤◌, ◌<◌, length, IfSome};

use crate::connection::Connection;
use crate::door::Stream;
use memchr::memchr;
use ports::Came;
use std::alloc::{AllocError, Global};

/// The most bytes of a line that an operator may write.
const MAX_WORD_BYTES: usize = 16_384;

/// The most bytes of answers that wait for an operator who does not read.
const MAX_ANSWER_BYTES: usize = 1 << 20;

/// How many bytes are read at once.
const READ_BYTES: usize = 4_096;

/// An operator's connection.
#[derive(Drop)]
pub struct Operator {
    alloc: Global,
    connection: Connection,
    /// What came and is not yet a whole line that was handed out; what of it was handed out.
    came: Vec<u8>,
    handed: usize,
    /// How many lines were handed out.
    lines: u64,
    /// What goes out, and how much of it went.
    out: Vec<u8>,
    sent: usize,
    /// He sends no more, so the connection ends once his answers are out.
    over: bool,
    /// It is to be dropped.
    dead: bool,
}

impl Operator {
    pub fn new(alloc: Global, stream: Stream) -> Operator {
        Operator {
            alloc,
            connection: Connection::new(stream),
            came: Vec::new(alloc),
            handed: 0,
            lines: 0,
            out: Vec::new(alloc),
            sent: 0,
            over: false,
            dead: false,
        }
    }

    /// The system told of a change.
    pub fn note(&mut self, readable: bool, writable: bool, ends: bool) {
        self.connection.note(readable, writable, ends);
    }

    /// Whether a word may be there.
    pub fn may_speak(&self) -> bool {
        !self.dead && (self.connection.is_readable() || self.end_of_line().is_some())
    }

    /// Whether nothing more comes of it or goes to it.
    pub fn is_done(&self) -> bool {
        self.dead || self.over && self.sent >= self.out.len() && self.end_of_line().is_none()
    }

    /// Where the next whole line ends.
    fn end_of_line(&self) -> Option<usize>
        ensures { IfSome result (λ end. (self.now.handed ≤ end) × (end < length self.now.came.items)) }
    {
        if self.handed >= self.came.len() {
            return None;
        }
        match memchr(b'\n', &self.came[self.handed..]) {
            Some(count) => Some(self.handed + count),
            None => None,
        }
    }

    /// Lets go of what was handed out.
    fn keep_rest(&mut self) -> Result<(), AllocError> {
        if self.handed > 0 && self.handed <= self.came.len() {
            self.came = Vec::from_slice(self.alloc, &self.came[self.handed..])?;
            self.handed = 0;
        }
        Ok(())
    }

    /// Keeps what came. Of a line that is too long no more is kept than shows that it is.
    fn take(&mut self, came: &[u8]) -> Result<(), AllocError> {
        if self.came.len() <= MAX_WORD_BYTES {
            self.came.extend_from_slice(came)?;
        } else if let Some(end) = memchr(b'\n', came) {
            self.came.extend_from_slice(&came[end..])?;
        }
        Ok(())
    }

    /// How many lines were handed out.
    pub fn lines(&self) -> u64 {
        self.lines
    }

    /// Reads what is there.
    fn fill(&mut self) -> Result<(), AllocError> {
        if self.over || self.dead {
            return Ok(());
        }
        let mut room = [0u8; READ_BYTES];
        match self.connection.read(&mut room) {
            Some(Came::Bytes(count)) => self.take(&room[..count])?,
            Some(Came::Nothing) => {}
            Some(Came::End) => self.over = true,
            None => self.dead = true,
        }
        Ok(())
    }

    /// Lays the next whole line, without its LF, into `line`, and says whether there was one. Of a line that is too long its
    /// beginning is laid there, which is too long as well.
    pub fn word(&mut self, line: &mut Vec<u8>) -> Result<bool, AllocError> {
        if self.end_of_line().is_none() {
            self.keep_rest()?;
            self.fill()?;
        }
        let Some(end) = self.end_of_line() else {
            return Ok(false);
        };
        line.clear();
        line.extend_from_slice(&self.came[self.handed..end])?;
        if line.ends_with(b"\r") {
            let _ = line.pop();
        }
        self.handed = end + 1;
        self.lines = self.lines.saturating_add(1);
        Ok(true)
    }

    /// Answers by whole lines, each with its LF, which wait until `flush`. Who does not read his answers is dropped.
    pub fn answer(&mut self, text: &[u8]) -> Result<(), AllocError> {
        if self.out.len() > MAX_ANSWER_BYTES {
            self.dead = true;
            return Ok(());
        }
        self.out.extend_from_slice(text)
    }

    /// Writes what waits, as far as it is taken.
    pub fn flush(&mut self) {
        if self.dead || self.sent >= self.out.len() {
            return;
        }
        match self.connection.write(&self.out[self.sent..]) {
            Some(count) => self.sent += count,
            None => self.dead = true,
        }
        if self.sent >= self.out.len() {
            self.out.clear();
            self.sent = 0;
        }
    }
}
