//! The connection to the desk, which takes lines and may answer each by a line. It is the trusted edge: nothing is claimed of what
//! the desk does.
ghost use Rattle.std.specs.Prelude.{◌≡◌, ◌≤◌, [], None};
ghost use Rattle.venue_words.specs.Causes.{Rose};

use crate::log::Log;
use crate::source::patience;
use io_edge::{Failed, Sink};
use std::alloc::{AllocError, Global};
use std::io::{self, ErrorKind, Read, Write};
use std::net::{TcpStream, ToSocketAddrs};
use std::os::unix::net::UnixStream;

/// What a good line is answered.
const GOOD: &[u8] = b"OK";

/// How many bytes of lines wait for their answers, at most: a desk that answers nothing only takes lines.
const MAX_WAITING: usize = 1 << 20;

/// How many bytes of answers are read at once.
const READ_BYTES: usize = 4_096;

/// Where lines go.
#[derive(Drop)]
enum Stream {
    Unix(UnixStream),
    Tcp(TcpStream),
    /// Standard output, which answers nothing.
    Output,
}

/// A desk.
#[derive(Drop)]
pub struct Desk<'a> {
    rt: &'a HostRuntime,
    log: Log<'a>,
    stream: Stream,
    /// The lines that were not answered yet.
    waiting: Vec<u8>,
    /// What came of an answer.
    came: Vec<u8>,
    faults: u64,
}

/// The first line of a text without its LF, and what comes after it.
fn first_line(text: &[u8]) -> Option<(&[u8], &[u8])> {
    let end = text.iter().position(|byte| *byte == b'\n')?;
    let line = text.get(..end)?;
    let rest = text.get(end + 1..)?;
    Some((line, rest))
}

/// What is left of answers and of the lines that wait for them.
#[derive(Drop)]
struct Left {
    came: Vec<u8>,
    waiting: Vec<u8>,
}

/// Tells each answer that is whole and says that a line is bad, with the line, and gives what is left.
fn tell_answers(
    alloc: Global,
    log: &mut Log<'_>,
    came: &[u8],
    waiting: &[u8],
) -> Result<Left, AllocError> {
    let mut answers = came;
    let mut lines = waiting;
    for _answer in 0..came.len() {
        let Some((answer, rest)) = first_line(answers) else {
            break;
        };
        answers = rest;
        let mut line = b"?".as_slice();
        if let Some((first, rest)) = first_line(lines) {
            line = first;
            lines = rest;
        }
        if answer == GOOD {
            continue;
        }
        if let (Ok(line), Ok(answer)) = (str::from_utf8(line), str::from_utf8(answer)) {
            let text = format!(in alloc; "desk-refused line=\"{line}\" answer=\"{answer}\"")?;
            log.tell(text.as_str());
        }
    }
    Ok(Left {
        came: Vec::from_slice(alloc, answers)?,
        waiting: Vec::from_slice(alloc, lines)?,
    })
}

impl<'a> Desk<'a> {
    /// Connects to the desk that a word names.
    pub fn connect(rt: &'a HostRuntime, word: &str) -> io::Result<Desk<'a>> {
        Ok(Desk {
            rt,
            log: Log::new(rt),
            stream: Desk::stream_to(rt, word)?,
            waiting: Vec::new(rt.alloc()),
            came: Vec::new(rt.alloc()),
            faults: 0,
        })
    }

    fn stream_to(rt: &HostRuntime, word: &str) -> io::Result<Stream> {
        if word == "-" {
            return Ok(Stream::Output);
        }
        if word.contains('/') {
            let stream = UnixStream::connect(rt, word)?;
            stream.set_write_timeout(Some(patience()))?;
            return Ok(Stream::Unix(stream));
        }
        let mut last = io::Error::from(ErrorKind::NotFound);
        for address in word.to_socket_addrs(rt)? {
            match TcpStream::connect_timeout(rt, &address, patience()) {
                Ok(stream) => {
                    stream.set_nodelay(true)?;
                    stream.set_write_timeout(Some(patience()))?;
                    return Ok(Stream::Tcp(stream));
                }
                Err(error) => last = error,
            }
        }
        Err(last)
    }

    fn fail(&mut self) -> Failed
        ensures later { self.old.faults ≤ self.new.faults }
        ensures rose { Rose self.old.faults self.new.faults }
    {
        self.faults = self.faults.saturating_add(1);
        Failed
    }

    /// Writes lines, and keeps them until they are answered.
    fn write(&mut self, piece: &[u8]) -> io::Result<()>
        ensures faults { self.new.faults ≡ self.old.faults }
    {
        match &mut self.stream {
            Stream::Unix(stream) => stream.write_all(piece)?,
            Stream::Tcp(stream) => stream.write_all(piece)?,
            Stream::Output => return self.rt.stdout().write_all(piece),
        }
        if self.waiting.len() > MAX_WAITING {
            self.waiting.clear();
        }
        self.waiting.extend_from_slice(piece)?;
        Ok(())
    }

    /// Reads the answers that are there, without waiting.
    fn read(&mut self) -> io::Result<()>
        ensures faults { self.new.faults ≡ self.old.faults }
    {
        let mut room = [0u8; READ_BYTES];
        let read = match &mut self.stream {
            Stream::Unix(stream) => {
                stream.set_nonblocking(true)?;
                let read = stream.read(&mut room);
                stream.set_nonblocking(false)?;
                read
            }
            Stream::Tcp(stream) => {
                stream.set_nonblocking(true)?;
                let read = stream.read(&mut room);
                stream.set_nonblocking(false)?;
                read
            }
            Stream::Output => return Ok(()),
        };
        match read {
            Ok(0) => Err(io::Error::from(ErrorKind::UnexpectedEof)),
            Ok(count) => {
                self.came.extend_from_slice(&room[..count.min(READ_BYTES)])?;
                let alloc = self.rt.alloc();
                let left = tell_answers(alloc, &mut self.log, &self.came, &self.waiting)?;
                self.came = left.came;
                self.waiting = left.waiting;
                Ok(())
            }
            Err(error) => match error.kind() {
                ErrorKind::WouldBlock | ErrorKind::Interrupted => Ok(()),
                _ => Err(error),
            },
        }
    }
}

impl<'a> Sink for Desk<'a> {
    ghost faults = { λ s. s.faults };

    ghost told = { λ _. None };

    ghost waiting = { λ _. [] };

    fn put(&mut self, piece: &[u8]) -> Result<(), Failed> {
        if !piece.is_empty() && self.write(piece).is_err() {
            return Err(self.fail());
        }
        match self.read() {
            Ok(()) => Ok(()),
            Err(_) => Err(self.fail()),
        }
    }

    fn flush(&mut self) -> Result<(), Failed> {
        Ok(())
    }
}
