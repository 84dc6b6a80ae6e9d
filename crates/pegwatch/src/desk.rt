//! The venue's desk, which is asked once a second.
use crate::guests::DESK_TOKEN;
use mio::net::{TcpStream, UnixStream};
use mio::{Interest, Registry};
use std::alloc::{AllocError, Global};
use std::io::{self, ErrorKind, Read, Write};
use std::net::{Net, SocketAddr};
use watch_figures::DeskTold;

/// How often the desk is asked, in milliseconds.
const EACH_MILLISECONDS: u64 = 1_000;

/// The most bytes of a line of an answer.
const MAX_LINE_BYTES: usize = 4_096;

/// How many bytes are read at once.
const READ_BYTES: usize = 4_096;

const QUESTION: &[u8] = b"MEMBERS\nSYMBOLS\n";

/// A connection to the desk.
#[derive(Drop)]
enum Wire {
    Tcp(TcpStream),
    Unix(UnixStream),
}

impl Wire {
    /// Connects to a path, where the word holds a `/`, or else to an address.
    fn connect<R: Net>(rt: &R, desk: &str) -> io::Result<Wire> {
        if desk.contains('/') {
            return Ok(Wire::Unix(UnixStream::connect(rt, desk)?));
        }
        match desk.parse::<SocketAddr>() {
            Ok(address) => Ok(Wire::Tcp(TcpStream::connect(rt, address)?)),
            Err(_) => Err(io::Error::from(ErrorKind::InvalidInput)),
        }
    }

    fn register(&mut self, registry: &Registry) -> io::Result<()> {
        let both = Interest::READABLE | Interest::WRITABLE;
        match self {
            Wire::Tcp(stream) => registry.register(stream, DESK_TOKEN, both),
            Wire::Unix(stream) => registry.register(stream, DESK_TOKEN, both),
        }
    }

    fn read(&mut self, room: &mut [u8]) -> io::Result<usize> {
        match self {
            Wire::Tcp(stream) => stream.read(room),
            Wire::Unix(stream) => stream.read(room),
        }
    }

    fn write(&mut self, bytes: &[u8]) -> io::Result<usize> {
        match self {
            Wire::Tcp(stream) => stream.write(bytes),
            Wire::Unix(stream) => stream.write(bytes),
        }
    }
}

/// What the desk tells.
#[derive(Drop)]
pub struct Desk {
    alloc: Global,
    wire: Option<Wire>,
    /// What came of a line that is not yet whole.
    came: Vec<u8>,
    /// What it tells since it was last asked, and what it told before.
    filling: DeskTold,
    told: DeskTold,
    /// Whether something came since it was last asked, and before.
    speaks: bool,
    spoke: bool,
    /// When it was last asked.
    asked: u64,
}

impl Desk {
    pub fn new(alloc: Global) -> Desk {
        Desk {
            alloc,
            wire: None,
            came: Vec::new(alloc),
            filling: DeskTold::new(alloc),
            told: DeskTold::new(alloc),
            speaks: false,
            spoke: false,
            asked: 0,
        }
    }

    /// What it told, where it answers.
    pub fn told(&self) -> Option<&DeskTold> {
        if self.spoke { Some(&self.told) } else { None }
    }

    /// Notes the whole lines that came.
    fn note_lines(&mut self) -> Result<(), AllocError> {
        let mut begin = 0;
        for (place, byte) in self.came.iter().enumerate() {
            if *byte == b'\n' && begin <= place {
                self.filling.note(&self.came[begin..place])?;
                begin = place.saturating_add(1);
            }
        }
        if begin > 0 && begin <= self.came.len() {
            self.came = Vec::from_slice(self.alloc, &self.came[begin..])?;
        }
        if self.came.len() > MAX_LINE_BYTES {
            self.wire = None;
        }
        Ok(())
    }

    /// Reads what the desk says.
    pub fn hear(&mut self) -> Result<(), AllocError> {
        let mut room = [0u8; READ_BYTES];
        for _ in 0..64 {
            let Some(wire) = &mut self.wire else {
                return Ok(());
            };
            match wire.read(&mut room) {
                Ok(0) => self.wire = None,
                Ok(count) => {
                    self.speaks = true;
                    self.came.extend_from_slice(&room[..count.min(READ_BYTES)])?;
                    self.note_lines()?;
                }
                Err(error) if error.kind() == ErrorKind::WouldBlock => return Ok(()),
                Err(_) => self.wire = None,
            }
        }
        Ok(())
    }

    /// What came since the last question is told from now on.
    fn turn(&mut self) {
        std::mem::swap(&mut self.told, &mut self.filling);
        self.filling.clear();
        self.spoke = self.speaks;
        self.speaks = false;
    }

    /// Asks the desk, once a second; connects to it where it is not connected.
    pub fn ask<R: Net>(&mut self, rt: &R, registry: &Registry, desk: &str, now: u64) {
        if desk == "-" || now.saturating_sub(self.asked) < EACH_MILLISECONDS {
            return;
        }
        self.asked = now;
        self.turn();
        if self.wire.is_none() {
            self.came.clear();
            if let Ok(mut wire) = Wire::connect(rt, desk) {
                if wire.register(registry).is_ok() {
                    self.wire = Some(wire);
                }
            }
        }
        // A question that is not taken whole is one that the desk does not understand, and the next one comes in a second.
        if let Some(wire) = &mut self.wire {
            match wire.write(QUESTION) {
                Ok(_) => {}
                Err(error)
                    if error.kind() == ErrorKind::WouldBlock
                        || error.kind() == ErrorKind::NotConnected => {}
                Err(_) => self.wire = None,
            }
        }
    }
}
