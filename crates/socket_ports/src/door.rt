//! Where connections are let in.
use mio::net::{TcpListener, TcpStream, UnixListener, UnixStream};
use mio::{Interest, Registry, Token};
use std::fs::{Files, Permissions};
use std::io::{self, ErrorKind, Read, Write};
use std::net::{Net, SocketAddr};
use std::os::unix::fs::PermissionsExt;
use std::{fmt, fs};

/// Who may open a Unix socket: its owner alone.
const OWNER_ALONE: u32 = 0o600;

/// Why a door is not open.
#[derive(Debug, Drop)]
pub enum DoorFault {
    /// The word is neither an address, as `127.0.0.1:7001`, nor a path, which holds a `/`.
    NoAddress,
    /// The system refused it, for this reason.
    System(io::Error),
}

impl fmt::Display for DoorFault {
    fn fmt<W: fmt::Write>(&self, f: &mut fmt::Formatter<W>) -> fmt::Result {
        match self {
            DoorFault::NoAddress => {
                f.write_str("neither an address, as 127.0.0.1:7001, nor a path, which holds a /")
            }
            DoorFault::System(error) => write!(f, "{error}"),
        }
    }
}

/// A listening socket.
#[derive(Drop)]
pub enum Door {
    Tcp(TcpListener),
    Unix(UnixListener),
}

/// A connection that came in by a door.
#[derive(Drop)]
pub enum Stream {
    Tcp(TcpStream, SocketAddr),
    Unix(UnixStream),
}

/// What a read or a write of a stream came to.
pub enum Moved {
    /// So many bytes; none where the other side sends no more.
    Bytes(usize),
    /// It would have to wait.
    Nothing,
    Failed,
}

impl Door {
    /// Listens at the address that a word says.
    pub fn at_address<R: Net>(rt: &R, address: &str) -> Result<Door, DoorFault> {
        match address.parse::<SocketAddr>() {
            Ok(address) => Door::listen(rt, address),
            Err(_) => Err(DoorFault::NoAddress),
        }
    }

    /// Listens at an address.
    pub fn listen<R: Net>(rt: &R, address: SocketAddr) -> Result<Door, DoorFault> {
        match TcpListener::bind(rt, address) {
            Ok(listener) => Ok(Door::Tcp(listener)),
            Err(error) => Err(DoorFault::System(error)),
        }
    }

    /// Listens at a Unix socket of this path, which its owner alone may open. One that was left over is taken away first.
    pub fn at_path<R: Net + Files>(rt: &R, path: &str) -> Result<Door, DoorFault> {
        match Door::bind_path(rt, path) {
            Ok(door) => Ok(door),
            Err(error) => Err(DoorFault::System(error)),
        }
    }

    fn bind_path<R: Net + Files>(rt: &R, path: &str) -> io::Result<Door> {
        match fs::remove_file(rt, path) {
            Ok(()) => {}
            Err(error) if error.kind() == ErrorKind::NotFound => {}
            Err(error) => return Err(error),
        }
        let listener = UnixListener::bind(rt, path)?;
        fs::set_permissions(rt, path, Permissions::from_mode(OWNER_ALONE))?;
        Ok(Door::Unix(listener))
    }

    /// Listens at a path, where the word holds a `/`, or else at an address.
    pub fn at<R: Net + Files>(rt: &R, word: &str) -> Result<Door, DoorFault> {
        if word.contains('/') {
            Door::at_path(rt, word)
        } else {
            Door::at_address(rt, word)
        }
    }

    /// Has the system tell when a connection asks.
    pub(crate) fn register(&mut self, registry: &Registry, token: Token) -> io::Result<()> {
        match self {
            Door::Tcp(listener) => registry.register(listener, token, Interest::READABLE),
            Door::Unix(listener) => registry.register(listener, token, Interest::READABLE),
        }
    }

    /// The next connection that asks; `WouldBlock` where none asks.
    pub(crate) fn accept(&self) -> io::Result<Stream> {
        match self {
            Door::Tcp(listener) => {
                let (stream, from) = listener.accept()?;
                stream.set_nodelay(true)?;
                Ok(Stream::Tcp(stream, from))
            }
            Door::Unix(listener) => {
                let (stream, _) = listener.accept()?;
                Ok(Stream::Unix(stream))
            }
        }
    }
}

impl Stream {
    /// The address that it came from, if it came from one.
    pub(crate) fn address(&self) -> Option<SocketAddr> {
        match self {
            Stream::Tcp(_, from) => Some(*from),
            Stream::Unix(_) => None,
        }
    }

    /// Has the system tell when bytes may be read or written.
    pub(crate) fn register(&mut self, registry: &Registry, token: Token) -> io::Result<()> {
        let both = Interest::READABLE | Interest::WRITABLE;
        match self {
            Stream::Tcp(stream, _) => registry.register(stream, token, both),
            Stream::Unix(stream) => registry.register(stream, token, both),
        }
    }

    pub(crate) fn read(&mut self, room: &mut [u8]) -> Moved {
        outcome_of(match self {
            Stream::Tcp(stream, _) => stream.read(room),
            Stream::Unix(stream) => stream.read(room),
        })
    }

    pub(crate) fn write(&mut self, bytes: &[u8]) -> Moved {
        outcome_of(match self {
            Stream::Tcp(stream, _) => stream.write(bytes),
            Stream::Unix(stream) => stream.write(bytes),
        })
    }
}

/// What a call of the system came to.
fn outcome_of(call: io::Result<usize>) -> Moved {
    match call {
        Ok(count) => Moved::Bytes(count),
        Err(error) => match error.kind() {
            ErrorKind::WouldBlock | ErrorKind::Interrupted => Moved::Nothing,
            _ => Moved::Failed,
        },
    }
}
