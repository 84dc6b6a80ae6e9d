//! The connection to the source. It is the trusted edge: nothing is claimed of what comes.
ghost use Rattle.std.specs.Prelude.{◌≡◌, ◌≤◌, None};
ghost use Rattle.venue_words.specs.Causes.{Rose};

use io_edge::{Failed, Link, Pulled};
use std::io::{self, ErrorKind, Read, Write};
use std::net::{TcpStream, ToSocketAddrs};
use std::time::Duration;

/// How long a connection may take to come up, and a write to be taken.
pub fn patience() -> Duration {
    Duration::from_secs(5)
}

/// A connection to the source.
#[derive(Drop)]
pub struct SourceLink {
    stream: TcpStream,
    faults: u64,
    ends: u64,
}

impl SourceLink {
    /// Connects to one of the addresses that a word names. A pull waits for so long.
    pub fn connect(rt: &HostRuntime, address: &str, wait: Duration) -> io::Result<SourceLink> {
        let mut last = io::Error::from(ErrorKind::NotFound);
        for address in address.to_socket_addrs(rt)? {
            match TcpStream::connect_timeout(rt, &address, patience()) {
                Ok(stream) => {
                    stream.set_nodelay(true)?;
                    stream.set_read_timeout(Some(wait))?;
                    stream.set_write_timeout(Some(patience()))?;
                    return Ok(SourceLink {
                        stream,
                        faults: 0,
                        ends: 0,
                    });
                }
                Err(error) => last = error,
            }
        }
        Err(last)
    }

    fn fail(&mut self) -> Failed
        ensures later { self.old.faults ≤ self.new.faults }
        ensures rose { Rose self.old.faults self.new.faults }
        ensures ends { self.new.ends ≡ self.old.ends }
    {
        self.faults = self.faults.saturating_add(1);
        Failed
    }
}

impl Link for SourceLink {
    ghost use Rattle.std.specs.Prelude.{None};

    ghost faults = { λ s. s.faults };

    ghost ends = { λ s. s.ends };

    ghost told = { λ _. None };

    fn pull(&mut self, buffer: &mut [u8]) -> Result<Pulled, Failed> {
        match self.stream.read(buffer) {
            Ok(0) => {
                self.ends = self.ends.saturating_add(1);
                Ok(Pulled::End)
            }
            Ok(count) => Ok(Pulled::Bytes(count.min(buffer.len()))),
            Err(error) => match error.kind() {
                ErrorKind::WouldBlock | ErrorKind::TimedOut | ErrorKind::Interrupted => {
                    Ok(Pulled::Quiet)
                }
                _ => Err(self.fail()),
            },
        }
    }

    fn put(&mut self, piece: &[u8]) -> Result<(), Failed> {
        if self.stream.write_all(piece).is_err() {
            return Err(self.fail());
        }
        Ok(())
    }

    fn ring(&mut self) {}
}
