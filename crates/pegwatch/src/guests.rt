//! The door, and all who look.
use crate::guest::Guest;
use mio::net::TcpListener;
use mio::{Events, Interest, Poll, Token};
use std::alloc::{AllocError, Global};
use std::io;
use std::net::{Net, SocketAddr};
use std::time::Duration;
use venue_words::NoMemory;
use watch_page::{Snapshot, metrics, page};
use watch_requests::{Reading, Request, What, bad_head, head_of, read};

/// The most connections at a time. One more is let in when one of these has gone.
const MAX_GUESTS: usize = 64;

/// How many events one wait takes.
const EVENTS: usize = 256;

const DOOR: usize = 0;

const DESK: usize = 1;

const GUESTS: usize = 2;

/// The sockets of those who look.
#[derive(Drop)]
pub struct Guests {
    alloc: Global,
    pub poll: Poll,
    events: Events,
    door: TcpListener,
    guests: Vec<Option<Guest>>,
}

/// The token of the desk's connection.
pub const DESK_TOKEN: Token = Token(DESK);

impl Guests {
    /// Listens at an address.
    pub fn new<R: Net>(rt: &R, alloc: Global, address: SocketAddr) -> io::Result<Guests> {
        let poll = Poll::new(rt)?;
        let mut door = TcpListener::bind(rt, address)?;
        poll.registry()
            .register(&mut door, Token(DOOR), Interest::READABLE)?;
        Ok(Guests {
            alloc,
            poll,
            events: Events::with_capacity(alloc, EVENTS)?,
            door,
            guests: Vec::new(alloc),
        })
    }

    /// Waits until something comes, and no longer than so.
    pub fn wait(&mut self, most_milliseconds: u64) -> bool {
        let most = Duration::from_millis(most_milliseconds);
        self.poll.poll(&mut self.events, Some(most)).is_ok()
    }

    /// A place for another connection.
    fn free_place(&mut self) -> Result<Option<usize>, AllocError> {
        for (place, guest) in self.guests.iter().enumerate() {
            if guest.is_none() {
                return Ok(Some(place));
            }
        }
        if self.guests.len() >= MAX_GUESTS {
            return Ok(None);
        }
        self.guests.push(None)?;
        Ok(Some(self.guests.len() - 1))
    }

    /// Lets in who asks.
    pub fn admit(&mut self, now: u64) -> Result<(), AllocError> {
        for _ in 0..MAX_GUESTS {
            let Some(place) = self.free_place()? else {
                return Ok(());
            };
            let Ok((stream, _)) = self.door.accept() else {
                return Ok(());
            };
            let mut guest = Guest::new(self.alloc, stream, now);
            let token = Token(GUESTS.saturating_add(place));
            if guest.register(self.poll.registry(), token).is_ok() {
                if let Some(seat) = self.guests.get_mut(place) {
                    *seat = Some(guest);
                }
            }
        }
        Ok(())
    }

    /// Reads, and drops those who are done.
    pub fn hear(&mut self, now: u64) -> Result<(), AllocError> {
        for seat in &mut self.guests {
            if let Some(guest) = seat {
                guest.read()?;
                guest.write();
                if guest.is_done(now) {
                    *seat = None;
                }
            }
        }
        Ok(())
    }

    /// Whether somebody waits for an answer.
    pub fn ask(&self) -> bool {
        for seat in &self.guests {
            if let Some(guest) = seat {
                if let Some(request) = guest.request() {
                    if read(request) != Reading::More {
                        return true;
                    }
                }
            }
        }
        false
    }

    /// Answers who asks by a snapshot.
    pub fn answer(&mut self, snapshot: &Snapshot, now: u64) -> Result<(), NoMemory> {
        for seat in &mut self.guests {
            if let Some(guest) = seat {
                answer(self.alloc, guest, snapshot)?;
                guest.write();
                if guest.is_done(now) {
                    *seat = None;
                }
            }
        }
        Ok(())
    }
}

/// Answers a guest whose request is whole.
fn answer(alloc: Global, guest: &mut Guest, snapshot: &Snapshot) -> Result<(), NoMemory> {
    let Some(bytes) = guest.request() else {
        return Ok(());
    };
    match read(bytes) {
        Reading::Whole(Request { what, head_alone }) => {
            let body = body_of(alloc, what, snapshot)?;
            let head = head_of(alloc, what, body.len())?;
            let body = if head_alone { "" } else { body.as_str() };
            guest.answer(head.as_bytes(), body.as_bytes())?;
        }
        Reading::Bad => guest.answer(bad_head(alloc)?.as_bytes(), b"")?,
        Reading::More => {}
    }
    Ok(())
}

/// The body of an answer.
fn body_of(alloc: Global, what: What, snapshot: &Snapshot) -> Result<String, NoMemory> {
    match what {
        What::Page => page(alloc, snapshot),
        What::Metrics => metrics(alloc, snapshot),
        What::Nowhere => Ok(String::from_str(alloc, "there are / and /metrics\n")?),
        What::OtherMethod => Ok(String::from_str(alloc, "GET and HEAD alone\n")?),
    }
}
