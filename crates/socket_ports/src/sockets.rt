//! All sockets of a live day.
ghost use Rattle.std.specs.Prelude.{◌≡◌, ◌≢◌, ◌≤◌, ℕ, [], true, length, IfOk, OnOk, OnErr};
ghost use Rattle.venue_words.specs.Causes.{HasCause, Rose};
ghost use Rattle.socket_ports.specs.Places.{came_in, went_in, up_in, over_in, idle_in};

use crate::connection::Connection;
use crate::door::{Door, Stream};
use crate::operator::Operator;
use crate::seats::{DESK, DOORS, PORTS, Seats, read_at, rest, seat, write_at};
use io_edge::Failed;
use live_words::{Names, Origin, address_of};
use mio::{Events, Poll, Token};
use ports::{Came, Ports};
use std::alloc::{AllocError, Global};
use std::io::{self, Eprint, ErrorKind};
use std::net::Net;

/// How many events one wait takes.
const EVENTS: usize = 1_024;

/// After so many waits a door that failed is tried again.
const RETRY_WAITS: u32 = 64;

/// The sockets of a live day: doors for members, with a connection at each port, and a door for operators.
#[derive(Drop)]
pub struct Sockets<'a, R: Net + Eprint> {
    pub(crate) rt: &'a R,
    pub(crate) alloc: Global,
    pub(crate) poll: Poll,
    pub(crate) events: Events,
    pub(crate) doors: Vec<Door>,
    pub(crate) desk: Door,
    /// The names by which the log tells what happens.
    pub(crate) names: Names,
    pub(crate) seats: Seats,
    /// Waits so far, by which a door that failed is tried again.
    pub(crate) waits: u32,
    /// Whose word is taken next.
    pub(crate) turn: usize,
    /// The door that is looked at next.
    pub(crate) door: usize,
    pub(crate) faults: u64,
}

impl<'a, R: Net + Eprint> Sockets<'a, R> {
    /// Over doors that are open: the first for all members, the others by their number for those whom a rule lets in there. The log
    /// tells what happens by these names.
    pub fn new(
        rt: &'a R,
        alloc: Global,
        mut doors: Vec<Door>,
        mut desk: Door,
        names: Names,
    ) -> io::Result<Sockets<'a, R>>
        ensures unused { IfOk result (λ sockets. (port : ℕ) → ⟦<Sockets<'a, R> as Ports>⟧.went sockets port ≡ []) }
    {
        let poll = Poll::new(rt)?;
        for (index, door) in doors.iter_mut().enumerate() {
            door.register(poll.registry(), Token(DOORS.saturating_add(index)))?;
        }
        let seats = Seats::new(alloc, doors.len())?;
        desk.register(poll.registry(), Token(DESK))?;
        Ok(Sockets {
            rt,
            alloc,
            poll,
            events: Events::with_capacity(alloc, EVENTS)?,
            doors,
            desk,
            names,
            seats,
            waits: 0,
            turn: 0,
            door: 0,
            faults: 0,
        })
    }

    pub(crate) fn fail(&mut self) -> Failed
        ensures rose { Rose self.old.faults self.new.faults }
        ensures later { self.old.faults ≤ self.new.faults }
        ensures places { self.new.seats.places ≡ self.old.seats.places }
    {
        self.faults = self.faults.saturating_add(1);
        Failed
    }

    /// The next connection that asks at a door, and where it came in.
    fn ask_at(&mut self, door: usize) -> Result<Option<(Stream, Origin)>, Failed>
        ensures places { self.new.seats.places ≡ self.old.seats.places }
        ensures cause { HasCause self.old.faults self.new.faults result }
    {
        if door >= self.doors.len() || door >= self.seats.asks.len() || !self.seats.asks[door] {
            return Ok(None);
        }
        match self.doors[door].accept() {
            Ok(stream) => {
                let address = match stream.address() {
                    Some(from) => address_of(from.ip()),
                    None => 0,
                };
                Ok(Some((stream, Origin { door, address })))
            }
            Err(error) => {
                self.seats.asks[door] = false;
                if error.kind() == ErrorKind::WouldBlock {
                    Ok(None)
                } else {
                    Err(self.fail())
                }
            }
        }
    }

    /// The next connection that asks at any door, and where it came in. The doors take turns.
    fn next_stream(&mut self) -> Result<Option<(Stream, Origin)>, Failed>
        ensures places { self.new.seats.places ≡ self.old.seats.places }
        ensures cause { HasCause self.old.faults self.new.faults result }
    {
        let count = self.doors.len();
        for _ in 0..count {
            let door = self.door;
            self.door = if door.saturating_add(1) < count {
                door.saturating_add(1)
            } else {
                0
            };
            if let Some(asked) = self.ask_at(door)? {
                return Ok(Some(asked));
            }
        }
        Ok(None)
    }

    /// A connection that asked comes to a port, and the system tells of its changes from now on.
    fn admit(&mut self, port: usize, mut stream: Stream, origin: Origin) -> Result<bool, Failed>
        requires next { port ≤ length self.old.seats.places.items }
        ensures fresh_came { OnOk result (came_in self.new.seats.places.items port ≡ []) }
        ensures fresh_went { OnOk result (went_in self.new.seats.places.items port ≡ []) }
        ensures err { OnErr result (self.new.seats.places.items ≡ self.old.seats.places.items) }
        ensures came { (q : ℕ) → q ≢ port → came_in self.new.seats.places.items q ≡ came_in self.old.seats.places.items q }
        ensures went { (q : ℕ) → q ≢ port → went_in self.new.seats.places.items q ≡ went_in self.old.seats.places.items q }
        ensures up { (q : ℕ) → q ≢ port → up_in self.new.seats.places.items q ≡ up_in self.old.seats.places.items q }
        ensures over { (q : ℕ) → q ≢ port → over_in self.new.seats.places.items q ≡ over_in self.old.seats.places.items q }
        ensures cause { HasCause self.old.faults self.new.faults result }
        ensures yes { IfOk result (λ came. came ≡ true) }
    {
        let token = Token(PORTS.saturating_add(port));
        if stream.register(self.poll.registry(), token).is_err() {
            return Err(self.fail());
        }
        match seat(
            &mut self.seats.places,
            port,
            Connection::new(stream),
            origin,
        ) {
            Ok(()) => Ok(true),
            Err(_) => Err(self.fail()),
        }
    }
}

impl<'a, R: Net + Eprint> Ports for Sockets<'a, R> {
    ghost came = { λ s. came_in s.seats.places.items };

    ghost went = { λ s. went_in s.seats.places.items };

    ghost up = { λ s. up_in s.seats.places.items };

    ghost over = { λ s. over_in s.seats.places.items };

    ghost idle = { λ s. idle_in s.seats.places.items };

    ghost faults = { λ s. s.faults };

    fn accept(&mut self, port: usize) -> Result<bool, Failed> {
        if port > self.seats.places.len() {
            rest(&mut self.seats.places, port);
            return Ok(false);
        }
        match self.next_stream()? {
            Some((stream, origin)) => self.admit(port, stream, origin),
            None => {
                rest(&mut self.seats.places, port);
                Ok(false)
            }
        }
    }

    fn read(&mut self, port: usize, room: &mut [u8]) -> Result<Came, Failed> {
        if port >= self.seats.places.len() {
            return Ok(Came::Nothing);
        }
        match read_at(&mut self.seats.places, port, room) {
            Some(came) => Ok(came),
            None => Err(self.fail()),
        }
    }

    fn write(&mut self, port: usize, bytes: &[u8]) -> Result<usize, Failed> {
        if port >= self.seats.places.len() {
            return Ok(0);
        }
        match write_at(&mut self.seats.places, port, bytes) {
            Some(count) => Ok(count),
            None => Err(self.fail()),
        }
    }

    fn close(&mut self, port: usize) {
        if port < self.seats.places.len() {
            self.seats.places[port].close();
        }
    }
}
