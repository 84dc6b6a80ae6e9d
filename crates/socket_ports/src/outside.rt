//! The sockets as the outside of a live day.
ghost use Rattle.std.specs.Prelude.{◌≡◌, ◌≤◌, ℕ, OnErr};
ghost use Rattle.venue_words.specs.Causes.{HasCause};
ghost use Rattle.socket_ports.specs.Places.{came_in, went_in, up_in, origin_in};

use crate::operator::Operator;
use crate::seats::{MAX_OPERATORS, OPERATORS, Seats};
use crate::sockets::Sockets;
use fix_write::push_moment;
use io_edge::{Clock as _, Failed, RealClock};
use live_edge::Outside;
use live_words::{Event, Origin, Told};
use mio::{Events, Token};
use std::alloc::{AllocError, Global};
use std::io::Eprint;
use std::net::{Net, SocketAddr};
use std::rt::Clock;
use std::time::Duration;

/// After so many waits a door that failed is tried again, as where the process had no descriptor left.
const RETRY_WAITS: u32 = 64;

/// Notes all that the system told of.
fn note_all(seats: &mut Seats, events: &Events)
    ensures came { (q : ℕ) → came_in seats.new.places.items q ≡ came_in seats.old.places.items q }
    ensures went { (q : ℕ) → went_in seats.new.places.items q ≡ went_in seats.old.places.items q }
    ensures up { (q : ℕ) → up_in seats.new.places.items q ≡ up_in seats.old.places.items q }
{
    for event in events.iter() {
        let Token(token) = event.token();
        let ends = event.is_read_closed() || event.is_error();
        seats.note(token, event.is_readable(), event.is_writable(), ends);
    }
}

impl<'a, R: Net + Eprint + Clock> Sockets<'a, R> {
    /// Sends operators what was answered, then waits, and notes what the system tells of. The lines of the round before are kept by
    /// now, so nobody is answered before his line is.
    fn wait_for(&mut self, most_milliseconds: u64) -> Result<(), Failed>
        ensures came { (q : ℕ) → came_in self.new.seats.places.items q ≡ came_in self.old.seats.places.items q }
        ensures went { (q : ℕ) → went_in self.new.seats.places.items q ≡ went_in self.old.seats.places.items q }
        ensures up { (q : ℕ) → up_in self.new.seats.places.items q ≡ up_in self.old.seats.places.items q }
        ensures cause { HasCause self.old.faults self.new.faults result }
    {
        self.seats.send_answers();
        self.waits = self.waits.wrapping_add(1);
        if self.waits % RETRY_WAITS == 0 {
            self.seats.asks.fill(true);
            self.seats.desk_asks = true;
        }
        let most = Duration::from_millis(most_milliseconds);
        if self.poll.poll(&mut self.events, Some(most)).is_err() {
            return Err(self.fail());
        }
        note_all(&mut self.seats, &self.events);
        Ok(())
    }

    /// A place for another operator.
    fn free_operator(&mut self) -> Result<Option<usize>, AllocError>
        ensures places { self.new.seats.places ≡ self.old.seats.places }
        ensures faults { self.new.faults ≡ self.old.faults }
    {
        for (index, operator) in self.seats.operators.iter().enumerate() {
            if operator.is_none() {
                return Ok(Some(index));
            }
        }
        if self.seats.operators.len() >= MAX_OPERATORS {
            return Ok(None);
        }
        self.seats.operators.push(None)?;
        Ok(Some(self.seats.operators.len().saturating_sub(1)))
    }
}

/// Lets operators in, as long as one asks and there is a place.
fn admit_operators<R: Net + Eprint + Clock>(sockets: &mut Sockets<'_, R>) -> Result<(), AllocError>
    ensures places { sockets.new.seats.places ≡ sockets.old.seats.places }
    ensures faults { sockets.new.faults ≡ sockets.old.faults }
{
    for _ in 0..MAX_OPERATORS {
        if !sockets.seats.desk_asks {
            return Ok(());
        }
        let Some(index) = sockets.free_operator()? else {
            return Ok(());
        };
        let Ok(mut stream) = sockets.desk.accept() else {
            sockets.seats.desk_asks = false;
            return Ok(());
        };
        let token = Token(OPERATORS.saturating_add(index));
        if stream.register(sockets.poll.registry(), token).is_ok()
            && index < sockets.seats.operators.len()
        {
            sockets.seats.operators[index] = Some(Operator::new(sockets.alloc, stream));
        }
    }
    Ok(())
}

/// The next word of an operator, from one on, who is let go where nothing more comes of him.
fn word_from<R: Net + Eprint + Clock>(
    sockets: &mut Sockets<'_, R>,
    index: usize,
    line: &mut Vec<u8>,
) -> Result<bool, AllocError>
    ensures places { sockets.new.seats.places ≡ sockets.old.seats.places }
    ensures faults { sockets.new.faults ≡ sockets.old.faults }
{
    if index >= sockets.seats.operators.len() {
        return Ok(false);
    }
    let mut spoke = false;
    let mut done = false;
    if let Some(operator) = &mut sockets.seats.operators[index] {
        spoke = operator.word(line)?;
        done = !spoke && operator.is_done();
    }
    if done {
        sockets.seats.operators[index] = None;
    }
    Ok(spoke)
}

/// The next word of any operator, and whose it is. They take turns.
fn next_word<R: Net + Eprint + Clock>(
    sockets: &mut Sockets<'_, R>,
    line: &mut Vec<u8>,
) -> Result<Option<usize>, AllocError>
    ensures places { sockets.new.seats.places ≡ sockets.old.seats.places }
    ensures faults { sockets.new.faults ≡ sockets.old.faults }
{
    admit_operators(sockets)?;
    let count = sockets.seats.operators.len();
    for _ in 0..count {
        let index = sockets.turn;
        sockets.turn = if index.saturating_add(1) < count {
            index.saturating_add(1)
        } else {
            0
        };
        if word_from(sockets, index, line)? {
            return Ok(Some(index));
        }
    }
    Ok(None)
}

/// A moment as the log has it, as `2026-12-02T09:30:00.123Z`.
fn push_log_moment(line: &mut Vec<u8>, alloc: Global, now: i64) -> Result<(), AllocError> {
    let mut moment = Vec::new(alloc);
    if push_moment(&mut moment, now).is_err() {
        return Ok(());
    }
    for (index, byte) in moment.iter().enumerate() {
        match index {
            4 | 6 => {
                line.push(b'-')?;
                line.push(*byte)?;
            }
            8 => line.push(b'T')?,
            _ => line.push(*byte)?,
        }
    }
    line.push(b'Z')?;
    Ok(())
}

/// Tells the log of an event, with the present moment.
fn tell<R: Net + Eprint + Clock>(rt: &R, alloc: Global, told: &Told<'_>) -> Result<(), AllocError> {
    let mut line = Vec::new(alloc);
    push_log_moment(&mut line, alloc, RealClock::new(rt).now())?;
    if let Ok(moment) = str::from_utf8(&line) {
        let _ = eprintln!(rt; "{moment} {told}");
    }
    Ok(())
}

impl<'a, R: Net + Eprint + Clock> Sockets<'a, R> {
    /// The address of the connection that an event is about, if it came from one.
    fn source_of(&self, event: Event) -> Option<SocketAddr> {
        match self.seats.places.get(event.port()?) {
            Some(place) => place.address(),
            None => None,
        }
    }

    /// The number of the last line of the operator whom an event is about.
    fn line_of(&self, event: Event) -> Option<u64> {
        match self.seats.operators.get(event.operator()?) {
            Some(Some(operator)) => Some(operator.lines()),
            _ => None,
        }
    }
}

impl<'a, R: Net + Eprint + Clock> Outside for Sockets<'a, R> {
    ghost origin = { λ s. origin_in s.seats.places.items };

    fn origin(&self, port: usize) -> Origin {
        match self.seats.places.get(port) {
            Some(place) => place.origin(),
            None => Origin {
                door: 0,
                address: 0,
            },
        }
    }

    fn wait(&mut self, most_milliseconds: u64) -> Result<(), Failed> {
        self.wait_for(most_milliseconds)
    }

    fn word(&mut self, line: &mut Vec<u8>) -> Result<Option<usize>, Failed> {
        match next_word(self, line) {
            Ok(spoke) => Ok(spoke),
            Err(_) => Err(self.fail()),
        }
    }

    fn answer(&mut self, operator: usize, text: &[u8]) -> Result<(), Failed> {
        let mut answered = Ok(());
        if operator < self.seats.operators.len() {
            if let Some(operator) = &mut self.seats.operators[operator] {
                answered = operator.answer(text);
            }
        }
        match answered {
            Ok(()) => Ok(()),
            Err(_) => Err(self.fail()),
        }
    }

    fn log(&mut self, event: Event) {
        let rt = self.rt;
        let alloc = self.alloc;
        let from = self.source_of(event);
        let line = self.line_of(event);
        let told = Told {
            event,
            names: &self.names,
            from,
            line,
        };
        let _ = tell(rt, alloc, &told).is_ok();
    }
}
