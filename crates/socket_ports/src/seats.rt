//! Who sits where, and what the system told of it.
ghost use Rattle.std.specs.Prelude.{◌≡◌, ◌≢◌, ◌≤◌, ◌<◌, ℕ, [], None, Some, true, length, IfOk, IfSome, OnOk, OnErr};
ghost use Rattle.ports.specs.declared.ports.Came.TheVariants.{Nothing as NothingCame};
ghost use Rattle.ports.specs.Calls.{Gives, IsTold, Took};
ghost use Rattle.socket_ports.specs.Places.{came_in, went_in, up_in, over_in, idle_in, origin_in};

use crate::connection::Connection;
use crate::operator::Operator;
use crate::place::Place;
use live_words::Origin;
use ports::Came;
use std::alloc::{AllocError, Global};

/// The token of the operators' door.
pub(crate) const DESK: usize = 1;

/// The most doors of members.
pub const MAX_DOORS: usize = 257;

/// The most operators at a time.
pub(crate) const MAX_OPERATORS: usize = 64;

/// The first token of an operator's connection, of a members' door, and of a port.
pub(crate) const OPERATORS: usize = 2;

pub(crate) const DOORS: usize = 66;

pub(crate) const PORTS: usize = 323;

/// The ports, the operators, and whether a connection may ask at each door.
#[derive(Drop)]
pub(crate) struct Seats {
    pub(crate) asks: Vec<bool>,
    pub(crate) desk_asks: bool,
    pub(crate) places: Vec<Place>,
    pub(crate) operators: Vec<Option<Operator>>,
}

impl Seats {
    pub(crate) fn new(alloc: Global, doors: usize) -> Result<Seats, AllocError>
        ensures { IfOk result (λ seats. seats.places.items ≡ []) }
    {
        Ok(Seats {
            asks: vec![in alloc; true; doors]?,
            desk_asks: true,
            places: Vec::new(alloc),
            operators: Vec::new(alloc),
        })
    }

    /// Notes what the system told of.
    pub(crate) fn note(&mut self, token: usize, readable: bool, writable: bool, ends: bool)
        ensures came { (q : ℕ) → came_in self.new.places.items q ≡ came_in self.old.places.items q }
        ensures went { (q : ℕ) → went_in self.new.places.items q ≡ went_in self.old.places.items q }
        ensures up { (q : ℕ) → up_in self.new.places.items q ≡ up_in self.old.places.items q }
    {
        if token < OPERATORS {
            self.desk_asks = true;
        } else if token < DOORS {
            if let Some(Some(operator)) = self.operators.get_mut(token - OPERATORS) {
                operator.note(readable, writable, ends);
            }
        } else if token < PORTS {
            if let Some(asks) = self.asks.get_mut(token - DOORS) {
                *asks = true;
            }
        } else {
            note_port(&mut self.places, token - PORTS, readable, writable, ends);
        }
    }

    /// Sends operators what they were answered, as far as they take it.
    pub(crate) fn send_answers(&mut self)
        ensures places { self.new.places ≡ self.old.places }
    {
        send_all(&mut self.operators);
    }
}

/// Sends each operator what he was answered.
fn send_all(operators: &mut Vec<Option<Operator>>) {
    for index in 0..operators.len() {
        if let Some(Some(operator)) = operators.get_mut(index) {
            operator.flush();
        }
    }
}

/// A port has this connection now.
pub(crate) fn seat(
    places: &mut Vec<Place>,
    port: usize,
    connection: Connection,
    origin: Origin,
) -> Result<(), AllocError>
    requires next { port ≤ length places.old.items }
    ensures origin { OnOk result (origin_in places.new.items port ≡ origin) }
    ensures fresh_came { OnOk result (came_in places.new.items port ≡ []) }
    ensures fresh_went { OnOk result (went_in places.new.items port ≡ []) }
    ensures err { OnErr result (places.new.items ≡ places.old.items) }
    ensures came { (q : ℕ) → q ≢ port → came_in places.new.items q ≡ came_in places.old.items q }
    ensures went { (q : ℕ) → q ≢ port → went_in places.new.items q ≡ went_in places.old.items q }
    ensures up { (q : ℕ) → q ≢ port → up_in places.new.items q ≡ up_in places.old.items q }
    ensures over { (q : ℕ) → q ≢ port → over_in places.new.items q ≡ over_in places.old.items q }
{
    let place = Place::new(Some(connection), origin);
    if port < places.len() {
        places[port] = place;
        return Ok(());
    }
    places.push(place)?;
    Ok(())
}

/// Reads of a port.
pub(crate) fn read_at(places: &mut Vec<Place>, port: usize, room: &mut [u8]) -> Option<Came>
    requires { port < length places.old.items }
    ensures gives { IfSome result (Gives (came_in places.old.items port) (came_in places.new.items port) room.new) }
    ensures told { IfSome result (IsTold (over_in places.new.items port)) }
    ensures none { result ≡ None → came_in places.new.items port ≡ came_in places.old.items port }
    ensures came { (q : ℕ) → q ≢ port → came_in places.new.items q ≡ came_in places.old.items q }
    ensures went { (q : ℕ) → went_in places.new.items q ≡ went_in places.old.items q }
    ensures up { (q : ℕ) → up_in places.new.items q ≡ up_in places.old.items q }
    ensures over { (q : ℕ) → q ≢ port → over_in places.new.items q ≡ over_in places.old.items q }
    ensures idle { result ≡ Some NothingCame → idle_in places.new.items port ≡ true }
{
    places[port].read(room)
}

/// Writes to a port.
pub(crate) fn write_at(places: &mut Vec<Place>, port: usize, bytes: &[u8]) -> Option<usize>
    requires { port < length places.old.items }
    ensures took { IfSome result (Took (went_in places.old.items port) (went_in places.new.items port) bytes.now) }
    ensures none { result ≡ None → went_in places.new.items port ≡ went_in places.old.items port }
    ensures came { (q : ℕ) → came_in places.new.items q ≡ came_in places.old.items q }
    ensures went { (q : ℕ) → q ≢ port → went_in places.new.items q ≡ went_in places.old.items q }
    ensures up { (q : ℕ) → up_in places.new.items q ≡ up_in places.old.items q }
    ensures over { (q : ℕ) → over_in places.new.items q ≡ over_in places.old.items q }
    ensures idle { result ≡ Some 0 → idle_in places.new.items port ≡ true }
{
    places[port].write(bytes)
}

/// Notes that a call of a port found nothing to do.
pub(crate) fn rest(places: &mut Vec<Place>, port: usize)
    ensures idle { idle_in places.new.items port ≡ true }
    ensures came { (q : ℕ) → came_in places.new.items q ≡ came_in places.old.items q }
    ensures went { (q : ℕ) → went_in places.new.items q ≡ went_in places.old.items q }
    ensures up { (q : ℕ) → up_in places.new.items q ≡ up_in places.old.items q }
    ensures over { (q : ℕ) → over_in places.new.items q ≡ over_in places.old.items q }
{
    if port < places.len() {
        places[port].rest();
    }
}

/// Notes what the system told of a port.
fn note_port(places: &mut Vec<Place>, port: usize, readable: bool, writable: bool, ends: bool)
    ensures came { (q : ℕ) → came_in places.new.items q ≡ came_in places.old.items q }
    ensures went { (q : ℕ) → went_in places.new.items q ≡ went_in places.old.items q }
    ensures up { (q : ℕ) → up_in places.new.items q ≡ up_in places.old.items q }
{
    if port < places.len() {
        places[port].note(readable, writable, ends);
    }
}
