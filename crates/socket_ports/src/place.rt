//! A port: its connection, and what that gave and took.
ghost use Rattle.std.specs.Prelude.{◌≡◌, None, Some, true, false, is_some, IfSome};
ghost use Rattle.ports.specs.declared.ports.Came.TheVariants.{Nothing as NothingCame};
ghost use Rattle.ports.specs.Calls.{Gives, IsTold, Took as TookOf};
ghost use Rattle.socket_ports.specs.Flows.{unused};

use crate::connection::Connection;
use crate::flow::{Flow, Move};
use live_words::Origin;
use ports::Came;
use std::net::SocketAddr;

/// A port.
#[derive(Drop)]
pub(crate) struct Place {
    connection: Option<Connection>,
    /// Where the connection came in.
    origin: Origin,
    /// The address that it came from, if it came from one.
    from: Option<SocketAddr>,
    flow: Flow,
    /// The other side has said that it sends no more.
    over: bool,
    /// The last call found nothing to do.
    idle: bool,
}

impl Place {
    /// A port with this connection, or none.
    pub(crate) fn new(connection: Option<Connection>, origin: Origin) -> Place
        ensures origin { result.origin ≡ origin }
        ensures up { is_some result.connection ≡ is_some connection }
        ensures flow { result.flow.moved ≡ unused }
        ensures over { result.over ≡ false }
        ensures idle { result.idle ≡ true }
    {
        let from = match &connection {
            Some(connection) => connection.address(),
            None => None,
        };
        Place {
            connection,
            origin,
            from,
            flow: Flow::new(),
            over: false,
            idle: true,
        }
    }

    /// Where the connection came in.
    pub(crate) fn origin(&self) -> Origin
        ensures { result ≡ self.now.origin }
    {
        self.origin
    }

    /// The address that the connection came from, if it came from one.
    pub(crate) fn address(&self) -> Option<SocketAddr> {
        self.from
    }

    /// The system told of a change.
    pub(crate) fn note(&mut self, readable: bool, writable: bool, ends: bool)
        ensures up { is_some self.new.connection ≡ is_some self.old.connection }
        ensures flow { self.new.flow ≡ self.old.flow }
        ensures over { self.new.over ≡ self.old.over }
        ensures idle { self.new.idle ≡ self.old.idle }
    {
        if let Some(connection) = &mut self.connection {
            connection.note(readable, writable, ends);
        }
    }

    /// Whether a read may find something.
    pub(crate) fn is_readable(&self) -> bool {
        match &self.connection {
            Some(connection) => connection.is_readable(),
            None => false,
        }
    }

    /// Lets the connection go.
    pub(crate) fn close(&mut self)
        ensures up { self.new.connection ≡ None }
        ensures flow { self.new.flow ≡ self.old.flow }
        ensures over { self.new.over ≡ self.old.over }
        ensures idle { self.new.idle ≡ self.old.idle }
    {
        self.connection = None;
    }

    /// Notes that a call found nothing to do.
    pub(crate) fn rest(&mut self)
        ensures up { is_some self.new.connection ≡ is_some self.old.connection }
        ensures flow { self.new.flow ≡ self.old.flow }
        ensures over { self.new.over ≡ self.old.over }
        ensures idle { self.new.idle ≡ true }
    {
        self.idle = true;
    }

    /// Reads what is there, up to the room; none where the call failed.
    pub(crate) fn read(&mut self, room: &mut [u8]) -> Option<Came>
        ensures gives { IfSome result (Gives self.old.flow.moved.came self.new.flow.moved.came room.new) }
        ensures told { IfSome result (IsTold self.new.over) }
        ensures none { result ≡ None → self.new.flow.moved.came ≡ self.old.flow.moved.came }
        ensures went { self.new.flow.moved.went ≡ self.old.flow.moved.went }
        ensures up { is_some self.new.connection ≡ is_some self.old.connection }
        ensures idle { result ≡ Some NothingCame → self.new.idle ≡ true }
    {
        let Some(connection) = &mut self.connection else {
            self.idle = true;
            return Some(Came::Nothing);
        };
        let came = connection.read(room)?;
        match came {
            Came::Bytes(count) => {
                self.idle = false;
                self.flow = self.flow.then(&Move::Gave(&room[..count]));
            }
            Came::Nothing => self.idle = true,
            Came::End => self.over = true,
        }
        Some(came)
    }

    /// Writes a beginning of these bytes, and answers how long it was; none where the call failed.
    pub(crate) fn write(&mut self, bytes: &[u8]) -> Option<usize>
        ensures took { IfSome result (TookOf self.old.flow.moved.went self.new.flow.moved.went bytes.now) }
        ensures none { result ≡ None → self.new.flow.moved.went ≡ self.old.flow.moved.went }
        ensures came { self.new.flow.moved.came ≡ self.old.flow.moved.came }
        ensures up { is_some self.new.connection ≡ is_some self.old.connection }
        ensures over { self.new.over ≡ self.old.over }
        ensures idle { result ≡ Some 0 → self.new.idle ≡ true }
    {
        let Some(connection) = &mut self.connection else {
            self.idle = true;
            return Some(0);
        };
        let count = connection.write(bytes)?;
        self.idle = count == 0;
        self.flow = self.flow.then(&Move::Took(&bytes[..count]));
        Some(count)
    }
}
