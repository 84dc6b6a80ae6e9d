//! Sockets of a live day over `mio`, on one thread: members' connections as `ports::Ports`, and the operators' desk.
//!
//! This is the trusted edge: no call waits but `wait`, and nothing is claimed of which bytes come or go.
#![tactic(auto)]

mod connection;
mod door;
mod flow;
mod operator;
mod outside;
mod place;
mod seats;
mod sockets;

pub use door::{Door, DoorFault};
pub use seats::MAX_DOORS;
pub use sockets::Sockets;
