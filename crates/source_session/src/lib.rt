//! The session with a source of market data: we connect, send the Logon, and take the snapshots that come. Numbers begin at 1 on
//! each connection, so nothing is asked for again: where a message was left out, a new connection brings new snapshots.
#![tactic(auto)]

mod bodies;
mod listener;
mod message;
mod names;
mod quotes;
mod said;
mod session;
mod state;

pub use bodies::request_body;
pub use names::Names;
pub use said::{Refused, Said};
pub use session::SourceSession;
pub use state::{SourceEnd, SourcePhase, SourceState};
