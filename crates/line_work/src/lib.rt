//! What the lines of a script or a feed do, over any floor: the clock, quotes, and the bytes of members' connections.
#![tactic(auto)]

pub mod faults;
pub mod opening;
pub mod output;
pub mod pulling;
pub mod quoting;
pub mod source;
pub mod taking;
pub mod ticking;
pub mod worker;

pub use faults::{fault_at, refusal_at};
pub use worker::LineWorker;
