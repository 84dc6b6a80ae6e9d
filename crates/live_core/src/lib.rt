//! The loop of a live day: inputs come in rounds, each round's lines are worked, kept in the journal, all of them or none, and
//! only then is their output put.
//!
//! It knows neither sockets nor orders: a `Machine` works lines, and an `Edge` brings them in and puts what comes of them.
#![tactic(auto)]

mod edge;
mod machine;
mod running;
mod serving;

pub use edge::{Edge, Going};
pub use machine::{Halt, Machine, Resumed, resume};
pub use running::{LiveEnd, live};
pub use serving::{DayEnd, serve_day};
