//! Orders as members write them: what a message asks of a symbol's book, or the first reason for which it is refused.
#![tactic(auto)]

mod order;
mod reading;
mod tables;
pub mod tags;

pub use eager_meaning::{Known, verdict};
pub use order::{Decoded, Refusal, command_of, read_order};
