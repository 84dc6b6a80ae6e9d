//! Minimum quantities: the least that an order trades at once, and whether a contra is taken.
#![tactic(auto)]

pub mod minimum;

pub use minimum::{floor, may_fill};
