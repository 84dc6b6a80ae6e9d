//! The price of a peg under a national quote, and the price of an order that follows it.
#![tactic(auto)]

pub mod peg;

pub use peg::{peg_value, row_value};
