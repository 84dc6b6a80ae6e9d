//! Quotes on their way from a source to a desk, and their conflation: of one symbol at one market at most one quote in so many
//! milliseconds, the last one.
#![tactic(auto)]

pub mod cell;
pub mod laws;
pub mod quote;
pub mod table;

pub use quote::{MarketQuote, Sides};
pub use table::Conflater;
