//! The national quote: the greatest bid and the least offer of all markets.
#![tactic(auto)]

pub mod markets;

pub use markets::Markets;
