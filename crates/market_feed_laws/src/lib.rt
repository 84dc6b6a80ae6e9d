//! Laws of the feed of a market data session. Those of definitions alone are contracts of functions that do nothing.
#![tactic(auto)]

mod complete;
mod laws;

pub use complete::market_feed_whole;
pub use laws::{feeds_are_read_back, quotes_are_best};
