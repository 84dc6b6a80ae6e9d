//! Quotes as FIX market data: the recorded bytes of a market data session become a feed of quotes.
#![tactic(auto)]

pub mod entries;
pub mod feeding;
pub mod input;
pub mod lines;
pub mod market;
pub mod plan;
pub mod quotes;
pub mod snapshots;
pub mod status;
pub mod tags;
pub mod telling;

pub use market::{market_feed, refuse_words};
pub use program_words::WordFault;
pub use snapshots::{Snapshot, SnapshotRefusal, read_snapshot};
pub use status::{MarketStatus, exit_code};
