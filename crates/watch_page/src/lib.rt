//! What is shown of a running day: a snapshot of its figures as Prometheus' text and as a page in HTML.
//!
//! Names stand in labels and cells as they are, since a `Label` holds letters, digits, points and underscores alone; all else that is
//! shown is numbers and texts of this crate. So nothing that a member sends can become a tag or end a label.
#![tactic(auto)]

mod html;
mod label;
mod numbers;
mod prometheus;
mod rows;
mod snapshot;
mod style;
#[cfg(test)]
mod tests;

pub use html::page;
pub use label::Label;
pub use prometheus::metrics;
pub use rows::{Level, is_stale, level_of};
pub use snapshot::{
    Following, JournalRow, MarketRow, MemberRow, Resting, Snapshot, SymbolRow, Trade, Waiting,
};
