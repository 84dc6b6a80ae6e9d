//! Recomputes a venue's day from its listing: whether the listing is what the market's rules make of its own events.
#![tactic(auto)]

pub mod audit;
mod following;
mod names;
mod part;
mod reading;
mod verdict;
mod watch;

pub use audit::{AuditFiles, AuditRefusal};
pub use following::{follow, verify};
pub use names::has_line_names;
pub use part::OpenPart;
pub use verdict::{AuditFault, Verdict};
pub use watch::{Silent, Watch, WatchFault};
