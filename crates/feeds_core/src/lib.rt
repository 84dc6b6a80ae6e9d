//! The whole of a run over feeds: a config and feeds from a shelf, a venue on threads, its journals and reports to a sink, and a
//! status with its text.
#![tactic(auto)]

mod answer;
mod complete;
mod config_copy;
mod ended;
mod feed_end;
pub mod feed_list;
mod feed_lists;
mod feed_text;
pub mod files;
mod giving_back;
mod joining;
mod listing_floor;
mod looking;
mod naming;
mod part_text;
pub mod plan;
mod putting;
pub mod reading;
mod refused;
mod run;
mod running;
mod splitting;
pub mod status;
mod sums;
mod telling;
mod texts_at_once;
mod venue;
pub mod working;

pub use complete::{run_surely, run_whole};
pub use run::run_feeds;
pub use status::{FeedsStatus, exit_code};
pub use telling::refuse_words;
pub use venue::work_on_venue;
