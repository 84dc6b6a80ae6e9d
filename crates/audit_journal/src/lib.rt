//! A live day's journal as the files of an audit: its lines, the config that they begin with, the feed that follows it, and the listing
//! that a venue prints of the two.
#![tactic(auto)]

mod day;
mod file;
mod making;
mod shelf;
#[cfg(test)]
mod tests;

pub use day::{body_of, head_of, text_of};
pub use file::{JournalFault, read_journal};
pub use making::{CONFIG, DayFault, FEED, LISTING, files_of_day};
pub use shelf::DayShelf;
