//! A day that outlives a crash: each line of the script is kept in the journal before the line's output is put, and after a crash
//! the day goes on from what the journal has.
#![tactic(auto)]

pub mod complete;
pub mod day;
mod files;
mod journal;
pub mod laws;
mod lines;
pub mod status;
mod working;

pub use status::DayStatus;
