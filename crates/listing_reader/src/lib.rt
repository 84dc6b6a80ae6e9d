//! Reads the lines of a listing: a line of an event is read exactly where a listing writes it, and as the event that it was
//! written for.
#![tactic(auto)]

mod commands;
mod fields;
mod fitting;
pub mod laws;
mod lines;
mod words;

pub use fitting::{fits_event, has_word_names};
pub use laws::lines_differ_by_event;
pub use lines::{Counts, read_event, read_symbol};
