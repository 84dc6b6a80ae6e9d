//! The book of one symbol: it takes commands into a journal and answers with the reports that the market's rules make of
//! them.
#![tactic(auto)]

mod admitting;
pub mod book;
mod canceling;
mod copying;
mod entered_row;
mod entering;
mod finding;
pub mod hashing;
mod held;
mod id_copies;
pub mod ids;
mod log;
mod looking;
mod orders;
mod parts;
mod preparing;
mod quoting;
mod refusing;
mod replacing;
pub mod room;
pub mod shipped;
mod showing;
mod status;
mod taking;
mod trading;
mod working;

pub use book::BookOver;
pub use hashing::HashSeed;
pub use room::Room;
pub use shipped::Book;
