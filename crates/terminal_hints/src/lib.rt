//! Lines for a person, behind a status' text: what a refused line should be, why a file could not be read, how a program is used.
//! They are shown only where standard error is a terminal, so what programs read there stays the status' text alone.
//!
//! Its one main type is [`Hint`]: a program's `main` makes one of its status and calls [`Hint::show`].
#![tactic(auto)]

mod advice;
mod hint;
mod refused;

pub use advice::{limit_advice, line_advice};
pub use hint::{Hint, named, word_at};
pub use refused::{RefusedLine, refused_line};
