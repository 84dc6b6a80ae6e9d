//! Laws of the load script: how each of its lines is read. Each law is a statement of `specs/`, proved as the contract of a
//! function that does nothing. The lemmas of `specs/` are what the proof that the load script is taken to its end rests on.
#![tactic(auto)]

mod load_script;

pub use load_script::{header_is_read, messages_are_frames, quotes_are_read};
