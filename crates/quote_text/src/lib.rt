//! Quotes as lines of text show them, so that `quote_intake` reads the same again.
#![tactic(auto)]

pub mod laws;
pub mod sides;

pub use sides::push_side;
