//! The queues of a book's sides.
#![tactic(auto)]

pub mod laws;
pub mod levels;
pub mod queue;
