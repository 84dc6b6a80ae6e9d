//! The bodies of execution reports and of cancel rejects.
#![tactic(auto)]

pub mod bodies;
pub mod codes;
pub mod parts;
pub mod tags;
pub mod texts;

pub use bodies::{body, kind, push_body};
