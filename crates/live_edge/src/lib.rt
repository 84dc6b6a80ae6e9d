//! The edge of a live day: what comes of members and operators is made lines of a round, and what these yield is put to the members'
//! connections. The sockets are an `Outside`, which this crate knows by its contract alone.
#![tactic(auto)]

mod answers;
mod connections;
mod desk;
mod edge;
mod file_edge;
mod operators;
mod outside;
mod pieces;
mod silence;
mod slow;
mod story;
mod transcripts;
mod turns;
mod welcome;

pub use edge::LiveEdge;
pub use file_edge::FileEdge;
pub use outside::Outside;
