//! A run of the server: what its words ask for, its connections, quotes and drop session, each on a thread with a seat of its own,
//! and the listing of the journals at the end.
#![tactic(auto)]

pub mod asking;
mod closing;
pub mod copying;
mod hints;
mod joining;
mod opening;
pub mod running;
mod splitting;
mod workers;
mod working;
