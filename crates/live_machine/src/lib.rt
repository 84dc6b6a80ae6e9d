//! The machine of a live day over scripts: the lines of a day are a script of `pegreplay`, its head the header, and each line
//! yields what `pegreplay` prints of it.
#![tactic(auto)]

pub mod laws;
mod machine;
mod taking;

pub use machine::{BookMachine, PhaseMachine};
