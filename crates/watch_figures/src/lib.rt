//! The figures of a day, of the lines of its journal, of what these yield, and of what the desk tells.
#![tactic(auto)]

mod desk;
mod figures;
mod frames;
mod symbols;
#[cfg(test)]
mod tests;

pub use desk::DeskTold;
pub use figures::{Figures, Moment};
