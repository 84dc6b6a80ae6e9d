//! When a price that moves last changed below each limit, kept as a staircase of its moves.
#![tactic(auto)]

pub mod kept;
pub mod moves;

pub use kept::KeptMove;
pub use moves::Moves;
