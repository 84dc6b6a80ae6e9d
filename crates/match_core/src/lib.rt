//! Matching: the walk of a taker through a side, the recheck of a book, and the two sides of a symbol's book together.
#![tactic(auto)]

mod changing;
pub mod engine;
mod entering;
mod gathering;
pub mod narrow;
mod rechecking;
mod reserving;
pub mod scratch;
mod settling;
pub mod sides;
mod sweeping;
mod walking;

pub use engine::Engine;
pub use entering::price_at;
pub use narrow::NarrowSide;
pub use rechecking::recheck;
pub use scratch::{Scratch, reserve, walk};
pub use sides::Sides;
