//! Lines of worked cases: what a case is given, and what is told of it.
#![tactic(auto)]

pub mod input;
pub mod told;
pub mod words;

pub use input::expanded;
pub use told::Told;
pub use words::Words;
