//! Finds the frames in a stream of bytes, however the stream is cut into pieces.
#![tactic(auto)]

pub mod framer;
mod place;
mod reading;

pub use framer::{Framer, Next};
pub use reading::Reading;
