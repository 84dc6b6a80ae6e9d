//! The commands of each feed go through a floor of its own, all feeds at once.
#![tactic(auto)]

mod pace;
mod share;

pub use pace::{Pace, Unpaced};
pub use share::{Worked, work_feeds};
