//! A picture of a symbol's day, made of its listing while it is audited. Nothing is promised of the picture but that it is made
//! where the listing is one.
#![tactic(auto)]

pub mod day;
pub mod drawing;
mod picture;

pub use drawing::{Drawn, draw_day};
