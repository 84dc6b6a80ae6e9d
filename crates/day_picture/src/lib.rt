//! The chart of a symbol's day, as SVG: the national quote, trades and the shares that rest, over time. It is drawn from bounded columns, whatever
//! the day. Nothing is claimed of the picture.
#![tactic(auto)]

pub mod axis;
pub mod columns;
mod panels;
pub mod picture;
mod scale;
pub mod style;
pub mod svg;

pub use columns::Columns;
pub use picture::{Range, Sketch};
