//! One side of a book: rows priced together by key, and a plain list of rows for comparison.
#![tactic(auto)]

mod first;
pub mod flat;
mod flat_best;
pub mod flat_side;
pub mod group;
pub mod group_side;
mod groups;
mod looking;
mod pricing;
mod room;
pub mod side_book;

pub use flat_side::FlatSide;
pub use group_side::GroupSide;
pub use side_book::{SideBook, Taken};
