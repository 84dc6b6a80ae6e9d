//! A ticket lock round the book of one symbol, which keeps one history of all that the book took.
#![tactic(auto)]

mod calls;
mod gate;
mod rule;
mod seat;
mod turn;
mod view;

pub use gate::Gate;
pub use seat::Seat;
