//! What every session over a link shares: how it ends, how frames are put, and what is asked in a turn.
#![tactic(auto)]

pub mod asking;
pub mod ends;
pub mod putting;

pub use asking::{Asked, ask};
pub use ends::LinkEnd;
pub use putting::put_all;
