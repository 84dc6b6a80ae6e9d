//! The words of a live day: the lines of a round, whose a connection is by its first bytes, who may log on from where, what operators
//! write and are told, which quotes of a market stand, and what the log says.
#![tactic(auto)]

mod access;
mod batch;
mod events;
mod frames;
mod lines;
mod markets;
mod naming;
mod setup;
mod silence;
mod status;
mod words;

pub use access::{Access, Network, Origin, Rule, address_of};
pub use batch::{push_all, push_copy, push_empty, push_moment_line, push_open};
pub use events::{Cause, Event, Names, Told};
pub use frames::{Addressed, frame_of};
pub use lines::{bytes_line, empty_line, moment_line, open_line};
pub use markets::Market;
pub use naming::{Claim, claimed_by};
pub use setup::Setup;
pub use silence::push_stale;
pub use status::{Counts, Standing, end_line, member_line, status_line, symbol_line};
pub use words::{Quoted, Word, read_word};
