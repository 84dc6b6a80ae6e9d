//! Laws of scripts and of desks: which commands a script records, that a script and the load script are taken to their ends, and
//! what of a member's stream does not matter to what comes of it. Each law is a statement over the definitions, proved as the
//! contract of a function that does nothing, but for `replay_whole` and `replay_surely`, which are calls of `replay`.
#![tactic(auto)]

mod complete;
mod desks;
mod scripts;

pub use complete::{replay_surely, replay_whole};
pub use desks::{any_cut, empty_exactly, frames_submit_alike, readings_submit_alike};
pub use scripts::{
    bodies_record_commands, lines_record_commands, load_never_faults, scripts_record_commands,
};
