//! What each line of a script does, in words, and why nothing is sent where nothing is. Nothing is promised of the words; what is
//! sent is put as `replay` puts it.
#![tactic(auto)]

mod explaining;
mod frames;
mod head;
mod names;
mod passed;
mod sent;
mod watcher;

pub use explaining::explain;
