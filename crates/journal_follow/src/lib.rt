//! Follows a journal while a venue writes it: the lines that stand there are worked by a machine, and then again and again those that
//! were added since. Nothing is written, and no lock is taken, so the venue does not notice.
#![tactic(auto)]

pub mod file;
mod following;
pub mod laws;
mod memory;
mod piece;
mod system;
#[cfg(test)]
mod tests;

pub use file::JournalFile;
pub use following::{FollowFault, Follower, Looked};
pub use memory::MemJournal;
pub use system::SystemJournal;
