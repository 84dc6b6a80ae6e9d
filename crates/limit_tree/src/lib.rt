//! Resting rows in a balanced tree, by limit and entry.
#![tactic(auto)]

mod balance;
mod insert;
pub mod node;
mod remove;
mod search;
pub mod tree;

pub use node::{Node, fill, leaf};
pub use tree::LimitTree;
