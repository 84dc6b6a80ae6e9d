//! A symbol's book behind an event of an audited day: both sides as they queue.
#![tactic(auto)]

mod page;
pub mod queues;
mod rows;

pub use rows::{BookAnswer, BookRows, SoughtBookRows};
