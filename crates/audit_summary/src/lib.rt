//! What each member did in each symbol of an audited day, counted.
#![tactic(auto)]

mod columns;
mod lines;
mod rows;
mod sums;
mod totals;

pub use rows::{SummaryRows, SummaryTable};
