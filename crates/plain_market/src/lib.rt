//! A plain and slow program of the market's rules, over lists: the definitions of `eager_meaning` line by line, for tests that hold the
//! venue's books to it. No program that serves or replays stands on it.
#![tactic(auto)]

mod asked;
mod changing;
mod entering;
mod matching;
mod notices;
mod orders;
mod pegging;
mod plain;
mod priority;
mod quoting;
mod rechecking;
mod trading;
mod views;
mod walking;

pub use pegging::{best_of, national, peg_value, row_value, value_under};
pub use plain::plain_run;
pub use walking::{floor, may_fill};
