//! Texts in columns, as an operator reads them to a broker.
#![tactic(auto)]

pub mod columns;
pub mod resting;
