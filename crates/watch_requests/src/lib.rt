//! The requests of HTTP that a page of figures answers: `GET` and `HEAD` of `/` and of `/metrics`.
#![tactic(auto)]

mod answering;
mod reading;
#[cfg(test)]
mod tests;

pub use answering::{bad_head, head_of};
pub use reading::{MAX_FIELDS, Reading, Request, What, read};
