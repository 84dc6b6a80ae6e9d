//! One module for each crate that is tried.
mod desks;
mod lines;
