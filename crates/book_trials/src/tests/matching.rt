//! Tests of what matching stands on, one module for each crate that is tried.
mod checks;
mod moves;
mod random;
mod sides;
mod tree;
