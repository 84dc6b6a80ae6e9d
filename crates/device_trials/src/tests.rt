//! One module for each crate that is tried.
mod edges;
mod files;
mod journals;
