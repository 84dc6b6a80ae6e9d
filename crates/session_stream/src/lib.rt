//! A session over a stream of bytes that comes in pieces: each frame goes through the session, and what it hands out is
//! answered by whoever runs it. The definitions and their laws are here; each caller takes its frames from a framer itself,
//! since a turn borrows its frame.
#![tactic(auto)]

pub mod laws;
