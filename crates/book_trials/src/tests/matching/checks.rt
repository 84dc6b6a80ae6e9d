//! What a trial finds.
use std::process::Abort;

/// What was compared holds, at a place of the trial.
pub fn check(rt: &impl Abort, holds: bool, what: &str, place: u32) {
    assert!(rt; holds, "{what} at {place}");
}
