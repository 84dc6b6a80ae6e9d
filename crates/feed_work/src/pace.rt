//! When the commands of a feed may go on.

/// What is called before each command of a feed is submitted, on the thread that submits it. It may hold its caller for a
/// while. It promises nothing, and no answer depends on it.
pub trait Pace {
    /// The feed, counted from 1, is about to submit its next command.
    fn before(&self, feed: u32);
}

/// Holds nobody.
#[derive(Clone, Copy, Debug)]
pub struct Unpaced;

impl Pace for Unpaced {
    fn before(&self, _feed: u32) {}
}
