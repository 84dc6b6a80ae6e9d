//! What a session is told by the clock, and what it tells an operator.
use source_session::Refused;

/// What an operator is told.
#[derive(Clone, Copy, Debug, PartialEq, Eq)]
pub enum Note {
    /// The source answered our Logon.
    LoggedOn,
    /// The source refused what we sent; the session goes on.
    Complains,
    /// A snapshot was refused; the session goes on.
    Refused(Refused),
}

/// A clock, and somebody who is told. Nothing is claimed of either.
pub trait Watch {
    /// The present moment, in milliseconds since 1970-01-01 00:00 UTC.
    fn now(&mut self) -> i64;

    /// Tells what happened at a moment.
    fn note(&mut self, moment: i64, note: Note);
}
