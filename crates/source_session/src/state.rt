//! How far a connection to a source has come.
ghost use Rattle.std.specs.Prelude.{◌≡◌};
ghost use Rattle.source_session.specs.Messages.{is_over, first};

use std::fmt;

/// Why a connection to a source has ended.
#[derive(Clone, Copy, Debug, PartialEq, Eq)]
pub enum SourceEnd {
    /// The source sent a Logout.
    Logout,
    /// The source answered the Logon by a Logout.
    Refused,
    /// The first message of the source is neither a Logon nor a Logout.
    NotLogon,
    /// The source's Logon does not begin at number 1, as it was asked to.
    BadLogon,
    /// MsgSeqNum(34) is not there or is no number from 1 to 999,999,999.
    NoNumber,
    /// SenderCompID(49) is not the source, or TargetCompID(56) is not us.
    WrongName,
    /// A number that came before, without PossDupFlag(43).
    TooLow,
    /// A message was left out: its number did not come, or the source passes over numbers.
    Gap,
    /// A frame of more than 8,192 bytes.
    TooLong,
    /// Nothing came for three heartbeat intervals.
    Silent,
}

impl fmt::Display for SourceEnd {
    fn fmt<W: fmt::Write>(&self, f: &mut fmt::Formatter<W>) -> fmt::Result {
        f.write_str(match self {
            SourceEnd::Logout => "logged-out",
            SourceEnd::Refused => "logon-refused",
            SourceEnd::NotLogon => "no-logon",
            SourceEnd::BadLogon => "logon-without-reset",
            SourceEnd::NoNumber => "no-number",
            SourceEnd::WrongName => "wrong-name",
            SourceEnd::TooLow => "number-too-low",
            SourceEnd::Gap => "message-left-out",
            SourceEnd::TooLong => "frame-too-long",
            SourceEnd::Silent => "silent",
        })
    }
}

/// How far a connection has come.
#[derive(Clone, Copy, Debug, PartialEq, Eq)]
pub enum SourcePhase {
    /// Our Logon was sent, and the source's is awaited.
    Asked,
    Up,
    Ended(SourceEnd),
}

/// What decides about the next message.
#[derive(Clone, Copy, Debug, PartialEq, Eq)]
pub struct SourceState {
    pub phase: SourcePhase,
    /// The number that the next message is to have.
    pub next: u32,
}

impl SourceState {
    /// A connection on which nothing came yet.
    pub fn new() -> SourceState
        ensures { result ≡ first }
    {
        SourceState {
            phase: SourcePhase::Asked,
            next: 1,
        }
    }
}

impl SourcePhase {
    /// Whether the connection has ended.
    pub fn is_over(self) -> bool
        ensures { result ≡ is_over self }
    {
        matches!(self, SourcePhase::Ended(_))
    }
}
