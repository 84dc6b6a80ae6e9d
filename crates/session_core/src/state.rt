//! What a session remembers.
ghost use Rattle.std.specs.Prelude.{◌≡◌};
ghost use Rattle.session_core.specs.State.{ended, heard, is_up, is_over, cause_of};

use std::fmt;

/// Why a connection ended. It stays ended until a new one begins.
#[derive(Clone, Copy, Debug, PartialEq, Eq)]
pub enum EndCause {
    /// The member sent a Logout.
    Logout,
    /// A number that came before, without PossDupFlag(43); Text(58) is `TOO LOW`.
    TooLow,
    /// The first message is no Logon. Nothing is sent.
    NotLogon,
    /// A Logon that fails a check or asks for what this venue does not do; `BAD LOGON`.
    BadLogon,
    /// MsgSeqNum(34) is not there or is no number from 1 to 999,999,999; `NO NUMBER`.
    NoNumber,
    /// SenderCompID(49) is not the member or TargetCompID(56) is not the venue; `WRONG NAME`.
    WrongName,
    /// Nothing came for three heartbeat intervals; `SILENT`.
    Silent,
    /// A frame of more than 8,192 bytes; `TOO LONG`.
    TooLong,
}

impl EndCause {
    ghost use Rattle.session_core.specs.EndCauses.{end_text};

    /// Why a connection ended, in words.
    #[tactic(auto, unfolding(crate::specs::EndCauses::end_text))]
    pub fn text(self) -> &'static str
        ensures { result.now ≡ end_text self }
    {
        match self {
            EndCause::Logout => "the member logs out",
            EndCause::TooLow => {
                "MsgSeqNum (34) is lower than the one to come, and PossDupFlag (43) is not Y"
            }
            EndCause::NotLogon => {
                "the first message of a connection is no Logon, and nothing is sent before one"
            }
            EndCause::BadLogon => {
                "the Logon fails a check, or asks for what this venue does not do"
            }
            EndCause::NoNumber => "MsgSeqNum (34) is missing, or is no number from 1 to 999999999",
            EndCause::WrongName => {
                "SenderCompID (49) is not the member, or TargetCompID (56) is not PEGV"
            }
            EndCause::Silent => "nothing came for three heartbeat intervals",
            EndCause::TooLong => "a message declares more than 8192 bytes",
        }
    }
}

impl fmt::Display for EndCause {
    ghost use Rattle.std.specs.Prelude.{Some};
    ghost use Rattle.session_core.specs.EndCauses.{end_text};

    ghost output = { λ cause. Some (end_text cause) };

    fn fmt<W: fmt::Write>(&self, f: &mut fmt::Formatter<W>) -> fmt::Result {
        f.write_str(self.text())
    }
}

/// How far a connection has come.
#[derive(Clone, Copy, Debug, PartialEq, Eq)]
pub enum Phase {
    /// Before the Logon.
    New,
    Up,
    /// Ended, without a cause where memory was wanted.
    Ended(Option<EndCause>),
}

/// What a session remembers beside the messages that it sent.
#[derive(Clone, Copy, Debug, PartialEq, Eq)]
pub struct State {
    pub phase: Phase,
    /// The number that the member's next message is to have.
    pub next_in: u32,
    /// HeartBtInt(108): the heartbeat interval in seconds; 0 is without heartbeats.
    pub heartbeat: u32,
    /// The moment of the last frame received, in milliseconds since 1970-01-01 00:00 UTC.
    pub received: i64,
    /// The moment of the last frame sent.
    pub sent_at: i64,
    /// Whether a TestRequest waits for an answer.
    pub test_out: bool,
}

/// The state after the connection ended.
pub fn ended(cause: EndCause, state: State) -> State
    ensures { result ≡ ended cause state }
{
    State {
        phase: Phase::Ended(Some(cause)),
        ..state
    }
}

/// The state after a frame was received.
pub fn heard(moment: i64, state: State) -> State
    ensures { result ≡ heard moment state }
{
    State {
        received: moment,
        test_out: false,
        ..state
    }
}

/// Whether a Logon was taken and the connection has not ended.
pub fn is_up(state: State) -> bool
    ensures { result ≡ is_up state }
{
    match state.phase {
        Phase::Up => true,
        Phase::New | Phase::Ended(_) => false,
    }
}

/// Whether the connection has ended.
pub fn is_over(phase: Phase) -> bool
    ensures { result ≡ is_over phase }
{
    match phase {
        Phase::New | Phase::Up => false,
        Phase::Ended(_) => true,
    }
}

/// Why the connection ended, where it did.
pub fn cause_of(phase: Phase) -> Option<EndCause>
    ensures { result ≡ cause_of phase }
{
    match phase {
        Phase::New | Phase::Up => None,
        Phase::Ended(cause) => cause,
    }
}
