//! How a session over a link ended.
use io_edge::Failed;
use member_gate::{DeskRefusal, EndCause};
use std::fmt;
use venue_words::NoMemory;

/// How a session over a link ended.
#[derive(Clone, Copy, Debug, PartialEq, Eq)]
pub enum LinkEnd {
    /// The peer sent a Logout.
    Logout,
    /// The peer gives no more.
    PeerEnd,
    /// A number that came before, without PossDupFlag(43).
    TooLow,
    /// The first message is no Logon.
    NotLogon,
    /// A Logon that fails a check or asks for what this venue does not do.
    BadLogon,
    /// MsgSeqNum(34) is not there or is no number from 1 to 999,999,999.
    NoNumber,
    /// SenderCompID(49) is no member, or not the one of this connection, or TargetCompID(56) is not the venue.
    WrongName,
    /// Another connection serves the member.
    InUse,
    /// Nothing came for three heartbeat intervals.
    Silent,
    /// A frame of more than 8,192 bytes.
    TooLong,
    /// A command came to a symbol whose journal held its limit, which is this number of events.
    Full { symbol: u32, found: u32 },
    /// The link failed.
    LinkFault,
    /// Memory was wanted.
    NoMemory,
}

impl From<EndCause> for LinkEnd {
    ghost use Rattle.std.specs.Prelude.{◌≡◌};
    ghost use Rattle.link_work.specs.Ends.{end_of};

    ghost from_gives = { λ cause end. end ≡ end_of cause };

    fn from(cause: EndCause) -> LinkEnd {
        match cause {
            EndCause::Logout => LinkEnd::Logout,
            EndCause::TooLow => LinkEnd::TooLow,
            EndCause::NotLogon => LinkEnd::NotLogon,
            EndCause::BadLogon => LinkEnd::BadLogon,
            EndCause::NoNumber => LinkEnd::NoNumber,
            EndCause::WrongName => LinkEnd::WrongName,
            EndCause::Silent => LinkEnd::Silent,
            EndCause::TooLong => LinkEnd::TooLong,
        }
    }
}

impl From<DeskRefusal> for LinkEnd {
    ghost use Rattle.std.specs.Prelude.{◌≡◌};
    ghost use Rattle.link_work.specs.Ends.{refused};

    ghost from_gives = { λ refusal end. end ≡ refused refusal };

    fn from(refusal: DeskRefusal) -> LinkEnd {
        match refusal {
            DeskRefusal::Full { symbol, found } => LinkEnd::Full { symbol, found },
            DeskRefusal::NoMemory => LinkEnd::NoMemory,
        }
    }
}

impl From<NoMemory> for LinkEnd {
    ghost use Rattle.std.specs.Prelude.{◌≡◌};
    ghost use Rattle.link_work.specs.declared.ends.LinkEnd.TheVariants.{NoMemory};

    ghost from_gives = { λ _ end. end ≡ NoMemory };

    fn from(_error: NoMemory) -> LinkEnd {
        LinkEnd::NoMemory
    }
}

impl From<Failed> for LinkEnd {
    ghost use Rattle.std.specs.Prelude.{◌≡◌};
    ghost use Rattle.link_work.specs.declared.ends.LinkEnd.TheVariants.{LinkFault};

    ghost from_gives = { λ _ end. end ≡ LinkFault };

    fn from(_error: Failed) -> LinkEnd {
        LinkEnd::LinkFault
    }
}

impl fmt::Display for LinkEnd {
    ghost use Rattle.std.specs.Prelude.{Some};
    ghost use Rattle.link_work.specs.Ends.{end_text};

    ghost output = { λ end. Some (end_text end) };

    fn fmt<W: fmt::Write>(&self, f: &mut fmt::Formatter<W>) -> fmt::Result {
        let text = match self {
            LinkEnd::Logout => "logged out",
            LinkEnd::PeerEnd => "the peer ended",
            LinkEnd::TooLow => "a number too low",
            LinkEnd::NotLogon => "no logon",
            LinkEnd::BadLogon => "a bad logon",
            LinkEnd::NoNumber => "no number",
            LinkEnd::WrongName => "a wrong name",
            LinkEnd::InUse => "the member is connected",
            LinkEnd::Silent => "silence",
            LinkEnd::TooLong => "a frame too long",
            LinkEnd::Full { symbol, found } => {
                return write!(f, "symbol {symbol} is full at {found} events");
            }
            LinkEnd::LinkFault => "a fault of the link",
            LinkEnd::NoMemory => "out of memory",
        };
        f.write_str(text)
    }
}
