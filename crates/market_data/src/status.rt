//! How a run ended.
ghost use Rattle.std.specs.Prelude.{◌≡◌, ◌≤◌, length};
ghost use Rattle.market_data.specs.Statuses.{cause_name, ended_by, exit_code, refused};

use line_reader::ConfigFault;
use script_text::{LimitCause, LineCause};
use session_core::EndCause;

/// How a run ended.
#[derive(Clone, Copy, Debug, PartialEq, Eq)]
pub enum MarketStatus {
    /// The source logged out, or the input was read to its end. The whole feed was put.
    Done,
    /// The words are not a config, a source's name and an input.
    BadWords,
    /// That line of the config is the first one outside the grammar. Nothing was put.
    BadConfig { line: u32, cause: LineCause },
    /// That line of the config is the first one that would pass a limit. Nothing was put.
    LimitConfig { line: u32, which: LimitCause },
    /// The input has more than `MAX_INPUT_BYTES` bytes, and the session goes on up to there. The feed of the bytes up to there was
    /// put.
    LimitBytes,
    /// The session ended by this cause, which is no Logout. The feed of the bytes up to there was put.
    Ended { cause: EndCause },
    /// A file could not be opened or read. The feed of the bytes that were read was put.
    ReadFault,
    /// A write failed. A beginning of the feed was put.
    WriteFault,
    /// Memory was wanted. A beginning of the feed was put.
    NoMemory,
}

/// The status of a config that was not read.
pub fn refused(fault: ConfigFault) -> MarketStatus
    ensures { result ≡ refused fault }
{
    match fault {
        ConfigFault::Bad { line, cause } => MarketStatus::BadConfig { line, cause },
        ConfigFault::Limit { line, which } => MarketStatus::LimitConfig { line, which },
        ConfigFault::ReadFault => MarketStatus::ReadFault,
        ConfigFault::NoMemory => MarketStatus::NoMemory,
    }
}

/// The status of a session that ended.
pub fn ended_by(cause: EndCause) -> MarketStatus
    ensures { result ≡ ended_by cause }
{
    match cause {
        EndCause::Logout => MarketStatus::Done,
        _ => MarketStatus::Ended { cause },
    }
}

/// The exit status of a run.
pub fn exit_code(status: MarketStatus) -> u8
    ensures { result ≡ exit_code status }
{
    match status {
        MarketStatus::Done => 0,
        MarketStatus::BadWords => 2,
        MarketStatus::BadConfig { .. } => 3,
        MarketStatus::LimitConfig { .. } | MarketStatus::LimitBytes => 4,
        MarketStatus::ReadFault => 5,
        MarketStatus::WriteFault => 6,
        MarketStatus::NoMemory => 7,
        MarketStatus::Ended { .. } => 9,
    }
}

/// The name of a cause, as programs tell it.
#[tactic(auto, unfolding(crate::specs::Statuses::cause_name))]
pub fn cause_name(cause: EndCause) -> &'static str
    ensures name { result.now ≡ cause_name cause }
    ensures short { length result.now ≤ 16 }
{
    match cause {
        EndCause::Logout => "Logout",
        EndCause::TooLow => "TooLow",
        EndCause::NotLogon => "NotLogon",
        EndCause::BadLogon => "BadLogon",
        EndCause::NoNumber => "NoNumber",
        EndCause::WrongName => "WrongName",
        EndCause::Silent => "Silent",
        EndCause::TooLong => "TooLong",
    }
}
