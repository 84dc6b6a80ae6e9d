//! How a run ended.
ghost use Rattle.std.specs.Prelude.{◌≡◌};
ghost use Rattle.feeds_core.specs.Statuses.{exit_of, refusal_of, refused_at};

use program_words::WordFault;
use script_text::{LimitCause, LineCause, LineFault};
use std::alloc::AllocError;
use venue_words::NoMemory;

/// How a run over feeds ended. The config is file 0, and the feeds are files 1, 2 and so on; lines are counted from 1.
#[derive(Clone, Copy, Debug, PartialEq, Eq)]
pub enum FeedsStatus {
    /// All feeds were worked to their ends, and the whole listing was put.
    Done,
    /// The words are not those of a run: a config's name, and behind it the names of 1 to 64 feeds.
    BadWords,
    /// That line of that file is the first one outside the grammar. Nothing was put.
    BadFeed {
        file: u32,
        line: u32,
        cause: LineCause,
    },
    /// That line of that file is the first one that would pass a limit. Nothing was put.
    LimitFeed {
        file: u32,
        line: u32,
        which: LimitCause,
    },
    /// The feeds have more commands for that symbol, the first such, than its journal may hold. Nothing was put.
    Full {
        symbol: u32,
    },
    /// A file could not be opened or read. Nothing was put.
    ReadFault,
    /// A write failed. A beginning of a listing was put.
    WriteFault,
    /// Memory was wanted. A beginning of a listing was put.
    NoMemory,
}

impl From<NoMemory> for FeedsStatus {
    ghost use Rattle.feeds_core.specs.declared.status.FeedsStatus.TheVariants.{NoMemory as memory};

    ghost from_gives = { λ _ status. status ≡ memory };

    fn from(_error: NoMemory) -> FeedsStatus {
        FeedsStatus::NoMemory
    }
}

impl From<AllocError> for FeedsStatus {
    ghost use Rattle.feeds_core.specs.declared.status.FeedsStatus.TheVariants.{NoMemory as memory};

    ghost from_gives = { λ _ status. status ≡ memory };

    fn from(_error: AllocError) -> FeedsStatus {
        FeedsStatus::NoMemory
    }
}

/// The status of words that name no files.
pub fn refusal_of(fault: WordFault) -> FeedsStatus
    ensures { result ≡ refusal_of fault }
{
    match fault {
        WordFault::BadWords => FeedsStatus::BadWords,
        WordFault::NoMemory => FeedsStatus::NoMemory,
    }
}

/// The status of a refused line of a file.
pub fn refused_at(file: u32, fault: LineFault) -> FeedsStatus
    ensures { result ≡ refused_at file fault }
{
    match fault {
        LineFault::Bad { line, cause } => FeedsStatus::BadFeed { file, line, cause },
        LineFault::Limit { line, which } => FeedsStatus::LimitFeed { file, line, which },
        LineFault::NoMemory => FeedsStatus::NoMemory,
    }
}

/// The exit status of the program.
pub fn exit_code(status: FeedsStatus) -> u8
    ensures { result ≡ exit_of status }
{
    match status {
        FeedsStatus::Done => 0,
        FeedsStatus::BadWords => 2,
        FeedsStatus::BadFeed { .. } => 3,
        FeedsStatus::LimitFeed { .. } => 4,
        FeedsStatus::ReadFault => 5,
        FeedsStatus::WriteFault => 6,
        FeedsStatus::NoMemory => 7,
        FeedsStatus::Full { .. } => 8,
    }
}
