//! How a run ended.
ghost use Rattle.std.specs.Prelude.{◌≡◌};
ghost use Rattle.replay_core.specs.Statuses.{exit_code, refusal_of, status_of};

use program_words::WordFault;
use script_text::{LimitCause, LineCause, LineFault};

/// How a run ended.
#[derive(Clone, Copy, Debug, PartialEq, Eq)]
pub enum Status {
    /// All was read to its end, and the whole output was put.
    Done,
    /// The words are not those of a run: a script's name, or `load` with two numbers from 0 to 200,000.
    BadWords,
    /// That line is the first one outside the grammar. The transcript of the lines before was put.
    BadLine { line: u32, cause: LineCause },
    /// That line is the first one that would pass a limit. The transcript of the lines before was put.
    LimitLine { line: u32, which: LimitCause },
    /// The script could not be opened or read. The transcript of the whole lines that were read was put.
    ReadFault,
    /// A write failed. A beginning of the output was put, of which the end may not have been written.
    WriteFault,
    /// Memory was wanted. A beginning of the output was put.
    NoMemory,
}

/// The status of a refused line.
pub fn status_of(fault: LineFault) -> Status
    ensures { result ≡ status_of fault }
{
    match fault {
        LineFault::Bad { line, cause } => Status::BadLine { line, cause },
        LineFault::Limit { line, which } => Status::LimitLine { line, which },
        LineFault::NoMemory => Status::NoMemory,
    }
}

/// Why words have no form.
pub fn refusal_of(fault: WordFault) -> Status
    ensures { result ≡ refusal_of fault }
{
    match fault {
        WordFault::BadWords => Status::BadWords,
        WordFault::NoMemory => Status::NoMemory,
    }
}

/// The program's exit status.
pub fn exit_code(status: Status) -> u8
    ensures { result ≡ exit_code status }
{
    match status {
        Status::Done => 0,
        Status::BadWords => 2,
        Status::BadLine { .. } => 3,
        Status::LimitLine { .. } => 4,
        Status::ReadFault => 5,
        Status::WriteFault => 6,
        Status::NoMemory => 7,
    }
}
