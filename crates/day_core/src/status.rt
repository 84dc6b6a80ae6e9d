//! How a day ended, what is told of it, and the program's exit.
ghost use Rattle.std.specs.Prelude.{◌≡◌};
ghost use Rattle.day_core.specs.Statuses.{exit_of, opening_refused, refused, told_of, words_refused, yields};
ghost use Rattle.day_core.specs.declared.status.DayStatus.TheVariants.{WriteFault};

use day_journal::OpenRefusal;
use line_reader::{Ending, StatusText, told_text};
use program_words::WordFault;
use script_text::{LimitCause, LineCause, LineFault};
use std::fmt;

/// How a day ended.
#[derive(Clone, Copy, Debug, PartialEq, Eq)]
pub enum DayStatus {
    /// The script was worked to its end: its whole output was put, and the journal has its lines and no others.
    Done,
    /// The words are not a script's name and a journal's.
    BadWords,
    /// That line is the first one outside the grammar. The output of the lines before was put, and the line is not appended.
    BadLine { line: u32, cause: LineCause },
    /// That line is the first one that would pass a limit. The output of the lines before was put, and the line is not appended.
    LimitLine { line: u32, which: LimitCause },
    /// That line of the journal is the first one that is not the script's, or that the script does not have. The output of
    /// the lines before was put, and the journal is as it was.
    Differs { line: u32 },
    /// The journal is damaged at this place, counted in bytes from 0. Nothing was put.
    Damaged { at: u64 },
    /// A call of the disk failed. The output of the lines that are in the journal was put, but for the last one's at the most.
    DiskFault,
    /// The script could not be opened or read. The output of the whole lines that were read was put.
    ReadFault,
    /// A write failed. The line whose output was not put whole is in the journal.
    WriteFault,
    /// Memory was wanted. A line whose output was put is in the journal.
    NoMemory,
}

/// The status of a refused line.
pub(crate) fn refused(fault: LineFault) -> DayStatus
    ensures { result ≡ refused fault }
{
    match fault {
        LineFault::Bad { line, cause } => DayStatus::BadLine { line, cause },
        LineFault::Limit { line, which } => DayStatus::LimitLine { line, which },
        LineFault::NoMemory => DayStatus::NoMemory,
    }
}

/// Why words have no form.
pub(crate) fn words_refused(fault: WordFault) -> DayStatus
    ensures { result ≡ words_refused fault }
{
    match fault {
        WordFault::BadWords => DayStatus::BadWords,
        WordFault::NoMemory => DayStatus::NoMemory,
    }
}

/// Why a journal was not opened.
pub(crate) fn opening_refused(refusal: OpenRefusal) -> DayStatus
    ensures { result ≡ opening_refused refusal }
{
    match refusal {
        OpenRefusal::DiskFault => DayStatus::DiskFault,
        OpenRefusal::Damaged { at } => DayStatus::Damaged { at },
        OpenRefusal::NoMemory => DayStatus::NoMemory,
    }
}

/// The exit of the program.
pub fn exit_code(status: DayStatus) -> u8
    ensures { result ≡ exit_of status }
{
    match status {
        DayStatus::Done => 0,
        DayStatus::BadWords => 2,
        DayStatus::BadLine { .. } => 3,
        DayStatus::LimitLine { .. } => 4,
        DayStatus::ReadFault => 5,
        DayStatus::WriteFault => 6,
        DayStatus::NoMemory => 7,
        DayStatus::DiskFault => 10,
        DayStatus::Damaged { .. } => 11,
        DayStatus::Differs { .. } => 12,
    }
}

impl Ending for DayStatus {
    ghost told = { told_of };

    ghost yields = { yields };

    ghost write_fault = { λ _. WriteFault };

    fn push_told(self, text: &mut StatusText) {
        match self {
            DayStatus::Done => {}
            DayStatus::BadWords => text.push(b"bad words"),
            DayStatus::BadLine { line, cause } => {
                text.push(b"line ");
                text.push_number(u64::from(line));
                text.push(b": ");
                text.push(cause.name().as_bytes());
            }
            DayStatus::LimitLine { line, which } => {
                text.push(b"line ");
                text.push_number(u64::from(line));
                text.push(b": limit ");
                text.push(which.name().as_bytes());
            }
            DayStatus::Differs { line } => {
                text.push(b"line ");
                text.push_number(u64::from(line));
                text.push(b" differs");
            }
            DayStatus::Damaged { at } => {
                text.push(b"journal damaged at ");
                text.push_number(at);
            }
            DayStatus::DiskFault => text.push(b"disk fault"),
            DayStatus::ReadFault => text.push(b"read fault"),
            DayStatus::WriteFault => text.push(b"write fault"),
            DayStatus::NoMemory => text.push(b"out of memory"),
        }
    }

    fn does_yield(self) -> bool {
        match self {
            DayStatus::BadWords | DayStatus::BadLine { .. } | DayStatus::LimitLine { .. } => true,
            _ => false,
        }
    }

    fn to_write_fault(self) -> DayStatus {
        DayStatus::WriteFault
    }
}

impl fmt::Display for DayStatus {
    ghost use Rattle.std.specs.Prelude.{Some};

    ghost output = { λ status. Some (told_of status) };

    fn fmt<W: fmt::Write>(&self, f: &mut fmt::Formatter<W>) -> fmt::Result {
        told_text(*self).fmt(f)
    }
}
