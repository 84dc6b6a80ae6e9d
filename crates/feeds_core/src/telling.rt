//! What is told of a status.
ghost use Rattle.std.specs.Prelude.{◌≡◌, ◌≤◌, ◌+◌, ◌++◌, [], codes, decimal, length};
ghost use Rattle.feeds_core.specs.Statuses.{IsTold, refusal_of};

use crate::status::{FeedsStatus, refusal_of};
use io_edge::Sink;
use line_reader::{Ending, StatusText, tell, told_text};
use program_words::WordFault;
use std::fmt;

/// The name under which a status is told.
pub(crate) const PROGRAM: &str = "pegvenue";

/// The end of a run: its status, and the name of the status's symbol, or nothing where it has none.
#[derive(Clone, Copy, Debug)]
pub struct RunEnd<'a> {
    pub status: FeedsStatus,
    pub name: &'a [u8],
    ghost short: { length name.now ≤ 16 },
}

impl<'a> Ending for RunEnd<'a> {
    ghost use Rattle.feeds_core.specs.Statuses.{told_of, yields};
    ghost use Rattle.feeds_core.specs.declared.status.FeedsStatus.TheVariants.{WriteFault};

    ghost told = { λ end. told_of end.name.now end.status };

    ghost yields = { λ end. yields end.status };

    ghost write_fault = { λ end. record end { status = WriteFault } };

    fn push_told(self, text: &mut StatusText) {
        match self.status {
            FeedsStatus::Done => {}
            FeedsStatus::BadWords => text.push(b"bad words"),
            FeedsStatus::BadFeed { file, line, cause } => {
                push_place(text, file, line);
                text.push(b": ");
                text.push(cause.name().as_bytes());
            }
            FeedsStatus::LimitFeed { file, line, which } => {
                push_place(text, file, line);
                text.push(b": limit ");
                text.push(which.name().as_bytes());
            }
            FeedsStatus::Full { .. } => {
                text.push(b"full ");
                text.push(self.name);
            }
            FeedsStatus::ReadFault => text.push(b"read fault"),
            FeedsStatus::WriteFault => text.push(b"write fault"),
            FeedsStatus::NoMemory => text.push(b"out of memory"),
        }
    }

    fn does_yield(self) -> bool {
        match self.status {
            FeedsStatus::BadWords
            | FeedsStatus::BadFeed { .. }
            | FeedsStatus::LimitFeed { .. }
            | FeedsStatus::Full { .. } => true,
            _ => false,
        }
    }

    fn to_write_fault(mut self) -> RunEnd<'a> {
        self.status = FeedsStatus::WriteFault;
        self
    }
}

impl<'a> fmt::Display for RunEnd<'a> {
    ghost use Rattle.std.specs.Prelude.{Some};
    ghost use Rattle.feeds_core.specs.Statuses.{told_of};

    ghost output = { λ end. Some (told_of end.name.now end.status) };

    fn fmt<W: fmt::Write>(&self, f: &mut fmt::Formatter<W>) -> fmt::Result {
        told_text(*self).fmt(f)
    }
}

/// Appends the place of a line.
fn push_place(text: &mut StatusText, file: u32, line: u32)
    requires { length text.old ≤ 18 }
    ensures place { text.new ≡ text.old ++ (codes "file " ++ (decimal file ++ (codes ": line " ++ decimal line))) }
    ensures size { length text.new ≤ 18 + 52 }
{
    text.push(b"file ");
    text.push_number(u64::from(file));
    text.push(b": line ");
    text.push_number(u64::from(line));
}

/// Ends a run whose words could not even be read: the text of the status that this makes is put to `err`, once.
pub fn refuse_words<E: Sink>(fault: WordFault, err: &mut E) -> FeedsStatus
    ensures told { IsTold [] (refusal_of fault) result (E.told err.old) (E.told err.new) (E.faults err.old) (E.faults err.new) }
    ensures later { E.faults err.old ≤ E.faults err.new }
{
    let end = RunEnd {
        status: refusal_of(fault),
        name: &[],
    };
    tell(PROGRAM, end, err).status
}
