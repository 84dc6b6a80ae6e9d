//! What is told of a status.
ghost use Rattle.std.specs.Prelude.{◌≡◌, ◌≤◌};
ghost use Rattle.replay_core.specs.Statuses.{IsTold, told_of, yields};
ghost use Rattle.replay_core.specs.declared.status.Status.TheVariants.{WriteFault};

use crate::status::Status;
use io_edge::Sink;
use line_reader::{Ending, StatusText, tell, told_text};
use std::fmt;

/// The name under which a status is told.
const PROGRAM: &str = "pegreplay";

impl Ending for Status {
    ghost told = { told_of };

    ghost yields = { yields };

    ghost write_fault = { λ _. WriteFault };

    fn push_told(self, text: &mut StatusText) {
        match self {
            Status::Done => {}
            Status::BadWords => text.push(b"bad words"),
            Status::BadLine { line, cause } => {
                text.push(b"line ");
                text.push_number(u64::from(line));
                text.push(b": ");
                text.push(cause.name().as_bytes());
            }
            Status::LimitLine { line, which } => {
                text.push(b"line ");
                text.push_number(u64::from(line));
                text.push(b": limit ");
                text.push(which.name().as_bytes());
            }
            Status::ReadFault => text.push(b"read fault"),
            Status::WriteFault => text.push(b"write fault"),
            Status::NoMemory => text.push(b"out of memory"),
        }
    }

    fn does_yield(self) -> bool {
        match self {
            Status::BadWords | Status::BadLine { .. } | Status::LimitLine { .. } => true,
            _ => false,
        }
    }

    fn to_write_fault(self) -> Status {
        Status::WriteFault
    }
}

impl fmt::Display for Status {
    ghost use Rattle.std.specs.Prelude.{Some};

    ghost output = { λ status. Some (told_of status) };

    fn fmt<W: fmt::Write>(&self, f: &mut fmt::Formatter<W>) -> fmt::Result {
        told_text(*self).fmt(f)
    }
}

/// Puts the text of a status, once, and gives the status that this makes of it.
pub(crate) fn tell_status<E: Sink>(status: Status, err: &mut E) -> Status
    ensures told { IsTold status result (E.told err.old) (E.told err.new) (E.faults err.old) (E.faults err.new) }
    ensures quiet { status ≡ Status.Done → err.new ≡ err.old }
    ensures later { E.faults err.old ≤ E.faults err.new }
{
    tell(PROGRAM, status, err)
}
