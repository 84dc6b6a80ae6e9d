//! What is told of a status.
ghost use Rattle.serve_core.specs.Statuses.{told_of};

use crate::status::ServeStatus;
use line_reader::{Ending, StatusText, told_text};
use std::fmt;

impl<'a> Ending for ServeStatus<'a> {
    ghost use Rattle.serve_core.specs.Statuses.{told_of};
    ghost use Rattle.std.specs.Prelude.{false};

    ghost told = { told_of };

    ghost yields = { λ _. false };

    ghost write_fault = { λ status. status };

    fn push_told(self, text: &mut StatusText) {
        match self {
            ServeStatus::Done => {}
            ServeStatus::BadWords => text.push(b"bad words"),
            ServeStatus::BadLine { line, cause } => {
                text.push(b"line ");
                text.push_number(u64::from(line));
                text.push(b": ");
                text.push(cause.name().as_bytes());
            }
            ServeStatus::LimitLine { line, which } => {
                text.push(b"line ");
                text.push_number(u64::from(line));
                text.push(b": limit ");
                text.push(which.name().as_bytes());
            }
            ServeStatus::ReadFault => text.push(b"read fault"),
            ServeStatus::WriteFault => text.push(b"write fault"),
            ServeStatus::NoMemory => text.push(b"out of memory"),
            ServeStatus::Full { symbol } => {
                text.push(b"full ");
                text.push(&symbol[..symbol.len().min(16)]);
            }
            ServeStatus::ListenFault => text.push(b"listen fault"),
        }
    }

    fn does_yield(self) -> bool {
        false
    }

    fn to_write_fault(self) -> ServeStatus<'a> {
        self
    }
}

impl<'a> fmt::Display for ServeStatus<'a> {
    ghost use Rattle.std.specs.Prelude.{Some};

    ghost output = { λ status. Some (told_of status) };

    fn fmt<W: fmt::Write>(&self, f: &mut fmt::Formatter<W>) -> fmt::Result {
        told_text(*self).fmt(f)
    }
}
