//! What is told of a status.
ghost use Rattle.market_data.specs.Statuses.{told_of, yields};
ghost use Rattle.market_data.specs.declared.status.MarketStatus.TheVariants.{WriteFault};

use crate::status::{MarketStatus, cause_name};
use line_reader::{Ending, StatusText, told_text};
use std::fmt;

impl Ending for MarketStatus {
    ghost told = { told_of };

    ghost yields = { yields };

    ghost write_fault = { λ _. WriteFault };

    fn push_told(self, text: &mut StatusText) {
        match self {
            MarketStatus::Done => {}
            MarketStatus::BadWords => text.push(b"bad words"),
            MarketStatus::BadConfig { line, cause } => {
                text.push(b"line ");
                text.push_number(u64::from(line));
                text.push(b": ");
                text.push(cause.name().as_bytes());
            }
            MarketStatus::LimitConfig { line, which } => {
                text.push(b"line ");
                text.push_number(u64::from(line));
                text.push(b": limit ");
                text.push(which.name().as_bytes());
            }
            MarketStatus::LimitBytes => text.push(b"limit Bytes"),
            MarketStatus::Ended { cause } => {
                text.push(b"session ");
                text.push(cause_name(cause).as_bytes());
            }
            MarketStatus::ReadFault => text.push(b"read fault"),
            MarketStatus::WriteFault => text.push(b"write fault"),
            MarketStatus::NoMemory => text.push(b"out of memory"),
        }
    }

    fn does_yield(self) -> bool {
        match self {
            MarketStatus::BadWords
            | MarketStatus::BadConfig { .. }
            | MarketStatus::LimitConfig { .. } => true,
            _ => false,
        }
    }

    fn to_write_fault(self) -> MarketStatus {
        MarketStatus::WriteFault
    }
}

impl fmt::Display for MarketStatus {
    ghost use Rattle.std.specs.Prelude.{Some};

    ghost output = { λ status. Some (told_of status) };

    fn fmt<W: fmt::Write>(&self, f: &mut fmt::Formatter<W>) -> fmt::Result {
        told_text(*self).fmt(f)
    }
}
