//! How the program ends, and what it says then.
use std::fmt;

/// How the program ends.
#[derive(Clone, Copy, Debug, PartialEq, Eq)]
pub enum Exit {
    /// What was asked is done.
    Done,
    /// The words are none that the program knows.
    BadWords,
    /// A symbol that was named is not in the config.
    UnknownSymbol,
    /// The config will not do.
    BadConfig,
    /// A file could not be read.
    Unread,
    /// Standard output or standard error could not be written.
    Unwritten,
    /// Out of memory.
    NoMemory,
    /// The only session that was asked for failed.
    Failed,
}

impl Exit {
    /// The status of the process.
    pub fn code(self) -> u8 {
        match self {
            Exit::Done => 0,
            Exit::BadWords | Exit::UnknownSymbol => 2,
            Exit::BadConfig => 3,
            Exit::Unread => 5,
            Exit::Unwritten => 6,
            Exit::NoMemory => 7,
            Exit::Failed => 10,
        }
    }
}

impl fmt::Display for Exit {
    fn fmt<W: fmt::Write>(&self, f: &mut fmt::Formatter<W>) -> fmt::Result {
        f.write_str(match self {
            Exit::Done => "done",
            Exit::BadWords => {
                "usage: pegfeed CONFIG MARKETDATA_ADDRESS SENDER TARGET DESK [SYMBOL ..] [--conflate MS]; see pegfeed --help"
            }
            Exit::UnknownSymbol => "a symbol is not in the config",
            Exit::BadConfig => "the config will not do: run peglive check CONFIG",
            Exit::Unread => "the config could not be read",
            Exit::Unwritten => "output could not be written",
            Exit::NoMemory => "out of memory",
            Exit::Failed => "the session failed",
        })
    }
}
