//! How the program ends, and what it says then.
use live_core::{DayEnd, LiveEnd};
use std::fmt;

/// How the program ends.
#[derive(Clone, Copy, Debug, PartialEq, Eq)]
pub enum Exit {
    /// What was asked is done.
    Done,
    /// The words are none that the program knows.
    BadWords,
    /// Members of other machines would be let in, and nothing says who may log on from where.
    OpenDoor,
    /// The config will not do.
    BadConfig,
    /// The file of who may log on from where will not do.
    BadAccess,
    /// A file could not be read.
    Unread,
    /// Output could not be written.
    Unwritten,
    /// An address could not be listened at.
    NoDoor,
    /// Another process holds the journal.
    Held,
    /// Out of memory.
    NoMemory,
    /// The day ended so.
    Day(DayEnd),
}

impl Exit {
    /// The status of the process.
    pub fn code(self) -> u8 {
        match self {
            Exit::Done | Exit::Day(DayEnd::Lived(LiveEnd::Stopped)) => 0,
            Exit::BadWords | Exit::OpenDoor => 2,
            Exit::BadConfig | Exit::BadAccess | Exit::Day(DayEnd::BadHead | DayEnd::OtherHead) => 3,
            Exit::Day(DayEnd::Lived(LiveEnd::Full) | DayEnd::Unkept(LiveEnd::Full)) => 4,
            Exit::Unread => 5,
            Exit::Unwritten => 6,
            Exit::NoMemory => 7,
            Exit::NoDoor => 8,
            Exit::Day(DayEnd::Damaged { .. } | DayEnd::Refused { .. } | DayEnd::Halted) => 9,
            Exit::Held | Exit::Day(_) => 10,
        }
    }
}

/// What a day that was lived ended by.
#[derive(Clone, Copy)]
struct Lived(LiveEnd);

impl fmt::Display for Lived {
    fn fmt<W: fmt::Write>(&self, f: &mut fmt::Formatter<W>) -> fmt::Result {
        f.write_str(match self.0 {
            LiveEnd::Stopped =>
                "stopped: all that came in is in the journal, and its output was sent",
            LiveEnd::EdgeFault =>
                "the sockets failed, or memory for what comes in ran out; start again with the same words",
            LiveEnd::PutFault =>
                "output could not be sent; it is in the journal: start again with the same words",
            LiveEnd::DiskFault =>
                "the disk failed: see to it, then start again with the same words; what was answered is kept",
            LiveEnd::Full => "the journal has no room: begin a new day with a new journal",
            LiveEnd::Halted =>
                "a symbol is full: no line of the last batch is kept; raise its limit for the next day",
            LiveEnd::NoMemory =>
                "out of memory; what was answered is kept: start again with the same words",
        })
    }
}

impl fmt::Display for Exit {
    fn fmt<W: fmt::Write>(&self, f: &mut fmt::Formatter<W>) -> fmt::Result {
        match self {
            Exit::Done => Ok(()),
            Exit::BadWords => f.write_str(
                "usage: peglive CONFIG JOURNAL ADDRESS DESK, or peglive check CONFIG; see peglive --help",
            ),
            Exit::OpenDoor => f.write_str(
                "members of other machines are let in only with --access FILE, which says who may log on from where: write that file, or listen at an address of this machine, as 127.0.0.1:7001",
            ),
            Exit::BadConfig => f.write_str("the config will not do"),
            Exit::BadAccess => f.write_str("the access file will not do"),
            Exit::Unread => f.write_str("a file could not be read"),
            Exit::Unwritten => f.write_str("output could not be written"),
            Exit::NoDoor => f.write_str("not listening"),
            Exit::Held => f.write_str(
                "another process holds the journal: only one venue may run over it, so see whether one runs already",
            ),
            Exit::NoMemory => f.write_str("out of memory"),
            Exit::Day(DayEnd::Lived(end)) | Exit::Day(DayEnd::Unkept(end)) => {
                write!(f, "{}", Lived(*end))
            }
            Exit::Day(DayEnd::Damaged { at }) => write!(
                f,
                "the journal is damaged at byte {at}: it was cut off or changed by something else; restore it, or begin a new one"
            ),
            Exit::Day(DayEnd::OtherHead) => f.write_str(
                "the journal is of another config: name that config, or a new journal",
            ),
            Exit::Day(DayEnd::BadHead) => f.write_str(
                "the config will not do: run peglive check CONFIG",
            ),
            Exit::Day(DayEnd::Refused { line }) => write!(
                f,
                "line {line} of the journal is none that this program takes: it was kept by another version"
            ),
            Exit::Day(DayEnd::Halted) => f.write_str(
                "a line of the journal, or of the config, is refused",
            ),
            Exit::Day(DayEnd::DiskFault) => f.write_str("the journal could not be opened or read"),
            Exit::Day(DayEnd::NoMemory) => f.write_str(
                "out of memory: a day of so many lines wants more",
            ),
        }
    }
}
