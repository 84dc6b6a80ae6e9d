//! How the program ends, and what it says then.
use std::fmt;

/// How the program ends.
#[derive(Clone, Copy, Debug, PartialEq, Eq)]
pub enum Exit {
    /// What was asked is done.
    Done,
    /// The words are none that the program knows.
    BadWords,
    /// Other machines would see the day, and nothing says that they may.
    OpenDoor,
    /// The journal could not be read.
    Unread,
    /// Output could not be written.
    Unwritten,
    /// Out of memory.
    NoMemory,
    /// The address could not be listened at.
    NoDoor,
    /// The journal is damaged, or is of another program.
    Damaged,
    /// The sockets failed.
    Sockets,
}

impl Exit {
    /// The status of the process.
    pub fn code(self) -> u8 {
        match self {
            Exit::Done => 0,
            Exit::BadWords | Exit::OpenDoor => 2,
            Exit::Unread => 5,
            Exit::Unwritten => 6,
            Exit::NoMemory => 7,
            Exit::NoDoor => 8,
            Exit::Damaged => 9,
            Exit::Sockets => 10,
        }
    }
}

impl fmt::Display for Exit {
    fn fmt<W: fmt::Write>(&self, f: &mut fmt::Formatter<W>) -> fmt::Result {
        f.write_str(match self {
            Exit::Done => "",
            Exit::BadWords =>
                "usage: pegwatch JOURNAL DESK ADDRESS, or pegwatch JOURNAL; see pegwatch --help",
            Exit::OpenDoor => {
                "ADDRESS is none of this machine, as 127.0.0.1:9464: everybody who reaches it would see the day; say --public if they may"
            }
            Exit::Unread => "the journal could not be read",
            Exit::Unwritten => "output could not be written",
            Exit::NoMemory => "out of memory: a day of so many lines wants more",
            Exit::NoDoor => "not listening: ADDRESS is none, or is taken",
            Exit::Damaged => "the journal is damaged, or was kept by another program",
            Exit::Sockets => "the sockets failed: start it again",
        })
    }
}
