//! How the program ends.
ghost use Rattle.std.specs.Prelude.{◌≡◌, OnErr, OnOk};
ghost use Rattle.audit_telling.specs.Exits.{IsExit, exit_code};

use std::io;

/// How the program ends.
#[derive(Clone, Copy, Debug, PartialEq, Eq)]
pub enum Exit {
    /// The listing is the one of its own events, and these are what the feeds ask, where some are named; or help was put.
    Done,
    /// A line of the listing differs, or its events are not what the feeds ask.
    Differs,
    BadWords,
    BadLine,
    Limit,
    ReadFault,
    WriteFault,
    NoMemory,
    /// The listing has no such event, or no order entered at it.
    NotThere,
}

impl Exit {
    /// Its status.
    pub fn code(self) -> u8
        ensures { result ≡ exit_code self }
    {
        match self {
            Exit::Done => 0,
            Exit::Differs => 1,
            Exit::BadWords => 2,
            Exit::BadLine => 3,
            Exit::Limit => 4,
            Exit::ReadFault => 5,
            Exit::WriteFault => 6,
            Exit::NoMemory => 7,
            Exit::NotThere => 8,
        }
    }

    /// Tells of the ends that no file is the cause of.
    pub fn tell(self, rt: &HostRuntime) {
        let text = match self {
            Exit::WriteFault => "write fault",
            Exit::NoMemory => "out of memory",
            _ => return,
        };
        let _told = eprintln!(rt; "pegaudit: {text}");
    }
}

/// The exit, or a write fault where the text was not put.
pub fn told(put: io::Result<()>, exit: Exit) -> Exit
    ensures done { OnOk put (result ≡ exit) }
    ensures fault { OnErr put (result ≡ Exit.WriteFault) }
    ensures ends { IsExit exit result }
{
    match put {
        Ok(()) => exit,
        Err(_) => Exit::WriteFault,
    }
}
