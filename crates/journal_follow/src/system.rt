//! The trusted edge: a file of the system. A read is one call of the system's, and nothing is claimed of what it gives.
ghost use Rattle.std.specs.Prelude.{None};

use crate::file::JournalFile;
use io_edge::Failed;
use std::fs::File;
use std::io;
use std::os::unix::fs::FileExt;
use std::rt::Files;

/// A file that is opened to be read. No lock is taken, so whoever writes it does not notice.
#[derive(Drop)]
pub struct SystemJournal {
    file: File,
    faults: u64,
}

impl SystemJournal {
    /// Opens a file that is there.
    pub fn open<R: Files<File = File>>(rt: &R, name: &str) -> io::Result<SystemJournal> {
        Ok(SystemJournal {
            file: File::open(rt, name)?,
            faults: 0,
        })
    }

    /// How many bytes the file has.
    pub fn size(&self) -> io::Result<u64> {
        Ok(self.file.metadata()?.len())
    }
}

impl JournalFile for SystemJournal {
    ghost faults = { λ file. file.faults };

    ghost told = { λ _. None };

    fn read_at(&mut self, at: u64, buffer: &mut [u8]) -> Result<usize, Failed> {
        match self.file.read_at(buffer, at) {
            Ok(count) => Ok(count.min(buffer.len())),
            Err(_) => {
                self.faults = self.faults.saturating_add(1);
                Err(Failed)
            }
        }
    }
}
