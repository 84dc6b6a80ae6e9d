//! The trusted edge: one file of the system. Each call is one of the system's, and nothing is claimed of what it does.
ghost use Rattle.std.specs.Prelude.{None};
ghost use Rattle.day_journal.specs.Disk.{tells_nothing};
ghost use Rattle.day_journal.specs.FileHold.{just_opened};

use crate::file_calls::FileCalls;
use std::fs::{File, OpenOptions, TryLockError};
use std::io;
use std::io::ErrorKind;
use std::os::unix::fs::FileExt;
use std::rt::Files;

/// A file of the system. It tells nothing.
#[derive(Drop)]
pub struct SystemFile<'a, R: Files<File = File>> {
    rt: &'a R,
    file: Option<File>,
}

impl<'a, R: Files<File = File>> SystemFile<'a, R> {
    /// Over the files of the system; none is open.
    pub fn new(rt: &'a R) -> SystemFile<'a, R> {
        SystemFile { rt, file: None }
    }

    fn file(&self) -> io::Result<&File> {
        match &self.file {
            Some(file) => Ok(file),
            None => Err(io::Error::from(ErrorKind::NotFound)),
        }
    }
}

impl<'a, R: Files<File = File>> FileCalls for SystemFile<'a, R> {
    ghost use Rattle.day_journal.specs.DiskLaws.{reads_nothing};

    ghost hold = { λ _. just_opened };

    ghost file_name = { λ _. None };

    ghost told = { λ _. tells_nothing };

    ghost as_it_reads = { λ _ honest. reads_nothing honest };

    ghost counts_now = { λ _ _ _ honest _ _. reads_nothing honest };

    ghost only_now = { λ _ _ honest _. reads_nothing honest };

    fn open(&mut self, name: &str) -> io::Result<()> {
        let mut options = OpenOptions::new();
        options.read(true).write(true).create(true);
        self.file = None; // which gives its lock back
        self.file = Some(options.open(self.rt, name)?);
        Ok(())
    }

    fn try_lock(&mut self) -> Result<(), TryLockError> {
        match self.file() {
            Ok(file) => file.try_lock(),
            Err(error) => Err(TryLockError::Error(error)),
        }
    }

    fn sync_folder(&mut self, folder: &str) -> io::Result<()> {
        File::open(self.rt, folder)?.sync_all()
    }

    fn size(&mut self) -> io::Result<u64> {
        Ok(self.file()?.metadata()?.len())
    }

    fn read_at(&mut self, at: u64, buffer: &mut [u8]) -> io::Result<usize> {
        self.file()?.read_at(buffer, at)
    }

    fn write_at(&mut self, at: u64, bytes: &[u8]) -> io::Result<usize> {
        self.file()?.write_at(bytes, at)
    }

    fn sync(&mut self) -> io::Result<()> {
        self.file()?.sync_data()
    }
}
