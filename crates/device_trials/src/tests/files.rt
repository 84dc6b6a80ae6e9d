//! A disk over the calls of one file: in memory, and those of the system.
ghost use Rattle.std.specs.Prelude.{◌≡◌, true, false, Ok, IfOk};

use day_journal::{Disk, FileCalls, FileDisk, MemDisk, OpenRefusal, open};
use io_edge::Failed;
use std::alloc::Global;
use std::fs::TryLockError;
use std::io;
use std::io::ErrorKind;
use std::test::Fail;

const TWO_LINES: [u8; 44] =
    *b"\x01\x00\x00\x00\x06PEGV 1\x01\x00\x00\x00\x1bBEGIN 20240102-14:30:00.000\x00";

/// Calls on a file in memory, which write and read at most so many bytes at once. They tell nothing.
#[derive(Drop)]
struct MemFile {
    disk: MemDisk,
    most: usize,
    is_held: bool,
    ghost begun: { ⟦<MemDisk as Disk>⟧.begun disk ≡ true },
}

/// What a call of the disk answered, as a call of the system would.
fn called<T: Drop>(made: Result<T, Failed>) -> io::Result<T>
    ensures { IfOk result (λ value. made ≡ Ok value) }
{
    match made {
        Ok(value) => Ok(value),
        Err(_) => Err(io::Error::from(ErrorKind::Other)),
    }
}

impl FileCalls for MemFile {
    ghost use Rattle.std.specs.Prelude.{None};
    ghost use Rattle.day_journal.specs.Disk.{tells_nothing};
    ghost use Rattle.day_journal.specs.DiskLaws.{reads_nothing};
    ghost use Rattle.day_journal.specs.FileHold.{just_opened};

    ghost hold = { λ _. just_opened };

    ghost file_name = { λ _. None };

    ghost told = { λ _. tells_nothing };

    ghost as_it_reads = { λ _ honest. reads_nothing honest };

    ghost counts_now = { λ _ _ _ honest _ _. reads_nothing honest };

    ghost only_now = { λ _ _ honest _. reads_nothing honest };

    fn open(&mut self, _name: &str) -> io::Result<()> {
        Ok(())
    }

    fn try_lock(&mut self) -> Result<(), TryLockError> {
        if self.is_held {
            return Err(TryLockError::WouldBlock);
        }
        Ok(())
    }

    fn sync_folder(&mut self, _folder: &str) -> io::Result<()> {
        Ok(())
    }

    fn size(&mut self) -> io::Result<u64> {
        called(self.disk.size())
    }

    fn read_at(&mut self, at: u64, buffer: &mut [u8]) -> io::Result<usize> {
        let end = buffer.len().min(self.most.max(1));
        called(self.disk.read(at, &mut buffer[..end]))
    }

    fn write_at(&mut self, at: u64, bytes: &[u8]) -> io::Result<usize> {
        if (self.disk.bytes().len() as u64) < at {
            return Err(io::Error::from(ErrorKind::InvalidInput));
        }
        let count = bytes.len().min(self.most);
        called(self.disk.write_at(at, &bytes[..count]))?;
        Ok(count)
    }

    fn sync(&mut self) -> io::Result<()> {
        called(self.disk.sync())
    }
}

/// A disk over a file of these bytes that nobody holds, whose calls take so many bytes at once. The call of this number fails.
fn disk_of(alloc: Global, bytes: &[u8], most: usize, fail: u64) -> Result<FileDisk<MemFile>, Fail>
    ensures { IfOk result (λ d. ⟦<FileDisk<MemFile> as Disk>⟧.begun d ≡ false) }
{
    let mut fails = Vec::new(alloc);
    fails.push(fail)?;
    let mut disk = MemDisk::new(bytes.to_vec(alloc)?, fails);
    if disk.begin("DAY").is_err() {
        return Err("not begun".into());
    }
    Ok(FileDisk::over(MemFile {
        disk,
        most,
        is_held: false,
    }))
}

/// How many lines a journal over such a disk has, if it can be opened, and one more line is then appended.
fn grown(alloc: Global, bytes: &[u8], most: usize, fail: u64) -> Result<Option<usize>, Fail> {
    let mut disk = disk_of(alloc, bytes, most, fail)?;
    if disk.begin("DAY").is_err() {
        return Ok(None);
    }
    match open(alloc, disk) {
        Ok((mut log, lines)) => {
            if log.size() >= 1 << 62 || log.append(b"PEGV 1").is_err() {
                return Ok(None);
            }
            Ok(Some(lines.len()))
        }
        Err((_, OpenRefusal::DiskFault)) => Ok(None),
        Err((_, OpenRefusal::Damaged { .. })) => Err("damaged".into()),
        Err((_, OpenRefusal::NoMemory)) => Err("no memory".into()),
    }
}

#[test]
fn a_file_that_takes_less_at_once_has_all(rt: HostRuntime) -> Result<(), Fail> {
    let alloc = rt.alloc();
    for most in 1..12_usize {
        assert_eq!(rt; grown(alloc, &TWO_LINES, most, 0)?, Some(2));
    }
    assert_eq!(rt; grown(alloc, &TWO_LINES, 0, 0)?, None);
    Ok(())
}

#[test]
fn a_read_that_fails_is_not_the_end(rt: HostRuntime) -> Result<(), Fail> {
    let alloc = rt.alloc();
    for fail in 2..16_u64 {
        assert_eq!(rt; grown(alloc, &TWO_LINES, 4, fail)?, None, "{fail}");
    }
    assert_eq!(rt; grown(alloc, &TWO_LINES, 4, 99)?, Some(2));
    Ok(())
}

#[test]
fn a_file_has_one_holder(rt: HostRuntime) -> Result<(), Fail> {
    let mut first = FileDisk::new(&rt);
    let mut second = FileDisk::new(&rt);
    assert!(rt; first.begin("held.tmp").is_ok());
    assert!(rt; second.begin("held.tmp").is_err() && second.is_held_elsewhere());
    assert!(rt; first.size() == Ok(0) && !first.is_held_elsewhere());
    drop(first);
    assert!(rt; second.begin("held.tmp").is_ok() && !second.is_held_elsewhere());
    std::fs::remove_file(&rt, "held.tmp")?;
    Ok(())
}

#[test]
fn a_name_without_a_folder_is_refused(rt: HostRuntime) -> Result<(), Fail> {
    let mut disk = FileDisk::new(&rt);
    assert!(rt; disk.begin("no such folder/held.tmp").is_err() && !disk.is_held_elsewhere());
    assert!(rt; disk.begin("./held too.tmp").is_ok());
    std::fs::remove_file(&rt, "held too.tmp")?;
    Ok(())
}
