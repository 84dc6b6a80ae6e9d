//! A journal's file, read while a venue may be writing it.
ghost use Rattle.std.specs.Prelude.{◌≡◌, ◌≢◌, ◌<◌, ◌≤◌, length, IsTrue, IfOk, IfErr, IfSome, Err, Some};
ghost use Rattle.std.specs.Io.KnownBytes.{Consumes, IsAtEnd};
ghost use Rattle.venue_words.specs.Causes.{Rose};
ghost use Rattle.io_edge.specs.Files.{file_named};
ghost use Rattle.day_journal.specs.Log.{reading, intact};
ghost use Rattle.audit_journal.specs.declared.file.JournalFault.TheVariants.{ReadFault as read_fault};

use day_journal::{Disk, MemDisk, OpenRefusal, open};
use io_edge::Shelf;
use line_reader::window::{READ_BYTES, buffer_of};
use std::alloc::{AllocError, Global};
use venue_words::Bytes;

/// Why a journal was not read.
#[derive(Clone, Copy, Debug, PartialEq, Eq, Drop)]
pub enum JournalFault {
    /// The file could not be opened or read.
    ReadFault,
    /// At this byte, counted from 0, a line begins that is not whole: the file is damaged, or is no journal.
    Damaged { at: u64 },
    /// The file has more than `MAX_JOURNAL_BYTES`.
    TooLong,
    /// Out of memory.
    NoMemory,
}

impl From<AllocError> for JournalFault {
    ghost use Rattle.audit_journal.specs.declared.file.JournalFault.TheVariants.{NoMemory as memory};

    ghost from_gives = { λ _ fault. fault ≡ memory };

    fn from(_error: AllocError) -> JournalFault {
        JournalFault::NoMemory
    }
}

/// The most bytes of a journal that is read.
pub const MAX_JOURNAL_BYTES: usize = 8_589_934_592;

/// Reads the file that was begun to its end, by a buffer.
fn read_all<H: Shelf>(
    alloc: Global,
    buffer: &mut [u8],
    shelf: &mut H,
) -> Result<Vec<u8>, JournalFault>
    requires room { 0 < length buffer.old }
    requires begun { IsTrue (H.begun shelf.old) }
    ensures bytes { IfOk result (λ bytes. Consumes (H.left shelf.old) (H.left shelf.new) bytes.items × IsAtEnd (H.left shelf.new)) }
    ensures later { H.faults shelf.old ≤ H.faults shelf.new }
    ensures fault { IfErr result (λ e. e ≡ read_fault → Rose (H.faults shelf.old) (H.faults shelf.new)) }
{
    let mut bytes = Vec::new(alloc);
    'pieces: loop {
        let count = match shelf.pull(buffer) {
            Ok(count) => count,
            Err(_) => return Err(JournalFault::ReadFault),
        };
        if count == 0 {
            return Ok(bytes);
        }
        if MAX_JOURNAL_BYTES - bytes.len() < count {
            return Err(JournalFault::TooLong);
        }
        bytes.extend_from_slice(&buffer[..count])?;
    }
}

/// The lines of a journal of these bytes.
fn lines_of(alloc: Global, bytes: Vec<u8>) -> Result<Vec<Bytes>, JournalFault>
    ensures lines { IfOk result (λ lines. reading bytes.items ≡ intact lines.items) }
    ensures quiet { result ≢ Err read_fault }
{
    let mut disk = MemDisk::new(bytes, Vec::new(alloc));
    if disk.begin("").is_err() {
        return Err(JournalFault::NoMemory);
    }
    match open(alloc, disk) {
        Ok((_, lines)) => Ok(lines),
        Err((_, OpenRefusal::Damaged { at })) => Err(JournalFault::Damaged { at }),
        Err((_, OpenRefusal::DiskFault | OpenRefusal::NoMemory)) => Err(JournalFault::NoMemory),
    }
}

/// Reads a file.
fn read_file<H: Shelf>(alloc: Global, name: &str, shelf: &mut H) -> Result<Vec<u8>, JournalFault>
    ensures bytes { IfSome (H.told shelf.old) (λ files. IfOk result (λ bytes. file_named files name.now ≡ Some bytes.items)) }
    ensures later { H.faults shelf.old ≤ H.faults shelf.new }
    ensures fault { IfErr result (λ e. e ≡ read_fault → Rose (H.faults shelf.old) (H.faults shelf.new)) }
{
    match buffer_of(alloc, READ_BYTES) {
        Ok(mut buffer) => match shelf.begin(name) {
            Ok(()) => read_all(alloc, &mut buffer, shelf),
            Err(_) => Err(JournalFault::ReadFault),
        },
        Err(_) => Err(JournalFault::NoMemory),
    }
}

/// Reads the lines of a journal's file. A venue may be writing it: a batch that is not yet whole has no lines.
pub fn read_journal<H: Shelf>(
    alloc: Global,
    name: &str,
    shelf: &mut H,
) -> Result<Vec<Bytes>, JournalFault>
    ensures lines { IfSome (H.told shelf.old) (λ files. IfOk result (λ lines.
        IfSome (file_named files name.now) (λ bytes. reading bytes ≡ intact lines.items))) }
    ensures later { H.faults shelf.old ≤ H.faults shelf.new }
    ensures fault { IfErr result (λ e. e ≡ read_fault → Rose (H.faults shelf.old) (H.faults shelf.new)) }
{
    match read_file(alloc, name, shelf) {
        Ok(bytes) => lines_of(alloc, bytes),
        Err(fault) => Err(fault),
    }
}
