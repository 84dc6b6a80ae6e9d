//! A journal's file in memory.
ghost use Rattle.std.specs.Prelude.{◌≡◌, ◌≤◌, ℕ, List, length, take, drop, Some};

use crate::file::JournalFile;
use io_edge::Failed;

/// A file of these bytes. Every read succeeds.
#[derive(Drop)]
pub struct MemJournal {
    bytes: Vec<u8>,
}

impl MemJournal {
    pub fn new(bytes: Vec<u8>) -> MemJournal
        ensures { ⟦<MemJournal as JournalFile>⟧.told result ≡ Some bytes.items }
    {
        MemJournal { bytes }
    }

    /// The bytes, as whoever writes the file changes them.
    pub fn bytes(&mut self) -> &mut Vec<u8> {
        &mut self.bytes
    }
}

impl JournalFile for MemJournal {
    ghost faults = { λ _. 0 };

    ghost told = { λ file. Some file.bytes.items };

    fn read_at(&mut self, at: u64, buffer: &mut [u8]) -> Result<usize, Failed> {
        if at >= self.bytes.len() as u64 {
            return Ok(0);
        }
        let rest = &self.bytes[at as usize..];
        let count = rest.len().min(buffer.len());
        buffer[..count].copy_from_slice(&rest[..count]);
        Ok(count)
    }
}
