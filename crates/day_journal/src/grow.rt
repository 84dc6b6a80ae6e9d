//! A file that is made longer ahead of its lines.
ghost use Rattle.std.specs.Prelude.{◌≡◌, ◌<◌, ◌≤◌, ◌^◌, true, length, IfOk, OnOk};
ghost use Rattle.venue_words.specs.Causes.{HasCause};
ghost use Rattle.day_journal.specs.Disk.{LeavesOnly};
ghost use Rattle.day_journal.specs.Log.{reading, ReadsAs};
ghost use Rattle.day_journal.specs.LogView.{Rests};

use crate::disk::{Disk, write_through};
use io_edge::Failed;
use std::alloc::{AllocError, Global};

/// Zero bytes, each of which reads as a closed gate.
pub(crate) fn zero_bytes(alloc: Global, count: usize) -> Result<Vec<u8>, AllocError>
    requires { 0 < count }
    ensures { IfOk result (λ bytes. 0 < length bytes.items) }
{
    Ok(vec![in alloc; 0; count]?)
}

/// Adds these bytes at the end of a file until it has at least so many, and syncs after each time.
pub(crate) fn grow_to<D: Disk>(disk: &mut D, wanted: u64, bytes: &[u8]) -> Result<(), Failed>
    requires begun { D.begun disk.old ≡ true }
    requires some { 0 < length bytes.now }
    requires fits { wanted < 2 ^ 63 }
    requires rests { (D.told disk.old).honest ≡ true → Rests (D.told disk.old) }
    ensures honest { (D.told disk.new).honest ≡ (D.told disk.old).honest }
    ensures rests { (D.told disk.old).honest ≡ true → OnOk result (Rests (D.told disk.new)) }
    ensures long { (D.told disk.old).honest ≡ true → OnOk result (wanted ≤ length (D.told disk.new).seen) }
    ensures lines { (D.told disk.old).honest ≡ true → reading (D.told disk.new).seen ≡ reading (D.told disk.old).seen }
    ensures any_moment { (D.told disk.old).honest ≡ true → LeavesOnly (D.told disk.old) (D.told disk.new)
        (ReadsAs (reading (D.told disk.old).seen)) }
    ensures kept { (D.begun disk.new ≡ true) × (D.file_name disk.new ≡ D.file_name disk.old) }
    ensures cause { HasCause (D.faults disk.old) (D.faults disk.new) result }
{
    let mut size = disk.size()?;
    while size < wanted {
        write_through(disk, size, bytes)?;
        size += bytes.len() as u64;
    }
    Ok(())
}
