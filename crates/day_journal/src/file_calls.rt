//! The calls of the system on one file, as they are: a read or a write may do less than was asked, and each may fail.
ghost use Rattle.std.specs.Prelude.{◌≡◌, ◌<◌, ◌≤◌, ◌+◌, ℕ, true, List, Option, length, take, drop, IfOk, OnOk, IfSome};
ghost use Rattle.day_journal.specs.Disk.{Told, TornFrom, Only, LeavesOnly, Unchanged, overwritten};
ghost use Rattle.day_journal.specs.FileHold.{FileHold, just_opened, after_lock};
ghost use Rattle.day_journal.specs.Folders.{IsFolderOf};

use std::fs::TryLockError;
use std::io;

/// One file at a time, by the calls that the system has for it. What honest calls tell of the file is true while nobody
/// writes it who does not hold its lock; so it is read and written only under the lock.
pub trait FileCalls {
    /// How the file is held.
    ghost hold: { Self → FileHold };

    /// The name under which it was opened, where the calls tell it.
    ghost file_name: { Self → Option (List ℕ) };

    /// What honest calls tell of the file.
    ghost told: { Self → Told };

    /// Opens the file of this name, to be read and written. One that isn't there is made empty.
    fn open(&mut self, name: &str) -> io::Result<()>
        ensures file_name { OnOk result (IfSome (file_name self.new) (λ n. n ≡ name.now)) }
        ensures hold { (told self.old).honest ≡ true → hold self.new ≡ just_opened }
        ensures told { Unchanged (told self.old) (told self.new) }
        ensures same { (told self.old).honest ≡ true → (c : List ℕ) → (told self.old).may_leave c → (told self.new).may_leave c };

    /// Takes the file's lock, unless another holds it. It is given back when the file is closed, also by the end of the process.
    fn try_lock(&mut self) -> Result<(), TryLockError>
        ensures hold { (told self.old).honest ≡ true → hold self.new ≡ after_lock (hold self.old) result }
        ensures file_name { file_name self.new ≡ file_name self.old }
        ensures told { Unchanged (told self.old) (told self.new) }
        ensures same { (told self.old).honest ≡ true → (c : List ℕ) → (told self.old).may_leave c → (told self.new).may_leave c };

    /// Waits until the names in this folder, that of the file, are on the disk.
    fn sync_folder(&mut self, folder: &str) -> io::Result<()>
        requires folder { IfSome (file_name self.old) (λ path. IsFolderOf folder.now path) }
        ensures named { (told self.old).honest ≡ true → OnOk result (hold self.new ≡ record (hold self.old) { named = true }) }
        ensures elsewhere { (told self.old).honest ≡ true → (hold self.new).elsewhere ≡ (hold self.old).elsewhere }
        ensures file_name { file_name self.new ≡ file_name self.old }
        ensures told { Unchanged (told self.old) (told self.new) }
        ensures same { (told self.old).honest ≡ true → (c : List ℕ) → (told self.old).may_leave c → (told self.new).may_leave c };

    /// How many bytes the file has.
    fn size(&mut self) -> io::Result<u64>
        requires locked { (told self.old).honest ≡ true → (hold self.old).locked ≡ true }
        ensures size { (told self.old).honest ≡ true → IfOk result (λ n. n ≡ length (told self.old).seen) }
        ensures kept { (hold self.new ≡ hold self.old) × (file_name self.new ≡ file_name self.old) }
        ensures told { Unchanged (told self.old) (told self.new) };

    /// Fills the front of the buffer with the bytes at a place, and says how many. It is 0 only at or after the end.
    fn read_at(&mut self, at: u64, buffer: &mut [u8]) -> io::Result<usize>
        requires locked { (told self.old).honest ≡ true → (hold self.old).locked ≡ true }
        requires room { 0 < length buffer.old }
        ensures bound { IfOk result (λ n. n ≤ length buffer.new) }
        ensures bytes { (told self.old).honest ≡ true → IfOk result (λ n. take n buffer.new ≡ take n (drop at (told self.old).seen)) }
        ensures inside { (told self.old).honest ≡ true → IfOk result (λ n. n ≤ length (drop at (told self.old).seen)) }
        ensures end { (told self.old).honest ≡ true → IfOk result (λ n. n ≡ 0 → length (told self.old).seen ≤ at) }
        ensures kept { (hold self.new ≡ hold self.old) × (file_name self.new ≡ file_name self.old) }
        ensures told { Unchanged (told self.old) (told self.new) };

    /// Writes a front of these bytes over what is there, and past the end, and says how many. Until a sync, a crash may leave
    /// any bytes in the range that was asked for, also where the write failed.
    fn write_at(&mut self, at: u64, bytes: &[u8]) -> io::Result<usize>
        requires locked { (told self.old).honest ≡ true → (hold self.old).locked ≡ true }
        requires at { (told self.old).honest ≡ true → at ≤ length (told self.old).seen }
        ensures bound { IfOk result (λ n. n ≤ length bytes.now) }
        ensures honest { (told self.new).honest ≡ (told self.old).honest }
        ensures written { (told self.old).honest ≡ true → IfOk result (λ n. (told self.new).seen ≡ overwritten (told self.old).seen at (take n bytes.now)) }
        ensures crash { (told self.old).honest ≡ true → LeavesOnly (told self.old) (told self.new)
            (TornFrom at (length bytes.now) (told self.old).may_leave) }
        ensures kept { (hold self.new ≡ hold self.old) × (file_name self.new ≡ file_name self.old) };

    /// Waits until the file's data are on the disk. A crash may still lose a file whose folder was not synced.
    fn sync(&mut self) -> io::Result<()>
        requires locked { (told self.old).honest ≡ true → (hold self.old).locked ≡ true }
        ensures durable { (told self.old).honest ≡ true → (hold self.old).named ≡ true → OnOk result (Only (told self.new).seen (told self.new).may_leave) }
        ensures kept { (hold self.new ≡ hold self.old) × (file_name self.new ≡ file_name self.old) }
        ensures told { Unchanged (told self.old) (told self.new) };

    /// The file as it reads is one of those that a crash may leave.
    ghost as_it_reads: { (d : Self) → (told d).honest ≡ true → (told d).may_leave (told d).seen };

    /// This moment is one of those since an earlier one.
    ghost counts_now: { (d : Self) (t : ℕ) (c : List ℕ) → (told d).honest ≡ true → t ≤ (told d).moment → (told d).may_leave c → (told d).left_since t c };

    /// Since this moment there is no other.
    ghost only_now: { (d : Self) (c : List ℕ) → (told d).honest ≡ true → (told d).left_since (told d).moment c → (told d).may_leave c };
}
