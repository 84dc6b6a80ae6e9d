//! The journal.
ghost use Rattle.std.specs.Prelude.{◌≡◌, ◌<◌, ◌≤◌, ◌+◌, ◌^◌, ◌++◌, [], ◌∷◌, ℕ, Bool, true, false, List, All, length, drop, IfOk, OnOk, IfErr, OnErr, MatchResult};
ghost use Rattle.std.specs.Int.{to_be_bytes, w32};
ghost use Rattle.venue_words.specs.Causes.{Rose};
ghost use Rattle.venue_words.specs.declared.limits.TheConstants.{MAX_LINE_BYTES};
ghost use Rattle.day_journal.specs.Disk.{Told, Only, LeavesOnly, Unchanged};
ghost use Rattle.day_journal.specs.Log.{Reading, intact, with_lines, read_all, reading, size_of, blocks, IsShortLine, IsAllOrNone, IsBeforeOrAfter, ReadsAs};
ghost use Rattle.day_journal.specs.Refusals.{IfDamaged, IsNoDamage, ReadsAsOne};
ghost use Rattle.day_journal.specs.Scanning.{Moves, ReadsOn};
ghost use Rattle.day_journal.specs.LogView.{IsAtRest};
ghost use Rattle.day_journal.specs.declared.refusal.AppendRefusal.TheVariants.{DiskFault as AppendFault, NoMemory as AppendMemory};
ghost use Rattle.day_journal.specs.declared.refusal.OpenRefusal.TheVariants.{DiskFault as OpenFault, NoMemory as OpenMemory};

use crate::disk::{Disk, fill, write_through};
use crate::grow::{grow_to, zero_bytes};
use crate::refusal::{AppendRefusal, OpenRefusal};
use crate::scan::{Stop, scan};
use std::alloc::{AllocError, Global};
use std::marker::Model;
use venue_words::Bytes;

/// Lines in a file that was begun on a disk, behind one another, each behind an open gate and before the next one.
///
/// It is seen as its disk, the bytes that its lines take with five more for each, and whether it is spent. A log that is
/// not spent, over an honest disk, has whole lines and a closed gate, all of it on the disk.
#[derive(Drop)]
pub struct Log<D: Disk> {
    alloc: Global,
    disk: D,
    gate: u64,
    spent: bool,
}

impl<D: Disk> Model for Log<D> {
    ghost use Rattle.std.specs.Prelude.{◌≡◌, true, false};
    ghost use Rattle.day_journal.specs.LogView.{LogView, IsAtRest};

    ghost Value = { LogView D };

    ghost view = { λ l. record { disk = l.disk; size = l.gate; spent = l.spent } };

    ghost invariant = { λ l. (D.begun l.disk ≡ true)
        × (l.spent ≡ false → (D.told l.disk).honest ≡ true → IsAtRest l.gate (D.told l.disk)) };
}

/// The length, the line and a closed gate.
fn block_of(alloc: Global, line: &[u8]) -> Result<Vec<u8>, AllocError>
    requires { length line.now ≤ MAX_LINE_BYTES }
    ensures { IfOk result (λ block. block.items ≡ to_be_bytes w32 (length line.now) ++ line.now ++ 0 ∷ []) }
{
    let mut block = Vec::with_capacity(alloc, line.len() + 5)?;
    block.extend_from_slice(&(line.len() as u32).to_be_bytes())?;
    block.extend_from_slice(line)?;
    block.push(0)?;
    Ok(block)
}

/// The lines with a gate before each, all open, and a closed gate behind the last.
fn blocks_of(alloc: Global, lines: &[Bytes]) -> Result<Vec<u8>, AllocError>
    requires { All IsShortLine lines.now }
    ensures { IfOk result (λ bytes. bytes.items ≡ blocks lines.now) }
{
    let mut bytes = Vec::new(alloc);
    for line in lines {
        let text = line.as_slice();
        bytes.push(1)?;
        bytes.extend_from_slice(&(text.len() as u32).to_be_bytes())?;
        bytes.extend_from_slice(text)?;
    }
    bytes.push(0)?;
    Ok(bytes)
}

impl<D: Disk> Log<D> {
    /// Appends a line, which is on the disk when this answers `Ok`: it writes the line behind the last gate, with a closed
    /// gate behind it, and syncs; then it opens the gate before the line, and syncs again.
    ///
    /// Want of memory leaves the log as it was. A fault of the disk leaves it spent: whether the line is there is seen when
    /// the file is opened again.
    pub fn append(&mut self, line: &[u8]) -> Result<(), AppendRefusal>
        requires unspent { self.old.spent ≡ false }
        requires room { self.old.size < 2 ^ 62 }
        requires line { length line.now ≤ MAX_LINE_BYTES }

        ensures ok { OnOk result ((self.new.spent ≡ false) × (self.new.size ≡ self.old.size + 5 + length line.now)) }
        ensures lines { (D.told self.old.disk).honest ≡ true → OnOk result
            (reading (D.told self.new.disk).seen ≡ intact ((reading (D.told self.old.disk).seen).lines ++ line.now ∷ [])) }
        ensures durable { (D.told self.old.disk).honest ≡ true → OnOk result
            (Only (D.told self.new.disk).seen (D.told self.new.disk).may_leave) }

        // A crash at any moment of the call leaves the lines from before it, with the new one or without.
        ensures any_moment { (D.told self.old.disk).honest ≡ true → LeavesOnly (D.told self.old.disk) (D.told self.new.disk)
            (IsBeforeOrAfter (reading (D.told self.old.disk).seen).lines line.now) }

        ensures honest { (D.told self.new.disk).honest ≡ (D.told self.old.disk).honest }
        ensures begun { (D.begun self.new.disk ≡ true) × (D.file_name self.new.disk ≡ D.file_name self.old.disk) }
        ensures no_memory { IfErr result (λ e. e ≡ AppendMemory → self.new ≡ self.old) }
        ensures spent { IfErr result (λ e. e ≡ AppendFault → self.new.spent ≡ true) }
        ensures faults { D.faults self.old.disk ≤ D.faults self.new.disk }
        ensures fault { IfErr result (λ e. e ≡ AppendFault → Rose (D.faults self.old.disk) (D.faults self.new.disk)) }
    {
        let block = block_of(self.alloc, line)?;
        self.spent = true; // until the gate is open
        write_through(&mut self.disk, self.gate + 1, &block)?;
        write_through(&mut self.disk, self.gate, &[1])?;
        self.gate += 5 + line.len() as u64;
        self.spent = false;
        Ok(())
    }

    /// Appends lines, all of them or none: they are on the disk when this answers `Ok`. It writes them behind the last gate,
    /// with open gates between them and a closed one behind, and syncs; then it opens the gate before the first, and syncs again.
    ///
    /// Want of memory leaves the log as it was. A fault of the disk leaves it spent: whether the lines are there is seen when
    /// the file is opened again.
    pub fn append_all(&mut self, lines: &[Bytes]) -> Result<(), AppendRefusal>
        requires unspent { self.old.spent ≡ false }
        requires room { self.old.size < 2 ^ 62 }
        requires some { 0 < length lines.now }
        requires short { All IsShortLine lines.now }

        ensures ok { OnOk result ((self.new.spent ≡ false) × (self.new.size ≡ self.old.size + size_of lines.now)) }
        ensures lines { (D.told self.old.disk).honest ≡ true → OnOk result
            (reading (D.told self.new.disk).seen ≡ intact ((reading (D.told self.old.disk).seen).lines ++ lines.now)) }
        ensures durable { (D.told self.old.disk).honest ≡ true → OnOk result
            (Only (D.told self.new.disk).seen (D.told self.new.disk).may_leave) }

        // A crash at any moment of the call leaves the lines from before it, with all of the new ones or with none.
        ensures any_moment { (D.told self.old.disk).honest ≡ true → LeavesOnly (D.told self.old.disk) (D.told self.new.disk)
            (IsAllOrNone (reading (D.told self.old.disk).seen).lines lines.now) }

        ensures honest { (D.told self.new.disk).honest ≡ (D.told self.old.disk).honest }
        ensures begun { (D.begun self.new.disk ≡ true) × (D.file_name self.new.disk ≡ D.file_name self.old.disk) }
        ensures no_memory { IfErr result (λ e. e ≡ AppendMemory → self.new ≡ self.old) }
        ensures spent { IfErr result (λ e. e ≡ AppendFault → self.new.spent ≡ true) }
        ensures faults { D.faults self.old.disk ≤ D.faults self.new.disk }
        ensures fault { IfErr result (λ e. e ≡ AppendFault → Rose (D.faults self.old.disk) (D.faults self.new.disk)) }
    {
        let bytes = blocks_of(self.alloc, lines)?;
        let behind = &bytes[1..];
        let first = self.gate;
        self.spent = true; // until the first gate is open
        write_through(&mut self.disk, first + 1, behind)?;
        write_through(&mut self.disk, first, &[1])?;
        self.gate = first + behind.len() as u64;
        self.spent = false;
        Ok(())
    }

    /// Sees that the file has room for lines that take so many bytes, with five more for each: it adds whole pieces of 64 MiB of
    /// zero bytes, which read as a closed gate, at the file's end, and syncs. So a full disk is met here, and not at a later
    /// append; and an append does not have to make the file longer.
    ///
    /// Out of memory leaves the log as it was. A fault of the disk leaves it spent, with the lines that it had.
    pub fn reserve(&mut self, bytes: u64) -> Result<(), AppendRefusal>
        requires unspent { self.old.spent ≡ false }
        requires room { self.old.size + bytes < 2 ^ 62 }

        ensures ok { OnOk result ((self.new.spent ≡ false) × (self.new.size ≡ self.old.size)) }
        ensures reserved { (D.told self.old.disk).honest ≡ true → OnOk result (self.old.size + bytes ≤ length (D.told self.new.disk).seen) }
        ensures lines { (D.told self.old.disk).honest ≡ true → reading (D.told self.new.disk).seen ≡ reading (D.told self.old.disk).seen }
        ensures durable { (D.told self.old.disk).honest ≡ true → OnOk result
            (Only (D.told self.new.disk).seen (D.told self.new.disk).may_leave) }

        // A crash at any moment of the call leaves the lines that there were.
        ensures any_moment { (D.told self.old.disk).honest ≡ true → LeavesOnly (D.told self.old.disk) (D.told self.new.disk)
            (ReadsAs (reading (D.told self.old.disk).seen)) }

        ensures honest { (D.told self.new.disk).honest ≡ (D.told self.old.disk).honest }
        ensures begun { (D.begun self.new.disk ≡ true) × (D.file_name self.new.disk ≡ D.file_name self.old.disk) }
        ensures no_memory { IfErr result (λ e. e ≡ AppendMemory → self.new ≡ self.old) }
        ensures spent { IfErr result (λ e. e ≡ AppendFault → self.new.spent ≡ true) }
        ensures faults { D.faults self.old.disk ≤ D.faults self.new.disk }
        ensures fault { IfErr result (λ e. e ≡ AppendFault → Rose (D.faults self.old.disk) (D.faults self.new.disk)) }
    {
        let piece = zero_bytes(self.alloc, PIECE_AHEAD)?;
        self.spent = true; // until the file is longer
        grow_to(&mut self.disk, self.gate + bytes, &piece)?;
        self.spent = false;
        Ok(())
    }

    /// The file has to be opened again.
    pub fn is_spent(&self) -> bool
        ensures { result ≡ self.now.spent }
    {
        self.spent
    }

    /// The bytes that its lines take, with five more for each.
    pub fn size(&self) -> u64
        ensures { result ≡ self.now.size }
    {
        self.gate
    }

    /// Gives the disk back.
    pub fn close(self) -> D
        ensures { result ≡ self.disk }
    {
        self.disk
    }
}

/// How much of the file is read at once.
const PIECE: usize = 65_536;

/// By how much the file is made longer at once.
const PIECE_AHEAD: usize = 67_108_864;

/// Room for a piece of the file.
fn piece_room(alloc: Global) -> Result<Vec<u8>, AllocError>
    ensures { IfOk result (λ room. 16389 < length room.items) }
{
    Ok(vec![in alloc; 0; PIECE]?)
}

/// Reads the lines that stand whole in the next piece of the file, from a gate on.
fn read_piece<D: Disk>(
    alloc: Global,
    disk: &mut D,
    gate: u64,
    size: u64,
    buffer: &mut [u8],
    lines: &mut Vec<Bytes>,
) -> Result<(Stop, usize), OpenRefusal>
    requires begun { D.begun disk.old ≡ true }
    requires inside { gate < size }
    requires size { (D.told disk.old).honest ≡ true → size ≡ length (D.told disk.old).seen }
    requires room { 16389 < length buffer.old }
    ensures place { IfOk result (λ r. gate + r.1 < size) }
    ensures moves { IfOk result (λ r. Moves r.1 r.0) }
    ensures size { IfOk result (λ r. size_of lines.new.items ≡ size_of lines.old.items + r.1) }
    ensures reads { (D.told disk.old).honest ≡ true → IfOk result (λ r.
        ReadsOn (drop gate (D.told disk.old).seen) lines.old.items lines.new.items r.1 r.0) }
    ensures damaged { IfErr result IsNoDamage }
    ensures kept { (D.begun disk.new ≡ true) × (D.file_name disk.new ≡ D.file_name disk.old) }
    ensures told { Unchanged (D.told disk.old) (D.told disk.new) }
    ensures faults { D.faults disk.old ≤ D.faults disk.new }
    ensures fault { IfErr result (λ e. e ≡ OpenFault → Rose (D.faults disk.old) (D.faults disk.new)) }
{
    let left = size - gate;
    let wanted = if left < buffer.len() as u64 {
        left as usize
    } else {
        buffer.len()
    };
    let held = fill(disk, gate, &mut buffer[..wanted])?;
    if held == 0 {
        return Ok((Stop::Closed, 0));
    }
    let last = held < wanted || wanted as u64 == left;
    Ok(scan(alloc, &buffer[..held], last, lines)?)
}

/// Reads the lines of a file of this size, and where the gate behind them stands.
fn read_lines<D: Disk>(
    alloc: Global,
    disk: &mut D,
    size: u64,
    buffer: &mut [u8],
) -> Result<(u64, Vec<Bytes>), OpenRefusal>
    requires begun { D.begun disk.old ≡ true }
    requires some { 0 < size }
    requires size { (D.told disk.old).honest ≡ true → size ≡ length (D.told disk.old).seen }
    requires room { 16389 < length buffer.old }
    ensures size { IfOk result (λ r. r.0 ≡ size_of r.1.items) }
    ensures lines { (D.told disk.old).honest ≡ true → IfOk result (λ r. read_all (D.told disk.old).seen ≡ intact r.1.items) }
    ensures damaged { (D.told disk.old).honest ≡ true → IfErr result (IfDamaged (read_all (D.told disk.old).seen)) }
    ensures kept { (D.begun disk.new ≡ true) × (D.file_name disk.new ≡ D.file_name disk.old) }
    ensures told { Unchanged (D.told disk.old) (D.told disk.new) }
    ensures faults { D.faults disk.old ≤ D.faults disk.new }
    ensures fault { IfErr result (λ e. e ≡ OpenFault → Rose (D.faults disk.old) (D.faults disk.new)) }
{
    let mut lines = Vec::new(alloc);
    let mut gate = 0;
    loop {
        let (stop, used) = read_piece(alloc, disk, gate, size, buffer, &mut lines)?;
        gate += used as u64;
        match stop {
            Stop::Closed => return Ok((gate, lines)),
            Stop::Damaged => return Err(OpenRefusal::Damaged { at: gate }),
            Stop::Cut => {}
        }
    }
}

/// Reads the file. One of at most one byte becomes a closed gate.
fn prepare<D: Disk>(alloc: Global, disk: &mut D) -> Result<(u64, Vec<Bytes>), OpenRefusal>
    requires begun { D.begun disk.old ≡ true }
    ensures size { IfOk result (λ r. r.0 ≡ size_of r.1.items) }
    ensures lines { (D.told disk.old).honest ≡ true → IfOk result (λ r. reading (D.told disk.old).seen ≡ intact r.1.items) }
    ensures damaged { (D.told disk.old).honest ≡ true → IfErr result (IfDamaged (reading (D.told disk.old).seen)) }
    ensures at_rest { (D.told disk.old).honest ≡ true → IfOk result (λ r. IsAtRest r.0 (D.told disk.new) × (reading (D.told disk.new).seen ≡ intact r.1.items)) }
    ensures any_moment { (D.told disk.old).honest ≡ true → LeavesOnly (D.told disk.old) (D.told disk.new) (ReadsAsOne (D.told disk.old).may_leave) }
    ensures honest { (D.told disk.new).honest ≡ (D.told disk.old).honest }
    ensures kept { (D.begun disk.new ≡ true) × (D.file_name disk.new ≡ D.file_name disk.old) }
    ensures faults { D.faults disk.old ≤ D.faults disk.new }
    ensures fault { IfErr result (λ e. e ≡ OpenFault → Rose (D.faults disk.old) (D.faults disk.new)) }
{
    disk.sync()?;
    let size = disk.size()?;
    if size <= 1 {
        write_through(disk, 0, &[0])?;
        return Ok((0, Vec::new(alloc)));
    }
    let mut room = piece_room(alloc)?;
    read_lines(alloc, disk, size, &mut room)
}

/// Opens the log on a disk whose file was begun, and reads its lines. An `Err` hands the disk back.
pub fn open<D: Disk>(alloc: Global, disk: D) -> Result<(Log<D>, Vec<Bytes>), (D, OpenRefusal)>
    requires begun { D.begun disk ≡ true }
    ensures ok { IfOk result (λ r. (r.0.spent ≡ false) × (r.0.size ≡ size_of r.1.items)) }
    ensures lines { (D.told disk).honest ≡ true → IfOk result (λ r. reading (D.told disk).seen ≡ intact r.1.items) }
    ensures stored { (D.told disk).honest ≡ true → IfOk result (λ r. (reading (D.told r.0.disk).seen ≡ intact r.1.items)
        × Only (D.told r.0.disk).seen (D.told r.0.disk).may_leave) }
    ensures damaged { (D.told disk).honest ≡ true → IfErr result (λ e. IfDamaged (reading (D.told disk).seen) e.1) }

    ensures undamaged { (D.told disk).honest ≡ true → ((c : List ℕ) → (D.told disk).may_leave c → (reading c).damaged ≡ false)
        → IfErr result (λ e. IsNoDamage e.1) }

    // A crash at any moment of the call leaves lines that a crash could have left as it began.
    ensures any_moment { (D.told disk).honest ≡ true → MatchResult result
        (λ r. LeavesOnly (D.told disk) (D.told r.0.disk) (ReadsAsOne (D.told disk).may_leave))
        (λ e. LeavesOnly (D.told disk) (D.told e.0) (ReadsAsOne (D.told disk).may_leave)) }

    ensures honest { MatchResult result (λ r. (D.told r.0.disk).honest ≡ (D.told disk).honest) (λ e. (D.told e.0).honest ≡ (D.told disk).honest) }
    ensures begun { MatchResult result (λ r. (D.begun r.0.disk ≡ true) × (D.file_name r.0.disk ≡ D.file_name disk))
        (λ e. (D.begun e.0 ≡ true) × (D.file_name e.0 ≡ D.file_name disk)) }
    ensures faults { MatchResult result (λ r. D.faults disk ≤ D.faults r.0.disk) (λ e. D.faults disk ≤ D.faults e.0) }
    ensures fault { IfErr result (λ e. e.1 ≡ OpenFault → Rose (D.faults disk) (D.faults e.0)) }
{
    let mut disk = disk;
    match prepare(alloc, &mut disk) {
        Ok((gate, lines)) => {
            let log = Log {
                alloc,
                disk,
                gate,
                spent: false,
            };
            Ok((log, lines))
        }
        Err(refusal) => Err((disk, refusal)),
    }
}
