//! The follower of a journal.
ghost use Rattle.std.specs.Prelude.{◌≡◌, ◌<◌, ◌≤◌, ◌+◌, ◌++◌, ◌⊎◌, [], ℕ, List, length, drop, IfOk, IfErr, IfSome};
ghost use Rattle.venue_words.specs.Causes.{Rose};
ghost use Rattle.day_journal.specs.Log.{size_of};
ghost use Rattle.live_core.specs.Lines.{kept, output, AreNotTaken};
ghost use Rattle.journal_follow.specs.Files.{BeginsWith, GoesOn};
ghost use Rattle.journal_follow.specs.Following.{HasFollowed, GoesFurther, IsAll, IsFound, FollowCause, MayGoOn};
ghost use Rattle.journal_follow.specs.declared.piece.Stop.TheVariants.{Damaged};
ghost use Rattle.journal_follow.specs.declared.following.FollowFault.TheVariants.{ReadFault as read_fault, TooLong as too_long, NoMemory as no_memory};
ghost use Rattle.journal_follow.specs.declared.following.TheConstants.{MAX_JOURNAL_BYTES};

use crate::file::JournalFile;
use crate::piece::{Found, Stop, lines_of, nothing};
use io_edge::Failed;
use live_core::{Halt, Machine};
use std::alloc::{AllocError, Global};
use std::marker::Model;
use venue_words::Bytes;

/// What a look at a journal came to.
#[derive(Clone, Copy, Debug, PartialEq, Eq)]
pub enum Looked {
    /// All lines that stood there were worked.
    AtEnd,
    /// More lines may stand there already.
    Worked,
}

/// Why a journal is followed no further.
#[derive(Clone, Copy, Debug, PartialEq, Eq, Drop)]
pub enum FollowFault {
    /// The file could not be read this time. The follower is where it was, and may look again.
    ReadFault,
    /// At this byte, counted from 0, a line begins that is not whole: the file is damaged, or is no journal.
    Damaged { at: u64 },
    /// The line of this number, counted from 1, is refused: the journal is of another program. The follower is to be dropped.
    Refused { line: u64 },
    /// The lines take more than `MAX_JOURNAL_BYTES`.
    TooLong,
    /// Out of memory. The follower is to be dropped.
    NoMemory,
}

impl From<Failed> for FollowFault {
    ghost from_gives = { λ _ fault. fault ≡ read_fault };

    fn from(_error: Failed) -> FollowFault {
        FollowFault::ReadFault
    }
}

impl From<AllocError> for FollowFault {
    ghost use Rattle.journal_follow.specs.declared.following.FollowFault.TheVariants.{NoMemory as memory};

    ghost from_gives = { λ _ fault. fault ≡ memory };

    fn from(_error: AllocError) -> FollowFault {
        FollowFault::NoMemory
    }
}

/// The most bytes of a journal that is followed.
pub const MAX_JOURNAL_BYTES: u64 = 8_589_934_592;

/// How much of the file is read at once.
const PIECE: usize = 65_536;

/// Works a journal's lines one after another. Contracts see it as its machine, the place after the lines that it has worked, those
/// that it worked last, and what these yielded.
#[derive(Drop)]
pub struct Follower<M: Machine> {
    alloc: Global,
    machine: M,
    /// Where the next line begins.
    gate: u64,
    /// How many lines were worked.
    count: u64,
    /// The lines of the last look, and what they yielded.
    lines: Vec<Bytes>,
    text: Vec<u8>,
    buffer: Vec<u8>,
}

impl<M: Machine> Model for Follower<M> {
    ghost use Rattle.std.specs.Prelude.{◌≡◌, length};
    ghost use Rattle.journal_follow.specs.Following.{FollowView};

    ghost Value = { FollowView M };

    ghost view = { λ f. record { machine = f.machine; size = f.gate; lines = f.lines.items; text = f.text.items } };

    ghost invariant = { λ f. length f.buffer.items ≡ 65536 };
}

/// Works lines that stand after others, and adds what they yield; or says which is refused, by its number, where the first has the
/// number after `count`.
fn work<M: Machine>(
    machine: &mut M,
    lines: &[Bytes],
    out: &mut Vec<u8>,
    count: u64,
) -> Result<(), FollowFault>
    ensures worked { IfOk result (λ _. (past : List (List ℕ)) → M.has_taken machine.old past →
        (kept M.yields past lines.now ≡ lines.now) × (out.new.items ≡ out.old.items ++ output M.yields past lines.now)
        × M.has_taken machine.new (past ++ lines.now)) }
    ensures refused { IfErr result (λ fault. (MayGoOn fault → ⊥) × ((line : ℕ) → fault ≡ FollowFault.Refused line
        → (past : List (List ℕ)) → M.has_taken machine.old past → AreNotTaken M.yields past lines.now)) }
{
    let mut number = count;
    for line in lines {
        number = number.saturating_add(1);
        match machine.line(line.as_slice(), out) {
            Ok(true) => {}
            Ok(false) => return Err(FollowFault::Refused { line: number }),
            Err(Halt::Halted) => return Err(FollowFault::Refused { line: number }),
            Err(Halt::NoMemory) => return Err(FollowFault::NoMemory),
        }
    }
    Ok(())
}

/// What one byte or none says that stands at a journal's end, after the lines that were worked.
fn end_of(alloc: Global, gate: u64, bytes: &[u8]) -> Found
    requires { length bytes.now ≤ 1 }
    ensures found { (file : List ℕ) (past : List (List ℕ)) → gate ≡ size_of past → BeginsWith past file → drop gate file ≡ bytes.now
        → IsFound past result.lines.items result.stop file }
    ensures none { (result.lines.items ≡ []) × (result.size ≡ 0) }
{
    if gate == 0 {
        return nothing(alloc, Stop::Closed);
    }
    if bytes == b"\x01".as_slice() {
        return nothing(alloc, Stop::Damaged);
    }
    nothing(alloc, Stop::Closed)
}

/// Reads the next piece of a journal, from the place after the lines that were worked, and finds the lines that stand whole in it.
fn next_lines<J: JournalFile>(
    alloc: Global,
    file: &mut J,
    gate: u64,
    buffer: &mut [u8],
) -> Result<Found, FollowFault>
    requires room { length buffer.old ≡ 65536 }
    ensures found { IfOk result (λ found. (past : List (List ℕ)) → gate ≡ size_of past → IfSome (J.told file.old) (BeginsWith past)
        → IfSome (J.told file.new) (IsFound past found.lines.items found.stop)) }
    ensures size { IfOk result (λ found. (found.size ≡ size_of found.lines.items) × (found.size ≤ 65536)) }
    ensures damaged { IfOk result (λ found. found.stop ≡ Damaged → found.lines.items ≡ []) }
    ensures goes_on { GoesOn (J.told file.old) (J.told file.new) }
    ensures later { J.faults file.old ≤ J.faults file.new }
    ensures fault { IfErr result (λ fault. fault ≡ read_fault → Rose (J.faults file.old) (J.faults file.new)) }
    ensures quiet { IfErr result (λ fault. (fault ≡ read_fault) ⊎ (fault ≡ no_memory)) }
{
    let count = file.read_at(gate, buffer)?;
    if count <= 1 {
        return Ok(end_of(alloc, gate, &buffer[..count]));
    }
    Ok(lines_of(alloc, &buffer[..count])?)
}

impl<M: Machine + Drop> Follower<M> {
    /// A follower that has worked nothing, over a machine that has taken no line.
    pub fn new(alloc: Global, machine: M) -> Result<Follower<M>, FollowFault>
        ensures machine { IfOk result (λ follower. follower.machine ≡ machine) }
        ensures start { IfOk result (λ follower. (follower.size ≡ 0) × (follower.lines ≡ []) × (follower.text ≡ [])) }
    {
        Ok(Follower {
            alloc,
            machine,
            gate: 0,
            count: 0,
            lines: Vec::new(alloc),
            text: Vec::new(alloc),
            buffer: vec![in alloc; 0; PIECE]?,
        })
    }

    /// The machine.
    pub fn machine(&self) -> &M
        ensures { result.now ≡ self.now.machine }
    {
        &self.machine
    }

    /// The bytes that the lines take which it has worked, with five more for each.
    pub fn size(&self) -> u64
        ensures { result ≡ self.now.size }
    {
        self.gate
    }

    /// How many lines it has worked.
    pub fn count(&self) -> u64 {
        self.count
    }

    /// The lines that it worked when it last looked.
    pub fn lines(&self) -> &[Bytes]
        ensures { result.now ≡ self.now.lines }
    {
        &self.lines
    }

    /// What these yielded.
    pub fn text(&self) -> &[u8]
        ensures { result.now ≡ self.now.text }
    {
        &self.text
    }

    /// Looks at the journal once: reads a piece from the place after the lines that were worked, and works the lines that stand whole
    /// in it.
    pub fn look<J: JournalFile>(&mut self, file: &mut J) -> Result<Looked, FollowFault>
        ensures followed { IfOk result (λ looked. (past : List (List ℕ))
            → HasFollowed (M.has_taken self.old.machine) (J.told file.old) self.old.size past
            → HasFollowed (M.has_taken self.new.machine) (J.told file.new) self.new.size (past ++ self.new.lines)
            × GoesFurther M.yields past self.new.lines self.new.text × IsAll (J.told file.new) (past ++ self.new.lines) looked) }
        ensures cause { IfErr result (λ fault. (past : List (List ℕ))
            → HasFollowed (M.has_taken self.old.machine) (J.told file.old) self.old.size past
            → FollowCause M.yields (J.told file.new) self.old.size past fault) }
        ensures waits { IfErr result (λ fault. MayGoOn fault → (past : List (List ℕ))
            → HasFollowed (M.has_taken self.old.machine) (J.told file.old) self.old.size past
            → HasFollowed (M.has_taken self.new.machine) (J.told file.new) self.new.size past) }
        ensures later { J.faults file.old ≤ J.faults file.new }
        ensures fault { IfErr result (λ fault. fault ≡ read_fault → Rose (J.faults file.old) (J.faults file.new)) }
        ensures too_long { IfErr result (λ fault. fault ≡ too_long → MAX_JOURNAL_BYTES ≤ self.old.size) }
    {
        self.lines.clear();
        self.text.clear();
        if self.gate >= MAX_JOURNAL_BYTES {
            return Err(FollowFault::TooLong);
        }
        let Found { lines, size, stop } = next_lines(
            self.alloc,
            file,
            self.gate,
            &mut self.buffer,
        )?;
        if stop == Stop::Damaged {
            return Err(FollowFault::Damaged { at: self.gate });
        }
        work(&mut self.machine, &lines, &mut self.text, self.count)?;
        self.gate += size;
        self.count = self.count.saturating_add(lines.len() as u64);
        self.lines = lines;
        if stop == Stop::Closed {
            return Ok(Looked::AtEnd);
        }
        Ok(Looked::Worked)
    }
}
