//! The lines of a piece of a journal's file.
ghost use Rattle.std.specs.Prelude.{◌≡◌, ◌<◌, ◌≤◌, ◌++◌, ◌∷◌, [], ℕ, List, length, take, IfOk};
ghost use Rattle.day_journal.specs.Log.{size_of};
ghost use Rattle.journal_follow.specs.Files.{IsRead, IsFoundIn};

use day_journal::{Disk, MemDisk, OpenRefusal, open};
use std::alloc::{AllocError, Global};
use venue_words::Bytes;

/// What bytes read as, as a journal.
#[derive(Drop)]
pub(crate) enum ReadAs {
    /// These lines, which take so many bytes with five more for each; then a gate is closed.
    Whole { lines: Vec<Bytes>, size: u64 },
    /// At this byte a line begins that is not whole.
    Cut(u64),
}

/// How a piece was left.
#[derive(Clone, Copy, Debug, PartialEq, Eq)]
pub(crate) enum Stop {
    /// A gate is closed.
    Closed,
    /// A line begins that is not whole in the piece.
    Cut,
    /// A line begins that is not whole in the file.
    Damaged,
}

/// The lines of a piece, and how it was left after them.
#[derive(Drop)]
pub(crate) struct Found {
    pub(crate) lines: Vec<Bytes>,
    /// The bytes that they take, with five more for each.
    pub(crate) size: u64,
    pub(crate) stop: Stop,
}

/// Reads bytes as a journal.
fn read(alloc: Global, bytes: Vec<u8>) -> Result<ReadAs, AllocError>
    ensures { IfOk result (IsRead bytes.items) }
{
    let mut disk = MemDisk::new(bytes, Vec::new(alloc));
    if disk.begin("").is_err() {
        return Err(AllocError);
    }
    match open(alloc, disk) {
        Ok((log, lines)) => Ok(ReadAs::Whole {
            lines,
            size: log.size(),
        }),
        Err((_, OpenRefusal::Damaged { at })) => Ok(ReadAs::Cut(at)),
        Err((_, OpenRefusal::DiskFault | OpenRefusal::NoMemory)) => Err(AllocError),
    }
}

/// Reads the front of a piece, with a closed gate after it.
fn read_front(alloc: Global, front: &[u8]) -> Result<ReadAs, AllocError>
    ensures { IfOk result (IsRead (front.now ++ 0 ∷ [])) }
{
    let mut bytes = Vec::with_capacity(alloc, front.len() + 1)?;
    bytes.extend_from_slice(front)?;
    bytes.push(0)?;
    read(alloc, bytes)
}

/// No lines, and how the piece is left.
pub(crate) fn nothing(alloc: Global, stop: Stop) -> Found
    ensures { (result.lines.items ≡ []) × (result.size ≡ 0) × (result.stop ≡ stop) }
{
    Found {
        lines: Vec::new(alloc),
        size: 0,
        stop,
    }
}

/// The lines in the front of a piece, which is left before its end.
fn lines_in_front(alloc: Global, front: &[u8]) -> Result<Found, AllocError>
    requires some { 0 < length front.now }
    ensures found { IfOk result (λ found. (piece rest : List ℕ) → length front.now < length rest → take (length front.now) rest ≡ front.now
        → IsFoundIn piece rest found.lines.items found.stop) }
    ensures size { IfOk result (λ found. (found.size ≡ size_of found.lines.items) × (found.size ≤ length front.now)) }
{
    match read_front(alloc, front)? {
        ReadAs::Whole { lines, size } => Ok(Found {
            lines,
            size,
            stop: Stop::Cut,
        }),
        ReadAs::Cut(_) => Ok(nothing(alloc, Stop::Cut)),
    }
}

/// The lines that stand whole in a piece of what stands from a place of a file on.
pub(crate) fn lines_of(alloc: Global, piece: &[u8]) -> Result<Found, AllocError>
    requires some { 1 < length piece.now }
    ensures found { IfOk result (λ found. (rest : List ℕ) → take (length piece.now) rest ≡ piece.now
        → IsFoundIn piece.now rest found.lines.items found.stop) }
    ensures size { IfOk result (λ found. (found.size ≡ size_of found.lines.items) × (found.size ≤ length piece.now)) }
{
    match read(alloc, Vec::from_slice(alloc, piece)?)? {
        ReadAs::Whole { lines, size } => Ok(Found {
            lines,
            size,
            stop: Stop::Closed,
        }),
        ReadAs::Cut(0) => Ok(nothing(alloc, Stop::Damaged)),
        ReadAs::Cut(at) => {
            let front = at.min(piece.len() as u64 - 1) as usize;
            lines_in_front(alloc, &piece[..front])
        }
    }
}
