//! The bytes that are held between two reads: a part of a buffer.
ghost use Rattle.std.specs.Prelude.{◌≡◌, ◌≤◌, ◌<◌, ◌+◌, ◌-◌, ◌++◌, ◌∷◌, length, take, drop, slice_range, IsTrue, IfOk, IfSome, IfNone, ⊤, false};
ghost use Rattle.std.specs.Io.KnownBytes.{ReadConsumes};
ghost use Rattle.io_edge.specs.Files.{StaysSure};
ghost use Rattle.script_text.specs.Lines.{has_end};
ghost use Rattle.venue_words.specs.Causes.{HasCause};

use io_edge::{Failed, Shelf};
use script_text::first_end;
use std::alloc::{AllocError, Global};

/// The most bytes that are read at once.
pub const READ_BYTES: usize = 65_536;

/// A buffer of so many bytes.
pub fn buffer_of(alloc: Global, size: usize) -> Result<Vec<u8>, AllocError>
    ensures { IfOk result (λ buffer. length buffer.items ≡ size) }
{
    vec![in alloc; 0u8; size]
}

/// Moves the held bytes to the buffer's front.
fn move_to_front(buffer: &mut [u8], start: usize, end: usize)
    requires order { start ≤ end }
    requires inside { end ≤ length buffer.old }
    ensures { take (end - start) buffer.new ≡ slice_range buffer.old start end }
{
    buffer.copy_within(start..end, 0);
}

/// Reads the next bytes of the shelf behind the first `held` bytes of the buffer, which stay.
fn pull_behind<H: Shelf>(shelf: &mut H, buffer: &mut [u8], held: usize) -> Result<usize, Failed>
    requires begun { IsTrue (H.begun shelf.old) }
    requires room { held + READ_BYTES ≤ length buffer.old }
    ensures bound { IfOk result (λ n. n ≤ READ_BYTES) }
    ensures bytes { ReadConsumes (H.left shelf.old) (H.left shelf.new) result (drop held buffer.new) }
    ensures kept { take held buffer.new ≡ take held buffer.old }
    ensures told { H.told shelf.new ≡ H.told shelf.old }
    ensures begun { IsTrue (H.begun shelf.new) }
    ensures cause { HasCause (H.faults shelf.old) (H.faults shelf.new) result }
    ensures sure { IsTrue (H.sure shelf.old) → StaysSure ⊤
        (H.faults shelf.old) (H.faults shelf.new) (H.sure shelf.new) result }
{
    shelf.pull(&mut buffer[held..held + READ_BYTES])
}

/// Moves the held bytes to the buffer's front, and reads the next bytes of the shelf behind them.
pub fn refill<H: Shelf>(
    shelf: &mut H,
    buffer: &mut [u8],
    start: usize,
    end: usize,
) -> Result<usize, Failed>
    requires begun { IsTrue (H.begun shelf.old) }
    requires order { start ≤ end }
    requires room { end - start + READ_BYTES ≤ length buffer.old }
    requires inside { end ≤ length buffer.old }
    ensures bound { IfOk result (λ n. n ≤ READ_BYTES) }
    ensures bytes { ReadConsumes (H.left shelf.old) (H.left shelf.new) result (drop (end - start) buffer.new) }
    ensures kept { take (end - start) buffer.new ≡ slice_range buffer.old start end }
    ensures told { H.told shelf.new ≡ H.told shelf.old }
    ensures begun { IsTrue (H.begun shelf.new) }
    ensures cause { HasCause (H.faults shelf.old) (H.faults shelf.new) result }
    ensures sure { IsTrue (H.sure shelf.old) → StaysSure ⊤
        (H.faults shelf.old) (H.faults shelf.new) (H.sure shelf.new) result }
{
    move_to_front(buffer, start, end);
    pull_behind(shelf, buffer, end - start)
}

/// Where the first line of the held bytes ends, if none ends in the first `clear` of them.
pub fn line_end(held: &[u8], clear: usize) -> Option<usize>
    requires inside { clear ≤ length held.now }
    requires clear { has_end (take clear held.now) ≡ false }
    ensures within { IfSome result (λ at. at < length held.now) }
    ensures clear { IfSome result (λ at. has_end (take at held.now) ≡ false) }
    ensures whole { IfSome result (λ at. held.now ≡ take at held.now ++ 10 ∷ drop (at + 1) held.now) }
    ensures none { IfNone result (has_end held.now ≡ false) }
{
    match first_end(&held[clear..]) {
        Some(at) => Some(clear + at),
        None => None,
    }
}
