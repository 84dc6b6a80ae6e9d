//! A journal's file, as its follower reads it.
ghost use Rattle.std.specs.Prelude.{◌≤◌, ℕ, List, Option, length, IfOk, IfSome};
ghost use Rattle.venue_words.specs.Causes.{HasCause};
ghost use Rattle.journal_follow.specs.Files.{GoesOn, IsPiece};

use io_edge::Failed;

/// A journal's file, which a venue may be writing: it grows between two reads, and keeps the lines that it had.
pub trait JournalFile {
    /// How often a call has failed.
    ghost faults: { Self → ℕ };

    /// What the file was when it was last read, where it is told.
    ghost told: { Self → Option (List ℕ) };

    /// Fills the front of the buffer with the bytes at a place, as far as the file goes, and says how many.
    fn read_at(&mut self, at: u64, buffer: &mut [u8]) -> Result<usize, Failed>
        ensures bound { IfOk result (λ count. count ≤ length buffer.new) }
        ensures piece { IfOk result (λ count. IfSome (told self.new) (IsPiece buffer.new count at)) }
        ensures goes_on { GoesOn (told self.old) (told self.new) }
        ensures cause { HasCause (faults self.old) (faults self.new) result };
}
