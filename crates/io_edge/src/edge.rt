//! The outside as the cores see it: files that are read, and streams that are written.
ghost use Rattle.std.specs.Prelude.{◌≡◌, ◌<◌, ◌≤◌, ℕ, ◌⊎◌, Bool, List, Option, [], length, IsTrue, IsOk, IsSome, OnOk, OnErr, IfOk, None, ⊤, false};
ghost use Rattle.std.specs.Io.KnownBytes.{ReadConsumes};
ghost use Rattle.venue_words.specs.Causes.{HasCause};
ghost use Rattle.io_edge.specs.Files.{Files, HasFile, Opens, StaysSure};
ghost use Rattle.io_edge.specs.Grows.{Puts};

/// A call to the outside failed. The object's count of faults rose in the call.
#[derive(Clone, Copy, Debug, PartialEq, Eq)]
pub struct Failed;

/// Files that are read from their start, one at a time.
pub trait Shelf {
    /// How often a call has failed. The count never falls, and at its last value, 2^64 - 1, it counts as risen.
    ghost faults: { Self → ℕ };

    /// The files, where the shelf tells them. Of two files of one name the first counts.
    ghost told: { Self → Option Files };

    /// What is left of the file that was begun, where the shelf tells it.
    ghost left: { Self → Option (List ℕ) };

    /// A file was begun.
    ghost begun: { Self → Bool };

    /// The shelf tells its files, and fails only at a name that it lacks.
    ghost sure: { Self → Bool };

    /// Opens a file at its start. After a failure no file is open.
    fn begin(&mut self, name: &str) -> Result<(), Failed>
        ensures begun { OnOk result (IsTrue (begun self.new)) }
        ensures shut { OnErr result (begun self.new ≡ false) }
        ensures closed { OnErr result (left self.new ≡ None) }
        ensures opens { OnOk result (Opens (told self.old) name.now (left self.new)) }
        ensures told { told self.new ≡ told self.old }
        ensures cause { HasCause (faults self.old) (faults self.new) result }
        ensures sure { IsTrue (sure self.old) → StaysSure (HasFile (told self.old) name.now)
            (faults self.old) (faults self.new) (sure self.new) result };

    /// Fills the front of the buffer with the next bytes, and says how many. At 0 the file is at its end.
    /// After a failure the file may be pulled again.
    fn pull(&mut self, buffer: &mut [u8]) -> Result<usize, Failed>
        requires begun { IsTrue (begun self.old) }
        requires room { 0 < length buffer.old }
        ensures bound { IfOk result (λ n. n ≤ length buffer.new) }
        ensures bytes { ReadConsumes (left self.old) (left self.new) result buffer.new }
        ensures told { told self.new ≡ told self.old }
        ensures begun { IsTrue (begun self.new) }
        ensures cause { HasCause (faults self.old) (faults self.new) result }
        ensures sure { IsTrue (sure self.old) → StaysSure ⊤
            (faults self.old) (faults self.new) (sure self.new) result };
}

/// Where bytes go.
pub trait Sink {
    /// How often a call has failed. The count never falls, and at its last value, 2^64 - 1, it counts as risen.
    ghost faults: { Self → ℕ };

    /// The bytes that it has, where the sink tells them; those that wait are among them.
    ghost told: { Self → Option (List ℕ) };

    /// The bytes that were put and wait to be written.
    ghost waiting: { Self → List ℕ };

    /// Appends the piece, or on a failure a prefix of it. A failure may also lose bytes that waited.
    fn put(&mut self, piece: &[u8]) -> Result<(), Failed>
        ensures bytes { Puts (told self.old) (told self.new) result piece.now }
        ensures cause { HasCause (faults self.old) (faults self.new) result };

    /// Writes what waits. After a failure it is not known which of these bytes were written.
    fn flush(&mut self) -> Result<(), Failed>
        ensures told { told self.new ≡ told self.old }
        ensures written { OnOk result (waiting self.new ≡ []) }
        ensures cause { HasCause (faults self.old) (faults self.new) result };
}
