//! Where no call of the outside fails, a whole script is worked to its end.
ghost use Rattle.std.specs.Prelude.{◌≡◌, ◌⊎◌, true, false, None, IfSome};
ghost use Rattle.venue_words.specs.Causes.{Rose};
ghost use Rattle.day_journal.specs.Log.{reading};
ghost use Rattle.program_words.specs.Words.{texts};
ghost use Rattle.replay_core.specs.Causes.{bytes_named};
ghost use Rattle.day_core.specs.Agreement.{IsFront};
ghost use Rattle.day_core.specs.DayFiles.{script_named};
ghost use Rattle.day_core.specs.Days.{lines_of};
ghost use Rattle.day_core.specs.Refusing.{refusal};

use crate::day::day;
use crate::status::DayStatus;
use day_journal::Disk;
use io_edge::{Shelf, Sink};
use std::alloc::Global;
use std::sync::ledger::Ledger;
use venue_words::Steps;

/// Over an honest disk, a script that is not refused is worked to its end over a journal without damage whose lines are the
/// script's first ones, where no count of faults rises, but for want of memory.
pub fn day_whole<H: Shelf, D: Disk, K: Sink, E: Sink, L: Ledger>(
    alloc: Global,
    words: &[String],
    shelf: &mut H,
    disk: D,
    out: &mut K,
    err: &mut E,
    steps: &mut Steps<L>,
) -> (DayStatus, D)
    requires begun { D.begun disk ≡ false }
    ensures { (Rose (H.faults shelf.old) (H.faults shelf.new) → ⊥) → (Rose (K.faults out.old) (K.faults out.new) → ⊥) →
        (Rose (E.faults err.old) (E.faults err.new) → ⊥) → (Rose (D.faults disk) (D.faults result.1) → ⊥) →
        (D.told disk).honest ≡ true → (reading (D.told disk).seen).damaged ≡ false →
        IfSome (bytes_named (H.told shelf.old) (script_named (texts words.now))) (λ bytes. refusal bytes ≡ None →
        IsFront (reading (D.told disk).seen).lines (lines_of bytes) → (result.0 ≡ DayStatus.Done) ⊎ (result.0 ≡ DayStatus.NoMemory)) }
{
    day(alloc, words, shelf, disk, out, err, steps)
}
