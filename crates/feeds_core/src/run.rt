//! The top call.
ghost use Rattle.std.specs.Prelude.{◌≡◌, ◌≢◌, ℕ, List, None, IsTrue};
ghost use Rattle.io_edge.specs.Faults.{IsCausedOrUntold, faults};
ghost use Rattle.program_words.specs.Words.{texts};
ghost use Rattle.feeds_core.specs.FeedPlan.{plan_of};
ghost use Rattle.feeds_core.specs.FeedRuns.{Ends, HasFiles};
ghost use Rattle.feeds_core.specs.Statuses.{IsTold};

use crate::answer::answer;
use crate::status::FeedsStatus;
use crate::telling::{PROGRAM, RunEnd};
use feed_work::Pace;
use io_edge::{Shelf, Sink};
use line_reader::tell;
use std::alloc::Global;
use std::sync::Wait;
use std::thread::Threads;

/// Runs what the words name: the config and the feeds are read from the shelf, each feed's commands are found, all of them go
/// through a venue of the config at once, each feed's in its order, and the venue's journals are put to `out` with the reports
/// that they made. `pace` is called before each command is submitted. The text of the status that ends the run is put to `err`,
/// once. The words are those behind the program's name.
pub fn run_feeds<R: Threads + Wait + Sync, P: Pace + Sync, H: Shelf, K: Sink, E: Sink>(
    rt: &R,
    alloc: Global,
    words: &[String],
    pace: &P,
    shelf: &mut H,
    out: &mut K,
    err: &mut E,
) -> FeedsStatus
    // How the run ended, and the status once its text was put: a failed put makes a write fault of a refused line, of a full
    // symbol and of bad words, and leaves every other status.
    ensures run { (ended : FeedsStatus) × (name : List ℕ)
        × Ends (H.told shelf.old) (texts words.now) (K.told out.old) (K.told out.new) name ended
        × IsTold name ended result (E.told err.old) (E.told err.new) (E.faults err.old) (E.faults err.new) }
    ensures quiet { result ≡ FeedsStatus.Done → err.new ≡ err.old }

    // Faults come only where a count rose, and bad words only where they have no form.
    ensures bad_words { result ≡ FeedsStatus.BadWords → plan_of (texts words.now) ≡ None }
    ensures caused { IsCausedOrUntold FeedsStatus.ReadFault FeedsStatus.WriteFault
        (faults (H.faults shelf.old) (K.faults out.old)) (faults (H.faults shelf.new) (K.faults out.new))
        (E.faults err.old) (E.faults err.new) result }
    ensures sure { IsTrue (H.sure shelf.old) → HasFiles (H.told shelf.old) (plan_of (texts words.now)) →
        result ≢ FeedsStatus.ReadFault }
{
    let ended = answer(rt, alloc, words, pace, shelf, out);
    let end = RunEnd {
        status: ended.status,
        name: ended.name.as_slice(),
    };
    tell(PROGRAM, end, err).status
}
