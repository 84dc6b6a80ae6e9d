//! Runs over state that the caller keeps.
ghost use Rattle.std.specs.Prelude.{◌≡◌, ◌≢◌, ◌⊎◌, ℕ, List, [], Some, IfSome, IsNone, IsTrue};
ghost use Rattle.io_edge.specs.Faults.{IsCaused, faults};
ghost use Rattle.io_edge.specs.Files.{HasFile, file_named};
ghost use Rattle.program_words.specs.Words.{texts};
ghost use Rattle.replay_core.specs.Causes.{script_named};
ghost use Rattle.replay_core.specs.Outside.{run_seen, shelf_seen, sink_seen};
ghost use Rattle.replay_core.specs.Runs.{Ends, IsRun};
ghost use Rattle.replay_core.specs.Telling.{Ran, seen};

use crate::flushing::flush_behind;
use crate::loading::play_load;
use crate::phase::Phase;
use crate::plain_floor::PlainFloor;
use crate::plan::{Plan, plan_of};
use crate::replaying::play_file;
use crate::status::{Status, refusal_of};
use crate::telling::tell_status;
use io_edge::{Shelf, Sink};
use line_reader::LineReader;
use program_words::read_words;
use script_text::Header;
use std::alloc::Global;
use std::sync::ledger::Ledger;
use venue_words::Steps;
use venue_words::limits::MAX_SCRIPT_BYTES;

/// Plays the script of this name.
fn play_named<F: PlainFloor, H: Shelf, K: Sink, L: Ledger>(
    alloc: Global,
    phase: &mut Phase<F>,
    name: &str,
    shelf: &mut H,
    out: &mut K,
    steps: &mut Steps<L>,
) -> Status
    ensures ran { IfSome (H.told shelf.old) (λ files. IfSome (file_named files name.now) (λ bytes.
        Ran bytes (seen (K.told out.old) steps.old) (seen (K.told out.new) steps.new) (H.left shelf.new) result)) }
    ensures missing { IfSome (H.told shelf.old) (λ files. IsNone (file_named files name.now) →
        ((result ≡ Status.ReadFault) ⊎ (result ≡ Status.NoMemory))
        × (seen (K.told out.new) steps.new ≡ seen (K.told out.old) steps.old)) }
    ensures written { K.waiting out.old ≡ [] → result ≢ Status.WriteFault → K.waiting out.new ≡ [] }
    ensures caused { IsCaused Status.ReadFault Status.WriteFault (faults (H.faults shelf.old) (K.faults out.old))
        (faults (H.faults shelf.new) (K.faults out.new)) result }
    ensures sure { IsTrue (H.sure shelf.old) → HasFile (H.told shelf.old) name.now → result ≢ Status.ReadFault }
    ensures words { result ≢ Status.BadWords }
{
    let mut reader = match LineReader::new(alloc, 0, MAX_SCRIPT_BYTES) {
        Ok(reader) => reader,
        Err(_) => return Status::NoMemory,
    };
    match shelf.begin(name) {
        Ok(()) => {
            let status = play_file(alloc, phase, &mut reader, shelf, out, steps);
            flush_behind(status, out)
        }
        Err(_) => Status::ReadFault,
    }
}

/// Reads the words, and plays what they ask for.
fn answer<F: PlainFloor, H: Shelf, K: Sink, L: Ledger>(
    alloc: Global,
    phase: &mut Phase<F>,
    words: &[String],
    shelf: &mut H,
    out: &mut K,
    steps: &mut Steps<L>,
) -> Status
    ensures ends { Ends (H.told shelf.old) (texts words.now) (H.left shelf.new)
        (seen (K.told out.old) steps.old) (seen (K.told out.new) steps.new) result }
    ensures written { K.waiting out.old ≡ [] → result ≢ Status.WriteFault → K.waiting out.new ≡ [] }
    ensures caused { IsCaused Status.ReadFault Status.WriteFault (faults (H.faults shelf.old) (K.faults out.old))
        (faults (H.faults shelf.new) (K.faults out.new)) result }
    ensures sure { IsTrue (H.sure shelf.old) → (name : List ℕ) → script_named (texts words.now) ≡ Some name →
        HasFile (H.told shelf.old) name → result ≢ Status.ReadFault }
{
    let read = match read_words(alloc, words) {
        Ok(read) => read,
        Err(fault) => return refusal_of(fault),
    };
    match plan_of(read.as_slice()) {
        Some(Plan::Script(name)) => play_named(alloc, phase, name, shelf, out, steps),
        Some(Plan::Load { orders, quotes }) => {
            play_load(alloc, phase, orders, quotes, out, steps)
        }
        None => Status::BadWords,
    }
}

/// Replays over a floor of one thread. It keeps what a run made, its books and its desks, until the next run or until it is
/// dropped. To give all that back takes time, so a program that ends behind its run forgets it.
#[derive(Drop)]
pub struct Replayer<F: PlainFloor> {
    alloc: Global,
    phase: Phase<F>,
}

impl<F: PlainFloor> Replayer<F> {
    /// One that keeps nothing yet.
    pub fn new(alloc: Global) -> Replayer<F> {
        Replayer {
            alloc,
            phase: Phase::Head(Header::new(alloc)),
        }
    }

    /// As `replay`. Each run starts anew, whatever was run before.
    pub fn run<H: Shelf, K: Sink, E: Sink, L: Ledger>(
        &mut self,
        words: &[String],
        shelf: &mut H,
        out: &mut K,
        err: &mut E,
        steps: &mut Steps<L>,
    ) -> Status
        ensures run { IsRun (texts words.now)
            (run_seen (shelf_seen H.told H.left H.faults H.sure shelf.old) (sink_seen K.told K.waiting K.faults out.old)
            (sink_seen E.told E.waiting E.faults err.old) steps.old)
            (run_seen (shelf_seen H.told H.left H.faults H.sure shelf.new) (sink_seen K.told K.waiting K.faults out.new)
            (sink_seen E.told E.waiting E.faults err.new) steps.new) result }
    {
        let status = answer(self.alloc, &mut self.phase, words, shelf, out, steps);
        tell_status(status, err)
    }
}
