//! The top call.
ghost use Rattle.std.specs.Prelude.{◌≤◌};
ghost use Rattle.program_words.specs.Words.{texts};
ghost use Rattle.replay_core.specs.Outside.{run_seen, shelf_seen, sink_seen};
ghost use Rattle.replay_core.specs.Runs.{IsRun};
ghost use Rattle.replay_core.specs.Statuses.{IsTold, refusal_of};

use crate::replayer::Replayer;
use crate::status::{Status, refusal_of};
use crate::telling::tell_status;
use io_edge::{Shelf, Sink};
use program_words::WordFault;
use std::alloc::Global;
use std::sync::ledger::Ledger;
use symbol_book::Book;
use venue_core::PlainVenue;
use venue_words::Steps;

/// Replays over the venue of books.
pub type BookReplayer = Replayer<PlainVenue<Book>>;

/// Plays what the words ask for. A script is read from the shelf, and its transcript is put to `out` line by line. A load
/// run plays the load script and puts one line that sums it up. What waits in `out` then is written, and behind that the
/// text of the status that ends the run is put to `err`, once. The words are those behind the program's name.
// What a run promises stands in `specs/Runs.antt`, fact by fact.
pub fn replay<H: Shelf, K: Sink, E: Sink, L: Ledger>(
    alloc: Global,
    words: &[String],
    shelf: &mut H,
    out: &mut K,
    err: &mut E,
    steps: &mut Steps<L>,
) -> Status
    ensures run { IsRun (texts words.now)
        (run_seen (shelf_seen H.told H.left H.faults H.sure shelf.old) (sink_seen K.told K.waiting K.faults out.old)
        (sink_seen E.told E.waiting E.faults err.old) steps.old)
        (run_seen (shelf_seen H.told H.left H.faults H.sure shelf.new) (sink_seen K.told K.waiting K.faults out.new)
        (sink_seen E.told E.waiting E.faults err.new) steps.new) result }
{
    let mut replayer: BookReplayer = Replayer::new(alloc);
    replayer.run(words, shelf, out, err, steps)
}

/// Ends a run whose words could not even be read: the text of the status that this makes is put to `err`, once.
pub fn refuse_words<E: Sink>(fault: WordFault, err: &mut E) -> Status
    ensures told { IsTold (refusal_of fault) result (E.told err.old) (E.told err.new) (E.faults err.old) (E.faults err.new) }
    ensures later { E.faults err.old ≤ E.faults err.new }
{
    tell_status(refusal_of(fault), err)
}
