//! The top call.
ghost use Rattle.std.specs.Prelude.{◌≡◌, ◌≢◌, ℕ, List, None, Some, IfSome, IsTrue};
ghost use Rattle.io_edge.specs.Faults.{IsCaused, IsCausedOrUntold, faults};
ghost use Rattle.io_edge.specs.Files.{HasFile};
ghost use Rattle.line_reader.specs.Endings.{Told};
ghost use Rattle.program_words.specs.Words.{texts};
ghost use Rattle.market_data.specs.Plan.{Named, plan_in, plan_of};
ghost use Rattle.market_data.specs.Runs.{Ends, Runs};
ghost use Rattle.market_data.specs.Statuses.{IsTold, refusal_of};

use crate::input::feed_input;
use crate::plan::{Plan, plan_of};
use crate::status::{MarketStatus, refused};
use io_edge::{Shelf, Sink};
use line_reader::{read_config, tell};
use program_words::{WordFault, read_words};
use std::alloc::Global;
use venue_words::Bytes;
use venue_words::limits::MAX_CONFIG_BYTES;

/// The name under which a status is told.
const PROGRAM: &str = "pegmarket";

/// Why words name nothing.
fn refusal_of(fault: WordFault) -> MarketStatus
    ensures { result ≡ refusal_of fault }
{
    match fault {
        WordFault::BadWords => MarketStatus::BadWords,
        WordFault::NoMemory => MarketStatus::NoMemory,
    }
}

/// Reads the config, and then the input.
fn run_plan<H: Shelf, K: Sink>(
    alloc: Global,
    plan: Plan<'_>,
    shelf: &mut H,
    out: &mut K,
) -> MarketStatus
    ensures runs { IfSome (H.told shelf.old) (λ files. Runs files (plan_in plan.entry) (K.told out.old) (K.told out.new) (H.left shelf.new) result) }
    ensures words { result ≢ MarketStatus.BadWords }
    ensures caused { IsCaused MarketStatus.ReadFault MarketStatus.WriteFault (faults (H.faults shelf.old) (K.faults out.old))
        (faults (H.faults shelf.new) (K.faults out.new)) result }
    ensures sure { IsTrue (H.sure shelf.old) → HasFile (H.told shelf.old) plan.entry.config.now →
        HasFile (H.told shelf.old) plan.entry.input.now → result ≢ MarketStatus.ReadFault }
{
    let config = match read_config(alloc, shelf, plan.config, MAX_CONFIG_BYTES) {
        Ok(file) => file.config,
        Err(fault) => return refused(fault),
    };
    let Ok(source) = Bytes::copy_of(alloc, plan.source.as_bytes()) else {
        return MarketStatus::NoMemory;
    };
    match shelf.begin(plan.input) {
        Ok(()) => feed_input(alloc, &config, source, shelf, out),
        Err(_) => MarketStatus::ReadFault,
    }
}

/// Reads the words, and does what they ask for.
fn answer<H: Shelf, K: Sink>(
    alloc: Global,
    words: &[String],
    shelf: &mut H,
    out: &mut K,
) -> MarketStatus
    ensures ends { Ends (H.told shelf.old) (texts words.now) (K.told out.old) (K.told out.new) (H.left shelf.new) result }
    ensures caused { IsCaused MarketStatus.ReadFault MarketStatus.WriteFault (faults (H.faults shelf.old) (K.faults out.old))
        (faults (H.faults shelf.new) (K.faults out.new)) result }
    ensures sure { IsTrue (H.sure shelf.old) → (plan : Named) → plan_of (texts words.now) ≡ Some plan →
        HasFile (H.told shelf.old) plan.config → HasFile (H.told shelf.old) plan.input → result ≢ MarketStatus.ReadFault }
{
    let read = match read_words(alloc, words) {
        Ok(read) => read,
        Err(fault) => return refusal_of(fault),
    };
    match plan_of(read.as_slice()) {
        Some(plan) => run_plan(alloc, plan, shelf, out),
        None => MarketStatus::BadWords,
    }
}

/// Turns the recorded bytes of a market data session into a feed of quotes. The words behind the program's name are the file
/// of a config, the CompID of the source, and the file of the bytes that it sent, from its Logon on. The lines are put to
/// `out` piece by piece, and the text of the status that ends the run is put to `err`, once.
pub fn market_feed<H: Shelf, K: Sink, E: Sink>(
    alloc: Global,
    words: &[String],
    shelf: &mut H,
    out: &mut K,
    err: &mut E,
) -> MarketStatus
    // How the run ended, and the status once its text was put: a failed put makes a write fault of bad words and of a refused
    // config, and leaves every other status.
    ensures run { (ended : MarketStatus)
        × Ends (H.told shelf.old) (texts words.now) (K.told out.old) (K.told out.new) (H.left shelf.new) ended
        × IsTold ended result (E.told err.old) (E.told err.new) (E.faults err.old) (E.faults err.new) }
    ensures quiet { result ≡ MarketStatus.Done → err.new ≡ err.old }

    // Faults come only where a count rose, and bad words only where they have no form.
    ensures bad_words { result ≡ MarketStatus.BadWords → plan_of (texts words.now) ≡ None }
    ensures caused { IsCausedOrUntold MarketStatus.ReadFault MarketStatus.WriteFault
        (faults (H.faults shelf.old) (K.faults out.old)) (faults (H.faults shelf.new) (K.faults out.new))
        (E.faults err.old) (E.faults err.new) result }
    ensures sure { IsTrue (H.sure shelf.old) → (plan : Named) → plan_of (texts words.now) ≡ Some plan →
        HasFile (H.told shelf.old) plan.config → HasFile (H.told shelf.old) plan.input → result ≢ MarketStatus.ReadFault }
{
    let status = answer(alloc, words, shelf, out);
    tell(PROGRAM, status, err)
}

/// Puts the text of words that can't be read at all to `err`, once, and gives the status: a word that is not UTF-8 is a bad
/// one.
pub fn refuse_words<E: Sink>(fault: WordFault, err: &mut E) -> MarketStatus
    ensures { IsTold (refusal_of fault) result (E.told err.old) (E.told err.new) (E.faults err.old) (E.faults err.new) }
{
    tell(PROGRAM, refusal_of(fault), err)
}
