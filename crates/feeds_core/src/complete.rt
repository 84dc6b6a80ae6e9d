//! Where no call of the outside fails, what is whole is run to its end.
ghost use Rattle.std.specs.Prelude.{◌≡◌, ◌⊎◌, IfSome};
ghost use Rattle.venue_words.specs.Causes.{Rose};
ghost use Rattle.venue_words.specs.declared.limits.TheConstants.{MAX_CONFIG_BYTES};
ghost use Rattle.program_words.specs.Words.{texts};
ghost use Rattle.line_reader.specs.ConfigFile.{config_file};
ghost use Rattle.feeds_core.specs.FeedPlan.{plan_of};
ghost use Rattle.feeds_core.specs.FeedRuns.{IsWhole, texts_told};

use crate::run::run_feeds;
use crate::status::FeedsStatus;
use feed_work::Pace;
use io_edge::{Shelf, Sink, SureShelf, SureSink};
use std::alloc::Global;
use std::sync::Wait;
use std::thread::Threads;

/// A config and feeds without a refused line, and with no more commands for a symbol than its journal may hold, are run to their
/// end where no count of faults rises, but for want of memory.
pub fn run_whole<R: Threads + Wait + Sync, P: Pace + Sync, H: Shelf, K: Sink, E: Sink>(
    rt: &R,
    alloc: Global,
    words: &[String],
    pace: &P,
    shelf: &mut H,
    out: &mut K,
    err: &mut E,
) -> FeedsStatus
    ensures whole { (Rose (H.faults shelf.old) (H.faults shelf.new) → ⊥) → (Rose (K.faults out.old) (K.faults out.new) → ⊥) →
        (Rose (E.faults err.old) (E.faults err.new) → ⊥) →
        IfSome (texts_told (H.told shelf.old) (plan_of (texts words.now))) (λ texts.
        IsWhole (config_file MAX_CONFIG_BYTES texts.config) texts.feeds → (result ≡ FeedsStatus.Done) ⊎ (result ≡ FeedsStatus.NoMemory)) }
{
    run_feeds(rt, alloc, words, pace, shelf, out, err)
}

/// Over files and sinks that never fail nothing else is left.
pub fn run_surely<R: Threads + Wait + Sync, P: Pace + Sync>(
    rt: &R,
    alloc: Global,
    words: &[String],
    pace: &P,
    shelf: &mut SureShelf,
    out: &mut SureSink,
    err: &mut SureSink,
) -> FeedsStatus
    ensures whole { IfSome (texts_told (⟦<SureShelf as Shelf>⟧.told shelf.old) (plan_of (texts words.now))) (λ texts.
        IsWhole (config_file MAX_CONFIG_BYTES texts.config) texts.feeds → (result ≡ FeedsStatus.Done) ⊎ (result ≡ FeedsStatus.NoMemory)) }
{
    run_feeds(rt, alloc, words, pace, shelf, out, err)
}
