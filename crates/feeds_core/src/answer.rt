//! What the words of a run name is run.
ghost use Rattle.std.specs.Prelude.{◌≡◌, ◌≢◌, ◌≤◌, ◌⊎◌, None, IfSome, IsTrue, length};
ghost use Rattle.venue_words.specs.Causes.{Rose};
ghost use Rattle.venue_words.specs.declared.limits.TheConstants.{MAX_CONFIG_BYTES, MAX_FEEDS};
ghost use Rattle.io_edge.specs.Faults.{IsCaused, faults};
ghost use Rattle.program_words.specs.Words.{texts};
ghost use Rattle.line_reader.specs.ConfigFile.{config_file};
ghost use Rattle.feeds_core.specs.FeedPlan.{plan_in, plan_of};
ghost use Rattle.feeds_core.specs.FeedRuns.{Ends, HasFiles, HasNamed, Outcome, Texts, named_texts};
ghost use Rattle.feeds_core.specs.RunFiles.{Holds, IsReady};

use crate::ended::{Ended, named};
use crate::files::{RunFiles, read_files};
use crate::plan::{FeedPlan, plan_of};
use crate::reading::ReadRefusal;
use crate::status::{FeedsStatus, refusal_of, refused_at};
use crate::working::work_texts;
use feed_work::Pace;
use io_edge::{Shelf, Sink};
use program_words::read_words;
use std::alloc::Global;
use std::sync::Wait;
use std::thread::Threads;

/// Why files were not read.
fn reading_status(refusal: ReadRefusal) -> FeedsStatus
    ensures status { (result ≡ FeedsStatus.ReadFault) ⊎ (result ≡ FeedsStatus.NoMemory) }
    ensures fault { result ≡ FeedsStatus.ReadFault → refusal ≡ ReadRefusal.ReadFault }
{
    match refusal {
        ReadRefusal::ReadFault => FeedsStatus::ReadFault,
        ReadRefusal::NoMemory => FeedsStatus::NoMemory,
    }
}

/// Runs what was read.
fn run_files<R: Threads + Wait + Sync, P: Pace + Sync, K: Sink>(
    rt: &R,
    alloc: Global,
    files: RunFiles,
    pace: &P,
    out: &mut K,
) -> Ended
    requires ready { IsReady files.config }
    requires few { length files.feeds.items ≤ MAX_FEEDS }
    ensures outcome { (texts : Texts) → Holds texts files
        → Outcome (config_file MAX_CONFIG_BYTES texts.config) texts.feeds (K.told out.old) (K.told out.new) result.name result.status }
    ensures words { result.status ≢ FeedsStatus.BadWords }
    ensures read { result.status ≢ FeedsStatus.ReadFault }
    ensures later { K.faults out.old ≤ K.faults out.new }
    ensures write { result.status ≡ FeedsStatus.WriteFault → Rose (K.faults out.old) (K.faults out.new) }
{
    let RunFiles { config, feeds } = files;
    let config = match config {
        Ok(file) => file.config,
        Err(fault) => return Ended::new(alloc, refused_at(0, fault)),
    };
    match work_texts(rt, alloc, &config, feeds, pace, out) {
        Ok(()) => {
            drop(config);
            Ended::new(alloc, FeedsStatus::Done)
        }
        Err(status) => {
            let ended = named(alloc, &config, status);
            drop(config);
            ended
        }
    }
}

/// Reads the files that are named, and runs them.
fn run_plan<R: Threads + Wait + Sync, P: Pace + Sync, H: Shelf, K: Sink>(
    rt: &R,
    alloc: Global,
    plan: FeedPlan<'_>,
    pace: &P,
    shelf: &mut H,
    out: &mut K,
) -> Ended
    requires { length plan.feeds.now ≤ MAX_FEEDS }
    ensures files { IfSome (H.told shelf.old) (λ files. IfSome (named_texts files (plan_in plan.entry)) (λ texts.
        Outcome (config_file MAX_CONFIG_BYTES texts.config) texts.feeds (K.told out.old) (K.told out.new) result.name result.status)) }
    ensures missing { IfSome (H.told shelf.old) (λ files. named_texts files (plan_in plan.entry) ≡ None
        → ((result.status ≡ FeedsStatus.ReadFault) ⊎ (result.status ≡ FeedsStatus.NoMemory)) × (K.told out.new ≡ K.told out.old)) }
    ensures words { result.status ≢ FeedsStatus.BadWords }
    ensures caused { IsCaused FeedsStatus.ReadFault FeedsStatus.WriteFault (faults (H.faults shelf.old) (K.faults out.old))
        (faults (H.faults shelf.new) (K.faults out.new)) result.status }
    ensures sure { IsTrue (H.sure shelf.old) → HasNamed (H.told shelf.old) (plan_in plan.entry) → result.status ≢ FeedsStatus.ReadFault }
{
    match read_files(alloc, plan, shelf) {
        Ok(files) => run_files(rt, alloc, files, pace, out),
        Err(refusal) => Ended::new(alloc, reading_status(refusal)),
    }
}

/// Reads the words, and runs what they name.
pub fn answer<R: Threads + Wait + Sync, P: Pace + Sync, H: Shelf, K: Sink>(
    rt: &R,
    alloc: Global,
    words: &[String],
    pace: &P,
    shelf: &mut H,
    out: &mut K,
) -> Ended
    ensures ends { Ends (H.told shelf.old) (texts words.now) (K.told out.old) (K.told out.new) result.name result.status }
    ensures caused { IsCaused FeedsStatus.ReadFault FeedsStatus.WriteFault (faults (H.faults shelf.old) (K.faults out.old))
        (faults (H.faults shelf.new) (K.faults out.new)) result.status }
    ensures sure { IsTrue (H.sure shelf.old) → HasFiles (H.told shelf.old) (plan_of (texts words.now)) →
        result.status ≢ FeedsStatus.ReadFault }
{
    let read = match read_words(alloc, words) {
        Ok(read) => read,
        Err(fault) => return Ended::new(alloc, refusal_of(fault)),
    };
    match plan_of(read.as_slice()) {
        Some(plan) => run_plan(rt, alloc, plan, pace, shelf, out),
        None => Ended::new(alloc, FeedsStatus::BadWords),
    }
}
