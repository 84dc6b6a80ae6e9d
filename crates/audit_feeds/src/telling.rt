//! An audit that tells where journals are not what feeds ask.
ghost use Rattle.std.specs.Prelude.{◌≡◌, ◌≢◌, ◌≤◌, ◌<◌, ◌⊎◌, ℕ, List, [], Option, Some, Ok, Err, IfErr, IfOk, IfSome, IsErr, IsNone, length};
ghost use Rattle.std.specs.declared.alloc.Global.{Global};
ghost use Rattle.io_edge.specs.Files.{file_named};
ghost use Rattle.venue_words.specs.Causes.{Rose};
ghost use Rattle.venue_words.specs.declared.config.Config.{Config};
ghost use Rattle.line_reader.specs.declared.config_file.ConfigFault.TheVariants as config_fault;
ghost use Rattle.feeds_core.specs.FeedLists.{asked_in};
ghost use Rattle.audit_core.specs.Audited.{HasConfig, IsListing, OfText};
ghost use Rattle.audit_core.specs.Differing.{DiffersAt};
ghost use Rattle.audit_feeds.specs.Days.{IsAuditCause, TellsDepartures};

use crate::rows::{DepartureRows, DepartureTable, Given};
use audit_core::{AuditFault, AuditFiles, AuditRefusal, Verdict};
use audit_tables::tabulate;
use feeds_core::feed_list::FeedList;
use io_edge::{MemSink, Shelf, Sink};
use std::alloc::Global;
use std::sync::ledger::Ledger;
use venue_words::{Bytes, Steps};

/// The verdict on a listing, and where its journals are not what the feeds ask.
#[derive(Debug, Drop)]
pub struct Found {
    pub verdict: Verdict,
    pub departures: Bytes,
}

/// What was put, beside a verdict.
fn found_of(alloc: Global, verdict: Verdict, sink: &MemSink) -> Result<Found, AuditRefusal>
    ensures verdict { IfOk result (λ found. found.verdict ≡ verdict) }
    ensures departures { IfOk result (λ found. ⟦<MemSink as Sink>⟧.told sink.now ≡ Some found.departures) }
    ensures memory { (refusal : AuditRefusal) → result ≡ Err refusal → refusal ≡ AuditRefusal.Listing AuditFault.NoMemory }
{
    match Bytes::copy_of(alloc, sink.bytes()) {
        Ok(departures) => Ok(Found {
            verdict,
            departures,
        }),
        Err(_) => Err(AuditRefusal::Listing(AuditFault::NoMemory)),
    }
}

/// Why there is no verdict, where what is told goes to memory: there a put fails only where memory is wanted.
fn refusal_in_memory(refusal: AuditRefusal) -> AuditRefusal
    ensures quiet { result ≢ AuditRefusal.Listing AuditFault.WriteFault }
    ensures same { (result ≡ refusal) ⊎ (result ≡ AuditRefusal.Listing AuditFault.NoMemory) }
{
    match refusal {
        AuditRefusal::Listing(AuditFault::WriteFault) => {
            AuditRefusal::Listing(AuditFault::NoMemory)
        }
        refusal => refusal,
    }
}

/// Audits a listing, and tells where its journals are not what the feeds ask that the type stands for.
#[tactic(auto, using(crate::proofs::Putting::tells))]
pub fn tell_departures<G: Given, H: Shelf, L: Ledger>(
    alloc: Global,
    files: AuditFiles<'_>,
    lists: &[FeedList],
    shelf: &mut H,
    steps: &mut Steps<L>,
) -> Result<Found, AuditRefusal>
    requires is { asked_in lists.now ≡ G.feeds }
    requires few { length lists.now < 4294967295 }
    ensures same { IfOk result (λ found. found.verdict ≡ Verdict.Same → IfSome (H.told shelf.old) (λ all.
        TellsDepartures all files.entry.config.now files.entry.listing.now (asked_in lists.now) found.departures)) }
    ensures differs { (line : ℕ) (expected : Option (List ℕ)) → IfOk result (λ found. found.verdict ≡ Verdict.Differs line expected →
        IfSome (H.told shelf.old) (λ all. (config : Config) → HasConfig all files.entry.config.now config →
        OfText all files.entry.listing.now (λ text. DiffersAt (IsListing config) text line expected))) }
    ensures why { IfErr result (λ refusal. IfSome (H.told shelf.old) (λ all.
        IsAuditCause all files.entry.config.now files.entry.listing.now refusal)) }
    ensures missing_listing { IfSome (H.told shelf.old) (λ all. IsNone (file_named all files.entry.listing.now) → IsErr result) }
    ensures told { H.told shelf.new ≡ H.told shelf.old }
    ensures later { H.faults shelf.old ≤ H.faults shelf.new }
    ensures config_fault { result ≡ Err (AuditRefusal.Config config_fault.ReadFault) → Rose (H.faults shelf.old) (H.faults shelf.new) }
    ensures listing_fault { result ≡ Err (AuditRefusal.Listing AuditFault.ReadFault) → Rose (H.faults shelf.old) (H.faults shelf.new) }
    ensures quiet { result ≢ Err (AuditRefusal.Listing AuditFault.WriteFault) }
{
    let rows: DepartureRows<'_, G> = DepartureRows::new(lists);
    let Ok(mut table) = DepartureTable::new(alloc, rows, MemSink::new(alloc, Vec::new(alloc)))
    else {
        return Err(AuditRefusal::Listing(AuditFault::NoMemory));
    };
    match tabulate(alloc, files, shelf, &mut table, steps) {
        Ok(verdict) => found_of(alloc, verdict, &table.into_out()),
        Err(refusal) => Err(refusal_in_memory(refusal)),
    }
}
