//! The day as a page by the files of its audit.
ghost use Rattle.std.specs.Prelude.{◌≡◌, ◌≤◌, ◌<◌, ◌⊎◌, ℕ, List, Option, Ok, Err, true, false, length, IfOk, IfSome};
ghost use Rattle.venue_words.specs.declared.config.Config.{Config};
ghost use Rattle.line_reader.specs.declared.config_file.ConfigFault.{ConfigFault};
ghost use Rattle.listing_reader.specs.Fitting.{has_word_names};
ghost use Rattle.audit_core.specs.Audited.{HasConfig, IsConfigFault, IsListing, OfText};
ghost use Rattle.audit_core.specs.Differing.{DiffersAt, IsLongLine};
ghost use Rattle.audit_core.specs.Names.{has_line_names};
ghost use Rattle.audit_core.specs.declared.verdict.TheConstants.{MAX_LISTING_BYTES};
ghost use Rattle.audit_report.specs.Reports.{IsReport};
ghost use Rattle.audit_report.specs.Weaving.{IsWoven};

use crate::kept::KeptShelf;
use crate::page::{Head, page_of};
use crate::rows::ReportRows;
use crate::verdict::Source;
use audit_core::{AuditFault, AuditFiles, AuditRefusal, Verdict};
use audit_tables::{RowTable, tabulate};
use io_edge::{MemSink, Shelf};
use std::alloc::Global;
use std::sync::ledger::Ledger;
use venue_words::{NoMemory, Steps};

/// A page, and the verdict that stands at its top.
#[derive(Drop)]
pub struct Reported {
    pub page: Vec<u8>,
    pub verdict: Verdict,
}

/// A config and a listing, and where the listing's events come from.
#[derive(Clone, Copy)]
pub struct ReportFiles<'a> {
    pub files: AuditFiles<'a>,
    pub source: Source<'a>,
}

/// The last part of a file's name.
fn file_name(path: &str) -> &str {
    path.rsplit('/').next().unwrap_or(path)
}

/// The page of what was gathered.
fn page_told<H: Shelf + Drop>(
    alloc: Global,
    asked: ReportFiles<'_>,
    shelf: &KeptShelf<H>,
    verdict: &Verdict,
    rows: &mut ReportRows,
    sections: &[u8],
) -> Result<Vec<u8>, NoMemory>
    ensures { IfOk result (λ page. IsWoven sections.now page.items) }
{
    let (lines, found) = match verdict {
        Verdict::Same => (shelf.ended(), None),
        Verdict::Differs { line, .. } => {
            let line = u64::from(*line);
            (line.saturating_sub(1), shelf.line(line))
        }
    };
    let head = Head {
        config: file_name(asked.files.config),
        listing: file_name(asked.files.listing),
        source: asked.source,
        lines,
        found,
    };
    page_of(alloc, &head, verdict, rows, sections)
}

/// Audits the listing of a config, both of them files, and makes the day's page; where its events come from is told as it is given. Out of memory is told as a fault of the listing.
pub fn report_day<H: Shelf + Drop, L: Ledger>(
    alloc: Global,
    asked: ReportFiles<'_>,
    shelf: &mut KeptShelf<H>,
    steps: &mut Steps<L>,
) -> Result<Reported, AuditRefusal>
    // On a shelf that tells its files: with `Same` the one file is the listing of the config in the other, and the page tells of its journals. With a
    // line that differs it is none, and the line is the first with which it can be none.
    ensures same { IfOk result (λ reported. reported.verdict ≡ Verdict.Same → IfSome (⟦<KeptShelf<H> as Shelf>⟧.told shelf.old) (λ all.
        IsReport all asked.entry.files.config.now asked.entry.files.listing.now reported.page.items)) }
    ensures differs { IfOk result (λ reported. (line : ℕ) (expected : Option (List ℕ)) → reported.verdict ≡ Verdict.Differs line expected →
        IfSome (⟦<KeptShelf<H> as Shelf>⟧.told shelf.old) (λ all. (config : Config) → HasConfig all asked.entry.files.config.now config →
        OfText all asked.entry.files.listing.now (λ text. DiffersAt (IsListing config) text line expected))) }

    // Every other answer has its cause.
    ensures config { (fault : ConfigFault) → result ≡ Err (AuditRefusal.Config fault) → IfSome (⟦<KeptShelf<H> as Shelf>⟧.told shelf.old) (λ all.
        IsConfigFault all asked.entry.files.config.now fault) }
    ensures split { result ≡ Err AuditRefusal.SplitName → IfSome (⟦<KeptShelf<H> as Shelf>⟧.told shelf.old) (λ all. (config : Config) →
        HasConfig all asked.entry.files.config.now config → (has_word_names config ≡ false) ⊎ (has_line_names config ≡ false)) }
    ensures long { (line : ℕ) → result ≡ Err (AuditRefusal.Listing (AuditFault.LongLine line)) → IfSome (⟦<KeptShelf<H> as Shelf>⟧.told shelf.old) (λ all.
        OfText all asked.entry.files.listing.now (λ text. IsLongLine text line)) }
    ensures large { result ≡ Err (AuditRefusal.Listing AuditFault.TooLarge) → IfSome (⟦<KeptShelf<H> as Shelf>⟧.told shelf.old) (λ all.
        OfText all asked.entry.files.listing.now (λ text. MAX_LISTING_BYTES < length text)) }
{
    let rows = match ReportRows::new(alloc) {
        Ok(rows) => rows,
        Err(_) => return Err(AuditRefusal::Listing(AuditFault::NoMemory)),
    };
    let mut table = match RowTable::new(alloc, rows, MemSink::new(alloc, Vec::new(alloc))) {
        Ok(table) => table,
        Err(_) => return Err(AuditRefusal::Listing(AuditFault::NoMemory)),
    };
    let verdict = match tabulate(alloc, asked.files, shelf, &mut table, steps) {
        Ok(verdict) => verdict,
        Err(AuditRefusal::Listing(AuditFault::WriteFault)) => {
            return Err(AuditRefusal::Listing(AuditFault::NoMemory));
        }
        Err(refusal) => return Err(refusal),
    };
    let (mut rows, sink) = table.into_parts();
    match page_told(alloc, asked, shelf, &verdict, &mut rows, sink.bytes()) {
        Ok(page) => Ok(Reported { page, verdict }),
        Err(_) => Err(AuditRefusal::Listing(AuditFault::NoMemory)),
    }
}
