//! An audit of a listing by its config and its feeds.
ghost use Rattle.std.specs.Prelude.{◌≡◌, ◌≢◌, ◌≤◌, ◌⊎◌, ℕ, List, [], Option, None, Ok, Err, map, length, IfSome, IsErr, IsNone, IsTrue};
ghost use Rattle.io_edge.specs.Files.{file_named};
ghost use Rattle.venue_words.specs.Causes.{Rose};
ghost use Rattle.venue_words.specs.declared.config.Config.{Config};
ghost use Rattle.venue_words.specs.declared.limits.TheConstants.{MAX_CONFIG_BYTES, MAX_FEEDS};
ghost use Rattle.line_reader.specs.ConfigFile.{config_file};
ghost use Rattle.line_reader.specs.declared.config_file.ConfigFault.TheVariants as config_fault;
ghost use Rattle.feeds_core.specs.FeedLists.{asked_in};
ghost use Rattle.feeds_core.specs.FeedRuns.{HasNamed, named_texts};
ghost use Rattle.feeds_core.specs.declared.status.FeedsStatus.{FeedsStatus};
ghost use Rattle.audit_core.specs.Audited.{HasConfig, IsListing, OfText};
ghost use Rattle.audit_core.specs.Differing.{DiffersAt};
ghost use Rattle.audit_core.specs.declared.audit.AuditRefusal.{AuditRefusal};
ghost use Rattle.audit_core.specs.declared.verdict.AuditFault.TheVariants as audit_fault;
ghost use Rattle.audit_feeds.specs.Days.{AreSoundFeeds, HasPlainNames, IsAuditCause, IsDayOfFeeds, LacksFeeds, StopsFor, DepartsFromFeeds, TellsOfFeeds};

use crate::lists::read_lists;
use crate::telling::{Found, tell_departures};
use audit_core::{AuditFiles, AuditRefusal, Verdict};
use feeds_core::FeedsStatus;
use io_edge::Shelf;
use listing::runs_are_in_order;
use market_laws::reports_are_few;
use std::alloc::Global;
use std::marker::Brand;
use std::sync::ledger::Ledger;
use std::thread::Threads;
use venue_words::{Bytes, Steps};

/// What a listing is found to be beside its feeds.
#[derive(Debug, Drop)]
pub enum FeedsVerdict {
    /// It is the listing of journals of the config, and each of these holds the commands of each feed for its symbol, once and in the
    /// feed's order, and nothing else.
    Same,
    /// It is the listing of no journals: with this line, counted from 1, the lines are the beginning of none. What should stand there is
    /// given where the lines before it say so.
    Differs { line: u32, expected: Option<Bytes> },
    /// It is the listing of journals, and some of these are not what the feeds ask. The lines say where each of them first is not.
    Departures(Bytes),
}

/// Why there is no verdict.
#[derive(Clone, Copy, Debug, PartialEq, Eq)]
pub enum FeedsRefusal {
    /// The config or a feed was not read, or `pegvenue` would not work these feeds.
    Feeds(FeedsStatus),
    /// The listing was not audited.
    Audit(AuditRefusal),
}

/// The verdict by what was found.
fn verdict_of(found: Found) -> FeedsVerdict
    ensures same { result ≡ FeedsVerdict.Same → (found.verdict ≡ Verdict.Same) × (found.departures ≡ []) }
    ensures departures { (text : List ℕ) → result ≡ FeedsVerdict.Departures text → (found.verdict ≡ Verdict.Same) × (found.departures ≡ text) × (text ≢ []) }
    ensures differs { (line : ℕ) (expected : Option (List ℕ)) → result ≡ FeedsVerdict.Differs line expected → found.verdict ≡ Verdict.Differs line expected }
{
    let Found {
        verdict,
        departures,
    } = found;
    match verdict {
        Verdict::Differs { line, expected } => FeedsVerdict::Differs { line, expected },
        Verdict::Same if departures.as_slice().is_empty() => FeedsVerdict::Same,
        Verdict::Same => FeedsVerdict::Departures(departures),
    }
}

/// Whether a file is the listing of journals of the config in another file, and these journals are what the feeds in other files ask; or the
/// first line with which it is none, or where a journal is not what the feeds ask. There are at most 64 feeds, numbered from 1 as here.
pub fn audit_feeds<R: Threads + Sync, H: Shelf, L: Ledger>(
    rt: &R,
    alloc: Global,
    files: AuditFiles<'_>,
    feeds: &[&str],
    shelf: &mut H,
    steps: &mut Steps<L>,
) -> Result<FeedsVerdict, FeedsRefusal>
    requires { length feeds.now ≤ MAX_FEEDS }

    // On a shelf that tells its files: with `Same` the one file is the listing of journals of the config in the other, and each holds the
    // commands of each feed for its symbol, once and in the feed's order, and nothing else; with departures some journal does not, and the file
    // is the listing of no journals that do. With a line that
    // differs it is the listing of no journals, and the line is the first with which it can be none.
    ensures same { result ≡ Ok FeedsVerdict.Same → IfSome (H.told shelf.old) (λ all.
        IsDayOfFeeds all files.entry.config.now files.entry.listing.now (map (λ feed. feed.now) feeds.now)) }
    ensures departures { (text : List ℕ) → result ≡ Ok (FeedsVerdict.Departures text) → IfSome (H.told shelf.old) (λ all.
        DepartsFromFeeds all files.entry.config.now files.entry.listing.now (map (λ feed. feed.now) feeds.now)) }
    ensures tells { (text : List ℕ) → result ≡ Ok (FeedsVerdict.Departures text) → IfSome (H.told shelf.old) (λ all.
        TellsOfFeeds all files.entry.config.now files.entry.listing.now (map (λ feed. feed.now) feeds.now) text) }
    ensures exact { (text : List ℕ) → result ≡ Ok (FeedsVerdict.Departures text) → IfSome (H.told shelf.old) (λ all.
        (config : Config) → HasConfig all files.entry.config.now config → HasPlainNames config →
        IsDayOfFeeds all files.entry.config.now files.entry.listing.now (map (λ feed. feed.now) feeds.now) → ⊥) }
    ensures differs { (line : ℕ) (expected : Option (List ℕ)) → result ≡ Ok (FeedsVerdict.Differs line expected) →
        IfSome (H.told shelf.old) (λ all. (config : Config) → HasConfig all files.entry.config.now config →
        OfText all files.entry.listing.now (λ text. DiffersAt (IsListing config) text line expected)) }

    // Unless the answer is that the feeds were not taken, no line of theirs is refused.
    ensures read { IfSome (H.told shelf.old) (λ all.
        LacksFeeds result ⊎ AreSoundFeeds all files.entry.config.now (map (λ feed. feed.now) feeds.now)) }

    // Every other answer has its cause.
    ensures feeds { (status : FeedsStatus) → result ≡ Err (FeedsRefusal.Feeds status) → IfSome (H.told shelf.old) (λ all.
        IfSome (named_texts all (record { config = files.entry.config.now; feeds = map (λ feed. feed.now) feeds.now })) (λ texts.
        StopsFor (config_file MAX_CONFIG_BYTES texts.config) texts.feeds status)) }
    ensures missing { IfSome (H.told shelf.old) (λ all.
        named_texts all (record { config = files.entry.config.now; feeds = map (λ feed. feed.now) feeds.now }) ≡ None →
        (result ≡ Err (FeedsRefusal.Feeds FeedsStatus.ReadFault)) ⊎ (result ≡ Err (FeedsRefusal.Feeds FeedsStatus.NoMemory))) }
    ensures missing_listing { IfSome (H.told shelf.old) (λ all. IsNone (file_named all files.entry.listing.now) → IsErr result) }
    ensures audit { (refusal : AuditRefusal) → result ≡ Err (FeedsRefusal.Audit refusal) → IfSome (H.told shelf.old) (λ all.
        IsAuditCause all files.entry.config.now files.entry.listing.now refusal) }
    ensures told { H.told shelf.new ≡ H.told shelf.old }
    ensures later { H.faults shelf.old ≤ H.faults shelf.new }
    ensures feeds_fault { result ≡ Err (FeedsRefusal.Feeds FeedsStatus.ReadFault) → Rose (H.faults shelf.old) (H.faults shelf.new) }
    ensures config_fault { result ≡ Err (FeedsRefusal.Audit (AuditRefusal.Config config_fault.ReadFault)) → Rose (H.faults shelf.old) (H.faults shelf.new) }
    ensures listing_fault { result ≡ Err (FeedsRefusal.Audit (AuditRefusal.Listing audit_fault.ReadFault)) → Rose (H.faults shelf.old) (H.faults shelf.new) }
    ensures quiet { result ≢ Err (FeedsRefusal.Audit (AuditRefusal.Listing audit_fault.WriteFault)) }
    ensures sure_feeds { IsTrue (H.sure shelf.old) →
        HasNamed (H.told shelf.old) (record { config = files.entry.config.now; feeds = map (λ feed. feed.now) feeds.now }) →
        result ≢ Err (FeedsRefusal.Feeds FeedsStatus.ReadFault) }
{
    let lists = match read_lists(rt, alloc, files.config, feeds, shelf) {
        Ok(lists) => lists,
        Err(status) => return Err(FeedsRefusal::Feeds(status)),
    };
    runs_are_in_order();
    reports_are_few();
    match tell_departures::<Brand, H, L>(alloc, files, lists.as_slice(), shelf, steps) {
        Ok(found) => Ok(verdict_of(found)),
        Err(refusal) => Err(FeedsRefusal::Audit(refusal)),
    }
}
