//! What the feeds of a config ask.
ghost use Rattle.std.specs.Prelude.{◌≡◌, ◌≢◌, ◌≤◌, ◌⊎◌, ℕ, List, None, Err, map, length, IfErr, IfOk, IfSome, IsTrue};
ghost use Rattle.venue_words.specs.Causes.{Rose};
ghost use Rattle.venue_words.specs.declared.limits.TheConstants.{MAX_CONFIG_BYTES, MAX_FEEDS};
ghost use Rattle.line_reader.specs.ConfigFile.{Answer, config_file};
ghost use Rattle.feeds_core.specs.FeedRuns.{HasNamed, named_texts};
ghost use Rattle.audit_feeds.specs.Days.{AreListsOf, StopsFor};

use feeds_core::FeedsStatus;
use feeds_core::feed_list::FeedList;
use feeds_core::files::{RunFiles, read_files};
use feeds_core::plan::FeedPlan;
use feeds_core::reading::ReadRefusal;
use feeds_core::status::refused_at;
use feeds_core::working::lists_of;
use io_edge::Shelf;
use std::alloc::Global;
use std::thread::Threads;

#[tactic(auto, using(crate::proofs::Refusals::no_memory))]
fn status_of(refusal: ReadRefusal) -> FeedsStatus
    ensures why { (answer : Answer) (feeds : List (List ℕ)) → StopsFor answer feeds result }
    ensures fault { result ≡ FeedsStatus.ReadFault → refusal ≡ ReadRefusal.ReadFault }
    ensures either { (result ≡ FeedsStatus.ReadFault) ⊎ (result ≡ FeedsStatus.NoMemory) }
{
    match refusal {
        ReadRefusal::ReadFault => FeedsStatus::ReadFault,
        ReadRefusal::NoMemory => FeedsStatus::NoMemory,
    }
}

/// The lists of the feeds of a config, all read from a shelf.
#[tactic(auto, using(crate::proofs::Refusals::why_refused))]
pub fn read_lists<R: Threads + Sync, H: Shelf>(
    rt: &R,
    alloc: Global,
    config: &str,
    feeds: &[&str],
    shelf: &mut H,
) -> Result<Vec<FeedList>, FeedsStatus>
    requires { length feeds.now ≤ MAX_FEEDS }
    ensures lists { IfSome (H.told shelf.old) (λ files. IfOk result (λ lists.
        AreListsOf files config.now (map (λ feed. feed.now) feeds.now) lists.items)) }
    ensures count { IfOk result (λ lists. length lists.items ≡ length feeds.now) }
    ensures why { IfErr result (λ status. IfSome (H.told shelf.old) (λ files.
        IfSome (named_texts files (record { config = config.now; feeds = map (λ feed. feed.now) feeds.now })) (λ texts.
        StopsFor (config_file MAX_CONFIG_BYTES texts.config) texts.feeds status))) }
    ensures missing { IfSome (H.told shelf.old) (λ files.
        named_texts files (record { config = config.now; feeds = map (λ feed. feed.now) feeds.now }) ≡ None →
        (result ≡ Err FeedsStatus.ReadFault) ⊎ (result ≡ Err FeedsStatus.NoMemory)) }
    ensures told { H.told shelf.new ≡ H.told shelf.old }
    ensures later { H.faults shelf.old ≤ H.faults shelf.new }
    ensures fault { result ≡ Err FeedsStatus.ReadFault → Rose (H.faults shelf.old) (H.faults shelf.new) }
    ensures sure { IsTrue (H.sure shelf.old) →
        HasNamed (H.told shelf.old) (record { config = config.now; feeds = map (λ feed. feed.now) feeds.now }) →
        result ≢ Err FeedsStatus.ReadFault }
{
    let files = match read_files(alloc, FeedPlan { config, feeds }, shelf) {
        Ok(files) => files,
        Err(refusal) => return Err(status_of(refusal)),
    };
    let RunFiles { config, feeds } = files;
    match config {
        Ok(file) => lists_of(rt, alloc, &file.config, feeds),
        Err(fault) => Err(refused_at(0, fault)),
    }
}
