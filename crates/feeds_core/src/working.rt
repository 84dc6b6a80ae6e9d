//! Feeds of a config are worked on a venue.
ghost use Rattle.std.specs.Prelude.{◌≡◌, ◌≤◌, ℕ, List, true, Err, IfErr, IfOk, length, map};
ghost use Rattle.std.specs.List.{All};
ghost use Rattle.venue_words.specs.Causes.{Rose};
ghost use Rattle.venue_words.specs.Conditions.{IsConfig};
ghost use Rattle.venue_words.specs.declared.limits.TheConstants.{MAX_FEEDS};
ghost use Rattle.feeds_core.specs.Books.{FitLimits};
ghost use Rattle.feeds_core.specs.FeedLists.{IsCounted, asked_in};
ghost use Rattle.feeds_core.specs.FeedRuns.{FeedsOutcome, run_of};
ghost use Rattle.feeds_core.specs.FeedTexts.{KeepsAll};
ghost use Rattle.feeds_core.specs.Statuses.{IsEarly, IsOfRun, name_of, status_in};
ghost use Rattle.feeds_core.specs.Working.{AreSound, IsStopped, listing_status};

use crate::feed_list::FeedList;
use crate::feed_lists::list_feeds;
use crate::feed_text::FeedText;
use crate::giving_back::give_back;
use crate::putting::put_books;
use crate::refused::first_refused;
use crate::status::{FeedsStatus, refused_at};
use crate::sums::first_full;
use crate::venue::work_on_venue;
use feed_work::Pace;
use io_edge::Sink;
use listing::ListingFault;
use std::alloc::{AllocError, Global};
use std::sync::Wait;
use std::thread::Threads;
use symbol_book::HashSeed;
use venue_words::{Command, Config};

/// Why a listing was not put whole.
fn listing_status(fault: ListingFault) -> FeedsStatus
    ensures { result ≡ listing_status fault }
{
    match fault {
        ListingFault::WriteFault => FeedsStatus::WriteFault,
        ListingFault::NoMemory => FeedsStatus::NoMemory,
    }
}

/// The commands of all feeds.
fn commands_of(
    alloc: Global,
    lists: Vec<FeedList>,
) -> Result<Vec<Vec<(u32, i64, Command)>>, AllocError>
    ensures { IfOk result (λ commands. commands.items ≡ map (λ list. list.commands) lists.items) }
{
    lists.into_iter().map(|list| list.commands).collect(alloc)
}

/// The lists of feeds, unless a line is refused or a symbol has too many commands.
pub fn lists_of<R: Threads + Sync>(
    rt: &R,
    alloc: Global,
    config: &Config,
    texts: Vec<FeedText>,
) -> Result<Vec<FeedList>, FeedsStatus>
    requires config { IsConfig config.now }
    requires few { length texts.items ≤ MAX_FEEDS }
    ensures sound { IfOk result (λ lists. (already : ℕ) (feeds : List (List ℕ)) → KeepsAll true already feeds texts.items
        → AreSound (run_of config.now already feeds) lists.items) }
    ensures counted { IfOk result (λ lists. All (IsCounted config.now) lists.items) }
    ensures count { IfOk result (λ lists. length lists.items ≡ length texts.items) }
    ensures room { IfOk result (λ lists. FitLimits config.now (asked_in lists.items)) }
    ensures stops { IfErr result (λ status. (already : ℕ) (feeds : List (List ℕ)) → KeepsAll true already feeds texts.items
        → IsStopped (run_of config.now already feeds) status) }
    ensures early { IfErr result (IsEarly config.now) }
{
    let lists = list_feeds(rt, alloc, config, texts)?;
    let refused = first_refused(alloc, lists.as_slice())?;
    if let Some(line) = refused {
        return Err(refused_at(line.file, line.fault));
    }
    match first_full(config, lists.as_slice()) {
        Some(symbol) => Err(FeedsStatus::Full { symbol }),
        None => Ok(lists),
    }
}

/// Works the feeds of a config, unless a line is refused or a symbol has too many commands, and puts the listing.
pub fn work_texts<R: Threads + Wait + Sync, P: Pace + Sync, K: Sink>(
    rt: &R,
    alloc: Global,
    config: &Config,
    texts: Vec<FeedText>,
    pace: &P,
    out: &mut K,
) -> Result<(), FeedsStatus>
    requires config { IsConfig config.now }
    requires few { length texts.items ≤ MAX_FEEDS }
    ensures outcome { (already : ℕ) (feeds : List (List ℕ)) → KeepsAll true already feeds texts.items
        → FeedsOutcome (run_of config.now already feeds) (K.told out.old) (K.told out.new)
        (name_of config.now (status_in result)) (status_in result) }
    ensures status { IfErr result (IsOfRun config.now) }
    ensures later { K.faults out.old ≤ K.faults out.new }
    ensures write { result ≡ Err FeedsStatus.WriteFault → Rose (K.faults out.old) (K.faults out.new) }
{
    let lists = lists_of(rt, alloc, config, texts)?;
    let commands = commands_of(alloc, lists)?;
    let books = work_on_venue(rt, alloc, HashSeed::fixed(), config, pace, commands)?;
    match put_books(rt, alloc, config, books.as_slice(), out) {
        Ok(()) => {
            give_back(rt, books);
            Ok(())
        }
        Err(fault) => Err(listing_status(fault)),
    }
}
