//! Feeds worked on the venue of a config.
ghost use Rattle.std.specs.Prelude.{◌≡◌, ◌≤◌, ℕ, length, map, slice_get, Some, IfOk};
ghost use Rattle.std.specs.List.{All};
ghost use Rattle.venue_words.specs.Conditions.{IsConfig};
ghost use Rattle.venue_words.specs.Floors.{setup_of};
ghost use Rattle.venue_words.specs.declared.limits.TheConstants.{MAX_FEEDS};
ghost use Rattle.symbol_book.specs.Book.{BookView};
ghost use Rattle.feed_work.specs.Feeds.{IsFor};
ghost use Rattle.feeds_core.specs.Books.{FitLimits, IsWorkedBook};

use crate::running::work_over;
use feed_work::Pace;
use std::alloc::Global;
use std::sync::Wait;
use std::thread::Threads;
use symbol_book::{Book, HashSeed};
use venue_core::make;
use venue_words::{Command, Config, NoMemory};

/// Works feeds on a venue of the config, all at once, each in a thread of its own where one can be started, and answers the
/// books, one for each symbol. A feed is its commands in their order, each with its symbol and its moment; the first feed has
/// the number 1. Identifiers are hashed with the seed; no answer depends on it.
pub fn work_on_venue<R: Threads + Wait + Sync, P: Pace + Sync>(
    rt: &R,
    alloc: Global,
    seed: HashSeed,
    config: &Config,
    pace: &P,
    feeds: Vec<Vec<(u32, i64, Command)>>,
) -> Result<Vec<Book>, NoMemory>
    requires config { IsConfig config.now }
    requires few { length feeds.items ≤ MAX_FEEDS }
    requires commands { All (λ commands. All (IsFor (setup_of config.now)) commands.items) feeds.items }
    requires room { FitLimits config.now (map (λ commands. commands.items) feeds.items) }
    ensures count { IfOk result (λ books. length books.items ≡ length config.now.symbols) }
    ensures books { IfOk result (λ books. (symbol : ℕ) (book : BookView) → slice_get books.items symbol ≡ Some book
        → IsWorkedBook config.now (map (λ commands. commands.items) feeds.items) symbol book) }
{
    let (venue, seats) = make(alloc, seed, config)?;
    let books = work_over(rt, alloc, pace, venue, seats, feeds)?;
    Ok(books)
}
