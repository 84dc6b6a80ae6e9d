//! The lists of all feeds.
ghost use Rattle.std.specs.Prelude.{◌≡◌, ◌<◌, ℕ, Ok, IfOk, length, map, slice_index_or, vec_len};
ghost use Rattle.std.specs.List.{All, AllZip};
ghost use Rattle.venue_words.specs.Conditions.{IsConfig};
ghost use Rattle.feeds_core.specs.FeedLists.{IsCounted, ListsKept};

use crate::feed_list::{FeedList, list_feed};
use crate::feed_text::FeedText;
use std::alloc::Global;
use std::thread::{Threads, map_vec};
use venue_words::{Config, NoMemory};

/// The lists, where none wanted memory.
fn all_of(
    alloc: Global,
    results: Vec<Result<FeedList, NoMemory>>,
) -> Result<Vec<FeedList>, NoMemory>
    ensures { IfOk result (λ lists. results.items ≡ map (λ list. Ok list) lists.items) }
{
    let mut lists = Vec::with_capacity(alloc, results.len())?;
    for result in results {
        lists.push(result?)?;
    }
    Ok(lists)
}

/// The results for feeds, in their order.
fn results_of<R: Threads + Sync>(
    rt: &R,
    alloc: Global,
    config: &Config,
    texts: Vec<FeedText>,
) -> Result<Vec<Result<FeedList, NoMemory>>, NoMemory>
    requires { IsConfig config.now }
    ensures len { IfOk result (λ results. vec_len results ≡ vec_len texts) }
    ensures each { IfOk result (λ results. (i : ℕ) (t r : _) → i < vec_len texts → t ≡ slice_index_or texts.items i t
        → r ≡ slice_index_or results.items i r → IfOk r (λ list. ListsKept config.now t list × IsCounted config.now list)) }
{
    let results = map_vec(
        rt,
        texts,
        &|text: FeedText| -> Result<FeedList, NoMemory>
            requires { IsConfig config.now }
            ensures lists { IfOk result (ListsKept config.entry.now text) }
            ensures counted { IfOk result (IsCounted config.entry.now) }
        { list_feed(alloc, config, &text) },
    )?;
    Ok(results)
}

/// Lists what the lines of feeds of this config come to, all feeds at once, each in a thread of its own where one can be started.
pub fn list_feeds<R: Threads + Sync>(
    rt: &R,
    alloc: Global,
    config: &Config,
    texts: Vec<FeedText>,
) -> Result<Vec<FeedList>, NoMemory>
    requires { IsConfig config.now }
    ensures count { IfOk result (λ lists. length lists.items ≡ length texts.items) }
    ensures lists { IfOk result (λ lists. AllZip (ListsKept config.now) texts.items lists.items) }
    ensures counted { IfOk result (λ lists. All (IsCounted config.now) lists.items) }
{
    let results = results_of(rt, alloc, config, texts)?;
    let lists = all_of(alloc, results)?;
    Ok(lists)
}
