//! How many commands the feeds have for each symbol.
ghost use Rattle.std.specs.Prelude.{◌≡◌, ◌<◌, ◌≤◌, Some, None, length, map, IfSome};
ghost use Rattle.std.specs.List.{All};
ghost use Rattle.venue_words.specs.Conditions.{IsConfig};
ghost use Rattle.venue_words.specs.declared.limits.TheConstants.{MAX_FEEDS};
ghost use Rattle.feeds_core.specs.Books.{FitLimits, count_at};
ghost use Rattle.feeds_core.specs.FeedLists.{IsCounted, asked_in};
ghost use Rattle.feeds_core.specs.FeedSums.{first_over};

use crate::feed_list::FeedList;
use venue_words::Config;

/// How many commands all feeds of the config have for a symbol.
fn count_at(config: &Config, lists: &[FeedList], symbol: usize) -> u64
    requires few { length lists.now ≤ MAX_FEEDS }
    requires symbol { symbol < length config.now.symbols }
    requires counted { All (IsCounted config.now) lists.now }
    ensures { result ≡ count_at symbol (asked_in lists.now) }
{
    let mut count = 0u64;
    for list in lists {
        count += u64::from(list.counts[symbol]);
    }
    count
}

/// The first symbol, in the config's order, for which the feeds have more commands than its journal may hold.
pub fn first_full(config: &Config, lists: &[FeedList]) -> Option<u32>
    requires config { IsConfig config.now }
    requires few { length lists.now ≤ MAX_FEEDS }
    requires counted { All (IsCounted config.now) lists.now }
    ensures first { result ≡ first_over 0 config.now.limits (λ symbol. count_at symbol (asked_in lists.now)) }
    ensures within { IfSome result (λ symbol. symbol < length config.now.symbols) }
    ensures room { result ≡ None → FitLimits config.now (asked_in lists.now) }
{
    let limits = config.limits.as_slice();
    for symbol in 0..limits.len() {
        if u64::from(limits[symbol]) < count_at(config, lists, symbol) {
            return Some(symbol as u32);
        }
    }
    None
}
