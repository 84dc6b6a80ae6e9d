//! What the words of a run name.
ghost use Rattle.std.specs.Prelude.{◌≡◌, ◌≤◌, None, Some, map, length, IfSome, MatchOption};
ghost use Rattle.venue_words.specs.declared.limits.TheConstants.{MAX_FEEDS};
ghost use Rattle.feeds_core.specs.FeedPlan.{form_of, plan_in};

use venue_words::limits::MAX_FEEDS;

/// The files that the words name.
#[derive(Clone, Copy, Debug)]
pub struct FeedPlan<'a> {
    pub config: &'a str,
    /// From 1 to 64 of them.
    pub feeds: &'a [&'a str],
}

/// The files that words without a flag name: a config, and behind it feeds.
pub fn plan_of<'a>(words: &'a [&'a str]) -> Option<FeedPlan<'a>>
    ensures form { MatchOption result (form_of (map (λ word. word.now) words.now) ≡ None)
        (λ plan. form_of (map (λ word. word.now) words.now) ≡ Some (plan_in plan)) }
    ensures few { IfSome result (λ plan. length plan.feeds.now ≤ MAX_FEEDS) }
{
    match words {
        [config, feeds @ ..] if 1 <= feeds.len() && feeds.len() <= MAX_FEEDS => {
            Some(FeedPlan { config, feeds })
        }
        _ => None,
    }
}
