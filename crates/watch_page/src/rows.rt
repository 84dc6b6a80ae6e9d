//! What rows say beyond their numbers.
ghost use Rattle.std.specs.Prelude.{◌≡◌};
ghost use Rattle.watch_page.specs.Rows.{level_of, is_stale};

/// How near events are to their limit.
#[derive(Clone, Copy, Debug, PartialEq, Eq)]
pub enum Level {
    Fine,
    /// At least 80 of a hundred are used.
    Near,
    /// At least 95 of a hundred are used.
    Almost,
}

/// How near so many events are to a limit.
#[tactic(auto, unfolding(crate::specs::Rows::level_of))]
pub fn level_of(events: u32, limit: u32) -> Level
    ensures { result ≡ level_of events limit }
{
    let used = u64::from(events) * 100;
    let limit = u64::from(limit);
    if used >= limit * 95 {
        Level::Almost
    } else if used >= limit * 80 {
        Level::Near
    } else {
        Level::Fine
    }
}

/// Whether a quote that came at a moment is stale now: nothing confirmed it for longer than `most`. All three count milliseconds.
pub fn is_stale(since: Option<u64>, now: u64, most: u64) -> bool
    ensures { result ≡ is_stale since now most }
{
    match since {
        Some(since) => now.saturating_sub(since) > most,
        None => false,
    }
}
