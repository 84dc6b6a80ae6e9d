//! The moves that still answer for some limit, oldest first, with rising lows.
ghost use Rattle.std.specs.Prelude.{◌≡◌, ℕ, ◌+◌, ◌<◌, ◌≤◌, length, nat_lt, if◌then◌else◌, vec_len};
ghost use Rattle.std.specs.Vec.{vec_capacity};
ghost use Rattle.move_history.specs.Kept.{low_at, IsRising, AreLowsAtMost, last_below};

use std::sync::ledger::Ledger;
use venue_words::Steps;

/// A move that is the last one for some limits: those above `low`, which is the lesser of the values
/// before and after it.
#[derive(Clone, Copy, Debug, PartialEq, Eq)]
pub struct KeptMove {
    /// The number of the event of the move.
    pub event: u32,
    /// In units of 0.005; 0 where the value was or became none.
    pub low: u32,
}

/// How many moves at the front have a low below this one. Each comparison is a step.
fn count_below<L: Ledger>(kept: &[KeptMove], low: u32, steps: &mut Steps<L>) -> usize
    requires rising { IsRising kept.now }
    ensures within { result ≤ length kept.now }
    ensures below { (i : ℕ) → i < result → low_at kept.now i < low }
    ensures above { (i : ℕ) → result ≤ i → i < length kept.now → low ≤ low_at kept.now i }
    ensures ticks { steps.old + 1 ≤ steps.new }
    ensures most { steps.new ≤ steps.old + 64 }
{
    if kept.is_empty() {
        steps.tick();
        return 0;
    }
    let mut start = 0;
    let mut end = kept.len();
    while start < end {
        let middle = start + (end - start) / 2;
        steps.tick();
        if kept[middle].low < low {
            start = middle + 1;
        } else {
            end = middle;
        }
    }
    start
}

/// Drops the moves that this one hides, and puts it behind the others.
pub fn keep<L: Ledger>(kept: &mut Vec<KeptMove>, next: KeptMove, steps: &mut Steps<L>)
    requires rising { IsRising kept.old.items }
    requires room { vec_len kept.old < vec_capacity kept.old }
    ensures rising { IsRising kept.new.items }
    ensures lows { AreLowsAtMost next.low kept.new.items }
    ensures changes { (cap : ℕ) → last_below cap 0 kept.new.items ≡
        (if nat_lt next.low cap then next.event else last_below cap 0 kept.old.items) }
    ensures capacity { vec_capacity kept.old ≤ vec_capacity kept.new }
    ensures len { vec_len kept.new ≤ vec_len kept.old + 1 }
    ensures ticks { steps.old + 1 ≤ steps.new }
    ensures most { steps.new ≤ steps.old + 64 }
{
    let lower = count_below(kept.as_slice(), next.low, steps);
    kept.truncate(lower);
    match kept.push(next) {
        Ok(()) => {}
        Err(_) => unreachable!(),
    }
}

/// The event of the last move with a low below the cap, or 0.
pub fn last_event_below<L: Ledger>(kept: &[KeptMove], cap: u32, steps: &mut Steps<L>) -> u32
    requires rising { IsRising kept.now }
    ensures event { result ≡ last_below cap 0 kept.now }
    ensures ticks { steps.old + 1 ≤ steps.new }
    ensures most { steps.new ≤ steps.old + 64 }
{
    let lower = count_below(kept, cap, steps);
    if lower == 0 { 0 } else { kept[lower - 1].event }
}
