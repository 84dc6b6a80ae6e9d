//! The rows of one key, without a stored value or time.
ghost use Rattle.std.specs.Prelude.{◌≡◌, ◌+◌, ◌<◌, ◌≤◌, true, false, ◌⊎◌, ℕ, MatchOption, []};
ghost use Rattle.limit_tree.specs.Order.{is_held};
ghost use Rattle.move_history.specs.Staircase.{last_change};
ghost use Rattle.venue_words.specs.Peg.{row_value};
ghost use Rattle.peg_groups.specs.Group.{IsGroupBest, IsNotAfter, time_in, value_from};
ghost use Rattle.peg_groups.specs.Groups.{BestIn};

use limit_tree::LimitTree;
use move_history::Moves;
use std::sync::ledger::Ledger;
use venue_words::Steps;

/// The rows of one key, with the moves of its value.
#[derive(Drop)]
pub struct Group {
    pub moves: Moves,
    pub tree: LimitTree,
}

/// A row of a group by its cap and entry, with the value and time that it has.
#[derive(Clone, Copy)]
pub struct Candidate {
    pub value: u32,
    pub time: u32,
    pub cap: u32,
    pub entry: u32,
}

/// The row of a pair, with the value and time that it has.
pub fn price_pair<L: Ledger>(
    moves: &Moves,
    value: u32,
    pair: (u32, u32),
    steps: &mut Steps<L>,
) -> Candidate
    ensures value { result.value ≡ value }
    ensures pair { (result.cap ≡ pair.0) × (result.entry ≡ pair.1) }
    ensures time { result.time ≡ time_in moves.now pair.0 pair.1 }
    ensures same_above { (other : ℕ) → moves.now.current < pair.0 → moves.now.current < other
        → last_change moves.now other ≡ last_change moves.now pair.0 }
    ensures ticks { steps.old + 1 ≤ steps.new }
    ensures most { steps.new ≤ steps.old + 64 }
{
    let (cap, entry) = pair;
    Candidate {
        value,
        time: moves.changed(cap, steps).max(entry),
        cap,
        entry,
    }
}

/// The one that goes first of two rows of one value.
pub fn earlier(a: Candidate, b: Candidate) -> Candidate
    requires { a.value ≡ b.value }
    ensures one { (result ≡ a) ⊎ (result ≡ b) }
    ensures a { IsNotAfter a.time a.entry result.time result.entry }
    ensures b { IsNotAfter b.time b.entry result.time result.entry }
{
    if a.time < b.time || a.time == b.time && a.entry < b.entry {
        a
    } else {
        b
    }
}

/// The first row of the group by priority, where the group has the present value `value`.
pub fn best_of_group<L: Ledger>(
    moves: &Moves,
    tree: &LimitTree,
    value: u32,
    steps: &mut Steps<L>,
) -> Option<Candidate>
    requires present { value ≡ moves.now.current }
    requires active { 0 < value }
    ensures found { MatchOption result (tree.now ≡ [])
        (λ best. IsGroupBest moves.now tree.now best.value best.time best.cap best.entry) }
    ensures ticks { steps.old + 1 ≤ steps.new }
    ensures most { steps.new ≤ steps.old + 896 }
{
    match tree.first_above(value, steps) {
        Some(above) => match tree.first_at(value, steps) {
            Some(at) => {
                let above = price_pair(moves, value, above, steps);
                let at = price_pair(moves, value, at, steps);
                Some(earlier(at, above))
            }
            None => Some(price_pair(moves, value, above, steps)),
        },
        None => match tree.first_at(value, steps) {
            Some(at) => Some(price_pair(moves, value, at, steps)),
            None => match tree.highest_below(value, steps) {
                Some((cap, entry)) => Some(price_pair(moves, cap, (cap, entry), steps)),
                None => None,
            },
        },
    }
}

/// The value and the time of the row of a pair.
pub fn price_in<L: Ledger>(
    group: &Group,
    cap: u32,
    entry: u32,
    steps: &mut Steps<L>,
) -> Option<(Option<u32>, u32)>
    ensures found { MatchOption result (is_held cap entry group.now.tree ≡ false)
        (λ pair. (is_held cap entry group.now.tree ≡ true)
        × (pair.0 ≡ row_value (value_from group.now.moves.current) cap)
        × (pair.1 ≡ time_in group.now.moves cap entry)) }
    ensures ticks { steps.old + 1 ≤ steps.new }
    ensures most { steps.new ≤ steps.old + 320 }
{
    if group.tree.holds(cap, entry, steps) {
        let value = value_below(group.moves.current(), cap);
        Some((value, group.moves.changed(cap, steps).max(entry)))
    } else {
        None
    }
}

/// The value of a row under a limit, where the group has this value.
pub fn value_below(current: u32, cap: u32) -> Option<u32>
    ensures { result ≡ row_value (value_from current) cap }
{
    if current == 0 {
        None
    } else {
        Some(current.min(cap))
    }
}

/// The first row of a group by priority, where it is active.
pub fn candidate_of<L: Ledger>(group: &Group, steps: &mut Steps<L>) -> Option<Candidate>
    ensures best { BestIn group.now result }
    ensures ticks { steps.old + 1 ≤ steps.new }
    ensures most { steps.new ≤ steps.old + 897 }
{
    steps.tick();
    let value = group.moves.current();
    if value == 0 {
        return None;
    }
    best_of_group(&group.moves, &group.tree, value, steps)
}
