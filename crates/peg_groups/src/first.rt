//! The first active row of all groups by priority.
ghost use Rattle.std.specs.Prelude.{IsSomeAnd, true, ◌≡◌, ◌+◌, ◌*◌, ◌<◌, ◌≤◌, Some, IfSome, IsNone, length, slice_get};
ghost use Rattle.indexmap.specs.IndexMap.{index_map_len};
ghost use Rattle.limit_tree.specs.Part.{IsLeaf};
ghost use Rattle.venue_words.specs.Priority.{is_ahead};
ghost use Rattle.venue_words.specs.declared.row.Key.{Key};
ghost use Rattle.peg_groups.specs.Groups.{BestIn, TakesFirst, NoneActiveIn, IsBestUpTo, EachGroup, BestUpTo};
ghost use Rattle.peg_groups.specs.declared.group.Candidate.{Candidate};
ghost use Rattle.peg_groups.specs.declared.group.Group.{Group};

use crate::group::{Candidate, Group, candidate_of};
use crate::groups::{cut_in, group_at};
use crate::side_book::Taken;
use indexmap::IndexMap;
use limit_tree::Node;
use std::sync::ledger::Ledger;
use venue_words::{Key, Steps};

/// Whether a row goes before another one.
pub fn goes_first(a: Candidate, b: Candidate) -> bool
    ensures { result ≡ is_ahead a.value a.time a.entry b.value b.time b.entry }
{
    if a.value == b.value {
        if a.time == b.time {
            a.entry < b.entry
        } else {
            a.time < b.time
        }
    } else {
        b.value < a.value
    }
}

/// The better one of the best row so far and of that of the next group.
pub fn better(
    groups: &IndexMap<Key, Group>,
    i: usize,
    new: Option<Candidate>,
    best: Option<(usize, Candidate)>,
) -> Option<(usize, Candidate)>
    requires best { BestUpTo groups.now.entries i best }
    requires new { (key : Key) × (group : Group) × (slice_get groups.now.entries i ≡ Some (key, group))
        × BestIn group new }
    ensures { BestUpTo groups.now.entries (i + 1) result }
{
    match new {
        None => best,
        Some(new) => match best {
            None => Some((i, new)),
            Some((j, old)) => {
                if goes_first(new, old) {
                    Some((i, new))
                } else {
                    Some((j, old))
                }
            }
        },
    }
}

/// Whether a group's value is below that of the best row so far, so that none of its rows goes before.
pub fn is_lower(current: u32, best: Option<(usize, Candidate)>) -> bool
    ensures { result ≡ true → IsSomeAnd best (λ found. current < found.1.value) }
{
    match best {
        None => false,
        Some((_, found)) => current < found.value,
    }
}

/// The best row so far once one group more is looked at.
pub fn look_at<L: Ledger>(
    groups: &IndexMap<Key, Group>,
    i: usize,
    best: Option<(usize, Candidate)>,
    steps: &mut Steps<L>,
) -> Option<(usize, Candidate)>
    requires within { i < index_map_len groups.now }
    requires best { BestUpTo groups.now.entries i best }
    ensures best { BestUpTo groups.now.entries (i + 1) result }
    ensures ticks { steps.old + 1 ≤ steps.new }
    ensures most { steps.new ≤ steps.old + 897 }
{
    let group = group_at(groups, i);
    if is_lower(group.moves.current(), best) {
        steps.tick();
        return best;
    }
    let new = candidate_of(group, steps);
    better(groups, i, new, best)
}

/// The first active row of all groups by priority, and the number of its group.
pub fn best_in<L: Ledger>(
    groups: &IndexMap<Key, Group>,
    steps: &mut Steps<L>,
) -> Option<(usize, Candidate)>
    ensures best { BestUpTo groups.now.entries (length groups.now.entries) result }
    ensures ticks { steps.old ≤ steps.new }
    ensures most { steps.new ≤ steps.old + 897 * length groups.now.entries }
{
    let mut best = None;
    for i in 0..groups.len() {
        best = look_at(groups, i, best, steps);
    }
    best
}

/// Takes a row of the group with a number out.
pub fn take_in<L: Ledger>(
    groups: &mut IndexMap<Key, Group>,
    i: usize,
    best: Candidate,
    steps: &mut Steps<L>,
) -> Box<Node>
    requires best { IsBestUpTo groups.old.entries (length groups.old.entries) i best }
    ensures first { TakesFirst result.value.row best groups.old.entries groups.new.entries }
    ensures alone { IsLeaf result.value }
    ensures ticks { steps.old ≤ steps.new }
    ensures most { steps.new ≤ steps.old + 256 }
{
    match cut_in(groups, i, best.cap, best.entry, steps) {
        None => unreachable!(),
        Some(node) => node,
    }
}

/// Takes the first active row of all groups out.
pub fn take_first<L: Ledger>(
    groups: &mut IndexMap<Key, Group>,
    steps: &mut Steps<L>,
) -> Option<Taken>
    ensures none { IsNone result → EachGroup NoneActiveIn groups.old.entries × (groups.new.entries ≡ groups.old.entries) }
    ensures first { IfSome result (λ taken. (best : Candidate)
        × TakesFirst taken.node.value.row best groups.old.entries groups.new.entries
        × (taken.value ≡ Some best.value) × (taken.time ≡ best.time)) }
    ensures alone { IfSome result (λ taken. IsLeaf taken.node.value) }
    ensures ticks { steps.old ≤ steps.new }
    ensures most { steps.new ≤ steps.old + 897 * length groups.old.entries + 256 }
{
    match best_in(groups, steps) {
        None => None,
        Some((i, best)) => {
            let node = take_in(groups, i, best, steps);
            Some(Taken {
                node,
                value: Some(best.value),
                time: best.time,
            })
        }
    }
}
