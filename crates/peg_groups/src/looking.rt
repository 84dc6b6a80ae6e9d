//! What a side of groups tells of its rows while each stays where it is.
ghost use Rattle.std.specs.Prelude.{◌≡◌, ◌+◌, length};
ghost use Rattle.peg_groups.specs.BestValue.{best_under, best_value, higher};
ghost use Rattle.peg_groups.specs.Group.{value_from};
ghost use Rattle.peg_groups.specs.Groups.{rows_of};

use crate::group::{Group, value_below};
use crate::groups::group_at;
use indexmap::IndexMap;
use std::sync::ledger::Ledger;
use venue_words::{Key, Steps};

/// The greater of two values, of which each may be none.
pub fn higher(value: Option<u32>, other: Option<u32>) -> Option<u32>
    ensures { result ≡ higher value other }
{
    match (value, other) {
        (Some(value), Some(other)) => Some(value.max(other)),
        (Some(value), None) => Some(value),
        (None, other) => other,
    }
}

/// The greatest value of a row of the group.
fn best_of_group(group: &Group) -> Option<u32>
    ensures { result ≡ best_under (value_from group.now.moves.current) group.now.tree }
{
    if group.tree.is_empty() {
        return None;
    }
    value_below(group.moves.current(), group.tree.greatest())
}

/// The greatest value of a row of all groups. Each group is a step.
pub fn best_of_groups<L: Ledger>(groups: &IndexMap<Key, Group>, steps: &mut Steps<L>) -> Option<u32>
    ensures value { result ≡ best_value (rows_of groups.now.entries) }
    ensures ticks { steps.new ≡ steps.old + length groups.now.entries }
{
    let mut best = None;
    for i in 0..groups.len() {
        steps.tick();
        best = higher(best, best_of_group(group_at(groups, i)));
    }
    best
}
