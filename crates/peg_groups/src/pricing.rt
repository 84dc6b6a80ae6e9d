//! A quote is told to each group.
ghost use Rattle.std.specs.Prelude.{◌≡◌, ◌+◌, ◌*◌, ◌<◌, ◌≤◌, Some, length, slice_get};
ghost use Rattle.indexmap.specs.IndexMap.{set_value_at, index_map_len};
ghost use Rattle.venue_words.specs.Conditions.{IsKey};
ghost use Rattle.venue_words.specs.declared.row.Key.{Key};
ghost use Rattle.peg_groups.specs.Group.{value_number};
ghost use Rattle.peg_groups.specs.Groups.{EachGroup, IsMoved, PairedBy};
ghost use Rattle.peg_groups.specs.declared.group.Group.{Group};

use crate::group::Group;
use indexmap::IndexMap;
use peg_price::peg_value;
use std::sync::ledger::Ledger;
use venue_words::{Best, Key, Steps};

/// The value, or 0 for none.
pub fn number_of(value: Option<u32>) -> u32
    ensures { result ≡ value_number value }
{
    match value {
        None => 0,
        Some(value) => value,
    }
}

/// Tells the group with a number a quote.
pub fn reprice_at<L: Ledger>(
    groups: &mut IndexMap<Key, Group>,
    i: usize,
    event: u32,
    best: Best,
    steps: &mut Steps<L>,
)
    requires within { i < index_map_len groups.old }
    requires room { (key : Key) → (group : Group) → slice_get groups.old.entries i ≡ Some (key, group) → IsKey key
        × (0 < group.moves.room) × (group.moves.latest < event) }
    ensures moved { (key : Key) × (old : Group) × (new : Group) × (slice_get groups.old.entries i ≡ Some (key, old))
        × (groups.new.entries ≡ set_value_at groups.old.entries i new) × IsMoved event best key old new }
    ensures ticks { steps.old + 1 ≤ steps.new }
    ensures most { steps.new ≤ steps.old + 65 }
{
    steps.tick();
    let (key, group) = groups.pair_mut(i);
    let value = number_of(peg_value(*key, best));
    group.moves.push(event, value, steps);
}

/// Tells every group a quote.
pub fn reprice_groups<L: Ledger>(
    groups: &mut IndexMap<Key, Group>,
    event: u32,
    best: Best,
    steps: &mut Steps<L>,
)
    requires room { EachGroup (λ key group. IsKey key × (0 < group.moves.room)
        × (group.moves.latest < event)) groups.old.entries }
    ensures moved { PairedBy (IsMoved event best) groups.old.entries groups.new.entries }
    ensures ticks { steps.old + length groups.old.entries ≤ steps.new }
    ensures most { steps.new ≤ steps.old + 65 * length groups.old.entries }
{
    for i in 0..groups.len() {
        reprice_at(groups, i, event, best, steps);
    }
}
