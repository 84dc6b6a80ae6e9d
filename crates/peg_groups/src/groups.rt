//! What a side does with the group of a key.
ghost use Rattle.std.specs.Prelude.{◌≡◌, ◌+◌, ◌<◌, ◌≤◌, true, false, Some, None, IfSome, MatchOption, slice_get};
ghost use Rattle.indexmap.specs.IndexMap.{set_value_at, index_map_len};
ghost use Rattle.limit_tree.specs.Order.{is_held, insert_row, without_row, row_at};
ghost use Rattle.limit_tree.specs.Part.{IsLeaf};
ghost use Rattle.venue_words.specs.Peg.{row_value};
ghost use Rattle.venue_words.specs.Rows.{IsAbsent};
ghost use Rattle.venue_words.specs.declared.row.Key.{Key};
ghost use Rattle.peg_groups.specs.Group.{time_in, value_from};
ghost use Rattle.peg_groups.specs.Groups.{HasGroup, NoneIn, EntersGroup, LeavesGroup, PricesRow, rows_of, EachGroup, with_rows};
ghost use Rattle.peg_groups.specs.declared.group.Group.{Group};

use crate::group::{Group, price_in};
use indexmap::IndexMap;
use limit_tree::Node;
use std::sync::ledger::Ledger;
use venue_words::{Key, Steps};

/// The number of the group of a key.
pub fn group_of(groups: &IndexMap<Key, Group>, key: Key) -> Option<usize>
    ensures found { MatchOption result (EachGroup (λ k _. k ≡ key → ⊥) groups.now.entries) (λ i. (group : Group)
        × (slice_get groups.now.entries i ≡ Some (key, group))) }
    ensures within { IfSome result (λ i. i < index_map_len groups.now) }
{
    match groups.get_index_of(&key) {
        None => None,
        Some(i) => Some(i),
    }
}

/// Enters a row into the group with a number.
pub fn put_into<L: Ledger>(
    groups: &mut IndexMap<Key, Group>,
    i: usize,
    node: Box<Node>,
    steps: &mut Steps<L>,
)
    requires within { i < index_map_len groups.old }
    requires alone { IsLeaf node.value }
    requires free { (key : Key) → (group : Group) → slice_get groups.old.entries i ≡ Some (key, group)
        → is_held node.value.row.cap node.value.row.entry group.tree ≡ false }
    ensures entries { (key : Key) → (group : Group) → slice_get groups.old.entries i ≡ Some (key, group)
        → groups.new.entries ≡ set_value_at groups.old.entries i (with_rows group (insert_row node.value.row group.tree)) }
    ensures ticks { steps.old + 1 ≤ steps.new }
    ensures most { steps.new ≤ steps.old + 256 }
{
    let (_key, group) = groups.pair_mut(i);
    group.tree.put(node, steps);
}

/// Takes the row of a pair out of the group with a number.
pub fn cut_in<L: Ledger>(
    groups: &mut IndexMap<Key, Group>,
    i: usize,
    cap: u32,
    entry: u32,
    steps: &mut Steps<L>,
) -> Option<Box<Node>>
    requires within { i < index_map_len groups.old }
    ensures cut { (key : Key) × (group : Group) × (slice_get groups.old.entries i ≡ Some (key, group))
        × MatchOption result ((row_at cap entry group.tree ≡ None) × (groups.new.entries ≡ groups.old.entries))
        (λ node. (row_at cap entry group.tree ≡ Some node.value.row)
        × (groups.new.entries ≡ set_value_at groups.old.entries i (with_rows group (without_row cap entry group.tree)))) }
    ensures alone { IfSome result (λ node. IsLeaf node.value) }
    ensures ticks { steps.old + 1 ≤ steps.new }
    ensures most { steps.new ≤ steps.old + 256 }
{
    let (_key, group) = groups.pair_mut(i);
    group.tree.cut(cap, entry, steps)
}

/// The group with a number.
pub fn group_at(groups: &IndexMap<Key, Group>, i: usize) -> &Group
    requires within { i < index_map_len groups.now }
    ensures { (key : Key) × (slice_get groups.now.entries i ≡ Some (key, result.now)) }
{
    &groups[i]
}

/// The value and the time of the row of a pair in the group with a number.
pub fn price_at<L: Ledger>(
    groups: &IndexMap<Key, Group>,
    i: usize,
    cap: u32,
    entry: u32,
    steps: &mut Steps<L>,
) -> Option<(Option<u32>, u32)>
    requires within { i < index_map_len groups.now }
    ensures found { (key : Key) × (group : Group) × (slice_get groups.now.entries i ≡ Some (key, group))
        × MatchOption result (is_held cap entry group.tree ≡ false) (λ pair. (is_held cap entry group.tree ≡ true)
        × (pair.0 ≡ row_value (value_from group.moves.current) cap) × (pair.1 ≡ time_in group.moves cap entry)) }
    ensures ticks { steps.old + 1 ≤ steps.new }
    ensures most { steps.new ≤ steps.old + 320 }
{
    price_in(group_at(groups, i), cap, entry, steps)
}

/// Enters a row into the group of its key.
pub fn enter<L: Ledger>(
    groups: &mut IndexMap<Key, Group>,
    key: Key,
    node: Box<Node>,
    steps: &mut Steps<L>,
)
    requires has { HasGroup key groups.old.entries }
    requires alone { IsLeaf node.value }
    requires absent { IsAbsent node.value.row.entry (rows_of groups.old.entries) }
    ensures entered { EntersGroup key node.value.row groups.old.entries groups.new.entries }
    ensures ticks { steps.old + 1 ≤ steps.new }
    ensures most { steps.new ≤ steps.old + 256 }
{
    match group_of(groups, key) {
        None => unreachable!(),
        Some(i) => put_into(groups, i, node, steps),
    }
}

/// Takes the row of a key, a cap and an entry out.
pub fn leave<L: Ledger>(
    groups: &mut IndexMap<Key, Group>,
    key: Key,
    cap: u32,
    entry: u32,
    steps: &mut Steps<L>,
) -> Option<Box<Node>>
    ensures left { MatchOption result (NoneIn key cap entry groups.old.entries
        × (groups.new.entries ≡ groups.old.entries))
        (λ node. LeavesGroup key cap entry node.value.row groups.old.entries groups.new.entries) }
    ensures alone { IfSome result (λ node. IsLeaf node.value) }
    ensures ticks { steps.old ≤ steps.new }
    ensures most { steps.new ≤ steps.old + 256 }
{
    match group_of(groups, key) {
        None => None,
        Some(i) => cut_in(groups, i, cap, entry, steps),
    }
}

/// The value and the time of the row of a key, a cap and an entry.
pub fn look_up<L: Ledger>(
    groups: &IndexMap<Key, Group>,
    key: Key,
    cap: u32,
    entry: u32,
    steps: &mut Steps<L>,
) -> Option<(Option<u32>, u32)>
    ensures found { MatchOption result (NoneIn key cap entry groups.now.entries)
        (λ pair. PricesRow key cap entry groups.now.entries pair.0 pair.1) }
    ensures ticks { steps.old ≤ steps.new }
    ensures most { steps.new ≤ steps.old + 320 }
{
    match group_of(groups, key) {
        None => None,
        Some(i) => price_at(groups, i, cap, entry, steps),
    }
}
