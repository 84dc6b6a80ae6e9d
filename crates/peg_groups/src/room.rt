//! Room for rows and moves, and groups that are no longer needed.
ghost use Rattle.std.specs.Prelude.{◌≡◌, ◌+◌, ◌<◌, not, ◌⊎◌, Some, OnOk, OnErr, length, slice_get, filter};
ghost use Rattle.indexmap.specs.IndexMap.{set_value_at, index_map_len};
ghost use Rattle.limit_tree.specs.Order.{is_empty};
ghost use Rattle.venue_words.specs.Conditions.{IsKey};
ghost use Rattle.venue_words.specs.declared.row.Key.{Key};
ghost use Rattle.peg_groups.specs.Groups.{HasNew, HasGroup, HaveRoom, IsRoomier, PairedBy, has_rows};
ghost use Rattle.peg_groups.specs.declared.group.Group.{Group};

use crate::group::Group;
use crate::groups::{group_at, group_of};
use crate::pricing::number_of;
use indexmap::IndexMap;
use limit_tree::LimitTree;
use move_history::Moves;
use peg_price::peg_value;
use std::alloc::Global;
use std::sync::ledger::Ledger;
use venue_words::{Best, Key, NoMemory, Steps};

/// Makes room for a move in the group with a number.
pub fn reserve_at(groups: &mut IndexMap<Key, Group>, i: usize) -> Result<(), NoMemory>
    requires within { i < index_map_len groups.old }
    ensures grown { (key : Key) × (old : Group) × (new : Group) × (slice_get groups.old.entries i ≡ Some (key, old))
        × (groups.new.entries ≡ set_value_at groups.old.entries i new) × IsRoomier old new
        × OnOk result (0 < new.moves.room) }
{
    let (_key, group) = groups.pair_mut(i);
    group.moves.reserve()
}

/// Makes room for a move in every group.
pub fn reserve_moves(groups: &mut IndexMap<Key, Group>) -> Result<(), NoMemory>
    ensures kept { PairedBy (λ _ old new. IsRoomier old new) groups.old.entries groups.new.entries }
    ensures room { OnOk result (HaveRoom groups.new.entries) }
{
    for i in 0..groups.len() {
        reserve_at(groups, i)?;
    }
    Ok(())
}

/// Makes a group of the key where there is none.
pub fn reserve_group(
    groups: &mut IndexMap<Key, Group>,
    alloc: Global,
    best: Best,
    key: Key,
) -> Result<(), NoMemory>
    requires key { IsKey key }
    ensures grown { (groups.new.entries ≡ groups.old.entries) ⊎ HasNew best key groups.old.entries groups.new.entries }
    ensures has { OnOk result (HasGroup key groups.new.entries) }
    ensures err { OnErr result (groups.new.entries ≡ groups.old.entries) }
{
    if group_of(groups, key).is_some() {
        return Ok(());
    }
    let mut moves = Moves::start(alloc, number_of(peg_value(key, best)));
    moves.reserve()?;
    let tree = LimitTree::new();
    match groups.insert(key, Group { moves, tree }) {
        Ok(_) => Ok(()),
        Err(_) => Err(NoMemory),
    }
}

/// Counts as many steps.
pub fn tick_each<L: Ledger>(count: usize, steps: &mut Steps<L>)
    ensures { steps.new ≡ steps.old + count }
{
    for i in 0..count {
        let _number = i;
        steps.tick();
    }
}

/// Drops the groups without a row. Each group is a step of the counter.
pub fn drop_empty<L: Ledger>(groups: &mut IndexMap<Key, Group>, steps: &mut Steps<L>)
    ensures entries { groups.new.entries ≡ filter has_rows groups.old.entries }
    ensures ticks { steps.new ≡ steps.old + length groups.old.entries }
{
    tick_each(groups.len(), steps);
    groups.retain(
        |_key: &Key, group: &mut Group| -> bool
            ensures { (result ≡ not (is_empty group.old.tree)) × (group.new ≡ group.old) }
        { !group.tree.is_empty() },
    );
}

/// How many groups have a row.
pub fn used_groups(groups: &IndexMap<Key, Group>) -> usize
    ensures { result ≡ length (filter has_rows groups.now.entries) }
{
    let mut count = 0;
    for i in 0..groups.len() {
        if !group_at(groups, i).tree.is_empty() {
            count += 1;
        }
    }
    count
}
