//! A side that keeps its rows in groups by key, and neither value nor time of a row.
ghost use Rattle.std.specs.Prelude.{◌≡◌, ◌+◌, ◌-◌, ◌*◌, ◌≤◌, if◌then◌else◌, true, false, length, IfSome, OnOk, OnErr};
ghost use Rattle.std.specs.Option.{ForSome};
ghost use Rattle.venue_words.specs.Conditions.{IsKey};
ghost use Rattle.peg_groups.specs.Groups.{groups_state, rows_of, IsRoomier, PairedBy, ReservesGroups, HasGroup, HaveRoom};
ghost use Rattle.peg_groups.specs.KeyCount.{key_count};

use crate::first::take_first;
use crate::group::Group;
use crate::groups::{enter, leave, look_up};
use crate::looking::best_of_groups;
use crate::pricing::reprice_groups;
use crate::room::{drop_empty, reserve_group, reserve_moves, used_groups};
use crate::side_book::{SideBook, Taken};
use indexmap::IndexMap;
use limit_tree::Node;
use std::alloc::Global;
use std::marker::Model;
use std::sync::ledger::Ledger;
use venue_words::{Best, Key, NoMemory, Row, Steps};

/// A side that keeps its rows in groups by key, and neither value nor time of a row: a group has the moves of its
/// key's value, and both follow from them. A pricing visits each group once and no row, and so does a look at the best
/// value. Its width and its visits are the number of groups, with those that `reserve` made and that have no row yet.
/// `tidy` visits no group where no row left and no group was made since it last did, nor does `reserve` for a move where
/// nothing was priced since.
pub struct GroupSide {
    groups: IndexMap<Key, Group>,
    alloc: Global,
    best: Best,
    event: u32,
    len: usize,
    /// Whether a group may be without a row.
    some_empty: bool,
    /// Whether each group has room for a move.
    all_roomy: bool,
}

// Written out, so that crates above let go of one by this theorem, and not part by part.
impl Drop for GroupSide {
    fn drop(self) {
        let GroupSide {
            groups: _,
            alloc: _,
            best: _,
            event: _,
            len: _,
            some_empty: _,
            all_roomy: _,
        } = self;
    }
}

impl Model for GroupSide {
    ghost use Rattle.peg_groups.specs.Groups.{GroupsView, IsCounted};

    ghost Value = { GroupsView };

    ghost view = { λ s. record { entries = s.groups.entries; best = s.best; event = s.event } };

    ghost invariant = { λ s.
        IsCounted
        (record { entries = s.groups.entries; best = s.best; event = s.event })
        s.len
        s.some_empty
        s.all_roomy };
}

impl GroupSide {
    ghost use Rattle.std.specs.Prelude.{◌≡◌, [], length};
    ghost use Rattle.peg_groups.specs.Groups.{groups_state};
    ghost use Rattle.peg_groups.specs.Side.{first_state};

    /// A side without rows, before the first quote. This takes no memory.
    pub fn new(alloc: Global) -> GroupSide
        ensures state { groups_state result ≡ first_state }
        ensures width { length result.entries ≡ 0 }
    {
        GroupSide {
            groups: IndexMap::new(alloc),
            alloc,
            best: Best {
                bid: None,
                offer: None,
            },
            event: 0,
            len: 0,
            some_empty: false,
            all_roomy: true,
        }
    }
}

/// The number of rows once one left or none did.
fn without_one(len: usize, left: bool) -> usize
    requires { left ≡ true → 1 ≤ len }
    ensures { result ≡ (if left then len - 1 else len) }
{
    if left { len - 1 } else { len }
}

/// Whether a group may be without a row, once there are `now` groups where there were `before`.
fn may_be_empty(was: bool, before: usize, now: usize) -> bool
    ensures { result ≡ false → (was ≡ false) × (now ≡ before) }
{
    was || now != before
}

/// Makes room for a move in every group where not all have it.
fn reserve_missing(groups: &mut IndexMap<Key, Group>, all_roomy: bool) -> Result<(), NoMemory>
    requires roomy { all_roomy ≡ true → HaveRoom groups.old.entries }
    ensures kept { PairedBy (λ _ old new. IsRoomier old new) groups.old.entries groups.new.entries }
    ensures room { OnOk result (HaveRoom groups.new.entries) }
{
    if all_roomy {
        return Ok(());
    }
    reserve_moves(groups)
}

/// Makes room for a move in every group, and a group of the key where one is given.
fn reserve_all(
    groups: &mut IndexMap<Key, Group>,
    alloc: Global,
    best: Best,
    key: Option<Key>,
    all_roomy: bool,
) -> Result<(), NoMemory>
    requires key { ForSome key IsKey }
    requires roomy { all_roomy ≡ true → HaveRoom groups.old.entries }
    ensures kept { ReservesGroups best key groups.old.entries groups.new.entries }
    ensures has { OnOk result (IfSome key (λ k. HasGroup k groups.new.entries)) }
    ensures room { OnOk result (HaveRoom groups.new.entries) }
    ensures err { OnErr result (length groups.new.entries ≡ length groups.old.entries) }
{
    reserve_missing(groups, all_roomy)?;
    match key {
        None => Ok(()),
        Some(key) => reserve_group(groups, alloc, best, key),
    }
}

impl SideBook for GroupSide {
    ghost use Rattle.std.specs.Prelude.{length, ◌+◌};
    ghost use Rattle.peg_groups.specs.Groups.{groups_state, FitsGroup, HasGroup, HaveRoom};

    ghost state = { groups_state };

    ghost width = { λ s. length s.entries };

    ghost visits = { λ s. length s.entries };

    ghost fits = { λ s standing. FitsGroup s.entries standing };

    ghost row_room = { λ s key. HasGroup key s.entries };

    ghost move_room = { λ s. HaveRoom s.entries };

    fn len(&self) -> usize {
        self.len
    }

    fn groups(&self) -> usize {
        used_groups(&self.groups)
    }

    fn reserve(&mut self, key: Option<Key>) -> Result<(), NoMemory> {
        let before = self.groups.len();
        let reserved = reserve_all(&mut self.groups, self.alloc, self.best, key, self.all_roomy);
        self.some_empty = may_be_empty(self.some_empty, before, self.groups.len());
        self.all_roomy = reserved.is_ok();
        reserved
    }

    fn put<L: Ledger>(&mut self, node: Box<Node>, steps: &mut Steps<L>) {
        let Row {
            key,
            entry: _entry,
            ..
        } = node.row;
        enter(&mut self.groups, key, node, steps);
        self.len += 1;
    }

    fn put_back<L: Ledger>(&mut self, taken: Taken, steps: &mut Steps<L>) {
        let Taken { node, .. } = taken;
        let Row {
            key,
            entry: _entry,
            ..
        } = node.row;
        enter(&mut self.groups, key, node, steps);
        self.len += 1;
    }

    fn cut<L: Ledger>(
        &mut self,
        key: Key,
        cap: u32,
        entry: u32,
        steps: &mut Steps<L>,
    ) -> Option<Box<Node>> {
        steps.tick();
        let found = leave(&mut self.groups, key, cap, entry, steps);
        self.len = without_one(self.len, found.is_some());
        self.some_empty = true;
        found
    }

    fn best_value<L: Ledger>(&self, steps: &mut Steps<L>) -> Option<u32> {
        best_of_groups(&self.groups, steps)
    }

    fn take_best<L: Ledger>(&mut self, steps: &mut Steps<L>) -> Option<Taken> {
        steps.tick();
        let found = take_first(&mut self.groups, steps);
        self.len = without_one(self.len, found.is_some());
        self.some_empty = true;
        found
    }

    fn priced<L: Ledger>(
        &self,
        key: Key,
        cap: u32,
        entry: u32,
        steps: &mut Steps<L>,
    ) -> Option<(Option<u32>, u32)> {
        steps.tick();
        look_up(&self.groups, key, cap, entry, steps)
    }

    fn reprice<L: Ledger>(&mut self, event: u32, best: Best, steps: &mut Steps<L>) {
        reprice_groups(&mut self.groups, event, best, steps);
        self.all_roomy = false;
        self.best = best;
        self.event = event;
    }

    fn tidy<L: Ledger>(&mut self, steps: &mut Steps<L>)
        ensures state { groups_state self.new ≡ groups_state self.old }
        ensures width { length self.new.entries ≤ length self.old.entries }
        ensures most { steps.new ≤ steps.old + 128 * (length self.old.entries + 1) }

        // The groups that are left are those of the keys with a row.
        ensures keys { length self.new.entries ≡ key_count (rows_of self.new.entries) }
    {
        if self.some_empty {
            drop_empty(&mut self.groups, steps);
            self.some_empty = false;
        }
    }
}
