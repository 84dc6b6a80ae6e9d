//! The ids that members used up.
ghost use Rattle.std.specs.Prelude.{◌≡◌, ◌+◌, ◌<◌, ◌≤◌, true, false, is_some, if◌then◌else◌};
ghost use Rattle.indexmap.specs.IndexMap.{get, insert_entry, spare};
ghost use Rattle.symbol_book.specs.Ids.{same_id};

use crate::hashing::HashSeed;
use indexmap::IndexMap;
use indexmap::map::Entry;
use std::alloc::{AllocError, Global};
use std::hash::{Hash, Hasher};
use std::marker::Model;
use venue_words::Id;

/// A ClOrdID(11) and the member that it is of.
#[derive(PartialEq, Eq, Debug, Drop)]
pub struct ClOrdId {
    pub member: u32,
    pub id: Id,
}

/// The member's number, and the bytes of the id at once.
impl Hash for ClOrdId {
    ghost use Rattle.std.specs.Prelude.{◌∷◌, [], ◌++◌};
    ghost use Rattle.std.proofs.Common.{rules};
    ghost use Rattle.std.specs.Cmp.Rules.{hashing};
    ghost use Rattle.std.specs.Hash as fed;

    ghost hash_input = { λ i. fed.u32 i.member ++ i.id ∷ [] };

    ghost respects_eq = { Prim.search (hashing, rules) };

    fn hash<H: Hasher>(&self, state: &mut H) {
        state.write_u32(self.member);
        state.write(self.id.as_slice());
    }
}

/// Whether an id is in the map. Where it is not, it goes last, with the number of this order.
fn put(index: &mut IndexMap<ClOrdId, u32, HashSeed>, id: ClOrdId, order: u32) -> bool
    requires room { 0 < spare index.old }
    ensures found { result ≡ is_some (get same_id index.old id) }
    ensures same { result ≡ true → index.new.entries ≡ index.old.entries }
    ensures one { result ≡ false → index.new.entries ≡ insert_entry same_id index.old.entries id order }
    ensures spare { spare index.old ≤ spare index.new + (if result then 0 else 1) }
{
    match index.entry(id) {
        Ok(Entry::Occupied(_entry)) => true,
        Ok(Entry::Vacant(entry)) => {
            entry.insert(order);
            false
        }
        Err(_) => unreachable!(),
    }
}

/// The ids that members used up, each with the number of the order that it was used for. At most one more is placed: it is in
/// the map while the rules of its command are judged, and is then kept or taken back, so that it is hashed once.
#[derive(Drop)]
pub struct UsedIds {
    index: IndexMap<ClOrdId, u32, HashSeed>,
    /// Whether the last id of the map is only placed.
    placed: bool,
}

impl Model for UsedIds {
    ghost use Rattle.std.specs.Prelude.{◌≡◌, ◌<◌, true, length, map};
    ghost use Rattle.indexmap.specs.IndexMap.{spare};
    ghost use Rattle.symbol_book.specs.Ids.{IdList, list_of};

    ghost Value = { IdList };

    ghost view = { λ n. list_of n.placed
        (map (λ e. record { member = e.0.member; id = e.0.id; order = e.1 }) n.index.entries) (spare n.index) };

    ghost invariant = { λ n. n.placed ≡ true → 0 < length n.index.entries };
}

impl UsedIds {
    ghost use Rattle.std.specs.Prelude.{◌≡◌, ◌<◌, ◌≤◌, ◌++◌, [], true, false, OnOk, option_map};
    ghost use Rattle.eager_meaning.specs.Orders.{is_used};
    ghost use Rattle.symbol_book.specs.Ids.{IsPlaced, used_of, entry_of};

    /// No ids.
    pub fn new(alloc: Global, seed: HashSeed) -> UsedIds
        ensures entries { result.entries ≡ [] }
        ensures settled { result.placed ≡ [] }
    {
        UsedIds {
            index: IndexMap::with_hasher(alloc, seed),
            placed: false,
        }
    }

    /// Makes room for one more id.
    pub fn reserve(&mut self) -> Result<(), AllocError>
        ensures entries { self.new.entries ≡ self.old.entries }
        ensures placed { self.new.placed ≡ self.old.placed }
        ensures room { OnOk result (1 ≤ self.new.room) }
    {
        self.index.reserve(1)
    }

    /// The number of the order that the id was used for.
    pub fn order(&self, id: &ClOrdId) -> Option<u32>
        requires { self.now.placed ≡ [] }
        ensures { result ≡ option_map (λ e. e.order) (entry_of id.now.member id.now.id self.now.entries) }
    {
        self.index.get(id).copied()
    }

    /// Whether the id is used up. Where it is not, it is placed for this order, to be kept or taken back.
    pub fn place(&mut self, id: ClOrdId, order: u32) -> bool
        requires settled { self.old.placed ≡ [] }
        requires room { 0 < self.old.room }
        ensures used { result ≡ is_used id.member id.id (used_of self.old.entries) }
        ensures entries { self.new.entries ≡ self.old.entries }
        ensures placed { result ≡ false → IsPlaced id.member id.id order self.new.placed }
        ensures none { result ≡ true → self.new.placed ≡ [] }
        ensures room { self.old.room ≤ self.new.room }
    {
        let used = put(&mut self.index, id, order);
        self.placed = !used;
        used
    }

    /// The id that is placed is used up.
    pub fn keep(&mut self)
        ensures entries { self.new.entries ≡ self.old.entries ++ self.old.placed }
        ensures used { used_of self.new.entries ≡ used_of self.old.entries ++ used_of self.old.placed }
        ensures settled { self.new.placed ≡ [] }
    {
        self.placed = false;
    }

    /// The id that is placed, where there is one, is taken back.
    pub fn take_back(&mut self)
        ensures entries { self.new.entries ≡ self.old.entries }
        ensures settled { self.new.placed ≡ [] }
    {
        if self.placed {
            self.index.pop();
            self.placed = false;
        }
    }
}
