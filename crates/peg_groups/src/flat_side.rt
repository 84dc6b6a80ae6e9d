//! A side that keeps each row with its value and time: the plain form, for tests and for comparison.
ghost use Rattle.std.specs.Prelude.{◌≡◌, ℕ, ◌+◌, ◌<◌, ◌&&◌, not, drop, Some, MatchOption, length, filter, slice_get, vec_len};
ghost use Rattle.std.specs.Vec.{vec_capacity};
ghost use Rattle.peg_groups.specs.Flat.{ArePlaces, IsThere, KeepsStanding, FillsPlace, is_filled, rows_in};
ghost use Rattle.peg_groups.specs.Side.{standing_of, taken_row};
ghost use Rattle.std.specs.List.{AllByRecursion, list_any};
ghost use Rattle.venue_words.specs.Key.{same_key};
ghost use Rattle.peg_groups.specs.KeyCount.{key_count};
ghost use Rattle.peg_groups.specs.declared.flat.Place.{Place};

use crate::flat::{Place, add_place, fill_at, find, find_kept, has_key, place_at, reprice_all};
use crate::flat_best::{best_of_places, cut_place, take_first};
use crate::room::tick_each;
use crate::side_book::{SideBook, Taken};
use limit_tree::Node;
use peg_price::{peg_value, row_value};
use std::alloc::Global;
use std::marker::Model;
use std::sync::ledger::Ledger;
use venue_words::{Best, Key, NoMemory, Row, Steps};

/// A side that keeps each row with its value and time in a place of a plain list. A row that is out keeps its place
/// until `tidy`. Its width is the number of places, with those that `reserve` made; its visits are the number of rows.
#[derive(Drop)]
pub struct FlatSide {
    places: Vec<Place>,
    spare: usize,
    best: Best,
    event: u32,
}

impl Model for FlatSide {
    ghost use Rattle.std.specs.Prelude.{◌+◌, ◌≤◌, vec_len};
    ghost use Rattle.std.specs.Vec.{vec_capacity};
    ghost use Rattle.peg_groups.specs.Flat.{FlatView, IsFlat};

    ghost Value = { FlatView };

    ghost view = { λ s. record { places = s.places.items; spare = s.spare; best = s.best; event = s.event } };

    ghost invariant = { λ s. IsFlat (record { places = s.places.items; spare = s.spare; best = s.best; event = s.event }) × (vec_len s.places + s.spare ≤ vec_capacity s.places) };
}

impl FlatSide {
    ghost use Rattle.std.specs.Prelude.{◌≡◌, ◌+◌, length};
    ghost use Rattle.peg_groups.specs.Flat.{flat_state};
    ghost use Rattle.peg_groups.specs.Side.{first_state};

    /// A side without rows, before the first quote. This takes no memory.
    pub fn new(alloc: Global) -> FlatSide
        ensures state { flat_state result ≡ first_state }
        ensures width { length result.places + result.spare ≡ 0 }
    {
        FlatSide {
            places: Vec::new(alloc),
            spare: 0,
            best: Best {
                bid: None,
                offer: None,
            },
            event: 0,
        }
    }
}

/// How many places have their row.
fn count_rows(places: &[Place]) -> usize
    ensures { result ≡ length (rows_in places.now) }
{
    let mut count = 0;
    let mut i = places.len();
    while 0 < i {
        i -= 1;
        if place_at(places, i).node.is_some() {
            count += 1;
        }
    }
    count
}

/// Whether the row of a place is there, and none behind it has its key.
fn is_last_of_key(places: &[Place], i: usize) -> bool
    requires within { i < length places.now }
    ensures { (place : Place) × (slice_get places.now i ≡ Some place) × (result ≡ (is_filled place && not (list_any
        (λ other. is_filled other && same_key place.key other.key) (drop (i + 1) places.now)))) }
{
    let place = place_at(places, i);
    if place.node.is_none() {
        return false;
    }
    !has_key(&places[i + 1..], place.key)
}

/// How many keys the rows of the places have.
fn count_keys(places: &[Place]) -> usize
    requires places { ArePlaces places.now }
    ensures { result ≡ key_count (rows_in places.now) }
{
    let mut count = 0;
    let mut i = places.len();
    while 0 < i {
        i -= 1;
        if is_last_of_key(places, i) {
            count += 1;
        }
    }
    count
}

/// Drops the places without a row. Each place is a step.
fn drop_free<L: Ledger>(places: &mut Vec<Place>, steps: &mut Steps<L>)
    ensures items { places.new.items ≡ filter is_filled places.old.items }
    ensures capacity { vec_capacity places.new ≡ vec_capacity places.old }
    ensures ticks { steps.new ≡ steps.old + length places.old.items }
{
    tick_each(places.len(), steps);
    places.retain(
        |place: &Place| -> bool
            ensures { result ≡ is_filled place.now }
        { place.node.is_some() },
    );
}

/// Puts the row of a place that keeps it back.
fn put_in_place(places: &mut Vec<Place>, taken: Taken)
    requires kept { KeepsStanding places.old.items (standing_of (taken_row taken)) }
    ensures filled { FillsPlace taken places.old.items places.new.items }
    ensures len { vec_len places.new ≡ vec_len places.old }
    ensures capacity { vec_capacity places.new ≡ vec_capacity places.old }
{
    let Taken { node, value, time } = taken;
    let row = node.row;
    match find_kept(places.as_slice(), row, value, time) {
        None => unreachable!(),
        Some(i) => fill_at(places, i, node),
    }
}

/// The value and the time of the row of a key, a cap and an entry.
fn price_of_row(places: &[Place], key: Key, cap: u32, entry: u32) -> Option<(Option<u32>, u32)>
    ensures found { MatchOption result (AllByRecursion (λ place. IsThere key cap entry place → ⊥) places.now)
        (λ pair. (i : ℕ) × (place : Place) × (slice_get places.now i ≡ Some place) × IsThere key cap entry place
        × (place.value ≡ pair.0) × (place.time ≡ pair.1)) }
{
    match find(places, key, cap, entry) {
        None => None,
        Some(i) => {
            let place = place_at(places, i);
            Some((place.value, place.time))
        }
    }
}

impl SideBook for FlatSide {
    ghost use Rattle.std.specs.Prelude.{length, ◌+◌, ◌<◌};
    ghost use Rattle.peg_groups.specs.Flat.{flat_state, rows_in, KeepsStanding};

    ghost state = { flat_state };

    ghost width = { λ s. length s.places + s.spare };

    ghost visits = { λ s. length (rows_in s.places) };

    ghost fits = { λ s standing. KeepsStanding s.places standing };

    ghost row_room = { λ s _. 0 < s.spare };

    ghost move_room = { λ _. Unit {0} };

    fn len(&self) -> usize {
        count_rows(self.places.as_slice())
    }

    fn groups(&self) -> usize {
        count_keys(self.places.as_slice())
    }

    fn reserve(&mut self, key: Option<Key>) -> Result<(), NoMemory> {
        if key.is_some() && self.spare == 0 {
            match self.places.reserve(1) {
                Ok(()) => {}
                Err(_) => return Err(NoMemory),
            }
            self.spare = 1;
        }
        Ok(())
    }

    fn put<L: Ledger>(&mut self, node: Box<Node>, steps: &mut Steps<L>) {
        steps.tick();
        let row = node.row;
        let place = Place {
            node: Some(node),
            key: row.key,
            cap: row.cap,
            entry: row.entry,
            value: row_value(peg_value(row.key, self.best), row.cap),
            time: row.entry,
        };
        add_place(&mut self.places, place);
        self.spare -= 1;
    }

    fn put_back<L: Ledger>(&mut self, taken: Taken, steps: &mut Steps<L>) {
        steps.tick();
        put_in_place(&mut self.places, taken);
    }

    fn cut<L: Ledger>(
        &mut self,
        key: Key,
        cap: u32,
        entry: u32,
        steps: &mut Steps<L>,
    ) -> Option<Box<Node>> {
        steps.tick();
        cut_place(&mut self.places, key, cap, entry)
    }

    fn best_value<L: Ledger>(&self, steps: &mut Steps<L>) -> Option<u32> {
        best_of_places(self.places.as_slice(), steps)
    }

    fn take_best<L: Ledger>(&mut self, steps: &mut Steps<L>) -> Option<Taken> {
        steps.tick();
        take_first(&mut self.places, steps)
    }

    fn priced<L: Ledger>(
        &self,
        key: Key,
        cap: u32,
        entry: u32,
        steps: &mut Steps<L>,
    ) -> Option<(Option<u32>, u32)> {
        steps.tick();
        price_of_row(self.places.as_slice(), key, cap, entry)
    }

    fn reprice<L: Ledger>(&mut self, event: u32, best: Best, steps: &mut Steps<L>) {
        reprice_all(&mut self.places, event, best, steps);
        self.best = best;
        self.event = event;
    }

    fn tidy<L: Ledger>(&mut self, steps: &mut Steps<L>) {
        drop_free(&mut self.places, steps);
    }
}
