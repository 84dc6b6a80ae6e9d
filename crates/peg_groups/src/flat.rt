//! The places of a flat side.
ghost use Rattle.std.specs.Prelude.{◌≡◌, ◌+◌, ◌<◌, ◌≤◌, ◌&&◌, [], ◌∷◌, ◌++◌, Some, IfSome, MatchOption, length, map, slice_get, slice_set, vec_len};
ghost use Rattle.std.specs.List.{AllByRecursion, list_any};
ghost use Rattle.std.specs.Vec.{vec_capacity};
ghost use Rattle.venue_words.specs.Conditions.{IsKey};
ghost use Rattle.venue_words.specs.Key.{same_key};
ghost use Rattle.peg_groups.specs.Flat.{IsThere, is_filled, place_standing, repriced, with_node, without_node};
ghost use Rattle.peg_groups.specs.Side.{standing_of};
ghost use Rattle.peg_groups.specs.declared.flat.Place.{Place};

use limit_tree::Node;
use peg_price::{peg_value, row_value};
use std::sync::ledger::Ledger;
use venue_words::{Best, Key, Row, Steps, same_key};

/// The place of a row. It keeps the row's value and time while the row is out.
#[derive(Drop)]
pub struct Place {
    pub node: Option<Box<Node>>,
    pub key: Key,
    pub cap: u32,
    pub entry: u32,
    /// In units of 0.005; none while the row is inactive.
    pub value: Option<u32>,
    /// The number of an event.
    pub time: u32,
}

impl Place {
    ghost use Rattle.std.specs.Prelude.{◌≡◌, ◌↔◌, IsTrue};
    ghost use Rattle.venue_words.specs.Conditions.{IsKey};
    ghost use Rattle.venue_words.specs.declared.row.Key.{Key};
    ghost use Rattle.peg_groups.specs.Flat.{IsThere, is_filled, place_standing, place_value, repriced};
    ghost use Rattle.peg_groups.specs.Side.{standing_of};

    /// Whether it has a row of this key, cap and entry.
    pub fn is_there(&self, key: Key, cap: u32, entry: u32) -> bool
        ensures { IsTrue result ↔ IsThere key cap entry self.now }
    {
        if self.node.is_none() || self.cap != cap || self.entry != entry {
            return false;
        }
        same_key(self.key, key)
    }

    /// Whether it keeps the place, value and time of a row.
    pub fn keeps(&self, row: Row, value: Option<u32>, time: u32) -> bool
        ensures { IsTrue result ↔ (place_standing self.now ≡ standing_of
            (record { row = row; value = value; time = time })) }
    {
        if self.cap != row.cap
            || self.entry != row.entry
            || self.value != value
            || self.time != time
        {
            return false;
        }
        same_key(self.key, row.key)
    }

    /// The value of its row, where it is there.
    pub fn active_value(&self) -> Option<u32>
        ensures { result ≡ place_value self.now }
    {
        match &self.node {
            None => None,
            Some(_) => self.value,
        }
    }

    /// Prices its row at a quote, where it is there.
    pub fn reprice(&mut self, event: u32, best: Best)
        requires key { IsKey self.old.key }
        ensures { self.new ≡ repriced event best self.old }
    {
        if self.node.is_none() {
            return;
        }
        let value = row_value(peg_value(self.key, best), self.cap);
        if self.value != value {
            self.value = value;
            self.time = event;
        }
    }
}

/// The place with a number.
pub fn place_at(places: &[Place], i: usize) -> &Place
    requires within { i < length places.now }
    ensures { slice_get places.now i ≡ Some result.now }
{
    &places[i]
}

/// The number of the place that has a row of this key, cap and entry.
pub fn find(places: &[Place], key: Key, cap: u32, entry: u32) -> Option<usize>
    ensures found { MatchOption result (AllByRecursion (λ place. IsThere key cap entry place → ⊥) places.now)
        (λ i. (place : Place) × (slice_get places.now i ≡ Some place) × IsThere key cap entry place) }
    ensures within { IfSome result (λ i. i < length places.now) }
{
    for i in 0..places.len() {
        if place_at(places, i).is_there(key, cap, entry) {
            return Some(i);
        }
    }
    None
}

/// The number of a place that keeps the place, value and time of a row.
pub fn find_kept(places: &[Place], row: Row, value: Option<u32>, time: u32) -> Option<usize>
    ensures found { MatchOption result (AllByRecursion (λ place. place_standing place ≡ standing_of
        (record { row = row; value = value; time = time }) → ⊥) places.now) (λ i. (place : Place)
        × (slice_get places.now i ≡ Some place) × (place_standing place ≡ standing_of
        (record { row = row; value = value; time = time }))) }
    ensures within { IfSome result (λ i. i < length places.now) }
{
    for i in 0..places.len() {
        if place_at(places, i).keeps(row, value, time) {
            return Some(i);
        }
    }
    None
}

fn take_in(places: &mut [Place], i: usize) -> Option<Box<Node>>
    requires within { i < length places.old }
    ensures { (place : Place) × (slice_get places.old i ≡ Some place) × (result ≡ place.node)
        × (places.new ≡ slice_set places.old i (without_node place)) }
{
    places[i].node.take()
}

/// Takes the node of a place out.
pub fn take_at(places: &mut Vec<Place>, i: usize) -> Option<Box<Node>>
    requires within { i < length places.old.items }
    ensures taken { (place : Place) × (slice_get places.old.items i ≡ Some place) × (result ≡ place.node)
        × (places.new.items ≡ slice_set places.old.items i (without_node place)) }
    ensures len { vec_len places.new ≡ vec_len places.old }
    ensures capacity { vec_capacity places.new ≡ vec_capacity places.old }
{
    take_in(places.as_mut_slice(), i)
}

fn fill_in(places: &mut [Place], i: usize, node: Box<Node>)
    requires within { i < length places.old }
    ensures { (place : Place) × (slice_get places.old i ≡ Some place)
        × (places.new ≡ slice_set places.old i (with_node node place)) }
{
    places[i].node = Some(node);
}

/// Puts a node into a place.
pub fn fill_at(places: &mut Vec<Place>, i: usize, node: Box<Node>)
    requires within { i < length places.old.items }
    ensures filled { (place : Place) × (slice_get places.old.items i ≡ Some place)
        × (places.new.items ≡ slice_set places.old.items i (with_node node place)) }
    ensures len { vec_len places.new ≡ vec_len places.old }
    ensures capacity { vec_capacity places.new ≡ vec_capacity places.old }
{
    fill_in(places.as_mut_slice(), i, node)
}

/// Adds a place behind the others, where there is room.
pub fn add_place(places: &mut Vec<Place>, place: Place)
    requires { vec_len places.old < vec_capacity places.old }
    ensures items { places.new.items ≡ places.old.items ++ place ∷ [] }
    ensures len { vec_len places.new ≡ vec_len places.old + 1 }
    ensures capacity { vec_capacity places.old ≤ vec_capacity places.new }
{
    match places.push(place) {
        Ok(()) => {}
        Err(_) => unreachable!(),
    }
}

fn reprice_in<L: Ledger>(places: &mut [Place], event: u32, best: Best, steps: &mut Steps<L>)
    requires keys { AllByRecursion (λ place. IsKey place.key) places.old }
    ensures places { places.new ≡ map (repriced event best) places.old }
    ensures ticks { steps.new ≡ steps.old + length places.old }
{
    for place in places.iter_mut() {
        steps.tick();
        place.reprice(event, best);
    }
}

/// Prices the rows of all places at a quote. Each place is a step.
pub fn reprice_all<L: Ledger>(places: &mut Vec<Place>, event: u32, best: Best, steps: &mut Steps<L>)
    requires keys { AllByRecursion (λ place. IsKey place.key) places.old.items }
    ensures items { places.new.items ≡ map (repriced event best) places.old.items }
    ensures len { vec_len places.new ≡ vec_len places.old }
    ensures capacity { vec_capacity places.new ≡ vec_capacity places.old }
    ensures ticks { steps.new ≡ steps.old + length places.old.items }
{
    reprice_in(places.as_mut_slice(), event, best, steps)
}

/// Whether a place has a row of this key.
pub fn has_key(places: &[Place], key: Key) -> bool
    ensures { result ≡ list_any (λ place. is_filled place && same_key key place.key) places.now }
{
    places
        .iter()
        .any(|place| place.node.is_some() && same_key(key, place.key))
}
