//! The first active row of a flat side by priority, and the row of a key, taken out of their places.
ghost use Rattle.std.specs.Prelude.{◌≡◌, ◌+◌, ◌<◌, Some, None, IsNone, IfSome, MatchOption, length, slice_get, slice_set, vec_len};
ghost use Rattle.std.specs.List.{AllByRecursion};
ghost use Rattle.std.specs.Vec.{vec_capacity};
ghost use Rattle.peg_groups.specs.BestValue.{best_value};
ghost use Rattle.peg_groups.specs.Flat.{IsThere, TakesOut, TakesBest, BestPlaceUpTo, place_before, place_value, rows_in, without_node};
ghost use Rattle.peg_groups.specs.declared.flat.Place.{Place};

use crate::flat::{Place, find, place_at, take_at};
use crate::looking::higher;
use crate::side_book::Taken;
use limit_tree::Node;
use std::sync::ledger::Ledger;
use venue_words::{Key, Steps};

/// Takes the row of a key, a cap and an entry out of its place.
pub fn cut_place(places: &mut Vec<Place>, key: Key, cap: u32, entry: u32) -> Option<Box<Node>>
    ensures cut { MatchOption result (AllByRecursion (λ place. IsThere key cap entry place → ⊥) places.old.items
        × (places.new.items ≡ places.old.items))
        (λ node. TakesOut key cap entry node places.old.items places.new.items) }
    ensures len { vec_len places.new ≡ vec_len places.old }
    ensures capacity { vec_capacity places.new ≡ vec_capacity places.old }
{
    match find(places.as_slice(), key, cap, entry) {
        None => None,
        Some(i) => take_at(places, i),
    }
}

/// Whether the row of a place goes before that of another one.
fn goes_first(place: &Place, other: &Place) -> bool
    ensures { result ≡ place_before place.now other.now }
{
    match (place.active_value(), other.active_value()) {
        (Some(value), Some(than)) => {
            than < value
                || value == than
                    && (place.time < other.time
                        || place.time == other.time && place.entry < other.entry)
        }
        _ => false,
    }
}

/// The better one of the best place so far and of the next one.
fn better(places: &[Place], i: usize, best: Option<usize>) -> Option<usize>
    requires within { i < length places.now }
    requires best { BestPlaceUpTo places.now i best }
    requires bound { IfSome best (λ j. j < length places.now) }
    ensures best { BestPlaceUpTo places.now (i + 1) result }
    ensures bound { IfSome result (λ j. j < length places.now) }
{
    let place = place_at(places, i);
    if place.active_value().is_none() {
        return best;
    }
    match best {
        None => Some(i),
        Some(j) => {
            if goes_first(place, place_at(places, j)) {
                Some(i)
            } else {
                Some(j)
            }
        }
    }
}

/// The place of the first active row by priority. Each place is a step.
fn best_place<L: Ledger>(places: &[Place], steps: &mut Steps<L>) -> Option<usize>
    ensures best { BestPlaceUpTo places.now (length places.now) result }
    ensures bound { IfSome result (λ j. j < length places.now) }
    ensures ticks { steps.new ≡ steps.old + length places.now }
{
    let mut best = None;
    for i in 0..places.len() {
        steps.tick();
        best = better(places, i, best);
    }
    best
}

/// The greatest value of a row of all places. Each place is a step.
pub fn best_of_places<L: Ledger>(places: &[Place], steps: &mut Steps<L>) -> Option<u32>
    ensures value { result ≡ best_value (rows_in places.now) }
    ensures ticks { steps.new ≡ steps.old + length places.now }
{
    let mut best = None;
    for i in 0..places.len() {
        steps.tick();
        best = higher(best, place_at(places, i).active_value());
    }
    best
}

/// Takes the row of a place out, with its value and time.
fn take_from(places: &mut Vec<Place>, i: usize) -> Option<Taken>
    requires within { i < length places.old.items }
    ensures taken { (place : Place) × (slice_get places.old.items i ≡ Some place)
        × MatchOption result (place.node ≡ None) (λ taken. (place.node ≡ Some taken.node)
        × (taken.value ≡ place.value) × (taken.time ≡ place.time))
        × (places.new.items ≡ slice_set places.old.items i (without_node place)) }
    ensures len { vec_len places.new ≡ vec_len places.old }
    ensures capacity { vec_capacity places.new ≡ vec_capacity places.old }
{
    let place = place_at(places.as_slice(), i);
    let value = place.value;
    let time = place.time;
    match take_at(places, i) {
        None => None,
        Some(node) => Some(Taken { node, value, time }),
    }
}

/// Takes the first active row by priority out of its place.
pub fn take_first<L: Ledger>(places: &mut Vec<Place>, steps: &mut Steps<L>) -> Option<Taken>
    ensures none { IsNone result → AllByRecursion (λ place. place_value place ≡ None) places.old.items
        × (places.new.items ≡ places.old.items) }
    ensures first { IfSome result (TakesBest places.old.items places.new.items) }
    ensures len { vec_len places.new ≡ vec_len places.old }
    ensures capacity { vec_capacity places.new ≡ vec_capacity places.old }
    ensures ticks { steps.new ≡ steps.old + length places.old.items }
{
    match best_place(places.as_slice(), steps) {
        None => None,
        Some(i) => take_from(places, i),
    }
}
