//! The calls of a venue, gate by gate.
ghost use Rattle.std.specs.Prelude.{◌≡◌, ℕ, ◌<◌, ◌≤◌, true, [], length, map, IfOk, OnErr};
ghost use Rattle.std.specs.List.{All, AllZip};
ghost use Rattle.std.specs.Vec.{vec_capacity};
ghost use Rattle.venue_words.specs.Conditions.{fits_limits};
ghost use Rattle.venue_words.specs.Floors.{is_configured};
ghost use Rattle.turn_gate.specs.Rule.{whole};
ghost use Rattle.venue_core.specs.Closing.{IsBookOf};
ghost use Rattle.venue_core.specs.Joining.{IsFirstSeat, HaveParts, HasSeenNoLess, HasOwnNumbers};
ghost use Rattle.venue_core.specs.Joining.{after_split, split_off, all_joined};

use std::alloc::Global;
use turn_gate::{Gate, Seat};
use venue_words::{Held, NoMemory};

// A gate and its first seat for each book.
pub(crate) fn gates_of<V: Held + Drop>(
    alloc: Global,
    books: Vec<V>,
) -> Result<(Vec<Gate<V>>, Vec<Seat>), NoMemory>
    requires { All (λ book. V.journal book ≡ []) books.items }
    ensures limits { IfOk result (λ made. map (λ gate. gate.limit) made.0.items ≡ map V.limit books.items) }
    ensures settings { IfOk result (λ made. map (λ gate. gate.setting) made.0.items ≡ map V.setting books.items) }
    ensures seats { IfOk result (λ made. map (λ seat. seat.gate) made.1.items ≡ made.0.items) }
    ensures first { IfOk result (λ made. All IsFirstSeat made.1.items) }
{
    let mut gates = Vec::with_capacity(alloc, books.len())?;
    let mut seats = Vec::with_capacity(alloc, books.len())?;
    for book in books {
        match Gate::make(alloc, book) {
            Ok((gate, seat)) => {
                gates.push(gate)?;
                seats.push(seat)?;
            }
            Err(_) => return Err(NoMemory),
        }
    }
    Ok((gates, seats))
}

// Splits each seat. The memory is taken first.
pub(crate) fn split<V: Held>(
    gates: &Vec<Gate<V>>,
    alloc: Global,
    seats: &mut Vec<Seat>,
) -> Result<Vec<Seat>, NoMemory>
    requires gates { map (λ seat. seat.gate) seats.old.items ≡ gates.now.items }
    requires parts { All (λ seat. 1 < seat.part) seats.old.items }
    ensures old { IfOk result (λ new. seats.new.items ≡ map after_split seats.old.items) }
    ensures new { IfOk result (λ new. new.items ≡ map split_off seats.old.items) }
    ensures err { OnErr result (seats.new.items ≡ seats.old.items) }
{
    let mut new = Vec::with_capacity(alloc, gates.len())?;
    for i in 0..gates.len() {
        let seat = &mut seats[i];
        let other = gates[i].split(seat);
        new.push_reserved(other);
    }
    Ok(new)
}

// Joins each of the other seats into the seat of its gate.
pub(crate) fn join<V: Held>(gates: &Vec<Gate<V>>, seats: &mut Vec<Seat>, other: Vec<Seat>)
    requires gates { map (λ seat. seat.gate) seats.old.items ≡ gates.now.items }
    requires other_gates { map (λ seat. seat.gate) other.items ≡ gates.now.items }
    ensures seats { seats.new.items ≡ all_joined seats.old.items other.items }
    ensures seen { AllZip HasSeenNoLess seats.old.items seats.new.items }
    ensures other_seen { AllZip HasSeenNoLess other.items seats.new.items }
    ensures mine { All HasOwnNumbers seats.new.items }
{
    let mut i = 0;
    for one in other {
        let seat = &mut seats[i];
        gates[i].join(seat, one);
        i += 1;
    }
}

// Closes each gate with its seat, and puts its book where there is room for it.
pub(crate) fn close<V: Held + Drop>(
    gates: Vec<Gate<V>>,
    seats: Vec<Seat>,
    mut books: Vec<V>,
) -> Vec<V>
    requires gates { map (λ seat. seat.gate) seats.items ≡ gates.items }
    requires parts { HaveParts whole seats.items }
    requires empty { books.items ≡ [] }
    requires room { length gates.items ≤ vec_capacity books }
    ensures { AllZip (IsBookOf V.journal V.limit V.setting) seats.items result.items }
{
    let mut seats = seats.into_iter();
    for gate in gates {
        match seats.next() {
            Some(seat) => books.push_reserved(gate.close(seat)),
            None => unreachable!(),
        }
    }
    books
}
