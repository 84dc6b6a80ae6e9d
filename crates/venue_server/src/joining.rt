//! The seats of all tasks together.
ghost use Rattle.std.specs.Prelude.{◌≡◌, ◌+◌, ◌-◌, ◌≤◌, ◌++◌, ◌∷◌, [], ℕ, length, map};
ghost use Rattle.std.specs.List.{All};
ghost use Rattle.turn_gate.specs.Rule.{whole};
ghost use Rattle.venue_core.specs.Joining.{HaveParts};
ghost use Rattle.venue_core.specs.Venues.{AreSeatsOf};
ghost use Rattle.venue_server.specs.Outcomes.{first_wrong};
ghost use Rattle.venue_server.specs.Seating.{HasSeats};

use crate::workers::{Finished, Outcome};
use std::sync::Wait;
use venue_core::{Seated, Seats, Venue};
use venue_words::Held;

/// Joins the seats of a task into these, and tells its outcome.
fn join_one<'a, R: Wait, V: Held + Drop>(
    venue: &Venue<V>,
    seats: &mut Seats,
    one: Finished<Seated<'a, R, V>>,
) -> Outcome
    requires seats { AreSeatsOf venue.now seats.old }
    requires other { HasSeats venue.now 1 one.floor.seats }
    ensures seats { AreSeatsOf venue.now seats.new }
    ensures parts { (parts : ℕ) → HaveParts parts seats.old → HaveParts (parts + 1) seats.new }
    ensures outcome { result ≡ one.entry.outcome }
{
    venue.join(seats, one.floor.seats);
    one.outcome
}

/// Joins the seats of all connections' tasks into these, and tells the first outcome of one that was not served.
fn join_links<'a, R: Wait, V: Held + Drop>(
    venue: &Venue<V>,
    seats: &mut Seats,
    links: Vec<Finished<Seated<'a, R, V>>>,
) -> Outcome
    requires few { length links.items ≤ 64 }
    requires seats { HasSeats venue.now (whole - (2 + length links.items)) seats.old }
    requires others { All (λ one. HasSeats venue.now 1 one.floor.seats) links.items }
    ensures seats { HasSeats venue.now (whole - 2) seats.new }
    ensures outcome { first_wrong (result ∷ []) ≡ first_wrong (map (λ one. one.outcome) links.entry.items) }
{
    let mut outcome = Outcome::Served;
    for one in links {
        outcome = outcome.or(join_one(venue, seats, one));
    }
    outcome
}

/// Joins the seats of all tasks into these, those of the connections, of the quotes and of the drop session, and tells the first
/// outcome that is none of a connection which was served.
pub fn join_all<'a, R: Wait, V: Held + Drop>(
    venue: &Venue<V>,
    seats: &mut Seats,
    links: Vec<Finished<Seated<'a, R, V>>>,
    quoted: Finished<Seated<'a, R, V>>,
    copied: Finished<Seated<'a, R, V>>,
) -> Outcome
    requires few { length links.items ≤ 64 }
    requires seats { HasSeats venue.now (whole - (2 + length links.items)) seats.old }
    requires others { All (λ one. HasSeats venue.now 1 one.floor.seats) links.items }
    requires quotes { HasSeats venue.now 1 quoted.floor.seats }
    requires copies { HasSeats venue.now 1 copied.floor.seats }
    ensures seats { HasSeats venue.now whole seats.new }
    ensures outcome { first_wrong (result ∷ [])
        ≡ first_wrong (map (λ one. one.outcome) links.entry.items ++ quoted.entry.outcome ∷ copied.entry.outcome ∷ []) }
{
    let served = join_links(venue, seats, links);
    let quoted = join_one(venue, seats, quoted);
    let copied = join_one(venue, seats, copied);
    served.or(quoted).or(copied)
}
