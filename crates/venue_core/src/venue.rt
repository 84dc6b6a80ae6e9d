//! A venue for many threads.
ghost use Rattle.std.specs.Prelude.{◌≡◌, ◌<◌, [], map, IfOk, IfErr, OnErr};
ghost use Rattle.std.specs.List.{All, AllZip};
ghost use Rattle.venue_words.specs.Floors.{setup_of};
ghost use Rattle.turn_gate.specs.Rule.{whole};
ghost use Rattle.venue_core.specs.Closing.{IsBookOf};
ghost use Rattle.venue_core.specs.Joining.{IsFirstSeat, HaveParts, HasSeenNoLess, HasOwnNumbers};
ghost use Rattle.venue_core.specs.Joining.{after_split, split_off, all_joined};
ghost use Rattle.venue_core.specs.Venues.{AreSeatsOf, TakesConfigured, setup_in};

use crate::calls;
use crate::seats::Seats;
use std::alloc::Global;
use std::marker::Model;
use turn_gate::Gate;
use venue_words::{Config, Held, NoMemory};

/// A venue over gates, one for each symbol's book. Threads share it by reference, and each works on it
/// through seats of its own: see `Seated`.
pub struct Venue<V: Held> {
    members: usize,
    markets: usize,
    ticks: Vec<u32>,
    pub(crate) gates: Vec<Gate<V>>,
}

// Written out, so that crates above let go of one by this theorem, and not part by part.
impl<V: Held + Drop> Drop for Venue<V> {
    fn drop(self) {
        let Venue {
            members: _,
            markets: _,
            ticks: _,
            gates: _,
        } = self;
    }
}

impl<V: Held> Model for Venue<V> {
    ghost use Rattle.std.specs.List.{All};
    ghost use Rattle.venue_core.specs.Venues.{VenueId, venue_id, setup_in, TakesConfigured};

    ghost Value = { VenueId };

    ghost view = { λ venue. venue_id venue.members venue.markets venue.ticks.items venue.gates.items };

    ghost invariant = { λ venue. All (λ gate. TakesConfigured V.takes
        (setup_in (venue_id venue.members venue.markets venue.ticks.items venue.gates.items)) gate.setting)
        venue.gates.items };
}

impl<V: Held + Drop> Venue<V> {
    /// Makes a venue of books without events, one for each symbol of the config, in its order, and the venue's
    /// seats, which have all parts of the gates. Where memory is wanting, the books are dropped.
    pub fn from_books(
        alloc: Global,
        config: &Config,
        books: Vec<V>,
    ) -> Result<(Venue<V>, Seats), NoMemory>
        requires limits { map V.limit books.items ≡ config.now.limits }
        requires empty { All (λ book. V.journal book ≡ []) books.items }
        requires takes { All (λ book. TakesConfigured V.takes (setup_of config.now) (V.setting book)) books.items }
        ensures setup { IfOk result (λ made. setup_in made.0 ≡ setup_of config.now) }
        ensures settings { IfOk result (λ made. map (λ gate. gate.setting) made.0.gates ≡ map V.setting books.items) }

        // The seats.
        ensures seats { IfOk result (λ made. AreSeatsOf made.0 made.1) }
        ensures first { IfOk result (λ made. All IsFirstSeat made.1) }
    {
        let ticks = Vec::from_slice(alloc, config.ticks.as_slice())?;
        let (gates, list) = calls::gates_of(alloc, books)?;
        let venue = Venue {
            members: config.members.len(),
            markets: config.markets.len(),
            ticks,
            gates,
        };
        Ok((venue, Seats { list }))
    }

    /// Makes further seats, say for another thread. They have seen what the old ones have, have no events of
    /// their own, and get one part of each of the old ones'. A refusal leaves the seats as they were.
    pub fn split(&self, alloc: Global, seats: &mut Seats) -> Result<Seats, NoMemory>
        requires seats { AreSeatsOf self.now seats.old }
        requires parts { All (λ seat. 1 < seat.part) seats.old }
        ensures seats { AreSeatsOf self.now seats.new }
        ensures new_seats { IfOk result (λ new. AreSeatsOf self.now new) }
        ensures old { IfOk result (λ new. seats.new ≡ map after_split seats.old) }
        ensures new { IfOk result (λ new. new ≡ map split_off seats.old) }
        ensures err { OnErr result (seats.new ≡ seats.old) }
    {
        let list = calls::split(&self.gates, alloc, &mut seats.list)?;
        Ok(Seats { list })
    }

    /// Joins other seats of the venue into these, symbol by symbol. This takes no memory.
    pub fn join(&self, seats: &mut Seats, other: Seats)
        requires seats { AreSeatsOf self.now seats.old }
        requires other_seats { AreSeatsOf self.now other }
        ensures seats { AreSeatsOf self.now seats.new }
        ensures joined { seats.new ≡ all_joined seats.old other }

        // The two had seen beginnings of one history, and no event was an own one of both.
        ensures seen { AllZip HasSeenNoLess seats.old seats.new }
        ensures other_seen { AllZip HasSeenNoLess other seats.new }
        ensures mine { All HasOwnNumbers seats.new }
    {
        calls::join(&self.gates, &mut seats.list, other.list);
    }

    /// Ends the venue and hands its books back, in the order of the symbols. The seats have all parts, so all
    /// seats that were split off were joined back. The memory is taken first, and a refusal hands venue and
    /// seats back as they were.
    pub fn close(self, alloc: Global, seats: Seats) -> Result<Vec<V>, (Venue<V>, Seats, NoMemory)>
        requires seats { AreSeatsOf self seats }
        requires parts { HaveParts whole seats }
        ensures books { IfOk result (λ books. AllZip (IsBookOf V.journal V.limit V.setting) seats books.items) }
        ensures venue { IfErr result (λ refused. refused.0 ≡ self) }
        ensures seats { IfErr result (λ refused. refused.1 ≡ seats) }
    {
        let Ok(books) = Vec::with_capacity(alloc, self.gates.len()) else {
            return Err((self, seats, NoMemory));
        };
        let Venue {
            members: _,
            markets: _,
            ticks: _,
            gates,
        } = self;
        Ok(calls::close(gates, seats.list, books))
    }
}
