//! The beginning of a run's venue.
ghost use Rattle.std.specs.Prelude.{◌≡◌, IfOk};
ghost use Rattle.venue_words.specs.Conditions.{IsConfig};
ghost use Rattle.venue_words.specs.Floors.{setup_of};
ghost use Rattle.turn_gate.specs.Rule.{whole};
ghost use Rattle.venue_core.specs.Venues.{setup_in};
ghost use Rattle.venue_server.specs.Seating.{HasSeats};

use std::alloc::Global;
use symbol_book::{Book, HashSeed};
use venue_core::{Seats, Venue, make};
use venue_words::{Config, NoMemory};

/// A venue of the config before its first command, and its seats, which have all parts of the gates.
pub fn open_venue(
    alloc: Global,
    seed: HashSeed,
    config: &Config,
) -> Result<(Venue<Book>, Seats), NoMemory>
    requires { IsConfig config.now }
    ensures setup { IfOk result (λ made. setup_in made.0 ≡ setup_of config.now) }
    ensures seats { IfOk result (λ made. HasSeats made.0 whole made.1) }
{
    make(alloc, seed, config)
}
