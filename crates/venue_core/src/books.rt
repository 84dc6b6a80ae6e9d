//! Venues of books.
ghost use Rattle.std.specs.Prelude.{◌≡◌, List, length, map, IfOk};
ghost use Rattle.std.specs.List.{All};
ghost use Rattle.venue_words.specs.Conditions.{IsConfig};
ghost use Rattle.venue_words.specs.Floors.{setup_of};
ghost use Rattle.turn_gate.specs.Seats.{SeatState};
ghost use Rattle.venue_core.specs.Books.{IsNewBook};
ghost use Rattle.venue_core.specs.ConfigVenues.{IsVenueOf, plain_book_mark};
ghost use Rattle.venue_core.specs.Joining.{IsFirstSeat};
ghost use Rattle.venue_core.specs.Marks.{mark_of};
ghost use Rattle.venue_core.specs.Venues.{AreSeatsOf, setup_in, plain_setup};

use crate::plain_venue::PlainVenue;
use crate::seats::Seats;
use crate::venue::Venue;
use std::alloc::Global;
use symbol_book::{Book, HashSeed};
use venue_words::{Config, NoMemory};

// A book without events for each symbol of the config.
fn books_of(alloc: Global, seed: HashSeed, config: &Config) -> Result<Vec<Book>, NoMemory>
    requires { IsConfig config.now }
    ensures limits { IfOk result (λ books. map (λ book. book.limit) books.items ≡ config.now.limits) }
    ensures ticks { IfOk result (λ books. map (λ book. book.tick) books.items ≡ config.now.ticks) }
    ensures books { IfOk result (λ books. All (IsNewBook (length config.now.markets)) books.items) }
{
    let limits = config.limits.as_slice();
    let ticks = config.ticks.as_slice();
    let markets = config.markets.len() as u32;
    let mut books = Vec::with_capacity(alloc, limits.len())?;
    for i in 0..limits.len() {
        let book = Book::with_seed(alloc, seed, markets, limits[i], ticks[i])?;
        books.push(book)?;
    }
    Ok(books)
}

/// A venue for one thread, with a book without events for each symbol of the config. Identifiers are hashed
/// with the seed; no answer depends on it.
pub fn plain(alloc: Global, seed: HashSeed, config: &Config) -> Result<PlainVenue<Book>, NoMemory>
    requires { IsConfig config.now }
    ensures setup { IfOk result (λ venue. plain_setup (λ book. book.limit) venue ≡ setup_of config.now) }
    ensures of_config { IfOk result (λ venue. IsVenueOf config.now (plain_book_mark venue)) }
    ensures books { IfOk result (λ venue. All (IsNewBook (length config.now.markets)) venue.books) }
{
    let books = books_of(alloc, seed, config)?;
    PlainVenue::from_books(alloc, config, books)
}

/// A venue for many threads, with a book without events for each symbol of the config, and its seats, which
/// have all parts of the gates. Identifiers are hashed with the seed; no answer depends on it.
pub fn make(
    alloc: Global,
    seed: HashSeed,
    config: &Config,
) -> Result<(Venue<Book>, Seats), NoMemory>
    requires { IsConfig config.now }
    ensures setup { IfOk result (λ made. setup_in made.0 ≡ setup_of config.now) }
    ensures seats { IfOk result (λ made. AreSeatsOf made.0 made.1) }
    ensures first { IfOk result (λ made. All IsFirstSeat made.1) }

    // Whatever seats of the venue are split from these, they are over a venue of the config.
    ensures of_config { IfOk result (λ made. (seats : List SeatState)
        → AreSeatsOf made.0 seats → IsVenueOf config.now (mark_of made.0 seats)) }
{
    let books = books_of(alloc, seed, config)?;
    Venue::from_books(alloc, config, books)
}
