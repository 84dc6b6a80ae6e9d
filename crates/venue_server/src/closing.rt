//! The end of a run: the venue is closed, and its journals are listed.
ghost use Rattle.std.specs.Prelude.{◌≡◌, ◌≢◌, ◌≤◌, Err, IfOk, length, map};
ghost use Rattle.venue_words.specs.Causes.{Rose};
ghost use Rattle.venue_words.specs.Conditions.{IsConfig};
ghost use Rattle.venue_words.specs.Floors.{setup_of};
ghost use Rattle.io_edge.specs.Grows.{Puts};
ghost use Rattle.turn_gate.specs.Rule.{whole};
ghost use Rattle.symbol_book.specs.Setting.{book_setting, reports_at};
ghost use Rattle.venue_core.specs.Venues.{setup_in};
ghost use Rattle.listing.specs.Listing.{part_text};
ghost use Rattle.venue_server.specs.Listed.{AreBooksOf, ListsSeats, listing_of};
ghost use Rattle.venue_server.specs.Seating.{HasSeats};

use io_edge::Sink;
use listing::{ListingFault, SymbolPart, runs_are_in_order, write_part};
use serve_core::ServeStatus;
use std::alloc::Global;
use symbol_book::Book;
use venue_core::{Seats, Venue};
use venue_words::{Config, NoMemory};

/// Puts the listing of a symbol's book.
fn list_book<K: Sink>(
    alloc: Global,
    config: &Config,
    symbol: u32,
    book: &Book,
    out: &mut K,
) -> Result<(), ListingFault>
    ensures text { Puts (K.told out.old) (K.told out.new) result
        (part_text config.now symbol book.now.journal (reports_at (book_setting book.now) book.now.journal)) }
    ensures later { K.faults out.old ≤ K.faults out.new }
    ensures cause { result ≡ Err ListingFault.WriteFault → Rose (K.faults out.old) (K.faults out.new) }
{
    runs_are_in_order();
    let part = SymbolPart {
        config,
        symbol,
        journal: book.journal(),
        reports: book.reports(),
    };
    write_part(alloc, &part, out)
}

/// Puts the listing of each symbol's book.
fn list_books<K: Sink>(
    alloc: Global,
    config: &Config,
    books: &[Book],
    out: &mut K,
) -> Result<(), ListingFault>
    requires config { IsConfig config.now }
    requires few { length books.now ≤ length config.now.symbols }
    ensures text { Puts (K.told out.old) (K.told out.new) result (listing_of config.now books.now) }
    ensures later { K.faults out.old ≤ K.faults out.new }
    ensures cause { result ≡ Err ListingFault.WriteFault → Rose (K.faults out.old) (K.faults out.new) }
{
    let mut symbol = 0;
    for book in books {
        list_book(alloc, config, symbol, book, out)?;
        symbol += 1;
    }
    Ok(())
}

/// Closes a venue: its books come back, with the limits that it was set up with.
fn close_venue(alloc: Global, venue: Venue<Book>, seats: Seats) -> Result<Vec<Book>, NoMemory>
    requires { HasSeats venue whole seats }
    ensures books { IfOk result (λ books. AreBooksOf seats books.items) }
    ensures limits { IfOk result (λ books. map (λ book. book.limit) books.items ≡ (setup_in venue).limits) }
{
    match venue.close(alloc, seats) {
        Ok(books) => Ok(books),
        Err(_) => Err(NoMemory),
    }
}

/// Closes the venue and lists the books of its seats.
pub fn close_and_list<K: Sink>(
    alloc: Global,
    config: &Config,
    venue: Venue<Book>,
    seats: Seats,
    out: &mut K,
) -> ServeStatus<'static>
    requires config { IsConfig config.now }
    requires setup { setup_in venue ≡ setup_of config.now }
    requires seats { HasSeats venue whole seats }
    ensures listed { ListsSeats config.now seats result (K.told out.old) (K.told out.new) }
    ensures later { K.faults out.old ≤ K.faults out.new }
    ensures fault { result ≡ ServeStatus.WriteFault → Rose (K.faults out.old) (K.faults out.new) }
    ensures words { result ≢ ServeStatus.BadWords }
{
    let Ok(books) = close_venue(alloc, venue, seats) else {
        return ServeStatus::NoMemory;
    };
    match list_books(alloc, config, books.as_slice(), out) {
        Ok(()) => ServeStatus::Done,
        Err(ListingFault::WriteFault) => ServeStatus::WriteFault,
        Err(ListingFault::NoMemory) => ServeStatus::NoMemory,
    }
}
