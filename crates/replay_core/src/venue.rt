//! The venue of books as a player's floor.
use crate::plain_floor::PlainFloor;
use std::alloc::Global;
use symbol_book::{Book, HashSeed};
use venue_core::{PlainVenue, plain};
use venue_words::{Config, NoMemory, Report};

impl PlainFloor for PlainVenue<Book> {
    ghost use Rattle.venue_core.specs.ConfigVenues.{plain_book_state};

    ghost state = { plain_book_state };

    fn open(alloc: Global, config: &Config) -> Result<PlainVenue<Book>, NoMemory> {
        plain(alloc, HashSeed::fixed(), config)
    }

    fn front(&self, symbol: u32) -> u32 {
        self.book(symbol).front()
    }

    fn events(&self, symbol: u32) -> usize {
        self.book(symbol).journal().len()
    }

    fn reports(&self, symbol: u32) -> &[Report] {
        self.book(symbol).reports()
    }

    fn resting(&self, symbol: u32) -> u32 {
        self.book(symbol).resting()
    }

    fn groups(&self, symbol: u32) -> u32 {
        self.book(symbol).groups()
    }
}
