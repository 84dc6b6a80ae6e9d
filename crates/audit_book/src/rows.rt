//! A book as an answer.
ghost use Rattle.std.specs.Prelude.{◌≡◌};

use crate::page::push_book;
use audit_tables::answer::{Answer, AskedRows};
use audit_tables::asked::Found;
use audit_tables::quotes::{no_quotes, note_event};
use audit_tables::sought::SoughtRows;
use best_prices::Markets;
use std::alloc::Global;
use symbol_book::Book;
use venue_words::{Config, NoMemory, Report};

/// A symbol's book after the event that is asked for.
#[derive(Drop)]
pub struct BookAnswer {
    alloc: Global,
    event: u32,
    /// The quotes of the markets in the symbol whose events come.
    markets: Markets,
    found: Found,
}

/// A symbol's book after an event.
pub type BookRows<'a, A> = AskedRows<'a, A, BookAnswer>;

/// A symbol's book after the event that is sought.
pub type SoughtBookRows<S> = SoughtRows<S, BookAnswer>;

impl Answer for BookAnswer {
    ghost use Rattle.audit_tables.specs.Quotes.{HasQuotes};
    ghost use Rattle.audit_book.specs.Books.{book_if_behind};

    ghost tells = { book_if_behind };

    ghost asked = { λ answer. answer.event };

    ghost heard = { λ answer config symbol journal. HasQuotes config symbol journal answer.markets };

    fn new(alloc: Global, event: u32) -> Result<BookAnswer, NoMemory> {
        Ok(BookAnswer {
            alloc,
            event,
            markets: Markets::new(alloc, 0)?,
            found: Found::NoEvent,
        })
    }

    fn begin(&mut self, config: &Config) -> Result<(), NoMemory> {
        self.markets = no_quotes(self.alloc, config)?;
        Ok(())
    }

    #[tactic(auto, unfolding(crate::specs::Books::book_if_behind))]
    fn push_event(
        &mut self,
        out: &mut Vec<u8>,
        config: &Config,
        symbol: u32,
        book: &Book,
        _made: &[Report],
    ) -> Result<(), NoMemory> {
        note_event(&mut self.markets, config, symbol, book);
        if book.journal().len() != self.event as usize {
            return Ok(());
        }
        self.found = Found::All;
        let best = self.markets.best();
        push_book(self.alloc, out, config, symbol, best, book)
    }

    fn found(&self) -> Found {
        self.found
    }
}
