//! The life of an order as an answer.
ghost use Rattle.std.specs.Prelude.{◌≡◌};

use crate::change::{Change, push_change};
use crate::following::{Followed, follow, nothing};
use crate::life::push_reports;
use audit_tables::answer::{Answer, AskedRows};
use audit_tables::asked::Found;
use audit_tables::quotes::{no_quotes, note_event};
use audit_tables::sought::SoughtRows;
use best_prices::Markets;
use std::alloc::Global;
use symbol_book::Book;
use venue_words::{Config, NoMemory, Report};

/// The life of the order that entered at the event that is asked for.
#[derive(Drop)]
pub struct LifeAnswer {
    alloc: Global,
    event: u32,
    /// The quotes of the markets in the symbol whose events come.
    markets: Markets,
    followed: Followed,
}

/// The life of the order that entered at an event.
pub type OrderRows<'a, A> = AskedRows<'a, A, LifeAnswer>;

/// The life of the order that entered at the event that is sought.
pub type SoughtOrderRows<S> = SoughtRows<S, LifeAnswer>;

impl Answer for LifeAnswer {
    ghost use Rattle.audit_tables.specs.Quotes.{HasQuotes};
    ghost use Rattle.audit_order.specs.Lives.{life_text};
    ghost use Rattle.audit_order.specs.Standing.{Keeps};

    ghost tells = { life_text };

    ghost asked = { λ answer. answer.event };

    ghost heard = { λ answer config symbol journal. HasQuotes config symbol journal answer.markets × Keeps answer.event answer.followed config symbol journal };

    fn new(alloc: Global, event: u32) -> Result<LifeAnswer, NoMemory> {
        Ok(LifeAnswer {
            alloc,
            event,
            markets: Markets::new(alloc, 0)?,
            followed: nothing(),
        })
    }

    fn begin(&mut self, config: &Config) -> Result<(), NoMemory> {
        self.markets = no_quotes(self.alloc, config)?;
        self.followed = nothing();
        Ok(())
    }

    #[tactic(auto, unfolding(crate::specs::Lives::life_text), using(crate::proofs::Stepping::rested))]
    fn push_event(
        &mut self,
        out: &mut Vec<u8>,
        config: &Config,
        symbol: u32,
        book: &Book,
        made: &[Report],
    ) -> Result<(), NoMemory> {
        let first = self.event;
        let was = self.followed.rests;
        note_event(&mut self.markets, config, symbol, book);
        self.followed = follow(self.followed, first, config, symbol, book);
        let change = Change {
            was,
            rests: self.followed.rests,
        };
        let best = self.markets.best();
        push_reports(self.alloc, out, config, book.journal(), first, made)?;
        push_change(self.alloc, out, best, book, change)
    }

    fn found(&self) -> Found {
        match self.followed.number {
            Some(_) => Found::All,
            None => Found::NoOrder,
        }
    }
}
