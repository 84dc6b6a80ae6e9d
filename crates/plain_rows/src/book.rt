//! A book over plain rows.
ghost use Rattle.std.specs.Prelude.{◌≡◌, ◌≤◌, [], IfOk};
ghost use Rattle.venue_words.specs.Conditions.{IsTick};
ghost use Rattle.venue_words.specs.declared.limits.TheConstants.{MAX_EVENTS};

use crate::uncounted::Uncounted;
use match_core::Sides;
use peg_groups::FlatSide;
use std::alloc::Global;
use symbol_book::{BookOver, HashSeed};
use venue_words::NoMemory;

/// A book over plain rows.
pub type PlainBook = BookOver<Sides<Uncounted<FlatSide>>>;

/// A book over plain rows without events: so many markets, a limit of events, and a tick of 2 or 10 units of 0.005.
pub fn plain_book(alloc: Global, markets: u32, limit: u32, tick: u32) -> Result<PlainBook, NoMemory>
    requires limit { limit ≤ MAX_EVENTS }
    requires tick { IsTick tick }
    ensures same { IfOk result (λ book. (book.markets ≡ markets) × (book.tick ≡ tick) × (book.limit ≡ limit)) }
    ensures empty { IfOk result (λ book. (book.journal ≡ []) × (book.reports ≡ [])) }
{
    let buys = Uncounted::new(FlatSide::new(alloc));
    let sells = Uncounted::new(FlatSide::new(alloc));
    let engine = Sides::new(alloc, buys, sells);
    BookOver::over(alloc, engine, HashSeed::fixed(), markets, limit, tick)
}
