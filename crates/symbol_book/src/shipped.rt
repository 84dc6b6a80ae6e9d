//! The book as it ships, over peg groups.
ghost use Rattle.std.specs.Prelude.{◌≡◌, ◌≤◌, [], IfOk};
ghost use Rattle.venue_words.specs.Conditions.{IsTick};
ghost use Rattle.venue_words.specs.declared.limits.TheConstants.{MAX_EVENTS};

use crate::book::BookOver;
use crate::hashing::HashSeed;
use match_core::Sides;
use peg_groups::GroupSide;
use std::alloc::Global;
use venue_words::NoMemory;

/// The book of one symbol. Its sides keep peg groups, so a quote takes steps for the groups and not for the orders.
pub type Book = BookOver<Sides<GroupSide>>;

impl BookOver<Sides<GroupSide>> {
    /// A book without events: so many markets, a limit of events, and a tick of 2 or 10 units of 0.005. Ids are hashed with the
    /// fixed seed. Once `prepare` has answered Ok, an event is worked without memory.
    pub fn new(alloc: Global, markets: u32, limit: u32, tick: u32) -> Result<Book, NoMemory>
        requires limit { limit ≤ MAX_EVENTS }
        requires tick { IsTick tick }
        ensures same { IfOk result (λ book. (book.markets ≡ markets) × (book.tick ≡ tick) × (book.limit ≡ limit)) }
        ensures empty { IfOk result (λ book. (book.journal ≡ []) × (book.reports ≡ [])) }
    {
        BookOver::with_seed(alloc, HashSeed::fixed(), markets, limit, tick)
    }

    /// The same with a seed for the ids.
    pub fn with_seed(
        alloc: Global,
        seed: HashSeed,
        markets: u32,
        limit: u32,
        tick: u32,
    ) -> Result<Book, NoMemory>
        requires limit { limit ≤ MAX_EVENTS }
        requires tick { IsTick tick }
        ensures same { IfOk result (λ book. (book.markets ≡ markets) × (book.tick ≡ tick) × (book.limit ≡ limit)) }
        ensures empty { IfOk result (λ book. (book.journal ≡ []) × (book.reports ≡ [])) }
    {
        let engine = Sides::new(alloc, GroupSide::new(alloc), GroupSide::new(alloc));
        BookOver::over(alloc, engine, seed, markets, limit, tick)
    }
}
