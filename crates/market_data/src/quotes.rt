//! The quotes of a snapshot: one for each market that it names.
ghost use Rattle.std.specs.Prelude.{◌≡◌, [], map, min, max, IfOk, OnOk};
ghost use Rattle.venue_words.specs.Best.{either_by};
ghost use Rattle.market_data.specs.Quotes.{is_named, with_named, first_named, markets_in, market_quote, quotes_of};

use crate::entries::EntryQuote;
use std::alloc::Global;
use venue_words::{Command, Items, NoMemory};

/// The greater of two bids, where both are there.
fn greater(first: Option<u32>, second: Option<u32>) -> Option<u32>
    ensures { result ≡ either_by max first second }
{
    match (first, second) {
        (Some(first), Some(second)) => Some(first.max(second)),
        (Some(first), None) => Some(first),
        (None, second) => second,
    }
}

/// The lesser of two offers, where both are there.
fn lesser(first: Option<u32>, second: Option<u32>) -> Option<u32>
    ensures { result ≡ either_by min first second }
{
    match (first, second) {
        (Some(first), Some(second)) => Some(first.min(second)),
        (Some(first), None) => Some(first),
        (None, second) => second,
    }
}

/// The quote of a market: its greatest bid and its least offer.
fn market_quote(quotes: &[EntryQuote], market: u32) -> Command
    ensures { result ≡ market_quote quotes.now market }
{
    let mut bid = None;
    let mut offer = None;
    for quote in quotes {
        if quote.market == market {
            bid = greater(bid, quote.bid);
            offer = lesser(offer, quote.offer);
        }
    }
    Command::Quote { market, bid, offer }
}

/// Whether a market was named.
fn is_named(markets: &[u32], market: u32) -> bool
    ensures { result ≡ is_named markets.now market }
{
    markets.iter().any(|other| *other == market)
}

/// Adds a market that was not named before.
fn name_market(markets: &mut Vec<u32>, market: u32) -> Result<(), NoMemory>
    ensures { OnOk result (markets.new.items ≡ with_named markets.old.items market) }
{
    if !is_named(markets, market) {
        markets.push(market)?;
    }
    Ok(())
}

/// The markets, each where it is named first.
fn named_markets(alloc: Global, quotes: &[EntryQuote]) -> Result<Vec<u32>, NoMemory>
    ensures { IfOk result (λ markets. markets.items ≡ first_named [] (markets_in quotes.now)) }
{
    let mut markets = Vec::new(alloc);
    for quote in quotes {
        name_market(&mut markets, quote.market)?;
    }
    Ok(markets)
}

/// A quote for each market that is named, in the order in which they are named first.
pub fn quotes_of(alloc: Global, quotes: &[EntryQuote]) -> Result<Items<Command>, NoMemory>
    ensures { IfOk result (λ list. list ≡ quotes_of quotes.now) }
{
    let markets = named_markets(alloc, quotes)?;
    let mut list = Items::new(alloc);
    for market in &markets {
        list.push(market_quote(quotes, *market))?;
    }
    Ok(list)
}
