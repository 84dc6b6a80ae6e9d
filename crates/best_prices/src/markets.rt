//! The quotes of all markets in one symbol, with the national quote kept beside them.
ghost use Rattle.std.specs.Prelude.{◌≡◌, ◌≢◌, ◌<◌, IfOk, None, length, replicate, map, min, max, slice_set};
ghost use Rattle.std.specs.Bool.{OnTrue, OnFalse};
ghost use Rattle.venue_words.specs.Best.{IsNationalBest, either_by, best_of, greatest, least};
ghost use Rattle.best_prices.specs.NextBest.{is_at_least, is_at_most, next_greatest, next_least};

use std::alloc::Global;
use std::marker::Model;
use venue_words::{Best, NoMemory};

const EMPTY: Best = Best {
    bid: None,
    offer: None,
};

/// The quotes of all markets in one symbol, in the order of the markets' numbers. Contracts see it as the list of them.
pub struct Markets {
    rows: Vec<Best>,
    best: Best,
}

// Written out, so that crates above let go of one by this theorem, and not part by part.
impl Drop for Markets {
    fn drop(self) {
        let Markets { rows: _, best: _ } = self;
    }
}

impl Model for Markets {
    ghost use Rattle.std.specs.Prelude.{◌≡◌, List};
    ghost use Rattle.venue_words.specs.declared.price.Best.{Best};
    ghost use Rattle.venue_words.specs.Best.{best_of};

    ghost Value = { List Best };

    ghost view = { λ m. m.rows.items };

    ghost invariant = { λ m. m.best ≡ best_of m.rows.items };
}

/// The greater of two bids, of which one may be missing.
fn greater(x: Option<u32>, y: Option<u32>) -> Option<u32>
    ensures { result ≡ either_by max x y }
{
    match (x, y) {
        (None, y) => y,
        (x, None) => x,
        (Some(x), Some(y)) => Some(x.max(y)),
    }
}

/// The lesser of two offers, of which one may be missing.
fn lesser(x: Option<u32>, y: Option<u32>) -> Option<u32>
    ensures { result ≡ either_by min x y }
{
    match (x, y) {
        (None, y) => y,
        (x, None) => x,
        (Some(x), Some(y)) => Some(x.min(y)),
    }
}

fn greatest_bid(rows: &[Best]) -> Option<u32>
    ensures { result ≡ greatest (map (λ row. row.bid) rows.now) }
{
    let mut best: Option<u32> = None;
    for row in rows {
        best = greater(best, row.bid);
    }
    best
}

fn least_offer(rows: &[Best]) -> Option<u32>
    ensures { result ≡ least (map (λ row. row.offer) rows.now) }
{
    let mut best: Option<u32> = None;
    for row in rows {
        best = lesser(best, row.offer);
    }
    best
}

fn is_at_least(bid: Option<u32>, best: Option<u32>) -> bool
    ensures { result ≡ is_at_least bid best }
{
    match (bid, best) {
        (_, None) => true,
        (None, Some(_)) => false,
        (Some(bid), Some(best)) => best <= bid,
    }
}

fn is_at_most(offer: Option<u32>, best: Option<u32>) -> bool
    ensures { result ≡ is_at_most offer best }
{
    match (offer, best) {
        (_, None) => true,
        (None, Some(_)) => false,
        (Some(offer), Some(best)) => offer <= best,
    }
}

/// The greatest bid of the rows, of which one has now `now` in place of `was`, where it was `best` before. All rows
/// are looked at only where the old greatest bid is the one that fell or went.
fn bid_after(rows: &[Best], best: Option<u32>, was: Option<u32>, now: Option<u32>) -> Option<u32>
    ensures { result ≡ next_greatest best was now (map (λ row. row.bid) rows.now) }
{
    if is_at_least(now, best) {
        now
    } else if was == best {
        greatest_bid(rows)
    } else {
        best
    }
}

/// The same of the least offer.
fn offer_after(rows: &[Best], best: Option<u32>, was: Option<u32>, now: Option<u32>) -> Option<u32>
    ensures { result ≡ next_least best was now (map (λ row. row.offer) rows.now) }
{
    if is_at_most(now, best) {
        now
    } else if was == best {
        least_offer(rows)
    } else {
        best
    }
}

impl Markets {
    /// So many markets, none with a quote. No later call takes memory.
    pub fn new(alloc: Global, markets: u32) -> Result<Markets, NoMemory>
        ensures { IfOk result (λ made. made ≡ replicate markets (record { bid = None; offer = None })) }
    {
        Ok(Markets {
            rows: vec![in alloc; EMPTY; markets as usize]?,
            best: EMPTY,
        })
    }

    /// How many markets there are.
    pub fn len(&self) -> usize
        ensures { result ≡ length self.now }
    {
        self.rows.len()
    }

    /// Sets a market's bid and offer, in cents; none is a side without a quote. It answers whether the national
    /// quote changed.
    pub fn set(&mut self, market: u32, bid: Option<u32>, offer: Option<u32>) -> bool
        requires { market < length self.old }
        ensures rows { self.new ≡ slice_set self.old market (record { bid = bid; offer = offer }) }
        ensures changed { OnTrue result (best_of self.new ≢ best_of self.old) }
        ensures unchanged { OnFalse result (best_of self.new ≡ best_of self.old) }
    {
        let place = market as usize;
        let was = self.rows[place];
        self.rows[place] = Best { bid, offer };
        let rows = self.rows.as_slice();
        let best = Best {
            bid: bid_after(rows, self.best.bid, was.bid, bid),
            offer: offer_after(rows, self.best.offer, was.offer, offer),
        };
        let changed = best != self.best;
        self.best = best;
        changed
    }

    /// The national quote: the greatest bid and the least offer of all markets, in cents.
    pub fn best(&self) -> Best
        ensures computed { result ≡ best_of self.now }
        ensures national { IsNationalBest self.now result }
    {
        self.best
    }
}
