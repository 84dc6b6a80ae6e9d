//! The national quote.
use best_prices::Markets;
use case_text::{Told, Words};
use fix_fields::number;
use quote_intake::price;
use std::alloc::Global;
use venue_words::NoMemory;

/// The quotes of some markets.
#[derive(Drop)]
pub struct National {
    markets: Markets,
}

/// Tells a side of a quote in cents, or `-` where there is none.
fn tell_side(cents: Option<u32>, told: &mut Told) {
    let Some(cents) = cents else {
        return told.push(" -");
    };
    let part = cents % 100;
    told.push(" ");
    told.show(&(cents / 100));
    told.push(if part < 10 { ".0" } else { "." });
    told.show(&part);
}

impl National {
    /// So many markets, none with a quote.
    pub fn new(alloc: Global, markets: u32) -> Result<National, NoMemory> {
        Ok(National {
            markets: Markets::new(alloc, markets)?,
        })
    }

    /// Sets a market's quote, and tells whether the national one changed.
    fn set(&mut self, words: &Words<'_>, told: &mut Told) {
        let market = number(words.at(0)).unwrap_or(u32::MAX);
        let (Some(bid), Some(offer)) = (price(words.at(1)), price(words.at(2))) else {
            return told.word("no quote");
        };
        if market as usize >= self.markets.len() {
            return told.word("no market");
        }
        let changed = self.markets.set(market, bid, offer);
        told.word(if changed { "changed" } else { "same" });
    }

    /// `markets COUNT` begins anew, `market NUMBER BID OFFER` is a quote, and `national` tells the national one.
    pub fn play(
        &mut self,
        word: &str,
        words: &Words<'_>,
        told: &mut Told,
    ) -> Result<bool, NoMemory> {
        match word {
            "markets" => {
                let count = number(words.at(0)).unwrap_or(0).min(32);
                *self = National::new(told.alloc, count)?;
                told.value(&self.markets.len());
            }
            "market" => self.set(words, told),
            "national" => {
                let best = self.markets.best();
                told.push(" =");
                tell_side(best.bid, told);
                tell_side(best.offer, told);
            }
            _ => return Ok(false),
        }
        Ok(true)
    }
}
