//! The scales of prices and of shares.
use crate::columns::Column;
use crate::svg::share;
use std::alloc::Global;
use venue_words::NoMemory;

/// A scale of prices in units of 0.005, from the bottom of a panel to its top.
#[derive(Clone, Copy)]
pub struct Prices {
    pub bottom: u64,
    pub top: u64,
    /// Ticks stand at its multiples.
    pub step: u64,
    /// All quotes, where some are out of the picture.
    pub cut: Option<(u64, u64)>,
}

impl Prices {
    /// How far below the top a price is, of a panel of this height.
    pub fn below(&self, price: u64, height: u64) -> u64 {
        let held = price.max(self.bottom).min(self.top);
        share(
            height,
            self.top.saturating_sub(held),
            self.top.saturating_sub(self.bottom),
        )
    }
}

/// The distance between round prices: at most six of them fit.
fn price_step(range: u64) -> u64 {
    if range <= 6 {
        return 1;
    }
    let mut step = 2u64;
    for k in 0..40 {
        if range / step.max(1) <= 6 {
            return step;
        }
        step = match k % 3 {
            0 | 2 => step.saturating_mul(2),
            _ => step.saturating_mul(5) / 2,
        };
    }
    step
}

/// The scale from one price to another, and a twentieth beyond.
fn scale_of(low: u64, high: u64, cut: Option<(u64, u64)>) -> Prices {
    let room = (high.saturating_sub(low) / 20).max(2);
    let bottom = low.saturating_sub(room);
    let top = high.saturating_add(room);
    Prices {
        bottom,
        top,
        step: price_step(top.saturating_sub(bottom)).max(1),
        cut,
    }
}

/// The bids and the offers of columns in units of 0.005, each from the least.
fn sides_of(alloc: Global, columns: &[Column]) -> Result<(Vec<u64>, Vec<u64>), NoMemory> {
    let mut bids = Vec::new(alloc);
    let mut offers = Vec::new(alloc);
    for column in columns {
        if let Some((bid, offer)) = column.quote {
            bids.push(u64::from(bid).saturating_mul(2))?;
            offers.push(u64::from(offer).saturating_mul(2))?;
        }
    }
    bids.sort()?;
    offers.sort()?;
    Ok((bids, offers))
}

fn end_of(list: &[u64], place: usize) -> u64 {
    list.get(place).copied().unwrap_or(0)
}

/// The least and the greatest price of the trades of columns.
fn trades_of(columns: &[Column]) -> Option<(u64, u64)> {
    let mut found: Option<(u64, u64)> = None;
    for column in columns {
        if let Some((low, high)) = column.trades {
            let (low, high) = (u64::from(low), u64::from(high));
            found = match found {
                None => Some((low, high)),
                Some(ends) => Some((ends.0.min(low), ends.1.max(high))),
            };
        }
    }
    found
}

/// The scale of prices of a day: all quotes; or, where these take more than three times as much, those without the outer twentieth of bids
/// and of offers, but with all trades.
pub fn prices_of(alloc: Global, columns: &[Column]) -> Result<Option<Prices>, NoMemory> {
    let (bids, offers) = sides_of(alloc, columns)?;
    let last = bids.len().saturating_sub(1);
    if bids.is_empty() {
        return Ok(None);
    }
    let outer = bids.len() / 20;
    let all = (end_of(&bids, 0), end_of(&offers, last));
    let mut inner = (
        end_of(&bids, outer),
        end_of(&offers, last.saturating_sub(outer)),
    );
    if let Some((low, high)) = trades_of(columns) {
        inner = (inner.0.min(low), inner.1.max(high));
    }
    let some = inner.1.saturating_sub(inner.0).max(20);
    if all.1.saturating_sub(all.0) > some.saturating_mul(3) {
        return Ok(Some(scale_of(inner.0, inner.1, Some(all))));
    }
    let whole = match trades_of(columns) {
        Some((low, high)) => (all.0.min(low), all.1.max(high)),
        None => all,
    };
    Ok(Some(scale_of(whole.0, whole.1, None)))
}

/// So many steps of a size a number needs.
pub fn steps_of(number: u64, step: u64) -> u64 {
    number.saturating_add(step.saturating_sub(1)) / step.max(1)
}

/// The least of 1, 2, 5, 10, 20, 25, 50, 100 and so on, of which two numbers together need no more than so many.
pub fn share_step(limit: u64, one: u64, other: u64) -> u64 {
    let mut ten = 1u64;
    for _ in 0..20 {
        for tenths in [10u64, 20, 25, 50] {
            let step = ten.saturating_mul(tenths) / 10;
            let is_whole = ten >= 10 || tenths != 25;
            let needed = steps_of(one, step).saturating_add(steps_of(other, step));
            if is_whole && needed <= limit {
                return step.max(1);
            }
        }
        ten = ten.saturating_mul(10);
    }
    ten.max(1)
}
