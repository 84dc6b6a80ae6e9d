//! Quotes on their way.

/// Both sides of a quote, in cents. A side without a price is empty.
#[derive(Clone, Copy, Debug, PartialEq, Eq)]
pub struct Sides {
    pub bid: Option<u32>,
    pub offer: Option<u32>,
}

/// The quote of a symbol at a market, by their numbers in the config.
#[derive(Clone, Copy, Debug, PartialEq, Eq)]
pub struct MarketQuote {
    pub symbol: u32,
    pub market: u32,
    pub sides: Sides,
}
