//! Trades between orders.
use venue_words::Priced;

/// One of the two orders of a trade, by its number, with the price and the time of its row before the trade.
#[derive(Clone, Copy, Debug, PartialEq, Eq)]
pub struct Party {
    /// The order's number in its book, counted from 0.
    pub order: u32,
    /// In units of 0.005.
    pub price: Option<u32>,
    /// The number of the event that gave the order its time.
    pub time: u32,
}

/// A trade: so many shares at a price in units of 0.005. The taker is the order that walked.
#[derive(Clone, Copy, Debug, PartialEq, Eq)]
pub struct Fill {
    pub taker: Party,
    pub contra: Party,
    pub quantity: u32,
    pub price: u32,
}

/// An order that a taker goes through, and the shares taken from it: 0 where it is passed over.
#[derive(Clone, Copy, Debug, PartialEq, Eq)]
pub struct Take {
    pub contra: Priced,
    pub shares: u32,
}
