//! Orders as a book keeps them.
use venue_words::{Id, Priced, Side};

/// What is kept of an accepted order, live or not. Its number is its place in the list of all of them, from 0.
#[derive(Debug, Drop)]
pub struct Order {
    pub member: u32,
    /// The number of the event of its New, from which OrderID(37) is made.
    pub first: u32,
    /// The ClOrdID(11) that names it at present: that of its New, or of its last accepted Replace.
    pub id: Id,
    pub side: Side,
    /// OrderQty(38) in shares.
    pub quantity: u32,
    /// Whether it is pegged (40=P) and not a limit order (40=2).
    pub pegged: bool,
    /// Price(44) in units of 0.005.
    pub limit: Option<u32>,
    /// CumQty(14): the shares that it has traded.
    pub cum: u32,
    /// The sum of price times quantity over its trades, from which AvgPx(6) is made.
    pub notional: u64,
}

/// A live order, with its number and its row.
#[derive(Debug, Drop)]
pub struct Live {
    pub number: u32,
    pub order: Order,
    pub row: Priced,
}
