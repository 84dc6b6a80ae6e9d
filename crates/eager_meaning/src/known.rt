//! What the rules ask of a book.
use venue_words::Side;

/// What the rules ask of the book for one command.
#[derive(Clone, Copy, Debug, PartialEq, Eq)]
pub struct Known {
    /// Whether the member used up the command's ClOrdID(11) in this symbol.
    pub used: bool,
    /// Whether a live order of the member has the command's OrigClOrdID(41) as its present id.
    pub live: bool,
    /// The side of that order, and Buy where there is none.
    pub side: Side,
    /// CumQty(14) of that order, and 0 where there is none.
    pub cum: u32,
    /// The symbol's tick in units of 0.005: 2 or 10.
    pub tick: u32,
}
