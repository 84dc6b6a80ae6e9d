//! Sides, prices and quotes.
ghost use Rattle.std.specs.Prelude.{◌≡◌, ◌≤◌, ◌-◌};
ghost use Rattle.venue_words.specs.Price.{value_of, price_of};
ghost use Rattle.venue_words.specs.Best.{is_regular, is_locked};

/// The end of the prices, which are counted in units of 0.005 from 1 to one below this.
pub const PRICE_END: u32 = 4_000_000;

/// The side of an order.
#[derive(Clone, Copy, Debug, PartialEq, Eq, Hash)]
pub enum Side {
    Buy,
    Sell,
}

/// A bid and an offer in cents: those of one market, or the national ones.
#[derive(Clone, Copy, Debug, PartialEq, Eq)]
pub struct Best {
    pub bid: Option<u32>,
    pub offer: Option<u32>,
}

impl Best {
    /// Whether both are there and the bid is below the offer.
    pub fn is_regular(&self) -> bool
        ensures { result ≡ is_regular self.now }
    {
        match (self.bid, self.offer) {
            (Some(bid), Some(offer)) => bid < offer,
            _ => false,
        }
    }

    /// Whether both are there and equal.
    pub fn is_locked(&self) -> bool
        ensures { result ≡ is_locked self.now }
    {
        match (self.bid, self.offer) {
            (Some(bid), Some(offer)) => bid == offer,
            _ => false,
        }
    }
}

/// The value of a price in units of 0.005: of two prices of one side the more aggressive one has
/// the greater value.
pub fn value(side: Side, price: u32) -> u32
    requires { price ≤ PRICE_END }
    ensures { result ≡ value_of side price }
{
    match side {
        Side::Buy => price,
        Side::Sell => PRICE_END - price,
    }
}

/// The price that has a value.
pub fn price_of(side: Side, value: u32) -> u32
    requires { value ≤ PRICE_END }
    ensures price { result ≡ price_of side value }
    ensures inverse { value_of side result ≡ value }
{
    match side {
        Side::Buy => value,
        Side::Sell => PRICE_END - value,
    }
}
