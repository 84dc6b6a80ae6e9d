//! Resting orders as pricing and matching see them.
ghost use Rattle.std.specs.Prelude.{◌≡◌, ◌↔◌, IsTrue};
ghost use Rattle.venue_words.specs.Key.{same_key};
ghost use Rattle.venue_words.specs.Price.{is_active, price_shown, crosses, values_cross, price_of};
ghost use Rattle.venue_words.specs.Priority.{is_older, goes_before};

use crate::price::{PRICE_END, Side};

/// The national price that a peg follows.
#[derive(Clone, Copy, Debug, PartialEq, Eq, Hash)]
pub enum Reference {
    /// Halfway between bid and offer.
    Mid,
    /// The price of the order's own side.
    Primary,
    /// The price of the other side.
    Market,
    /// The price of the other side; a limit order, whose own price holds it back.
    Limit,
}

/// What becomes of a peg price that is not a whole number of ticks.
#[derive(Clone, Copy, Debug, PartialEq, Eq, Hash)]
pub enum Rounding {
    Unrounded,
    /// The next tick towards the other side.
    Aggressive,
    /// The next tick away from the other side.
    Passive,
}

/// How a minimum quantity may be met.
#[derive(Clone, Copy, Debug, PartialEq, Eq)]
pub enum Method {
    /// Once, by all trades of one event together; behind the first trade it is met for good.
    Once,
    /// By each trade.
    Multiple,
}

/// What the peg price of an order depends on, beside the national quote. Orders of one key move together.
#[derive(Clone, Copy, Debug, PartialEq, Eq, Hash)]
pub struct Key {
    /// In units of 0.005, added to the price of a buy and of a sell alike.
    pub offset: i32,
    /// The symbol's tick in units of 0.005: 2 or 10.
    pub grid: u32,
    pub side: Side,
    pub reference: Reference,
    pub rounding: Rounding,
}

/// Whether two keys agree in each part.
pub fn same_key(a: Key, b: Key) -> bool
    ensures test { result ≡ same_key a b }
    ensures equal { IsTrue result ↔ (a ≡ b) }
{
    a == b
}

/// A resting order as matching sees it.
#[derive(Clone, Copy, Debug, PartialEq, Eq)]
pub struct Row {
    /// The order's number in its book, counted from 0.
    pub order: u32,
    pub member: u32,
    pub key: Key,
    /// The value of its limit, or `PRICE_END` where it has none.
    pub cap: u32,
    /// The number of the event at which it entered.
    pub entry: u32,
    /// The shares that are left.
    pub leaves: u32,
    /// The minimum quantity, or 0 where it has none.
    pub minimum: u32,
    pub method: Method,
    /// Whether the order has traded.
    pub traded: bool,
}

/// A row with its value, or none while it is inactive, and its time, which is the number of an event.
#[derive(Clone, Copy, Debug, PartialEq, Eq)]
pub struct Priced {
    pub row: Row,
    pub value: Option<u32>,
    pub time: u32,
}

fn shown(side: Side, value: u32) -> u32
    ensures { result ≡ price_of side value }
{
    match side {
        Side::Buy => value,
        Side::Sell => PRICE_END.saturating_sub(value),
    }
}

fn values_cross(value: Option<u32>, other: Option<u32>) -> bool
    ensures { result ≡ values_cross value other }
{
    match (value, other) {
        (Some(value), Some(other)) => u64::from(PRICE_END) <= u64::from(value) + u64::from(other),
        _ => false,
    }
}

impl Priced {
    /// Whether it has a price at present.
    pub fn is_active(&self) -> bool
        ensures { result ≡ is_active self.now }
    {
        self.value.is_some()
    }

    /// Its price in units of 0.005, or none while it is inactive.
    pub fn price(&self) -> Option<u32>
        ensures { result ≡ price_shown self.now }
    {
        match self.value {
            Some(value) => Some(shown(self.row.key.side, value)),
            None => None,
        }
    }

    /// Whether it crosses a row of the other side: the buy's price is at least the sell's.
    pub fn crosses(&self, other: &Priced) -> bool
        ensures { result ≡ crosses self.now other.now }
    {
        values_cross(self.value, other.value)
    }

    /// Whether it has the smaller time, or at one time the smaller entry.
    #[tactic(auto, unfolding(crate::specs::Priority::is_older))]
    pub fn is_older(&self, other: &Priced) -> bool
        ensures { result ≡ is_older self.now other.now }
    {
        self.time < other.time || self.time == other.time && self.row.entry < other.row.entry
    }

    /// Whether it goes before another active row of its side.
    #[tactic(auto, unfolding(crate::specs::Priority::goes_before))]
    pub fn goes_before(&self, other: &Priced) -> bool
        ensures { result ≡ goes_before self.now other.now }
    {
        let own = self.value.unwrap_or(0);
        let others = other.value.unwrap_or(0);
        others < own || own == others && self.is_older(other)
    }
}
