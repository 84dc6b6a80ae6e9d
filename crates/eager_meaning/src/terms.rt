//! What the terms of an order say.
ghost use Rattle.std.specs.Prelude.{◌≡◌, ◌<◌};
ghost use Rattle.venue_words.specs.Conditions.{IsTick};
ghost use Rattle.eager_meaning.specs.Terms.{side_of, is_pegged, quantity_of, limit_of, cap_of, peg_reference, rounding_of, offset_of, key_of, method_of, minimum_of, is_immediate, row_of};

use crate::amount::{minimum_in, offset_in, price_in, quantity_in};
use venue_words::{Key, Method, PRICE_END, Reference, Rounding, Row, Side, Terms};

/// The side: code `1` is a buy. Codes other than `1` and `2` break a rule.
pub fn side_of(terms: &Terms) -> Side
    ensures { result ≡ side_of terms.now }
{
    if terms.side == b'1' {
        Side::Buy
    } else {
        Side::Sell
    }
}

/// Whether the order is pegged (40=P), and not a limit order.
pub fn is_pegged(terms: &Terms) -> bool
    ensures { result ≡ is_pegged terms.now }
{
    terms.kind == b'P'
}

/// OrderQty(38) in shares; 0 where it breaks its rule.
pub fn quantity_of(terms: &Terms) -> u32
    ensures { result ≡ quantity_of terms.now }
{
    quantity_in(terms.quantity).unwrap_or(0)
}

/// Price(44) in units of 0.005, where it is there and keeps its rule.
pub fn limit_of(tick: u32, terms: &Terms) -> Option<u32>
    requires { 0 < tick }
    ensures { result ≡ limit_of tick terms.now }
{
    match terms.price {
        Some(amount) => price_in(tick, amount),
        None => None,
    }
}

/// Whether what does not trade at once is canceled (59=3).
pub fn is_immediate(terms: &Terms) -> bool
    ensures { result ≡ is_immediate terms.now }
{
    terms.force == Some(b'3')
}

/// The national price that PegPriceType(1094) names: 2 is the midpoint, 4 the market, 5 the primary price.
fn peg_reference(peg: Option<u32>) -> Reference
    ensures { result ≡ peg_reference peg }
{
    match peg {
        Some(2) => Reference::Mid,
        Some(4) => Reference::Market,
        _ => Reference::Primary,
    }
}

/// PegRoundDirection(838): 1 is aggressive, 2 is passive, absent is unrounded.
fn rounding_of(round: Option<u32>) -> Rounding
    ensures { result ≡ rounding_of round }
{
    match round {
        None => Rounding::Unrounded,
        Some(1) => Rounding::Aggressive,
        Some(_) => Rounding::Passive,
    }
}

/// The offset in units of 0.005; with none it is 0.
fn offset_of(tick: u32, terms: &Terms) -> i32
    requires { IsTick tick }
    ensures { result ≡ offset_of tick terms.now }
{
    match terms.offset {
        Some(amount) => offset_in(tick, terms.offset_kind, amount).unwrap_or(0),
        None => 0,
    }
}

/// The key of an order of these terms. A limit order follows the price of the other side, with nothing added.
#[tactic(auto, unfolding(crate::specs::Terms::key_of))]
pub fn key_of(tick: u32, terms: &Terms) -> Key
    requires { IsTick tick }
    ensures { result ≡ key_of tick terms.now }
{
    if is_pegged(terms) {
        Key {
            side: side_of(terms),
            reference: peg_reference(terms.peg),
            offset: offset_of(tick, terms),
            rounding: rounding_of(terms.round),
            grid: tick,
        }
    } else {
        Key {
            side: side_of(terms),
            reference: Reference::Limit,
            offset: 0,
            rounding: Rounding::Unrounded,
            grid: tick,
        }
    }
}

/// MinQtyMethod(1822): 2 is by each trade; 1, or absent, is once.
fn method_of(terms: &Terms) -> Method
    ensures { result ≡ method_of terms.now }
{
    match terms.method {
        Some(2) => Method::Multiple,
        _ => Method::Once,
    }
}

/// MinQty(110) in shares, or 0.
fn minimum_of(terms: &Terms) -> u32
    ensures { result ≡ minimum_of terms.now }
{
    match terms.minimum {
        Some(amount) => minimum_in(quantity_of(terms), amount).unwrap_or(0),
        None => 0,
    }
}

/// The limit's value; with no limit there is nothing above.
fn cap_of(tick: u32, terms: &Terms) -> u32
    requires { 0 < tick }
    ensures { result ≡ cap_of tick terms.now }
{
    match limit_of(tick, terms) {
        Some(price) => match side_of(terms) {
            Side::Buy => price,
            Side::Sell => PRICE_END.saturating_sub(price),
        },
        None => PRICE_END,
    }
}

/// The row with which an order of these terms enters at an event, after so many of its shares traded.
#[tactic(auto, unfolding(crate::specs::Terms::row_of))]
pub fn row_of(tick: u32, event: u32, order: u32, member: u32, cum: u32, terms: &Terms) -> Row
    requires { IsTick tick }
    ensures { result ≡ row_of tick event order member cum terms.now }
{
    Row {
        order,
        member,
        key: key_of(tick, terms),
        cap: cap_of(tick, terms),
        entry: event,
        leaves: quantity_of(terms).saturating_sub(cum),
        minimum: minimum_of(terms),
        method: method_of(terms),
        traded: 0 < cum,
    }
}
