//! Prices of pegs, and of orders with a limit.
use crate::ticks::{Tick, show_price};
use case_text::{Told, Words};
use fix_fields::{amount, number};
use peg_price::{peg_value, row_value};
use quote_intake::cents;
use venue_words::{Best, Key, PRICE_END, Reference, Rounding, Side};

fn side_of(name: &[u8]) -> Side {
    match name {
        b"buy" => Side::Buy,
        _ => Side::Sell,
    }
}

fn reference_of(name: &[u8]) -> Reference {
    match name {
        b"mid" => Reference::Mid,
        b"market" => Reference::Market,
        b"primary" => Reference::Primary,
        _ => Reference::Limit,
    }
}

fn rounding_of(words: &Words<'_>) -> Rounding {
    if words.has(b"aggressive") {
        Rounding::Aggressive
    } else if words.has(b"passive") {
        Rounding::Passive
    } else {
        Rounding::Unrounded
    }
}

/// An offset in units of 0.005.
fn offset_of(words: &Words<'_>) -> i32 {
    let units = words.value(b"offset").and_then(amount).unwrap_or(0) / 500_000;
    i32::try_from(units).unwrap_or(0)
}

/// Tells the price of a peg.
fn tell_peg(words: &Words<'_>, told: &mut Told) {
    let side = side_of(words.at(0));
    let key = Key {
        side,
        reference: reference_of(words.at(1)),
        offset: offset_of(words),
        rounding: rounding_of(words),
        grid: Tick::of(words.value(b"tick").unwrap_or(&[])).units(),
    };
    let best = Best {
        bid: cents(words.at(2)),
        offer: cents(words.at(3)),
    };
    let Some(value) = peg_value(key, best) else {
        return told.word("none");
    };
    told.push(" = ");
    let price = match side {
        Side::Buy => value,
        Side::Sell => PRICE_END.saturating_sub(value),
    };
    show_price(price, told);
}

/// `peg SIDE REFERENCE BID OFFER [aggressive|passive] [offset=AMOUNT] [tick=0.05]` tells the price of a peg, and
/// `capped VALUE CAP` the value of an order with a limit, in units of 0.005.
pub fn play(word: &str, words: &Words<'_>, told: &mut Told) -> bool {
    match word {
        "peg" => tell_peg(words, told),
        "capped" => {
            let cap = number(words.at(1)).unwrap_or(PRICE_END);
            told.maybe(&row_value(number(words.at(0)), cap));
        }
        _ => return false,
    }
    true
}
