//! Minimum quantities.
use case_text::{Told, Words};
use min_quantity::{floor, may_fill};
use venue_words::{Key, Method, PRICE_END, Reference, Rounding, Row, Side};

/// An order of so many leaves with a minimum, which may be one that each trade has to meet.
fn row(leaves: Option<u32>, minimum: Option<u32>, is_each: bool, traded: bool) -> Row {
    Row {
        order: 0,
        member: 0,
        key: Key {
            side: Side::Buy,
            reference: Reference::Mid,
            offset: 0,
            rounding: Rounding::Unrounded,
            grid: 2,
        },
        cap: PRICE_END,
        entry: 1,
        leaves: leaves.unwrap_or(0),
        minimum: minimum.unwrap_or(0),
        method: if is_each {
            Method::Multiple
        } else {
            Method::Once
        },
        traded,
    }
}

fn row_of(words: &Words<'_>) -> Row {
    row(
        words.number(b"leaves"),
        words.number(b"minimum"),
        words.has(b"each"),
        words.has(b"traded"),
    )
}

fn contra_of(words: &Words<'_>) -> Row {
    row(
        words.number(b"contra"),
        words.number(b"contra_minimum"),
        words.has(b"contra_each"),
        words.has(b"contra_traded"),
    )
}

/// `floor leaves=NUMBER [minimum=NUMBER] [each] [traded]` tells the least that an order trades at once, and `fill` with `left` and
/// the same of a contra how many shares the order takes from it.
pub fn play(word: &str, words: &Words<'_>, told: &mut Told) -> bool {
    match word {
        "floor" => told.value(&floor(&row_of(words))),
        "fill" => {
            let left = words.number(b"left").unwrap_or(0);
            told.maybe(&may_fill(&row_of(words), &contra_of(words), left));
        }
        _ => return false,
    }
    true
}
