//! Values of prices, national quotes, lists and states of orders.
use case_text::{Told, Words};
use venue_words::{
    Best, Bytes, Id, Items, LiveOrder, NoMemory, PRICE_END, Side, View, price_of, value,
};

fn side_of(words: &Words<'_>) -> Side {
    if words.has(b"sell") {
        Side::Sell
    } else {
        Side::Buy
    }
}

/// Tells whether a pair of quotes is regular, locked or neither.
fn tell_best(words: &Words<'_>, told: &mut Told) {
    let best = Best {
        bid: words.number(b"bid"),
        offer: words.number(b"offer"),
    };
    told.word(match (best.is_regular(), best.is_locked()) {
        (true, false) => "regular",
        (false, true) => "locked",
        (false, false) => "neither",
        (true, true) => "both",
    });
}

/// Tells how many words a list has when each was appended, and the one in the second place.
fn tell_list(words: &Words<'_>, told: &mut Told) -> Result<(), NoMemory> {
    let mut names = Items::new(told.alloc);
    for word in words.list.as_slice() {
        names.push(Bytes::copy_of(told.alloc, word)?)?;
    }
    let (is_empty, length) = (names.is_empty(), names.len());
    told.word(if is_empty { "empty, " } else { "not empty, " });
    told.show(&length);
    if let Some(second) = names.as_slice().get(1) {
        told.push(", second ");
        told.bytes(second.as_slice());
    }
    told.push(", in a vector ");
    told.show(&names.into_vec().len());
    Ok(())
}

/// Tells the status of an order of 100 shares.
fn tell_status(words: &Words<'_>, told: &mut Told) -> Result<(), NoMemory> {
    let live = LiveOrder {
        leaves: 60,
        price: None,
        time: 1,
    };
    let view = View {
        first: 1,
        id: Id::copy_of(told.alloc, b"a1")?,
        side: Side::Buy,
        quantity: 100,
        pegged: true,
        limit: None,
        cum: words.number(b"cum").unwrap_or(0),
        notional: 0,
        live: if words.has(b"live") { Some(live) } else { None },
    };
    told.code(&view.status());
    Ok(())
}

/// `value` tells the value of a price, `price_of` the price of a value, `best` what a pair of quotes is, `list` what appended words
/// are, and `status` that of an order.
pub fn play(word: &str, input: &[u8], told: &mut Told) -> Result<bool, NoMemory> {
    let words = Words::new(told.alloc, input)?;
    let of = words.number(b"of").unwrap_or(0).min(PRICE_END);
    match word {
        "value" => told.value(&value(side_of(&words), of)),
        "price_of" => told.value(&price_of(side_of(&words), of)),
        "best" => tell_best(&words, told),
        "list" => tell_list(&words, told)?,
        "status" => tell_status(&words, told)?,
        _ => return Ok(false),
    }
    Ok(true)
}
