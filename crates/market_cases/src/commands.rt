//! Quotes and requests as lines.
use case_text::Words;
use fix_fields::amount;
use quote_intake::price;
use std::alloc::AllocError;
use venue_words::{BoxedId, BoxedTerms, Command, Id, Terms};

/// The number of a member by its letter.
fn member_of(name: &[u8]) -> u32 {
    match name {
        b"A" => 0,
        b"B" => 1,
        b"C" => 2,
        _ => 3,
    }
}

/// `quote MARKET BID OFFER`, of the markets N and P.
fn quote_of(words: &Words<'_>) -> Option<Command> {
    Some(Command::Quote {
        market: if words.has(b"P") { 1 } else { 0 },
        bid: price(words.at(1))?,
        offer: price(words.at(2))?,
    })
}

/// The amount that a name has.
fn amount_at(words: &Words<'_>, name: &[u8]) -> Option<i128> {
    amount(words.value(name)?)
}

/// What an order is pegged to, by the word of its kind.
fn peg_of(kind: &[u8]) -> Option<u32> {
    match kind {
        b"mid" => Some(2),
        b"market" => Some(4),
        b"primary" => Some(5),
        _ => None,
    }
}

/// The terms behind a member and an id: side, kind, quantity and further fields by their names.
fn terms_of(words: &Words<'_>) -> Option<Terms> {
    let peg = peg_of(words.at(3));
    Some(Terms {
        side: if words.has(b"buy") { b'1' } else { b'2' },
        quantity: amount(words.at(4))?,
        kind: if peg.is_some() { b'P' } else { b'2' },
        price: amount_at(words, b"price"),
        force: match words.byte(b"force") {
            0 => None,
            force => Some(force),
        },
        minimum: amount_at(words, b"minimum"),
        method: words.number(b"method"),
        peg,
        offset: amount_at(words, b"offset"),
        offset_kind: words.number(b"offset_kind"),
        moves: None,
        round: words.number(b"round"),
    })
}

/// `new MEMBER ID SIDE KIND QUANTITY [NAME=VALUE]..`
fn new_of(words: &Words<'_>) -> Result<Option<Command>, AllocError> {
    let Some(terms) = terms_of(words) else {
        return Ok(None);
    };
    Ok(Some(Command::New {
        member: member_of(words.at(0)),
        id: Id::copy_of(words.alloc, words.at(1))?,
        terms: BoxedTerms::new(words.alloc, terms)?,
    }))
}

/// `replace MEMBER ID SIDE KIND QUANTITY [NAME=VALUE].. orig=ID`
fn replace_of(words: &Words<'_>) -> Result<Option<Command>, AllocError> {
    let Some(terms) = terms_of(words) else {
        return Ok(None);
    };
    Ok(Some(Command::Replace {
        member: member_of(words.at(0)),
        id: Id::copy_of(words.alloc, words.at(1))?,
        orig: BoxedId::new(words.alloc, words.id(b"orig")?)?,
        terms: BoxedTerms::new(words.alloc, terms)?,
    }))
}

/// `cancel MEMBER ID orig=ID`
fn cancel_of(words: &Words<'_>) -> Result<Option<Command>, AllocError> {
    Ok(Some(Command::Cancel {
        member: member_of(words.at(0)),
        id: Id::copy_of(words.alloc, words.at(1))?,
        orig: BoxedId::new(words.alloc, words.id(b"orig")?)?,
    }))
}

/// `status MEMBER ID`
fn status_of(words: &Words<'_>) -> Result<Option<Command>, AllocError> {
    Ok(Some(Command::Status {
        member: member_of(words.at(0)),
        id: Id::copy_of(words.alloc, words.at(1))?,
        side: b'1',
    }))
}

/// The command that a word and its input are.
pub fn command_of(word: &str, words: &Words<'_>) -> Result<Option<Command>, AllocError> {
    match word {
        "quote" => Ok(quote_of(words)),
        "new" => new_of(words),
        "replace" => replace_of(words),
        "cancel" => cancel_of(words),
        "status" => status_of(words),
        _ => Ok(None),
    }
}
