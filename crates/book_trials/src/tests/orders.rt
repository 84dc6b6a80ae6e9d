//! Orders at the midpoint, and events.
use std::alloc::{AllocError, Global};
use venue_words::{BoxedTerms, Command, Event, Id, Terms};

/// One share as an amount.
pub const SHARE: i128 = 100_000_000;

/// A market's quote in cents.
pub fn quote(bid: u32, offer: u32) -> Command {
    Command::Quote {
        market: 0,
        bid: Some(bid),
        offer: Some(offer),
    }
}

/// A peg at the midpoint.
pub fn mid(side: u8, shares: u32) -> Terms {
    Terms {
        side,
        quantity: i128::from(shares).wrapping_mul(SHARE),
        kind: b'P',
        price: None,
        force: None,
        minimum: None,
        method: None,
        peg: Some(2),
        offset: None,
        offset_kind: None,
        moves: None,
        round: None,
    }
}

/// A New whose id is a number.
pub fn order(alloc: Global, member: u32, number: u32, terms: Terms) -> Result<Command, AllocError> {
    let text = format!(in alloc; "order-{number:06}")?;
    Ok(Command::New {
        member,
        id: Id::copy_of(alloc, text.as_bytes())?,
        terms: BoxedTerms::new(alloc, terms)?,
    })
}

/// A command as an event of feed 1.
pub fn event(number: u32, command: Command) -> Event {
    Event {
        number,
        feed: 1,
        moment: 0,
        command,
    }
}
