//! What feeds and members ask of a symbol's book.
ghost use Rattle.std.specs.Prelude.{◌≡◌, IfOk};

use crate::id::{BoxedId, Id};
use crate::terms::BoxedTerms;
use std::alloc::{AllocError, Global};
use std::mem::size_of;

/// What a feed or a member asks of one symbol's book. Members and markets are numbered from 0.
#[derive(Debug, Drop)]
pub enum Command {
    /// A market's bid and offer in cents; none is a side without a quote.
    Quote {
        market: u32,
        bid: Option<u32>,
        offer: Option<u32>,
    },
    /// NewOrderSingle (35=D). `id` is ClOrdID(11).
    New {
        member: u32,
        id: Id,
        terms: BoxedTerms,
    },
    /// OrderCancelRequest (35=F). `orig` is OrigClOrdID(41).
    Cancel {
        member: u32,
        id: Id,
        orig: BoxedId,
    },
    /// OrderCancelReplaceRequest (35=G).
    Replace {
        member: u32,
        id: Id,
        orig: BoxedId,
        terms: BoxedTerms,
    },
    /// OrderStatusRequest (35=H). `side` is the byte of Side(54) as it was received.
    Status {
        member: u32,
        id: Id,
        side: u8,
    },
}

impl Command {
    /// A copy of a command, with copies of its ids.
    pub fn copy_of(alloc: Global, command: &Command) -> Result<Command, AllocError>
        ensures { IfOk result (λ copy. copy ≡ command.now) }
    {
        match command {
            Command::Quote { market, bid, offer } => Ok(Command::Quote {
                market: *market,
                bid: *bid,
                offer: *offer,
            }),
            Command::New { member, id, terms } => Ok(Command::New {
                member: *member,
                id: id.copy(alloc)?,
                terms: BoxedTerms::new(alloc, terms.get())?,
            }),
            Command::Cancel { member, id, orig } => Ok(Command::Cancel {
                member: *member,
                id: id.copy(alloc)?,
                orig: orig.copy(alloc)?,
            }),
            Command::Replace {
                member,
                id,
                orig,
                terms,
            } => Ok(Command::Replace {
                member: *member,
                id: id.copy(alloc)?,
                orig: orig.copy(alloc)?,
                terms: BoxedTerms::new(alloc, terms.get())?,
            }),
            Command::Status { member, id, side } => Ok(Command::Status {
                member: *member,
                id: id.copy(alloc)?,
                side: *side,
            }),
        }
    }
}

/// A command that was taken into the journal of a symbol.
#[derive(Debug, Drop)]
pub struct Event {
    /// Its place in the journal, counted from 1.
    pub number: u32,
    /// The feed or connection that it came by, counted from 1.
    pub feed: u32,
    /// When it was taken, in milliseconds since 1970-01-01 00:00 UTC.
    pub moment: i64,
    pub command: Command,
}

/// A journal keeps each event for as long as its book, so an event stays small.
const _: () = prove!(size_of::<Event>() == 64);
