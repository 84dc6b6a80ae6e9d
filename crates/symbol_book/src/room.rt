//! What a command finds made ahead for it.
ghost use Rattle.std.specs.Prelude.{◌≡◌, IfOk};

use crate::ids::ClOrdId;
use std::alloc::{AllocError, Global};
use std::marker::Model;
use venue_words::Id;

/// A command's member, and copies of its ids.
#[derive(Drop)]
pub struct Copies {
    pub(crate) member: u32,
    /// The command's own id, for the order that it enters or changes.
    pub(crate) order: Id,
    /// The same, for its report.
    pub(crate) shown: Id,
    /// The id by which it names an order.
    pub(crate) orig: ClOrdId,
}

/// The ids that a command takes with it.
#[derive(Drop)]
pub struct CommandIds {
    /// The command's own id, to be used up.
    pub(crate) own: ClOrdId,
    pub(crate) copies: Copies,
}

/// What one command takes with it: copies of its ids, made ahead, and nothing for a quote. It comes from `prepare` alone. Contracts
/// see the ids.
#[derive(Drop)]
pub struct Room(Option<Box<CommandIds>>);

impl Model for Room {
    ghost use Rattle.symbol_book.specs.declared.room.CommandIds.{CommandIds};
    ghost use Rattle.symbol_book.specs.Copies.{ids_in};

    ghost Value = { CommandIds };

    ghost view = { λ r. ids_in r.0 };
}

impl Room {
    /// For a quote, which has no ids.
    pub(crate) fn none() -> Room {
        Room(None)
    }

    /// With these ids.
    pub(crate) fn of(alloc: Global, ids: CommandIds) -> Result<Room, AllocError>
        ensures { IfOk result (λ room. room ≡ ids) }
    {
        Ok(Room(Some(Box::new(alloc, ids)?)))
    }

    /// The ids.
    pub(crate) fn ids(self) -> CommandIds
        ensures { result ≡ self }
    {
        match self.0 {
            Some(ids) => Box::into_inner(ids),
            None => CommandIds {
                own: ClOrdId {
                    member: 0,
                    id: Id::short(&[]),
                },
                copies: Copies {
                    member: 0,
                    order: Id::short(&[]),
                    shown: Id::short(&[]),
                    orig: ClOrdId {
                        member: 0,
                        id: Id::short(&[]),
                    },
                },
            },
        }
    }
}
