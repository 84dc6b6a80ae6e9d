//! Room for one event.
ghost use Rattle.std.specs.Prelude.{◌≡◌, ◌+◌, ◌*◌, ◌^◌, ◌<◌, ◌≤◌, ◌++◌, OnOk, IfOk, vec_len};
ghost use Rattle.std.specs.Option.{ForSome};
ghost use Rattle.std.specs.Vec.{vec_capacity};
ghost use Rattle.venue_words.specs.Conditions.{IsTick, IsKey};
ghost use Rattle.venue_words.specs.declared.limits.TheConstants.{MAX_ID_BYTES};
ghost use Rattle.eager_meaning.specs.Work.{key_count};
ghost use Rattle.symbol_book.specs.Commands.{IsNarrow, id_bytes, key_for};
ghost use Rattle.symbol_book.specs.Parts.{HasRoom};
ghost use Rattle.symbol_book.specs.Room.{CopiesOwn, CopiesOrig, IsRoomFor};

use crate::ids::ClOrdId;
use crate::parts::Parts;
use crate::room::{CommandIds, Copies, Room};
use eager_meaning::key_of;
use match_core::Engine;
use std::alloc::{AllocError, Global};
use venue_words::{Command, Event, Id, Key, NoMemory};

/// Copies of two ids of a member.
fn copies(alloc: Global, member: u32, id: &Id, orig: &Id) -> Result<Room, AllocError>
    ensures own { IfOk result (λ room. CopiesOwn member id.now room) }
    ensures orig { IfOk result (λ room. CopiesOrig member orig.now room) }
{
    let own = id.copy(alloc)?;
    let order = id.copy(alloc)?;
    let shown = id.copy(alloc)?;
    let named = orig.copy(alloc)?;
    let copies = Copies {
        member,
        order,
        shown,
        orig: ClOrdId { member, id: named },
    };
    let own = ClOrdId { member, id: own };
    Room::of(alloc, CommandIds { own, copies })
}

/// The copies that a command wants.
pub fn room_for(alloc: Global, command: &Command) -> Result<Room, AllocError>
    ensures { IfOk result (λ room. IsRoomFor command.now room) }
{
    match command {
        Command::Quote { .. } => Ok(Room::none()),
        Command::New { member, id, .. } => copies(alloc, *member, id, &Id::short(&[])),
        Command::Cancel { member, id, orig }
        | Command::Replace {
            member,
            id,
            orig,
            ..
        } => copies(alloc, *member, id, orig.get()),
        Command::Status { member, id, .. } => copies(alloc, *member, &Id::short(&[]), id),
    }
}

/// The bytes of the id that an order may get by a command.
pub fn id_bytes(command: &Command) -> usize
    ensures { result ≡ id_bytes command.now }
{
    match command {
        Command::New { id, .. } | Command::Replace { id, .. } => id.as_slice().len(),
        _ => 0,
    }
}

/// The key of the row that a command may enter.
pub fn key_for(tick: u32, command: &Command) -> Option<Key>
    requires { IsTick tick }
    ensures key { result ≡ key_for tick command.now }
    ensures fits { ForSome result IsKey }
{
    match command {
        Command::New { terms, .. } | Command::Replace { terms, .. } => {
            Some(key_of(tick, &terms.get()))
        }
        _ => None,
    }
}

/// Makes the room of a book of so many rows for one event, whose id has so many bytes. Only what is missing is added.
pub fn make_room<E: Engine + Drop>(
    alloc: Global,
    key: Option<Key>,
    bytes: usize,
    rows: usize,
    parts: &mut Parts<E>,
    journal: &mut Vec<Event>,
) -> Result<(), NoMemory>
    requires rows { 2 * rows + 4 < 2 ^ 63 }
    requires key { ForSome key IsKey }
    requires bytes { bytes ≤ MAX_ID_BYTES }
    ensures orders { parts.new.orders.items ≡ parts.old.orders.items }
    ensures entered { parts.new.entered.items ≡ parts.old.entered.items }
    ensures ids { (parts.new.ids.entries ≡ parts.old.ids.entries) × (parts.new.ids.placed ≡ parts.old.ids.placed) }
    ensures reports { parts.new.log.list ≡ parts.old.log.list }
    ensures journal { journal.new.items ≡ journal.old.items }
    ensures markets { parts.new.markets ≡ parts.old.markets }
    ensures buys { E.buys parts.new.engine ≡ E.buys parts.old.engine }
    ensures sells { E.sells parts.new.engine ≡ E.sells parts.old.engine }
    ensures best { E.best parts.new.engine ≡ E.best parts.old.engine }
    ensures latest { E.latest parts.new.engine ≡ E.latest parts.old.engine }
    ensures ready { OnOk result (E.ready parts.new.engine key) }
    ensures narrow { OnOk result (IsNarrow key (E.width parts.new.engine) (key_count
        (E.buys parts.new.engine ++ E.sells parts.new.engine))) }
    ensures room { OnOk result (HasRoom rows parts.new) }
    ensures longest { OnOk result (bytes ≤ parts.new.orders.longest) }
    ensures event { OnOk result (vec_len journal.new < vec_capacity journal.new) }
{
    parts.orders.reserve(alloc, bytes, 2 * rows + 3)?;
    parts.entered.reserve(1)?;
    parts.ids.reserve()?;
    journal.reserve(1)?;
    parts.log.reserve(2 * rows + 4)?;
    parts.engine.reserve(key)
}
