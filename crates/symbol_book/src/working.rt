//! Commands.
ghost use Rattle.std.specs.Prelude.{◌≡◌, ◌+◌, ◌<◌, ◌≤◌, [], All, length};
ghost use Rattle.venue_words.specs.Best.{best_of};
ghost use Rattle.venue_words.specs.Conditions.{IsTick};
ghost use Rattle.eager_meaning.specs.Work.{bound, key_count};
ghost use Rattle.symbol_book.specs.Commands.{IsNarrow, IsRequest, id_bytes, key_for};
ghost use Rattle.symbol_book.specs.Fitting.{CanWork};
ghost use Rattle.symbol_book.specs.Orders.{IsSmall};
ghost use Rattle.symbol_book.specs.Parts.{Agree, AreWorked, HasRoom, resting_in, rows_in, state_in};
ghost use Rattle.symbol_book.specs.Room.{IsRoomFor};

use crate::admitting::on_new;
use crate::canceling::on_cancel;
use crate::parts::Parts;
use crate::quoting::on_quote;
use crate::replacing::on_replace;
use crate::room::Room;
use crate::status::on_status;
use match_core::Engine;
use std::sync::ledger::Ledger;
use venue_words::{Best, Command, Event, Steps};

/// Works a member's command at its event, without memory, and answers the next place of its reports. It stands apart, so that a
/// quote does not clear the room for copies of ids.
#[inline(never)]
#[tactic(auto, unfolding(eager_meaning::specs::Step::outcome_of, crate::specs::Changes::ids_after))]
fn work_request<E: Engine + Drop, L: Ledger>(
    tick: u32,
    parts: &mut Parts<E>,
    event: &Event,
    room: Room,
    steps: &mut Steps<L>,
) -> u32
    requires tick { IsTick tick }
    requires room { IsRequest event.now.command × IsRoomFor event.now.command room }
    requires settled { parts.old.ids.placed ≡ [] }
    requires engine { E.ready parts.old.engine (key_for tick event.now.command)
        × (E.latest parts.old.engine < event.now.number) }
    requires narrow { IsNarrow (key_for tick event.now.command) (E.width parts.old.engine)
        (key_count (rows_in E.buys E.sells parts.old)) }
    requires fits { (id_bytes event.now.command ≤ parts.old.orders.longest)
        × CanWork tick event.now.number event.now.command (state_in E.buys E.sells parts.old) }
    requires agree { Agree E.buys E.sells E.best parts.old }
    requires places { HasRoom (resting_in E.buys E.sells parts.old) parts.old }
    ensures worked { AreWorked E.buys E.sells tick event.now parts.old parts.new result }
    ensures settled { parts.new.ids.placed ≡ [] }
    ensures small { All IsSmall parts.new.orders.items }
    ensures most { steps.new
        ≤ steps.old + bound tick (state_in E.buys E.sells parts.old) event.now.number event.now.command }
    ensures count { length parts.new.markets ≡ length parts.old.markets }
    ensures best { E.best parts.new.engine ≡ best_of parts.new.markets }
    ensures latest { E.latest parts.new.engine ≤ event.now.number }
{
    match &event.command {
        Command::Quote { .. } => unreachable!(),
        Command::New { terms, .. } => on_new(tick, parts, event, &terms.get(), room.ids(), steps),
        Command::Cancel { .. } => on_cancel(tick, parts, event, room.ids(), steps),
        Command::Replace { terms, .. } => on_replace(
            tick,
            parts,
            event,
            &terms.get(),
            room.ids(),
            steps,
        ),
        Command::Status { side, .. } => on_status(parts, event, *side, room.ids().copies, steps),
    }
}

/// Works a command at its event, without memory, and answers the next place of its reports.
#[tactic(auto, unfolding(eager_meaning::specs::Step::outcome_of, crate::specs::Changes::ids_after))]
pub fn work<E: Engine + Drop, L: Ledger>(
    tick: u32,
    parts: &mut Parts<E>,
    event: &Event,
    room: Room,
    steps: &mut Steps<L>,
) -> u32
    requires tick { IsTick tick }
    requires room { IsRoomFor event.now.command room }
    requires settled { parts.old.ids.placed ≡ [] }
    requires engine { E.ready parts.old.engine (key_for tick event.now.command)
        × (E.latest parts.old.engine < event.now.number) }
    requires narrow { IsNarrow (key_for tick event.now.command) (E.width parts.old.engine)
        (key_count (rows_in E.buys E.sells parts.old)) }
    requires fits { (id_bytes event.now.command ≤ parts.old.orders.longest)
        × CanWork tick event.now.number event.now.command (state_in E.buys E.sells parts.old) }
    requires agree { Agree E.buys E.sells E.best parts.old }
    requires places { HasRoom (resting_in E.buys E.sells parts.old) parts.old }
    ensures worked { AreWorked E.buys E.sells tick event.now parts.old parts.new result }
    ensures settled { parts.new.ids.placed ≡ [] }
    ensures small { All IsSmall parts.new.orders.items }
    ensures most { steps.new
        ≤ steps.old + bound tick (state_in E.buys E.sells parts.old) event.now.number event.now.command }
    ensures count { length parts.new.markets ≡ length parts.old.markets }
    ensures best { E.best parts.new.engine ≡ best_of parts.new.markets }
    ensures latest { E.latest parts.new.engine ≤ event.now.number }
{
    match &event.command {
        Command::Quote { market, bid, offer } => {
            let quote = Best {
                bid: *bid,
                offer: *offer,
            };
            on_quote(parts, event, *market, quote, steps)
        }
        Command::New { .. }
        | Command::Cancel { .. }
        | Command::Replace { .. }
        | Command::Status { .. } => work_request(tick, parts, event, room, steps),
    }
}
