//! Cancels.
ghost use Rattle.std.specs.Prelude.{◌≡◌, ◌+◌, ◌<◌, ◌≤◌, [], None, length, slice_set};
ghost use Rattle.venue_words.specs.Conditions.{IsTick};
ghost use Rattle.venue_words.specs.declared.command.Command.TheVariants.{Cancel};
ghost use Rattle.eager_meaning.specs.declared.order.Live.{Live};
ghost use Rattle.eager_meaning.specs.Changing.{cancel};
ghost use Rattle.symbol_book.specs.Changes.{with_id};
ghost use Rattle.symbol_book.specs.Finding.{IsFoundAs};
ghost use Rattle.symbol_book.specs.Ids.{IsPlaced};
ghost use Rattle.symbol_book.specs.Log.{Reports};
ghost use Rattle.symbol_book.specs.Parts.{Agree, AreWorked, HasRoom, resting_in, rows_in, state_in};
ghost use Rattle.symbol_book.specs.Room.{CopiesOwn};

use crate::entered_row::EnteredRow;
use crate::finding::{Found, find_named, number_or_zero};
use crate::parts::Parts;
use crate::refusing::{refuse, rule_of_request};
use crate::room::{CommandIds, Copies};
use crate::showing::view_closed;
use match_core::Engine;
use std::sync::ledger::Ledger;
use venue_words::{Event, Execution, Kind, RefusedRequest, Steps};

/// A live order leaves. Its report has the id of the cancel.
#[tactic(auto, unfolding(eager_meaning::specs::Changing::cancel))]
fn cancel<E: Engine + Drop, L: Ledger>(
    parts: &mut Parts<E>,
    event: &Event,
    copies: Copies,
    found: Found,
    steps: &mut Steps<L>,
) -> u32
    requires found { (live : Live)
        × IsFoundAs parts.old.orders.items (rows_in E.buys E.sells parts.old) live found }
    requires here { found.number < length parts.old.orders.items }
    requires placed { IsPlaced copies.member copies.shown found.number parts.old.ids.placed }
    requires agree { Agree E.buys E.sells E.best parts.old }
    requires places { HasRoom (resting_in E.buys E.sells parts.old) parts.old }
    ensures state { (live : Live) → IsFoundAs parts.old.orders.items (rows_in E.buys E.sells parts.old) live found
        → (cancel copies.member copies.shown copies.orig.id live (state_in E.buys E.sells parts.old)).state
        ≡ state_in E.buys E.sells parts.new }
    ensures reports { (live : Live) → IsFoundAs parts.old.orders.items (rows_in E.buys E.sells parts.old) live found
        → Reports event.now parts.old.log.list 1 (cancel copies.member copies.shown copies.orig.id live
        (state_in E.buys E.sells parts.old)).notices parts.new.log.list result }
    ensures entered { parts.new.entered.items ≡ slice_set parts.old.entered.items found.number None }
    ensures ids { parts.new.ids.entries ≡ with_id copies.member copies.shown found.number parts.old.ids.entries }
    ensures settled { parts.new.ids.placed ≡ [] }
    ensures rest { (parts.new.markets ≡ parts.old.markets) × (parts.new.orders ≡ parts.old.orders) }
    ensures most { steps.new ≤ steps.old + 512 }
    ensures best { E.best parts.new.engine ≡ E.best parts.old.engine }
    ensures latest { E.latest parts.new.engine ≡ E.latest parts.old.engine }
{
    let Copies {
        member,
        order: _,
        shown,
        orig,
    } = copies;
    let order = &parts.orders[found.number as usize];
    let view = view_closed(order, shown);
    parts.engine.cut(&found.row, steps);
    parts.entered[found.number as usize] = EnteredRow::none();
    parts.ids.keep();
    let execution = Execution::Canceled {
        orig: Some(orig.id),
    };
    parts
        .log
        .push(event, 1, member, Kind::Order { view, execution })
}

/// A Cancel: it is refused, or the order leaves. It stands apart, as `on_new` does.
#[inline(never)]
pub fn on_cancel<E: Engine + Drop, L: Ledger>(
    tick: u32,
    parts: &mut Parts<E>,
    event: &Event,
    ids: CommandIds,
    steps: &mut Steps<L>,
) -> u32
    requires tick { IsTick tick }
    requires command { event.now.command ≡ Cancel ids.own.member ids.own.id ids.copies.orig.id }
    requires own { CopiesOwn ids.own.member ids.own.id ids }
    requires orig { ids.copies.orig.member ≡ ids.own.member }
    requires settled { parts.old.ids.placed ≡ [] }
    requires agree { Agree E.buys E.sells E.best parts.old }
    requires places { HasRoom (resting_in E.buys E.sells parts.old) parts.old }
    ensures worked { AreWorked E.buys E.sells tick event.now parts.old parts.new result }
    ensures settled { parts.new.ids.placed ≡ [] }
    ensures rest { (parts.new.markets ≡ parts.old.markets) × (parts.new.orders ≡ parts.old.orders) }
    ensures most { steps.new ≤ steps.old + 512 }
    ensures best { E.best parts.new.engine ≡ E.best parts.old.engine }
    ensures latest { E.latest parts.new.engine ≡ E.latest parts.old.engine }
{
    let CommandIds { own, copies } = ids;
    let live = find_named(parts, &copies);
    let used = parts.ids.place(own, number_or_zero(live));
    match rule_of_request(tick, parts, used, live, event) {
        Some(rule) => {
            parts.ids.take_back();
            refuse(parts, event, RefusedRequest::Cancel, copies, live, rule)
        }
        None => match live {
            Some(found) => cancel(parts, event, copies, found, steps),
            None => {
                parts.ids.take_back();
                1
            }
        },
    }
}
