//! Status requests.
ghost use Rattle.std.specs.Prelude.{◌≡◌, ◌+◌, ◌<◌, ◌≤◌, ◌++◌, [], Some, length, slice_get};
ghost use Rattle.eager_meaning.specs.Showing.{view_of, row_of_order};
ghost use Rattle.eager_meaning.specs.Step.{on_status};
ghost use Rattle.eager_meaning.specs.declared.order.Order.{Order};
ghost use Rattle.symbol_book.specs.Log.{Reports};
ghost use Rattle.symbol_book.specs.Parts.{Agree, HasRoom, resting_in, state_in};
ghost use Rattle.symbol_book.specs.Rows.{AreEntered};

use crate::entered_row::EnteredRow;
use crate::finding::{live_row, number_of};
use crate::parts::Parts;
use crate::room::Copies;
use crate::showing::{view_at, view_closed};
use eager_meaning::Order;
use match_core::Engine;
use std::sync::ledger::Ledger;
use venue_words::{Event, Execution, Id, Kind, Steps, View};

/// An order as it is now, live or not.
fn view_now<E: Engine, L: Ledger>(
    engine: &E,
    orders: &[Order],
    entered: &[EnteredRow],
    number: u32,
    id: Id,
    steps: &mut Steps<L>,
) -> View
    requires here { number < length orders.now }
    requires name { (order : Order) → slice_get orders.now number ≡ Some order → id ≡ order.id }
    requires kept { AreEntered entered.now orders.now (E.buys engine.now ++ E.sells engine.now) }
    ensures view { (order : Order) → slice_get orders.now number ≡ Some order → result
        ≡ view_of order (row_of_order number (E.buys engine.now ++ E.sells engine.now)) }
    ensures most { steps.new ≤ steps.old + 512 }
{
    let order = &orders[number as usize];
    match live_row(orders, entered, number) {
        Some(row) => {
            let (price, time) = engine.priced(&row, steps);
            view_at(order, id, price, time)
        }
        None => view_closed(order, id),
    }
}

/// A status request: the order is reported as it is, or as unknown. It stands apart, as `on_new` does.
#[inline(never)]
#[tactic(auto, unfolding(eager_meaning::specs::Step::on_status))]
pub fn on_status<E: Engine + Drop, L: Ledger>(
    parts: &mut Parts<E>,
    event: &Event,
    side: u8,
    copies: Copies,
    steps: &mut Steps<L>,
) -> u32
    requires agree { Agree E.buys E.sells E.best parts.old }
    requires settled { parts.old.ids.placed ≡ [] }
    requires places { HasRoom (resting_in E.buys E.sells parts.old) parts.old }
    ensures reports { Reports event.now parts.old.log.list 1 (on_status copies.orig.member copies.orig.id side
        (state_in E.buys E.sells parts.old)).notices parts.new.log.list result }
    ensures rest { parts.new ≡ record parts.old { log = parts.new.log } }
    ensures most { steps.new ≤ steps.old + 512 }
{
    let member = copies.orig.member;
    let kind = match number_of(&parts.ids, &parts.orders, &copies.orig) {
        Some(number) => Kind::Order {
            view: view_now(
                &parts.engine,
                &parts.orders,
                &parts.entered,
                number,
                copies.orig.id,
                steps,
            ),
            execution: Execution::Status,
        },
        None => Kind::Unknown {
            id: copies.orig.id,
            side,
        },
    };
    parts.log.push(event, 1, member, kind)
}
