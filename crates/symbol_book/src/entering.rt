//! Orders that enter.
ghost use Rattle.std.specs.Prelude.{◌≡◌, ◌+◌, ◌-◌, ◌*◌, ◌^◌, ◌<◌, ◌≤◌, Some, All, length};
ghost use Rattle.venue_words.specs.Conditions.{IsTick, IsRow};
ghost use Rattle.venue_words.specs.Price.{price_shown};
ghost use Rattle.eager_meaning.specs.Entering.{enter, leftover_notice};
ghost use Rattle.eager_meaning.specs.Terms.{key_of, quantity_of, row_of};
ghost use Rattle.eager_meaning.specs.Work.{examined_by};
ghost use Rattle.peg_groups.specs.Side.{priced_at};
ghost use Rattle.match_core.specs.BothSides.{others_of, entered_rows};
ghost use Rattle.symbol_book.specs.Log.{Reports};
ghost use Rattle.symbol_book.specs.Orders.{IsSmall, HaveLeft};
ghost use Rattle.symbol_book.specs.Parts.{resting_in, state_in};

use crate::log::ReportLog;
use crate::orders::Orders;
use crate::parts::Parts;
use crate::showing::view_closed;
use crate::trading::report_trades;
use eager_meaning::row_of;
use match_core::{Engine, price_at};
use std::sync::ledger::Ledger;
use venue_words::{Event, Execution, Kind, Row, Steps, Terms};

/// The row with which an order of these terms enters.
#[tactic(auto, unfolding(eager_meaning::specs::Terms::row_of))]
pub fn entering_row(tick: u32, event: u32, order: u32, member: u32, cum: u32, terms: &Terms) -> Row
    requires { IsTick tick }
    ensures row { result ≡ row_of tick event order member cum terms.now }
    ensures parts { (result.order ≡ order) × (result.member ≡ member) × (result.entry ≡ event)
        × (result.key ≡ key_of tick terms.now) }
    ensures leaves { result.leaves ≡ quantity_of terms.now - cum }
    ensures fits { IsRow result }
{
    row_of(tick, event, order, member, cum, terms)
}

/// The price of a row at the present quote.
pub fn price_now<E: Engine>(engine: &E, row: &Row) -> Option<u32>
    requires { IsTick row.now.key.grid }
    ensures { result ≡ price_shown (priced_at (E.best engine.now) row.now) }
{
    price_at(*row, engine.quote()).price()
}

/// What is left of an order that stays only to trade at once is canceled.
fn report_leftover(
    log: &mut ReportLog,
    event: &Event,
    place: u32,
    number: u32,
    orders: &mut Orders,
) -> u32
    requires here { number < length orders.old.items }
    requires small { All IsSmall orders.old.items }
    requires place { place + 1 < 2 ^ 32 }
    requires places { 0 < log.old.places }
    requires copies { 0 < orders.old.copies }
    ensures reports { Reports event.now log.old.list place (leftover_notice number orders.old.items) log.new.list result }
    ensures next { result ≡ place + 1 }
    ensures items { orders.new.items ≡ orders.old.items }
{
    let id = orders.copy_id(number);
    let order = &orders[number as usize];
    let view = view_closed(order, id);
    log.push(
        event,
        place,
        order.member,
        Kind::Order {
            view,
            execution: Execution::Canceled { orig: None },
        },
    )
}

/// An order enters with its first report, walks once, and what is left of it rests or is canceled.
#[tactic(auto, unfolding(eager_meaning::specs::Entering::enter, eager_meaning::specs::Entering::entered, eager_meaning::specs::Entering::leftover_notices, eager_meaning::specs::Matching::row_after))]
pub fn enter<E: Engine + Drop, L: Ledger>(
    parts: &mut Parts<E>,
    event: &Event,
    row: Row,
    immediate: bool,
    kind: Kind,
    steps: &mut Steps<L>,
) -> u32
    requires row { IsRow row }
    requires ready { E.ready parts.old.engine (Some row.key) }
    requires later { E.latest parts.old.engine < row.entry }
    requires live { (0 < row.leaves) × (row.order < length parts.old.orders.items) }
    requires left { HaveLeft (entered_rows (E.best parts.old.engine) row immediate (E.buys parts.old.engine)
        (E.sells parts.old.engine)).fills parts.old.orders.items }
    requires small { All IsSmall parts.old.orders.items }
    requires few { resting_in E.buys E.sells parts.old < 2 ^ 30 }
    requires room { (2 * resting_in E.buys E.sells parts.old + 4 ≤ parts.old.log.places)
        × (2 * resting_in E.buys E.sells parts.old + 3 ≤ parts.old.orders.copies) }
    ensures state { (enter (record {
      taker = priced_at (E.best parts.old.engine) row;
      immediate = immediate;
      state = state_in E.buys E.sells parts.old;
      notice = record {
        member = row.member;
        kind = kind;
      };
    })).state ≡ state_in E.buys E.sells parts.new }
    ensures reports { Reports event.now parts.old.log.list 1 (enter (record {
      taker = priced_at (E.best parts.old.engine) row;
      immediate = immediate;
      state = state_in E.buys E.sells parts.old;
      notice = record { member = row.member; kind = kind };
    })).notices parts.new.log.list result }
    ensures rest { (parts.new.markets ≡ parts.old.markets) × (parts.new.entered ≡ parts.old.entered)
        × (parts.new.ids ≡ parts.old.ids) }
    ensures small { All IsSmall parts.new.orders.items }
    ensures most { steps.new ≤ steps.old + 2048 * (E.width parts.old.engine + 1) * (examined_by
        (priced_at (E.best parts.old.engine) row)
        (others_of row.key.side (E.buys parts.old.engine) (E.sells parts.old.engine)) + 1) }
    ensures best { E.best parts.new.engine ≡ E.best parts.old.engine }
    ensures latest { E.latest parts.new.engine ≡ row.entry }
{
    let place = parts.log.push(event, 1, row.member, kind);
    let left = parts.engine.enter(row, immediate, steps);
    let fills = parts.engine.fills();
    let place = report_trades(&mut parts.log, event, place, fills, &mut parts.orders);
    if immediate && left {
        report_leftover(&mut parts.log, event, place, row.order, &mut parts.orders)
    } else {
        place
    }
}
