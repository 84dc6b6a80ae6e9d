//! Trades are added to their orders and reported to both.
ghost use Rattle.std.specs.Prelude.{◌≡◌, ◌+◌, ◌*◌, ◌^◌, ◌<◌, ◌≤◌, length, All};
ghost use Rattle.eager_meaning.specs.Trades.{orders_after_all, trade_notice, trade_notices};
ghost use Rattle.symbol_book.specs.Log.{Reports};
ghost use Rattle.symbol_book.specs.Orders.{IsSmall, HaveLeft};

use crate::log::ReportLog;
use crate::orders::Orders;
use crate::showing::view_traded;
use eager_meaning::{Fill, Party};
use venue_words::{Event, Execution, Kind};

/// A trade is reported to one of its orders.
#[tactic(auto, unfolding(eager_meaning::specs::Trades::trade_notice))]
fn report_trade(
    log: &mut ReportLog,
    event: &Event,
    place: u32,
    fill: Fill,
    orders: &mut Orders,
    party: Party,
) -> u32
    requires here { party.order < length orders.old.items }
    requires small { All IsSmall orders.old.items }
    requires place { place + 1 < 2 ^ 32 }
    requires places { 0 < log.old.places }
    requires copies { 0 < orders.old.copies }
    ensures reports { Reports event.now log.old.list place (trade_notice fill orders.old.items party) log.new.list result }
    ensures next { result ≡ place + 1 }
    ensures places { log.new.places + 1 ≡ log.old.places }
    ensures items { orders.new.items ≡ orders.old.items }
    ensures copies { orders.new.copies + 1 ≡ orders.old.copies }
{
    let id = orders.copy_id(party.order);
    let order = &orders[party.order as usize];
    let view = view_traded(order, id, party);
    log.push(
        event,
        place,
        order.member,
        Kind::Order {
            view,
            execution: Execution::Traded {
                quantity: fill.quantity,
                price: fill.price,
            },
        },
    )
}

/// The trades are added to their orders, and each is reported to its taker and then to its contra.
#[tactic(auto, unfolding(eager_meaning::specs::Trades::trade_notices, eager_meaning::specs::Trades::orders_after_all))]
pub fn report_trades(
    log: &mut ReportLog,
    event: &Event,
    mut place: u32,
    fills: &[Fill],
    orders: &mut Orders,
) -> u32
    requires left { HaveLeft fills.now orders.old.items }
    requires small { All IsSmall orders.old.items }
    requires place { place + 2 * length fills.now + 1 < 2 ^ 32 }
    requires places { 2 * length fills.now ≤ log.old.places }
    requires copies { 2 * length fills.now ≤ orders.old.copies }
    ensures reports { Reports event.now log.old.list place
        (trade_notices fills.now orders.old.items) log.new.list result }
    ensures orders { orders.new.items ≡ orders_after_all fills.now orders.old.items }
    ensures small { All IsSmall orders.new.items }
    ensures count { length orders.new.items ≡ length orders.old.items }
    ensures next { result ≡ place + 2 * length fills.now }
    ensures places { log.new.places + 2 * length fills.now ≡ log.old.places }
    ensures copies { orders.new.copies + 2 * length fills.now ≡ orders.old.copies }
{
    for fill in fills {
        orders.add_fill(*fill);
        place = report_trade(log, event, place, *fill, orders, fill.taker);
        place = report_trade(log, event, place, *fill, orders, fill.contra);
    }
    place
}
