//! Orders as they rest.
ghost use Rattle.std.specs.Prelude.{◌≡◌, ℕ, ◌+◌, ◌<◌, ◌≤◌, ◌++◌, Some, length, option_map};
ghost use Rattle.venue_words.specs.Price.{value_of};
ghost use Rattle.venue_words.specs.declared.price.TheConstants.{PRICE_END};
ghost use Rattle.venue_words.specs.declared.row.Priced.{Priced};
ghost use Rattle.venue_words.specs.Peg.{value_under};
ghost use Rattle.eager_meaning.specs.Showing.{row_of_order};
ghost use Rattle.market_laws.specs.Standing.{row_by_now};
ghost use Rattle.symbol_book.specs.Rows.{AreEntered};

use crate::entered_row::EnteredRow;
use crate::finding::live_row;
use eager_meaning::Order;
use match_core::Engine;
use std::sync::ledger::Ledger;
use venue_words::{Priced, Row, Steps, value};

/// The row of an order that entered with this one, by now.
fn row_by_now(order: &Order, entry: Row) -> Row
    ensures { result ≡ row_by_now order.now entry }
{
    Row {
        leaves: order.quantity.saturating_sub(order.cum),
        traded: 0 < order.cum,
        ..entry
    }
}

/// A row with this price and time.
fn priced_as(row: Row, price: Option<u32>, time: u32) -> Priced
    requires { (p : ℕ) → price ≡ Some p → p ≤ PRICE_END }
    ensures { result ≡ record { row = row; value = option_map (value_of row.key.side) price; time = time } }
{
    let value = match price {
        Some(price) => Some(value(row.key.side, price)),
        None => None,
    };
    Priced { row, value, time }
}

/// An order as it rests, or none where it does not rest.
pub fn resting_row<E: Engine, L: Ledger>(
    engine: &E,
    orders: &[Order],
    entered: &[EnteredRow],
    number: u32,
    steps: &mut Steps<L>,
) -> Option<Priced>
    requires here { number < length orders.now }
    requires kept { AreEntered entered.now orders.now (E.buys engine.now ++ E.sells engine.now) }
    requires priced { (x : Priced) → row_of_order number (E.buys engine.now ++ E.sells engine.now) ≡ Some x
        → x.value ≡ value_under (E.best engine.now) x.row }
    ensures row { result ≡ row_of_order number (E.buys engine.now ++ E.sells engine.now) }
    ensures most { steps.new ≤ steps.old + 512 }
{
    match live_row(orders, entered, number) {
        Some(entry) => {
            let (price, time) = engine.priced(&entry, steps);
            let row = row_by_now(&orders[number as usize], entry);
            Some(priced_as(row, price, time))
        }
        None => None,
    }
}
