//! The order that a request names.
ghost use Rattle.std.specs.Prelude.{◌≡◌, ◌<◌, IfSome, List, [], length, option_map, Some};
ghost use Rattle.std.specs.Option.{option_map_or};
ghost use Rattle.venue_words.specs.declared.row.Priced.{Priced};
ghost use Rattle.eager_meaning.specs.Orders.{is_named, order_named, live_named};
ghost use Rattle.symbol_book.specs.Finding.{IsNumber, IsRowIfLive, IsFound};
ghost use Rattle.symbol_book.specs.Ids.{NameOrders, named_at};
ghost use Rattle.symbol_book.specs.Parts.{Agree, rows_in};
ghost use Rattle.symbol_book.specs.Rows.{AreEntered};

use crate::entered_row::EnteredRow;
use crate::ids::{ClOrdId, UsedIds};
use crate::parts::Parts;
use crate::room::Copies;
use eager_meaning::Order;
use match_core::Engine;
use venue_words::Row;

/// A live order: its number, and the row with which it entered.
#[derive(Clone, Copy)]
pub struct Found {
    pub number: u32,
    pub row: Row,
}

/// Whether an order is the member's, and has this id at present.
fn is_named(id: &ClOrdId, order: &Order) -> bool
    ensures { result ≡ is_named id.now.member id.now.id order.now }
{
    order.member == id.member && order.id.as_slice() == id.id.as_slice()
}

/// The number, where there is an order with it that has this id.
fn number_here(orders: &[Order], id: &ClOrdId, number: u32) -> Option<u32>
    ensures { result ≡ option_map (λ found. found.0) (named_at id.now.member id.now.id orders.now (Some number)) }
{
    let k = number as usize;
    if k < orders.len() {
        let order = &orders[k];
        if is_named(id, order) {
            Some(number)
        } else {
            None
        }
    } else {
        None
    }
}

/// The number of the member's order that has this id at present, live or not.
pub fn number_of(ids: &UsedIds, orders: &[Order], id: &ClOrdId) -> Option<u32>
    requires named { NameOrders ids.now.entries orders.now }
    requires settled { ids.now.placed ≡ [] }
    ensures number { IsNumber id.now.member id.now.id orders.now
        (order_named id.now.member id.now.id orders.now) result }
    ensures here { IfSome result (λ number. number < length orders.now) }
{
    match ids.order(id) {
        Some(number) => number_here(orders, id, number),
        None => None,
    }
}

/// The row with which an order entered, while the order is live.
pub fn live_row(orders: &[Order], entered: &[EnteredRow], number: u32) -> Option<Row>
    requires here { number < length orders.now }
    requires count { length entered.now ≡ length orders.now }
    ensures { IsRowIfLive orders.now entered.now number result }
{
    let order = &orders[number as usize];
    if order.cum < order.quantity {
        entered[number as usize].get()
    } else {
        None
    }
}

/// The member's live order that has this id at present.
fn find_live(ids: &UsedIds, orders: &[Order], entered: &[EnteredRow], id: &ClOrdId) -> Option<Found>
    requires named { NameOrders ids.now.entries orders.now }
    requires settled { ids.now.placed ≡ [] }
    requires count { length entered.now ≡ length orders.now }
    ensures here { IfSome result (λ found. found.number < length orders.now) }
    ensures live { (rows : List Priced) → AreEntered entered.now orders.now rows
        → IsFound orders.now rows (live_named id.now.member id.now.id orders.now rows) result }
{
    match number_of(ids, orders, id) {
        Some(number) => match live_row(orders, entered, number) {
            Some(row) => Some(Found { number, row }),
            None => None,
        },
        None => None,
    }
}

/// The number of a live order that was found, or 0.
pub fn number_or_zero(live: Option<Found>) -> u32
    ensures { result ≡ option_map_or (λ found. found.number) live 0 }
{
    match live {
        Some(found) => found.number,
        None => 0,
    }
}

/// The live order that a Cancel or a Replace names, by the copy of its id.
pub fn find_named<E: Engine + Drop>(parts: &Parts<E>, copies: &Copies) -> Option<Found>
    requires agree { Agree E.buys E.sells E.best parts.now }
    requires settled { parts.now.ids.placed ≡ [] }
    ensures here { IfSome result (λ found. found.number < length parts.now.orders.items) }
    ensures live { IsFound parts.now.orders.items (rows_in E.buys E.sells parts.now) (live_named copies.now.orig.member
        copies.now.orig.id parts.now.orders.items (rows_in E.buys E.sells parts.now)) result }
{
    find_live(&parts.ids, &parts.orders, &parts.entered, &copies.orig)
}
