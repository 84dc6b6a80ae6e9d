//! The orders of a book by their ids.
ghost use Rattle.std.specs.Prelude.{◌≡◌, IfOk};
ghost use Rattle.eager_meaning.specs.Orders.{is_named, order_named, live_named, is_used, known_of};

use crate::views::row_of_order;
use eager_meaning::{Known, Live, Order};
use std::alloc::{AllocError, Global};
use venue_words::{Id, Priced, Side};

/// A copy of an order.
pub fn copy_of(alloc: Global, order: &Order) -> Result<Order, AllocError>
    ensures { IfOk result (λ copy. copy ≡ order.now) }
{
    Ok(Order {
        member: order.member,
        first: order.first,
        id: Id::copy_of(alloc, order.id.as_slice())?,
        side: order.side,
        quantity: order.quantity,
        pegged: order.pegged,
        limit: order.limit,
        cum: order.cum,
        notional: order.notional,
    })
}

/// Whether an order is the member's, and has this id at present.
fn is_named(member: u32, id: &[u8], order: &Order) -> bool
    ensures { result ≡ is_named member id.now order.now }
{
    order.member == member && order.id.as_slice() == id
}

/// An order with its number, live or not.
#[tactic(auto, unfolding(eager_meaning::specs::Orders::order_named))]
pub fn order_named(
    alloc: Global,
    member: u32,
    id: &[u8],
    orders: &[Order],
) -> Result<Option<(u32, Order)>, AllocError>
    ensures { IfOk result (λ found. found ≡ order_named member id.now orders.now) }
{
    let mut number = 0u32;
    for order in orders {
        if is_named(member, id, order) {
            return Ok(Some((number, copy_of(alloc, order)?)));
        }
        number = number.checked_add(1).ok_or(AllocError)?;
    }
    Ok(None)
}

/// The member's live order with this id.
#[tactic(auto, unfolding(eager_meaning::specs::Orders::live_named))]
pub fn live_named(
    alloc: Global,
    member: u32,
    id: &[u8],
    orders: &[Order],
    rows: &[Priced],
) -> Result<Option<Live>, AllocError>
    ensures { IfOk result (λ found. found ≡ live_named member id.now orders.now rows.now) }
{
    match order_named(alloc, member, id, orders)? {
        Some((number, order)) => match row_of_order(number, rows) {
            Some(row) => Ok(Some(Live { number, order, row })),
            None => Ok(None),
        },
        None => Ok(None),
    }
}

/// Whether the member used up the id.
#[tactic(auto, unfolding(eager_meaning::specs::Orders::is_used))]
pub fn is_used(member: u32, id: &[u8], used: &[(u32, Id)]) -> bool
    ensures { result ≡ is_used member id.now used.now }
{
    for pair in used {
        if pair.0 == member && pair.1.as_slice() == id {
            return true;
        }
    }
    false
}

/// What the rules ask of the book.
#[tactic(auto, unfolding(eager_meaning::specs::Orders::known_of))]
pub fn known_of(tick: u32, used: bool, live: &Option<Live>) -> Known
    ensures known { result ≡ known_of tick used live.now }
    ensures tick { result.tick ≡ tick }
{
    match live {
        Some(found) => Known {
            used,
            live: true,
            side: found.order.side,
            cum: found.order.cum,
            tick,
        },
        None => Known {
            used,
            live: false,
            side: Side::Buy,
            cum: 0,
            tick,
        },
    }
}
