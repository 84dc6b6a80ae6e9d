//! What trades make of the orders, and what the two orders of each are told.
ghost use Rattle.std.specs.Prelude.{◌≡◌, ◌++◌, ◌+◌, ◌*◌, IfOk};
ghost use Rattle.eager_meaning.specs.Orders.{changed_at};
ghost use Rattle.eager_meaning.specs.Trades.{order_after, orders_after, orders_after_all, trade_notice, trade_notices};

use crate::views::view_traded;
use eager_meaning::{Fill, Notice, Order, Party};
use std::alloc::{AllocError, Global};
use venue_words::{Execution, Kind};

/// What the shares of a trade are worth.
fn worth_of(fill: Fill) -> u64
    ensures { result ≡ fill.price * fill.quantity }
{
    u64::from(fill.price) * u64::from(fill.quantity)
}

/// The shares of an order behind a trade, and what they are worth. A sum that does not fit is answered as want of memory.
fn sums_after(order: &Order, fill: Fill) -> Result<(u32, u64), AllocError>
    ensures { IfOk result (λ sums. (sums.0 ≡ order.now.cum + fill.quantity)
        × (sums.1 ≡ order.now.notional + fill.price * fill.quantity)) }
{
    let cum = order.cum.checked_add(fill.quantity).ok_or(AllocError)?;
    let notional = order
        .notional
        .checked_add(worth_of(fill))
        .ok_or(AllocError)?;
    Ok((cum, notional))
}

/// A trade is added to an order.
#[tactic(auto, unfolding(eager_meaning::specs::Trades::order_after))]
fn add_trade(orders: &mut Vec<Order>, number: u32, fill: Fill) -> Result<(), AllocError>
    ensures { IfOk result (λ _. orders.new.items ≡ changed_at (order_after fill) number orders.old.items) }
{
    let k = number as usize;
    if k < orders.len() {
        let (cum, notional) = sums_after(&orders[k], fill)?;
        let order = &mut orders[k];
        order.cum = cum;
        order.notional = notional;
    }
    Ok(())
}

/// A trade is added to both of its orders.
#[tactic(auto, unfolding(eager_meaning::specs::Trades::orders_after))]
fn add_fill(orders: &mut Vec<Order>, fill: Fill) -> Result<(), AllocError>
    ensures { IfOk result (λ _. orders.new.items ≡ orders_after fill orders.old.items) }
{
    add_trade(orders, fill.taker.order, fill)?;
    add_trade(orders, fill.contra.order, fill)
}

/// The notice of a trade to one of its orders.
#[tactic(auto, unfolding(eager_meaning::specs::Trades::trade_notice))]
fn push_trade_notice(
    alloc: Global,
    notices: &mut Vec<Notice>,
    fill: Fill,
    orders: &[Order],
    party: Party,
) -> Result<(), AllocError>
    ensures { IfOk result (λ _. notices.new.items ≡ notices.old.items ++ trade_notice fill orders.now party) }
{
    let k = party.order as usize;
    if k < orders.len() {
        let order = &orders[k];
        let view = view_traded(alloc, order, party)?;
        notices.push(Notice {
            member: order.member,
            kind: Kind::Order {
                view,
                execution: Execution::Traded {
                    quantity: fill.quantity,
                    price: fill.price,
                },
            },
        })?;
    }
    Ok(())
}

/// The trades are added to the orders, and told to the taker and then to the contra of each.
#[tactic(auto, unfolding(eager_meaning::specs::Trades::trade_notices, eager_meaning::specs::Trades::orders_after_all))]
pub fn push_trade_notices(
    alloc: Global,
    notices: &mut Vec<Notice>,
    fills: &[Fill],
    orders: &mut Vec<Order>,
) -> Result<(), AllocError>
    ensures notices { IfOk result (λ _. notices.new.items
        ≡ notices.old.items ++ trade_notices fills.now orders.old.items) }
    ensures orders { IfOk result (λ _. orders.new.items ≡ orders_after_all fills.now orders.old.items) }
{
    for fill in fills {
        add_fill(orders, *fill)?;
        push_trade_notice(alloc, notices, *fill, orders, fill.taker)?;
        push_trade_notice(alloc, notices, *fill, orders, fill.contra)?;
    }
    Ok(())
}
