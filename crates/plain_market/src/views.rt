//! How reports show an order.
ghost use Rattle.std.specs.Prelude.{◌≡◌, IfOk};
ghost use Rattle.eager_meaning.specs.Showing.{view_with, view_closed, view_traded, view_of, row_of_order};

use eager_meaning::{Order, Party, live_at};
use std::alloc::{AllocError, Global};
use venue_words::{Id, LiveOrder, Priced, View};

/// An order with what it has while it is live.
#[tactic(auto, unfolding(eager_meaning::specs::Showing::view_with))]
fn view_with(alloc: Global, order: &Order, live: Option<LiveOrder>) -> Result<View, AllocError>
    ensures { IfOk result (λ view. view ≡ view_with order.now live) }
{
    Ok(View {
        first: order.first,
        id: Id::copy_of(alloc, order.id.as_slice())?,
        side: order.side,
        quantity: order.quantity,
        pegged: order.pegged,
        limit: order.limit,
        cum: order.cum,
        notional: order.notional,
        live,
    })
}

/// An order that has left.
pub fn view_closed(alloc: Global, order: &Order) -> Result<View, AllocError>
    ensures { IfOk result (λ view. view ≡ view_closed order.now) }
{
    view_with(alloc, order, None)
}

/// An order after a trade of which it is a party.
pub fn view_traded(alloc: Global, order: &Order, party: Party) -> Result<View, AllocError>
    ensures { IfOk result (λ view. view ≡ view_traded order.now party) }
{
    view_with(alloc, order, live_at(order, party.price, party.time))
}

/// An order with the row that it has or had.
pub fn view_of(alloc: Global, order: &Order, x: Option<Priced>) -> Result<View, AllocError>
    ensures { IfOk result (λ view. view ≡ view_of order.now x) }
{
    let live = x.and_then(|x| live_at(order, x.price(), x.time));
    view_with(alloc, order, live)
}

/// The row of an order, where it has one.
#[tactic(auto, unfolding(eager_meaning::specs::Showing::row_of_order))]
pub fn row_of_order(number: u32, rows: &[Priced]) -> Option<Priced>
    ensures { result ≡ row_of_order number rows.now }
{
    for x in rows {
        if x.row.order == number {
            return Some(*x);
        }
    }
    None
}
