//! Orders as reports show them.
ghost use Rattle.std.specs.Prelude.{◌≡◌};
ghost use Rattle.eager_meaning.specs.Showing.{live_at, view_with, view_closed, view_traded};

use eager_meaning::{Order, Party, live_at};
use venue_words::{Id, LiveOrder, View};

/// An order with what it has while it is live, under an id.
#[tactic(auto, unfolding(eager_meaning::specs::Showing::view_with))]
fn view_with(order: &Order, id: Id, live: Option<LiveOrder>) -> View
    ensures shown { result ≡ record (view_with order.now live) { id = id } }
    ensures own { id ≡ order.now.id → result ≡ view_with order.now live }
{
    View {
        first: order.first,
        id,
        side: order.side,
        quantity: order.quantity,
        pegged: order.pegged,
        limit: order.limit,
        cum: order.cum,
        notional: order.notional,
        live,
    }
}

/// An order that has left, under an id.
pub fn view_closed(order: &Order, id: Id) -> View
    ensures shown { result ≡ record (view_closed order.now) { id = id } }
    ensures own { id ≡ order.now.id → result ≡ view_closed order.now }
{
    view_with(order, id, None)
}

/// An order at a price and a time.
pub fn view_at(order: &Order, id: Id, price: Option<u32>, time: u32) -> View
    requires { id ≡ order.now.id }
    ensures { result ≡ view_with order.now (live_at order.now price time) }
{
    view_with(order, id, live_at(order, price, time))
}

/// An order after a trade of which it is a party.
pub fn view_traded(order: &Order, id: Id, party: Party) -> View
    requires { id ≡ order.now.id }
    ensures { result ≡ view_traded order.now party }
{
    view_at(order, id, party.price, party.time)
}
