//! How reports show an order.
ghost use Rattle.std.specs.Prelude.{◌≡◌};
ghost use Rattle.eager_meaning.specs.Showing.{live_at};

use crate::order::Order;
use venue_words::LiveOrder;

/// What an order has at a price and a time: it is live while shares are left.
pub fn live_at(order: &Order, price: Option<u32>, time: u32) -> Option<LiveOrder>
    ensures { result ≡ live_at order.now price time }
{
    if order.cum < order.quantity {
        Some(LiveOrder {
            leaves: order.quantity - order.cum,
            price,
            time,
        })
    } else {
        None
    }
}
