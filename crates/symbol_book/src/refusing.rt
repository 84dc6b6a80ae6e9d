//! Requests that break a rule.
ghost use Rattle.std.specs.Prelude.{◌≡◌, ◌<◌, ◌∷◌, [], List, Option, IfSome, length, option_map};
ghost use Rattle.venue_words.specs.Conditions.{IsTick};
ghost use Rattle.venue_words.specs.declared.row.Priced.{Priced};
ghost use Rattle.eager_meaning.specs.declared.order.Live.{Live};
ghost use Rattle.eager_meaning.specs.Changing.{named_order, refusal};
ghost use Rattle.eager_meaning.specs.Orders.{known_of};
ghost use Rattle.eager_meaning.specs.Verdict.{verdict};
ghost use Rattle.symbol_book.specs.Finding.{IsFound};
ghost use Rattle.symbol_book.specs.Log.{Reports};

use crate::finding::Found;
use crate::parts::Parts;
use crate::room::Copies;
use eager_meaning::{Known, Order, verdict};
use match_core::Engine;
use venue_words::{Event, Kind, NamedOrder, OrderStatus, RefusedRequest, Rule, Side};

/// What the rules ask of the book, for a request that names this live order, or none.
#[tactic(auto, unfolding(eager_meaning::specs::Orders::known_of))]
fn known_of(tick: u32, used: bool, live: Option<Found>, orders: &[Order]) -> Known
    requires here { IfSome live (λ found. found.number < length orders.now) }
    ensures known { (rows : List Priced) (is : Option Live) → IsFound orders.now rows is live → result
        ≡ known_of tick used is }
    ensures tick { result.tick ≡ tick }
{
    match live {
        Some(found) => {
            let order = &orders[found.number as usize];
            Known {
                used,
                live: true,
                side: order.side,
                cum: order.cum,
                tick,
            }
        }
        None => Known {
            used,
            live: false,
            side: Side::Buy,
            cum: 0,
            tick,
        },
    }
}

/// The first rule that a Cancel or a Replace breaks, or none. `used` says whether its own id is used up.
pub fn rule_of_request<E: Engine + Drop>(
    tick: u32,
    parts: &Parts<E>,
    used: bool,
    live: Option<Found>,
    event: &Event,
) -> Option<Rule>
    requires tick { IsTick tick }
    requires here { IfSome live (λ found. found.number < length parts.now.orders.items) }
    ensures { (rows : List Priced) (is : Option Live) → IsFound parts.now.orders.items rows is live
        → result ≡ verdict event.now.command (known_of tick used is) }
{
    let known = known_of(tick, used, live, &parts.orders);
    verdict(&event.command, &known)
}

/// A Cancel or a Replace is refused.
pub fn refuse<E: Engine + Drop>(
    parts: &mut Parts<E>,
    event: &Event,
    request: RefusedRequest,
    copies: Copies,
    live: Option<Found>,
    rule: Rule,
) -> u32
    requires here { IfSome live (λ found. found.number < length parts.old.orders.items) }
    requires places { 0 < parts.old.log.places }
    ensures reports { (rows : List Priced) (is : Option Live) → IsFound parts.old.orders.items rows is live
        → Reports event.now parts.old.log.list 1
        (record { member = copies.member; kind = refusal request copies.shown copies.orig.id is rule } ∷ [])
        parts.new.log.list result }
    ensures rest { parts.new ≡ record parts.old { log = parts.new.log } }
{
    let order = named_order(live, &parts.orders);
    let kind = Kind::Refused {
        id: copies.shown,
        orig: copies.orig.id,
        order,
        request,
        rule,
    };
    parts.log.push(event, 1, copies.member, kind)
}

/// How a refusal names a live order, where there is one.
fn named_order(live: Option<Found>, orders: &[Order]) -> Option<NamedOrder>
    requires here { IfSome live (λ found. found.number < length orders.now) }
    ensures { (rows : List Priced) (is : Option Live) → IsFound orders.now rows is live
        → result ≡ option_map named_order is }
{
    match live {
        Some(found) => {
            let order = &orders[found.number as usize];
            Some(NamedOrder {
                first: order.first,
                status: OrderStatus::of_live(order.cum),
            })
        }
        None => None,
    }
}
