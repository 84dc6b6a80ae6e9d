//! Replaces.
ghost use Rattle.std.specs.Prelude.{◌≡◌, ◌⊎◌, ◌+◌, ◌*◌, ◌<◌, ◌≤◌, List, [], Some, All};
ghost use Rattle.std.specs.Prelude.{length, slice_set};
ghost use Rattle.venue_words.specs.Conditions.{IsTick};
ghost use Rattle.venue_words.specs.declared.command.Command.TheVariants.{Replace};
ghost use Rattle.venue_words.specs.declared.row.Priced.{Priced};
ghost use Rattle.eager_meaning.specs.declared.order.Live.{Live};
ghost use Rattle.eager_meaning.specs.Changing.{arrival_of_replace, only_lowers, replace, resize};
ghost use Rattle.eager_meaning.specs.Entering.{enter};
ghost use Rattle.eager_meaning.specs.Floor.{same_method};
ghost use Rattle.eager_meaning.specs.Terms.{is_immediate, key_of, quantity_of, row_of};
ghost use Rattle.eager_meaning.specs.Work.{examined, examined_by_arrival};
ghost use Rattle.market_laws.specs.Standing.{if_it_rests};
ghost use Rattle.symbol_book.specs.Changes.{entered_by_replace, examined_by_replace, with_id};
ghost use Rattle.symbol_book.specs.Finding.{IsFoundAs};
ghost use Rattle.symbol_book.specs.Fitting.{CanWork, ReplaceFits};
ghost use Rattle.symbol_book.specs.Ids.{IsPlaced};
ghost use Rattle.symbol_book.specs.Log.{Reports};
ghost use Rattle.symbol_book.specs.Orders.{IsSmall};
ghost use Rattle.symbol_book.specs.Parts.{Agree, AreWorked, HasRoom, resting_in, rows_in, state_in};
ghost use Rattle.symbol_book.specs.Room.{CopiesOwn};

use crate::admitting::kept_row;
use crate::entering::{enter, entering_row, price_now};
use crate::finding::{Found, find_named, number_or_zero};
use crate::parts::Parts;
use crate::refusing::{refuse, rule_of_request};
use crate::room::{CommandIds, Copies};
use crate::showing::view_at;
use eager_meaning::{Order, is_immediate, quantity_of, row_of};
use match_core::Engine;
use std::sync::ledger::Ledger;
use venue_words::{Event, Execution, Kind, Method, RefusedRequest, Row, Steps, Terms, same_key};

/// The live order that a Replace names, and the copies of the request's ids.
struct Named {
    found: Found,
    copies: Copies,
}

/// Whether two orders meet their minimums in the same way.
fn same_method(x: Method, y: Method) -> bool
    ensures { result ≡ same_method x y }
{
    matches!(
        (x, y),
        (Method::Once, Method::Once) | (Method::Multiple, Method::Multiple)
    )
}

/// Whether a replace changes the quantity alone, and does not raise it.
#[tactic(auto, unfolding(eager_meaning::specs::Changing::only_lowers))]
fn only_lowers(tick: u32, terms: &Terms, old: &Row, quantity: u32) -> bool
    requires { IsTick tick }
    ensures { (live : Live) → live.row.row ≡ record old.now {
      leaves = live.row.row.leaves;
      traded =
          live.row.row.traded;
    } → live.order.quantity ≡ quantity → result ≡ only_lowers tick terms.now live }
{
    let new = row_of(tick, 0, 0, 0, 0, terms);
    same_key(new.key, old.key)
        && new.cap == old.cap
        && new.minimum == old.minimum
        && same_method(new.method, old.method)
        && !is_immediate(terms)
        && quantity_of(terms) <= quantity
}

/// The same, of a live order that was found.
fn lowers(tick: u32, terms: &Terms, orders: &[Order], found: &Found) -> bool
    requires tick { IsTick tick }
    requires here { found.now.number < length orders.now }
    ensures { (rows : List Priced) (live : Live) → IsFoundAs orders.now rows live found.now → result
        ≡ only_lowers tick terms.now live }
{
    let order = &orders[found.number as usize];
    only_lowers(tick, terms, &found.row, order.quantity)
}

/// The quantity of a live order changes; its price, its time and its entry stay.
#[tactic(auto, unfolding(eager_meaning::specs::Changing::resize))]
fn resize<E: Engine + Drop, L: Ledger>(
    tick: u32,
    parts: &mut Parts<E>,
    event: &Event,
    terms: &Terms,
    named: Named,
    steps: &mut Steps<L>,
) -> u32
    requires tick { IsTick tick }
    requires found { (live : Live)
        × IsFoundAs parts.old.orders.items (rows_in E.buys E.sells parts.old) live named.found
        × (live.order.cum < quantity_of terms.now) }
    requires here { named.found.number < length parts.old.orders.items }
    requires copies { named.copies.shown ≡ named.copies.order }
    requires placed { IsPlaced named.copies.member named.copies.order named.found.number parts.old.ids.placed }
    requires short { length named.copies.order ≤ parts.old.orders.longest }
    requires agree { Agree E.buys E.sells E.best parts.old }
    requires places { HasRoom (resting_in E.buys E.sells parts.old) parts.old }
    ensures state { (live : Live)
        → IsFoundAs parts.old.orders.items (rows_in E.buys E.sells parts.old) live named.found
        → (resize tick named.copies.member named.copies.order named.copies.orig.id terms.now live
        (state_in E.buys E.sells parts.old)).state ≡ state_in E.buys E.sells parts.new }
    ensures reports { (live : Live)
        → IsFoundAs parts.old.orders.items (rows_in E.buys E.sells parts.old) live named.found
        → Reports event.now parts.old.log.list 1 (resize tick named.copies.member named.copies.order
        named.copies.orig.id terms.now live (state_in E.buys E.sells parts.old)).notices parts.new.log.list result }
    ensures ids { parts.new.ids.entries
        ≡ with_id named.copies.member named.copies.order named.found.number parts.old.ids.entries }
    ensures settled { parts.new.ids.placed ≡ [] }
    ensures entered { parts.new.entered.items ≡ parts.old.entered.items }
    ensures markets { parts.new.markets ≡ parts.old.markets }
    ensures small { All IsSmall parts.new.orders.items }
    ensures most { steps.new ≤ steps.old + 2048 }
    ensures best { E.best parts.new.engine ≡ E.best parts.old.engine }
    ensures latest { E.latest parts.new.engine ≡ E.latest parts.old.engine }
{
    let Named { found, copies } = named;
    let Copies {
        member,
        order: copy,
        shown,
        orig,
    } = copies;
    let (price, time) = parts.engine.priced(&found.row, steps);
    parts.orders.set_terms(tick, found.number, copy, terms);
    let order = &parts.orders[found.number as usize];
    let leaves = order.quantity - order.cum;
    let view = view_at(order, shown, price, time);
    parts.engine.lower(&found.row, leaves, steps);
    parts.ids.keep();
    let execution = Execution::Replaced { orig: orig.id };
    parts
        .log
        .push(event, 1, member, Kind::Order { view, execution })
}

/// A live order leaves and enters anew.
#[tactic(auto, unfolding(eager_meaning::specs::Changing::arrival_of_replace))]
fn reenter<E: Engine + Drop, L: Ledger>(
    tick: u32,
    parts: &mut Parts<E>,
    event: &Event,
    terms: &Terms,
    named: Named,
    steps: &mut Steps<L>,
) -> u32
    requires tick { IsTick tick }
    requires found { (live : Live)
        × IsFoundAs parts.old.orders.items (rows_in E.buys E.sells parts.old) live named.found
        × (live.order.cum < quantity_of terms.now)
        × ReplaceFits tick event.now.number named.copies.member named.copies.order terms.now live
        (E.best parts.old.engine) (E.buys parts.old.engine) (E.sells parts.old.engine) parts.old.orders.items }
    requires here { named.found.number < length parts.old.orders.items }
    requires copies { named.copies.shown ≡ named.copies.order }
    requires id { IsPlaced named.copies.member named.copies.order named.found.number parts.old.ids.placed
        × (length named.copies.order ≤ parts.old.orders.longest) }
    requires engine { E.ready parts.old.engine (Some (key_of tick terms.now))
        × (E.latest parts.old.engine < event.now.number) }
    requires agree { Agree E.buys E.sells E.best parts.old }
    requires places { HasRoom (resting_in E.buys E.sells parts.old) parts.old }
    ensures state { (live : Live)
        → IsFoundAs parts.old.orders.items (rows_in E.buys E.sells parts.old) live named.found
        → (enter (arrival_of_replace tick event.now.number named.copies.member named.copies.order
        named.copies.orig.id terms.now live (state_in E.buys E.sells parts.old))).state
        ≡ state_in E.buys E.sells parts.new }
    ensures reports { (live : Live)
        → IsFoundAs parts.old.orders.items (rows_in E.buys E.sells parts.old) live named.found
        → Reports event.now parts.old.log.list 1 (enter (arrival_of_replace tick event.now.number named.copies.member
        named.copies.order named.copies.orig.id terms.now live (state_in E.buys E.sells parts.old))).notices
        parts.new.log.list result }
    ensures entered { (live : Live)
        → IsFoundAs parts.old.orders.items (rows_in E.buys E.sells parts.old) live named.found
        → parts.new.entered.items ≡ slice_set parts.old.entered.items named.found.number (if_it_rests
        (is_immediate terms.now)
        (row_of tick event.now.number named.found.number named.copies.member live.order.cum terms.now)) }
    ensures ids { parts.new.ids.entries
        ≡ with_id named.copies.member named.copies.order named.found.number parts.old.ids.entries }
    ensures settled { parts.new.ids.placed ≡ [] }
    ensures markets { parts.new.markets ≡ parts.old.markets }
    ensures small { All IsSmall parts.new.orders.items }
    ensures most { (live : Live)
        → IsFoundAs parts.old.orders.items (rows_in E.buys E.sells parts.old) live named.found → steps.new
        ≤ steps.old + 512 + 2048 * (E.width parts.old.engine + 1) * (examined_by_arrival
        (arrival_of_replace tick event.now.number named.copies.member named.copies.order
        named.copies.orig.id terms.now live (state_in E.buys E.sells parts.old)) + 1) }
    ensures best { E.best parts.new.engine ≡ E.best parts.old.engine }
    ensures latest { E.latest parts.new.engine ≡ event.now.number }
{
    let Named { found, copies } = named;
    let Copies {
        member,
        order: copy,
        shown,
        orig,
    } = copies;
    parts.orders.set_terms(tick, found.number, copy, terms);
    let order = &parts.orders[found.number as usize];
    let row = entering_row(tick, event.number, found.number, member, order.cum, terms);
    let price = price_now(&parts.engine, &row);
    let view = view_at(order, shown, price, row.entry);
    parts.engine.cut(&found.row, steps);
    parts.entered[found.number as usize] = kept_row(is_immediate(terms), row);
    parts.ids.keep();
    let execution = Execution::Replaced { orig: orig.id };
    enter(
        parts,
        event,
        row,
        is_immediate(terms),
        Kind::Order { view, execution },
        steps,
    )
}

/// A Replace that breaks no rule: the quantity changes, or the order enters anew.
fn replace<E: Engine + Drop, L: Ledger>(
    tick: u32,
    parts: &mut Parts<E>,
    event: &Event,
    terms: &Terms,
    named: Named,
    steps: &mut Steps<L>,
) -> u32
    requires tick { IsTick tick }
    requires found { (live : Live)
        × IsFoundAs parts.old.orders.items (rows_in E.buys E.sells parts.old) live named.found
        × (live.order.cum < quantity_of terms.now)
        × ReplaceFits tick event.now.number named.copies.member named.copies.order terms.now live
        (E.best parts.old.engine) (E.buys parts.old.engine) (E.sells parts.old.engine) parts.old.orders.items }
    requires here { named.found.number < length parts.old.orders.items }
    requires copies { named.copies.shown ≡ named.copies.order }
    requires id { IsPlaced named.copies.member named.copies.order named.found.number parts.old.ids.placed
        × (length named.copies.order ≤ parts.old.orders.longest) }
    requires engine { E.ready parts.old.engine (Some (key_of tick terms.now))
        × (E.latest parts.old.engine < event.now.number) }
    requires agree { Agree E.buys E.sells E.best parts.old }
    requires places { HasRoom (resting_in E.buys E.sells parts.old) parts.old }
    ensures state { (live : Live)
        → IsFoundAs parts.old.orders.items (rows_in E.buys E.sells parts.old) live named.found
        → (replace tick event.now.number named.copies.member named.copies.order named.copies.orig.id
        terms.now live (state_in E.buys E.sells parts.old)).state ≡ state_in E.buys E.sells parts.new }
    ensures reports { (live : Live)
        → IsFoundAs parts.old.orders.items (rows_in E.buys E.sells parts.old) live named.found
        → Reports event.now parts.old.log.list 1 (replace tick event.now.number named.copies.member
        named.copies.order named.copies.orig.id terms.now live (state_in E.buys E.sells parts.old)).notices
        parts.new.log.list result }
    ensures entered { (live : Live)
        → IsFoundAs parts.old.orders.items (rows_in E.buys E.sells parts.old) live named.found
        → parts.new.entered.items ≡ entered_by_replace tick event.now.number named.copies.member terms.now live
        parts.old.entered.items }
    ensures ids { parts.new.ids.entries
        ≡ with_id named.copies.member named.copies.order named.found.number parts.old.ids.entries }
    ensures settled { parts.new.ids.placed ≡ [] }
    ensures markets { parts.new.markets ≡ parts.old.markets }
    ensures small { All IsSmall parts.new.orders.items }
    ensures most { (live : Live)
        → IsFoundAs parts.old.orders.items (rows_in E.buys E.sells parts.old) live named.found → steps.new
        ≤ steps.old + 2048 + 2048 * (E.width parts.old.engine + 1) * (examined_by_replace tick event.now.number
        named.copies.member named.copies.order named.copies.orig.id terms.now live
        (state_in E.buys E.sells parts.old) + 1) }
    ensures best { E.best parts.new.engine ≡ E.best parts.old.engine }
    ensures latest { E.latest parts.new.engine ≤ event.now.number }
{
    if lowers(tick, terms, &parts.orders, &named.found) {
        resize(tick, parts, event, terms, named, steps)
    } else {
        reenter(tick, parts, event, terms, named, steps)
    }
}

/// A Replace: it is refused, the quantity changes, or the order enters anew. It stands apart, as `on_new` does.
#[inline(never)]
pub fn on_replace<E: Engine + Drop, L: Ledger>(
    tick: u32,
    parts: &mut Parts<E>,
    event: &Event,
    terms: &Terms,
    ids: CommandIds,
    steps: &mut Steps<L>,
) -> u32
    requires tick { IsTick tick }
    requires command { event.now.command ≡ Replace ids.own.member ids.own.id ids.copies.orig.id terms.now }
    requires copies { CopiesOwn ids.own.member ids.own.id ids × (ids.copies.orig.member ≡ ids.own.member) }
    requires settled { parts.old.ids.placed ≡ [] }
    requires fits { (length ids.own.id ≤ parts.old.orders.longest)
        × CanWork tick event.now.number event.now.command (state_in E.buys E.sells parts.old) }
    requires engine { E.ready parts.old.engine (Some (key_of tick terms.now))
        × (E.latest parts.old.engine < event.now.number) }
    requires agree { Agree E.buys E.sells E.best parts.old }
    requires places { HasRoom (resting_in E.buys E.sells parts.old) parts.old }
    ensures worked { AreWorked E.buys E.sells tick event.now parts.old parts.new result }
    ensures settled { parts.new.ids.placed ≡ [] }
    ensures markets { parts.new.markets ≡ parts.old.markets }
    ensures small { All IsSmall parts.new.orders.items }
    ensures most { steps.new ≤ steps.old + 2048 + 2048 * (E.width parts.old.engine + 1)
        * (examined tick (state_in E.buys E.sells parts.old) event.now.number event.now.command + 1) }
    ensures idle { (steps.new ≡ steps.old) ⊎ (0 < length (rows_in E.buys E.sells parts.old)) }
    ensures best { E.best parts.new.engine ≡ E.best parts.old.engine }
    ensures latest { E.latest parts.new.engine ≤ event.now.number }
{
    let CommandIds { own, copies } = ids;
    let live = find_named(parts, &copies);
    let used = parts.ids.place(own, number_or_zero(live));
    match rule_of_request(tick, parts, used, live, event) {
        Some(rule) => {
            parts.ids.take_back();
            refuse(parts, event, RefusedRequest::Replace, copies, live, rule)
        }
        None => match live {
            Some(found) => {
                let named = Named { found, copies };
                replace(tick, parts, event, terms, named, steps)
            }
            None => {
                parts.ids.take_back();
                1
            }
        },
    }
}
