//! New orders.
ghost use Rattle.std.specs.Prelude.{◌≡◌, ℕ, ◌+◌, ◌*◌, ◌<◌, ◌≤◌, List, ◌++◌, ◌∷◌, [], Some, None, All, false, length};
ghost use Rattle.venue_words.specs.Conditions.{IsTick};
ghost use Rattle.venue_words.specs.declared.command.Command.TheVariants.{New};
ghost use Rattle.venue_words.specs.declared.report.Kind.TheVariants.{Rejected};
ghost use Rattle.eager_meaning.specs.Entering.{accepted_order, arrival_of_new, enter};
ghost use Rattle.eager_meaning.specs.Orders.{known_of};
ghost use Rattle.eager_meaning.specs.Terms.{is_immediate, key_of, quantity_of, row_of};
ghost use Rattle.eager_meaning.specs.Verdict.{verdict};
ghost use Rattle.eager_meaning.specs.Work.{examined, examined_by_arrival};
ghost use Rattle.market_laws.specs.Standing.{if_it_rests};
ghost use Rattle.symbol_book.specs.Changes.{with_id};
ghost use Rattle.symbol_book.specs.Fitting.{CanWork, NewFits};
ghost use Rattle.symbol_book.specs.Ids.{IsPlaced};
ghost use Rattle.symbol_book.specs.Log.{Reports};
ghost use Rattle.symbol_book.specs.Orders.{IsSmall};
ghost use Rattle.symbol_book.specs.Parts.{Agree, AreWorked, HasRoom, resting_in, state_in};
ghost use Rattle.symbol_book.specs.Room.{CopiesOwn};

use crate::entered_row::EnteredRow;
use crate::entering::{enter, entering_row, price_now};
use crate::log::ReportLog;
use crate::parts::Parts;
use crate::room::{CommandIds, Copies};
use crate::showing::view_at;
use eager_meaning::{
    Known, Order, is_immediate, is_pegged, limit_of, quantity_of, side_of, verdict,
};
use match_core::Engine;
use std::sync::ledger::Ledger;
use venue_words::{Event, Execution, Id, Kind, Row, Rule, Side, Steps, Terms};

/// An accepted order, before it trades.
#[tactic(auto, unfolding(eager_meaning::specs::Entering::accepted_order))]
fn accepted_order(tick: u32, event: u32, member: u32, id: Id, terms: &Terms) -> Order
    requires { IsTick tick }
    ensures order { result ≡ accepted_order tick event member id terms.now }
    ensures named { result.id ≡ id }
{
    Order {
        member,
        first: event,
        id,
        side: side_of(terms),
        quantity: quantity_of(terms),
        pegged: is_pegged(terms),
        limit: limit_of(tick, terms),
        cum: 0,
        notional: 0,
    }
}

/// The row that is kept of an order as it enters: none of one that stays only to trade at once.
pub fn kept_row(immediate: bool, row: Row) -> EnteredRow
    requires { IsTick row.key.grid }
    ensures { result ≡ if_it_rests immediate row }
{
    if immediate {
        EnteredRow::none()
    } else {
        EnteredRow::of(row)
    }
}

/// An order is accepted and enters.
#[tactic(auto, unfolding(eager_meaning::specs::Entering::arrival_of_new))]
fn accept<E: Engine + Drop, L: Ledger>(
    tick: u32,
    parts: &mut Parts<E>,
    event: &Event,
    terms: &Terms,
    copies: Copies,
    steps: &mut Steps<L>,
) -> u32
    requires tick { IsTick tick }
    requires copies { copies.shown ≡ copies.order }
    requires placed { IsPlaced copies.member copies.order (length parts.old.orders.items) parts.old.ids.placed }
    requires engine { E.ready parts.old.engine (Some (key_of tick terms.now))
        × (E.latest parts.old.engine < event.now.number) }
    requires shares { 0 < quantity_of terms.now }
    requires fits { (length copies.order ≤ parts.old.orders.longest)
        × NewFits tick event.now.number copies.member copies.order terms.now (E.best parts.old.engine)
        (E.buys parts.old.engine) (E.sells parts.old.engine) parts.old.orders.items }
    requires agree { Agree E.buys E.sells E.best parts.old }
    requires places { HasRoom (resting_in E.buys E.sells parts.old) parts.old }
    ensures state { (enter (arrival_of_new tick event.now.number copies.member copies.order terms.now
        (state_in E.buys E.sells parts.old))).state ≡ state_in E.buys E.sells parts.new }
    ensures reports { Reports event.now parts.old.log.list 1 (enter (arrival_of_new tick event.now.number copies.member
        copies.order terms.now (state_in E.buys E.sells parts.old))).notices parts.new.log.list result }
    ensures entered { parts.new.entered.items ≡ parts.old.entered.items ++ if_it_rests (is_immediate terms.now)
        (row_of tick event.now.number (length parts.old.orders.items) copies.member 0 terms.now) ∷ [] }
    ensures ids { parts.new.ids.entries
        ≡ with_id copies.member copies.order (length parts.old.orders.items) parts.old.ids.entries }
    ensures settled { parts.new.ids.placed ≡ [] }
    ensures markets { parts.new.markets ≡ parts.old.markets }
    ensures small { All IsSmall parts.new.orders.items }
    ensures most { steps.new ≤ steps.old + 2048 * (E.width parts.old.engine + 1) * (examined_by_arrival
        (arrival_of_new tick event.now.number copies.member copies.order terms.now
        (state_in E.buys E.sells parts.old)) + 1) }
    ensures best { E.best parts.new.engine ≡ E.best parts.old.engine }
    ensures latest { E.latest parts.new.engine ≡ event.now.number }
{
    let Copies {
        member,
        order: copy,
        shown,
        orig: _,
    } = copies;
    let number = parts.orders.as_slice().len() as u32;
    let row = entering_row(tick, event.number, number, member, 0, terms);
    let order = accepted_order(tick, event.number, member, copy, terms);
    let price = price_now(&parts.engine, &row);
    let view = view_at(&order, shown, price, row.entry);
    parts.ids.keep();
    parts.orders.push_reserved(order);
    parts
        .entered
        .push_reserved(kept_row(is_immediate(terms), row));
    let execution = Execution::Accepted;
    enter(
        parts,
        event,
        row,
        is_immediate(terms),
        Kind::Order { view, execution },
        steps,
    )
}

/// The first rule that a New breaks, or none. `used` says whether its own id is used up.
#[tactic(auto, unfolding(eager_meaning::specs::Orders::known_of), using(crate::proofs::Accepting::unbroken))]
fn rule_of_new(tick: u32, used: bool, event: &Event, terms: &Terms) -> Option<Rule>
    requires { IsTick tick }
    ensures rule { result ≡ verdict event.now.command (known_of tick used None) }
    ensures fresh { (member : ℕ) (id : List ℕ) → event.now.command ≡ New member id terms.now → result ≡ None
        → used ≡ false }
    ensures shares { (member : ℕ) (id : List ℕ) → event.now.command ≡ New member id terms.now → result ≡ None
        → 0 < quantity_of terms.now }
{
    let known = Known {
        used,
        live: false,
        side: Side::Buy,
        cum: 0,
        tick,
    };
    verdict(&event.command, &known)
}

/// A New is rejected.
fn reject(log: &mut ReportLog, event: &Event, member: u32, id: Id, terms: &Terms, rule: Rule) -> u32
    requires places { 0 < log.old.places }
    ensures reports { Reports event.now log.old.list 1
        (record { member = member; kind = Rejected id terms.now.side terms.now.quantity rule } ∷ []) log.new.list
        result }
{
    let kind = Kind::Rejected {
        id,
        side: terms.side,
        quantity: terms.quantity,
        rule,
    };
    log.push(event, 1, member, kind)
}

/// A New: it is rejected, or it enters. It stands apart, so that other commands do not clear its locals.
#[inline(never)]
#[tactic(auto, unfolding(eager_meaning::specs::Step::outcome_of, eager_meaning::specs::Entering::on_new, crate::specs::Changes::ids_after))]
pub fn on_new<E: Engine + Drop, L: Ledger>(
    tick: u32,
    parts: &mut Parts<E>,
    event: &Event,
    terms: &Terms,
    ids: CommandIds,
    steps: &mut Steps<L>,
) -> u32
    requires tick { IsTick tick }
    requires command { event.now.command ≡ New ids.own.member ids.own.id terms.now }
    requires copies { CopiesOwn ids.own.member ids.own.id ids }
    requires settled { parts.old.ids.placed ≡ [] }
    requires engine { E.ready parts.old.engine (Some (key_of tick terms.now))
        × (E.latest parts.old.engine < event.now.number) }
    requires fits { (length ids.own.id ≤ parts.old.orders.longest)
        × CanWork tick event.now.number event.now.command (state_in E.buys E.sells parts.old) }
    requires agree { Agree E.buys E.sells E.best parts.old }
    requires places { HasRoom (resting_in E.buys E.sells parts.old) parts.old }
    ensures worked { AreWorked E.buys E.sells tick event.now parts.old parts.new result }
    ensures settled { parts.new.ids.placed ≡ [] }
    ensures markets { parts.new.markets ≡ parts.old.markets }
    ensures small { All IsSmall parts.new.orders.items }
    ensures most { steps.new ≤ steps.old + 2048 * (E.width parts.old.engine + 1)
        * (examined tick (state_in E.buys E.sells parts.old) event.now.number event.now.command + 1) }
    ensures best { E.best parts.new.engine ≡ E.best parts.old.engine }
    ensures latest { E.latest parts.new.engine ≤ event.now.number }
{
    let CommandIds { own, copies } = ids;
    let number = parts.orders.as_slice().len() as u32;
    let used = parts.ids.place(own, number);
    match rule_of_new(tick, used, event, terms) {
        Some(rule) => {
            parts.ids.take_back();
            let member = copies.member;
            reject(&mut parts.log, event, member, copies.shown, terms, rule)
        }
        None => accept(tick, parts, event, terms, copies, steps),
    }
}
