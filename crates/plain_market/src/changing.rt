//! How a live order is canceled or replaced.
ghost use Rattle.std.specs.Prelude.{◌≡◌, [], ◌∷◌, Some, IfOk, map};
ghost use Rattle.venue_words.specs.Conditions.{IsTick};
ghost use Rattle.eager_meaning.specs.Floor.{same_method};
ghost use Rattle.eager_meaning.specs.Orders.{changed_at};
ghost use Rattle.eager_meaning.specs.Showing.{view_closed, view_of};
ghost use Rattle.eager_meaning.specs.State.{with_used};
ghost use Rattle.venue_words.specs.declared.report.Kind.TheVariants.{Order as OrderReport};
ghost use Rattle.venue_words.specs.declared.report.Execution.TheVariants.{Canceled, Replaced};
ghost use Rattle.eager_meaning.specs.Entering.{enter};
ghost use Rattle.eager_meaning.specs.Changing.{named_order, refusal, without, without_row, cancel, on_cancel, replaced_order, with_replaced, only_lowers, with_leaves, resize, arrival_of_replace, on_replace};

use crate::asked::Asked;
use crate::notices::one_notice;
use crate::plain::Plain;
use crate::views::{view_closed, view_of};
use eager_meaning::{Live, Notice, Order, is_immediate, is_pegged, limit_of, quantity_of, row_of};
use std::alloc::{AllocError, Global};
use venue_words::{
    Execution, Id, Kind, Method, NamedOrder, OrderStatus, Priced, RefusedRequest, Row, Rule, Terms,
    same_key,
};

/// How a refusal names a live order.
fn named_order(live: &Live) -> NamedOrder
    ensures { result ≡ named_order live.now }
{
    NamedOrder {
        first: live.order.first,
        status: OrderStatus::of_live(live.order.cum),
    }
}

/// A refusal of a cancel or of a replace.
fn refusal(
    alloc: Global,
    request: RefusedRequest,
    id: &Id,
    orig: &Id,
    live: &Option<Live>,
    rule: Rule,
) -> Result<Kind, AllocError>
    ensures { IfOk result (λ kind. kind ≡ refusal request id.now orig.now live.now rule) }
{
    Ok(Kind::Refused {
        id: Id::copy_of(alloc, id.as_slice())?,
        orig: Id::copy_of(alloc, orig.as_slice())?,
        order: live.as_ref().map(named_order),
        request,
        rule,
    })
}

/// What is told of an order that a Cancel takes out: it has the id of the Cancel.
fn canceled(alloc: Global, id: &Id, orig: &Id, order: &Order) -> Result<Kind, AllocError>
    ensures { IfOk result (λ kind. kind
        ≡ OrderReport (record (view_closed order.now) { id = id.now }) (Canceled (Some orig.now))) }
{
    let mut view = view_closed(alloc, order)?;
    view.id = Id::copy_of(alloc, id.as_slice())?;
    let orig = Id::copy_of(alloc, orig.as_slice())?;
    Ok(Kind::Order {
        view,
        execution: Execution::Canceled { orig: Some(orig) },
    })
}

/// What is told of a replaced order with its row.
fn replaced(alloc: Global, orig: &Id, order: &Order, x: Priced) -> Result<Kind, AllocError>
    ensures { IfOk result (λ kind. kind ≡ OrderReport (view_of order.now (Some x)) (Replaced orig.now)) }
{
    let view = view_of(alloc, order, Some(x))?;
    let orig = Id::copy_of(alloc, orig.as_slice())?;
    Ok(Kind::Order {
        view,
        execution: Execution::Replaced { orig },
    })
}

/// The rows without one.
fn without(alloc: Global, entry: u32, rows: &[Priced]) -> Result<Vec<Priced>, AllocError>
    ensures { IfOk result (λ kept. kept.items ≡ without entry rows.now) }
{
    rows.iter()
        .copied()
        .filter(|x| x.row.entry != entry)
        .collect(alloc)
}

/// A row with other leaves, where this is its entry.
fn with_leaves(entry: u32, leaves: u32, x: Priced) -> Priced
    ensures { result ≡ with_leaves entry leaves x }
{
    if x.row.entry == entry {
        Priced {
            row: Row { leaves, ..x.row },
            value: x.value,
            time: x.time,
        }
    } else {
        x
    }
}

/// The rows with other leaves in one.
fn all_with_leaves(
    alloc: Global,
    entry: u32,
    leaves: u32,
    rows: &[Priced],
) -> Result<Vec<Priced>, AllocError>
    ensures { IfOk result (λ changed. changed.items ≡ map (with_leaves entry leaves) rows.now) }
{
    rows.iter()
        .map(|x| with_leaves(entry, leaves, *x))
        .collect(alloc)
}

/// The order as a replace leaves it.
fn replaced_order(
    alloc: Global,
    tick: u32,
    id: &Id,
    terms: &Terms,
    order: &Order,
) -> Result<Order, AllocError>
    requires { IsTick tick }
    ensures { IfOk result (λ replaced. replaced ≡ replaced_order tick id.now terms.now order.now) }
{
    Ok(Order {
        member: order.member,
        first: order.first,
        id: Id::copy_of(alloc, id.as_slice())?,
        side: order.side,
        quantity: quantity_of(terms),
        pegged: is_pegged(terms),
        limit: limit_of(tick, terms),
        cum: order.cum,
        notional: order.notional,
    })
}

/// The same, in its place.
fn replace_order(
    alloc: Global,
    tick: u32,
    id: &Id,
    terms: &Terms,
    orders: &mut Vec<Order>,
    number: u32,
) -> Result<(), AllocError>
    requires { IsTick tick }
    ensures { IfOk result (λ _. orders.new.items
        ≡ changed_at (replaced_order tick id.now terms.now) number orders.old.items) }
{
    let k = number as usize;
    if k < orders.len() {
        let order = replaced_order(alloc, tick, id, terms, &orders[k])?;
        orders[k] = order;
    }
    Ok(())
}

/// Whether two orders meet their minimums in the same way.
fn same_method(x: Method, y: Method) -> bool
    ensures { result ≡ same_method x y }
{
    matches!(
        (x, y),
        (Method::Once, Method::Once) | (Method::Multiple, Method::Multiple)
    )
}

/// Whether a replace changes the quantity alone, and doesn't raise it.
#[tactic(auto, unfolding(eager_meaning::specs::Changing::only_lowers))]
fn only_lowers(tick: u32, terms: &Terms, live: &Live) -> bool
    requires { IsTick tick }
    ensures { result ≡ only_lowers tick terms.now live.now }
{
    let new = row_of(tick, 0, 0, 0, 0, terms);
    let old = live.row.row;
    same_key(new.key, old.key)
        && new.cap == old.cap
        && new.minimum == old.minimum
        && same_method(new.method, old.method)
        && !is_immediate(terms)
        && quantity_of(terms) <= live.order.quantity
}

impl Plain {
    /// The member used up an id.
    pub(crate) fn use_id(&mut self, alloc: Global, member: u32, id: &Id) -> Result<(), AllocError>
        ensures { IfOk result (λ _. self.new ≡ with_used member id.now self.old) }
    {
        let copy = Id::copy_of(alloc, id.as_slice())?;
        self.used.push((member, copy))?;
        Ok(())
    }

    /// A row leaves.
    fn take_row(&mut self, alloc: Global, x: Priced) -> Result<(), AllocError>
        ensures { IfOk result (λ _. self.new ≡ without_row x self.old) }
    {
        self.buys = without(alloc, x.row.entry, &self.buys)?;
        self.sells = without(alloc, x.row.entry, &self.sells)?;
        Ok(())
    }

    /// A live order leaves.
    #[tactic(auto, unfolding(eager_meaning::specs::Changing::cancel))]
    fn cancel(
        &mut self,
        alloc: Global,
        member: u32,
        id: &Id,
        orig: &Id,
        live: &Live,
    ) -> Result<Vec<Notice>, AllocError>
        ensures state { IfOk result (λ _. self.new ≡ (cancel member id.now orig.now live.now self.old).state) }
        ensures notices { IfOk result (λ notices. notices.items
            ≡ (cancel member id.now orig.now live.now self.old).notices) }
    {
        let kind = canceled(alloc, id, orig, &live.order)?;
        self.use_id(alloc, member, id)?;
        self.take_row(alloc, live.row)?;
        one_notice(alloc, member, kind)
    }

    /// A Cancel, with the live order that it names and the rule that it breaks, or none.
    #[tactic(auto, unfolding(eager_meaning::specs::Changing::on_cancel))]
    pub(crate) fn on_cancel(
        &mut self,
        asked: Asked,
        id: &Id,
        orig: &Id,
        live: &Option<Live>,
        broken: Option<Rule>,
    ) -> Result<Vec<Notice>, AllocError>
        ensures state { IfOk result (λ _. self.new
            ≡ (on_cancel asked.member id.now orig.now live.now broken self.old).state) }
        ensures notices { IfOk result (λ notices. notices.items
            ≡ (on_cancel asked.member id.now orig.now live.now broken self.old).notices) }
    {
        match (broken, live) {
            (Some(rule), live) => {
                let kind = refusal(asked.alloc, RefusedRequest::Cancel, id, orig, live, rule)?;
                one_notice(asked.alloc, asked.member, kind)
            }
            (None, Some(found)) => self.cancel(asked.alloc, asked.member, id, orig, found),
            (None, None) => Ok(Vec::new(asked.alloc)),
        }
    }

    /// An order has the terms of a replace.
    fn set_order(
        &mut self,
        alloc: Global,
        tick: u32,
        id: &Id,
        terms: &Terms,
        number: u32,
    ) -> Result<(), AllocError>
        requires { IsTick tick }
        ensures { IfOk result (λ _. self.new
            ≡ record self.old { orders = changed_at (replaced_order tick id.now terms.now) number self.old.orders }) }
    {
        replace_order(alloc, tick, id, terms, &mut self.orders, number)
    }

    /// The state after a replace of a live order, but for its row.
    fn set_terms(
        &mut self,
        asked: Asked,
        id: &Id,
        terms: &Terms,
        live: &Live,
    ) -> Result<(), AllocError>
        requires { IsTick asked.tick }
        ensures { IfOk result (λ _. self.new ≡ with_replaced asked.tick asked.member id.now terms.now live.now self.old) }
    {
        self.set_order(asked.alloc, asked.tick, id, terms, live.number)?;
        self.use_id(asked.alloc, asked.member, id)
    }

    /// The quantity of a live order changes.
    #[tactic(auto, unfolding(eager_meaning::specs::Changing::resize))]
    fn resize(
        &mut self,
        asked: Asked,
        id: &Id,
        orig: &Id,
        terms: &Terms,
        live: &Live,
    ) -> Result<Vec<Notice>, AllocError>
        requires { IsTick asked.tick }
        ensures state { IfOk result (λ _. self.new
            ≡ (resize asked.tick asked.member id.now orig.now terms.now live.now self.old).state) }
        ensures notices { IfOk result (λ notices. notices.items
            ≡ (resize asked.tick asked.member id.now orig.now terms.now live.now self.old).notices) }
    {
        let order = replaced_order(asked.alloc, asked.tick, id, terms, &live.order)?;
        let leaves = order.quantity.saturating_sub(order.cum);
        let entry = live.row.row.entry;
        let kind = replaced(asked.alloc, orig, &order, live.row)?;
        self.set_terms(asked, id, terms, live)?;
        self.buys = all_with_leaves(asked.alloc, entry, leaves, &self.buys)?;
        self.sells = all_with_leaves(asked.alloc, entry, leaves, &self.sells)?;
        one_notice(asked.alloc, asked.member, kind)
    }

    /// A live order leaves and enters anew.
    #[tactic(auto, unfolding(eager_meaning::specs::Changing::arrival_of_replace))]
    fn reenter(
        &mut self,
        asked: Asked,
        id: &Id,
        orig: &Id,
        terms: &Terms,
        live: &Live,
    ) -> Result<Vec<Notice>, AllocError>
        requires { IsTick asked.tick }
        ensures state { IfOk result (λ _. self.new
            ≡ (enter (arrival_of_replace asked.tick asked.event asked.member id.now orig.now terms.now live.now
            self.old)).state) }
        ensures notices { IfOk result (λ notices. notices.items
            ≡ (enter (arrival_of_replace asked.tick asked.event asked.member id.now orig.now terms.now live.now
            self.old)).notices) }
    {
        let x = self.priced_now(row_of(
            asked.tick,
            asked.event,
            live.number,
            asked.member,
            live.order.cum,
            terms,
        ));
        let order = replaced_order(asked.alloc, asked.tick, id, terms, &live.order)?;
        let kind = replaced(asked.alloc, orig, &order, x)?;
        self.set_terms(asked, id, terms, live)?;
        self.take_row(asked.alloc, live.row)?;
        self.enter(
            asked.alloc,
            x,
            is_immediate(terms),
            Notice {
                member: asked.member,
                kind,
            },
        )
    }

    /// A Replace, with the live order that it names and the rule that it breaks, or none.
    #[tactic(auto, unfolding(eager_meaning::specs::Changing::on_replace))]
    pub(crate) fn on_replace(
        &mut self,
        asked: Asked,
        id: &Id,
        orig: &Id,
        terms: &Terms,
        live: &Option<Live>,
        broken: Option<Rule>,
    ) -> Result<Vec<Notice>, AllocError>
        requires { IsTick asked.tick }
        ensures state { IfOk result (λ _. self.new
            ≡ (on_replace asked.tick asked.event asked.member id.now orig.now terms.now live.now broken
            self.old).state) }
        ensures notices { IfOk result (λ notices. notices.items
            ≡ (on_replace asked.tick asked.event asked.member id.now orig.now terms.now live.now broken
            self.old).notices) }
    {
        match (broken, live) {
            (Some(rule), live) => {
                let kind = refusal(asked.alloc, RefusedRequest::Replace, id, orig, live, rule)?;
                one_notice(asked.alloc, asked.member, kind)
            }
            (None, Some(found)) => {
                if only_lowers(asked.tick, terms, found) {
                    self.resize(asked, id, orig, terms, found)
                } else {
                    self.reenter(asked, id, orig, terms, found)
                }
            }
            (None, None) => Ok(Vec::new(asked.alloc)),
        }
    }
}
