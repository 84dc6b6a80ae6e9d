//! How an order enters a symbol's book.
ghost use Rattle.std.specs.Prelude.{◌≡◌, ◌++◌, [], ◌∷◌, IfOk};
ghost use Rattle.venue_words.specs.Conditions.{IsTick};
ghost use Rattle.eager_meaning.specs.Matching.{unfilled};
ghost use Rattle.eager_meaning.specs.Entering.{entered, leftover_notice, leftover_notices, enter, priced_now, accepted_order, with_accepted, arrival_of_new, on_new};

use crate::asked::Asked;
use crate::matching::{fills_of, row_after, rows_after, takes_of};
use crate::notices::one_notice;
use crate::pegging::{best_of, value_under};
use crate::plain::Plain;
use crate::trading::push_trade_notices;
use crate::views::{view_closed, view_of};
use eager_meaning::{
    Fill, Notice, Order, is_immediate, is_pegged, limit_of, quantity_of, row_of, side_of,
};
use std::alloc::{AllocError, Global};
use std::marker::Model;
use venue_words::{Execution, Id, Kind, Priced, Row, Rule, Side, Terms};

/// The rows and trades after an order entered, and what is left of it.
#[derive(Drop)]
pub struct Entering {
    pub own: Vec<Priced>,
    pub others: Vec<Priced>,
    pub fills: Vec<Fill>,
    pub left: Vec<Priced>,
}

impl Model for Entering {
    ghost use Rattle.eager_meaning.specs.Entering.{Entered};

    ghost Value = { Entered };

    ghost view = { λ e.
        record { own = e.own.items; others = e.others.items; fills = e.fills.items; left = e.left.items } };
}

/// A row where it has shares left.
fn unfilled(alloc: Global, x: Priced) -> Result<Vec<Priced>, AllocError>
    ensures { IfOk result (λ rows. rows.items ≡ unfilled (x ∷ [])) }
{
    let mut rows = Vec::new(alloc);
    if 0 < x.row.leaves {
        rows.push(x)?;
    }
    Ok(rows)
}

/// An order walks once, and what is left rests, but of one that stays only to trade at once.
#[tactic(auto, unfolding(eager_meaning::specs::Entering::entered))]
fn entered(
    alloc: Global,
    taker: &Priced,
    immediate: bool,
    own: &[Priced],
    others: &[Priced],
) -> Result<Entering, AllocError>
    ensures { IfOk result (λ after. after ≡ entered taker.now immediate own.now others.now) }
{
    let (takes, total) = takes_of(alloc, taker, others)?;
    let left = unfilled(alloc, row_after(total, *taker))?;
    let mut rows = Vec::from_slice(alloc, own)?;
    if !immediate {
        rows.extend_from_slice(&left)?;
    }
    Ok(Entering {
        own: rows,
        others: rows_after(alloc, &takes, others)?,
        fills: fills_of(alloc, taker, &takes)?,
        left,
    })
}

/// What is left of an order that stays only to trade at once is canceled.
#[tactic(auto, unfolding(eager_meaning::specs::Entering::leftover_notices))]
fn push_leftover_notices(
    alloc: Global,
    notices: &mut Vec<Notice>,
    immediate: bool,
    left: &[Priced],
    orders: &[Order],
) -> Result<(), AllocError>
    ensures { IfOk result (λ _. notices.new.items ≡ notices.old.items ++ leftover_notices immediate left.now orders.now) }
{
    if immediate {
        for x in left {
            push_leftover(alloc, notices, x.row.order, orders)?;
        }
    }
    Ok(())
}

/// An order that leaves with untraded shares is canceled.
fn push_leftover(
    alloc: Global,
    notices: &mut Vec<Notice>,
    number: u32,
    orders: &[Order],
) -> Result<(), AllocError>
    ensures { IfOk result (λ _. notices.new.items ≡ notices.old.items ++ leftover_notice number orders.now) }
{
    let k = number as usize;
    if k < orders.len() {
        let order = &orders[k];
        let view = view_closed(alloc, order)?;
        notices.push(Notice {
            member: order.member,
            kind: Kind::Order {
                view,
                execution: Execution::Canceled { orig: None },
            },
        })?;
    }
    Ok(())
}

/// An accepted order, before it trades.
#[tactic(auto, unfolding(eager_meaning::specs::Entering::accepted_order))]
fn accepted_order(
    alloc: Global,
    tick: u32,
    event: u32,
    member: u32,
    id: &Id,
    terms: &Terms,
) -> Result<Order, AllocError>
    requires { IsTick tick }
    ensures { IfOk result (λ order. order ≡ accepted_order tick event member id.now terms.now) }
{
    Ok(Order {
        member,
        first: event,
        id: Id::copy_of(alloc, id.as_slice())?,
        side: side_of(terms),
        quantity: quantity_of(terms),
        pegged: is_pegged(terms),
        limit: limit_of(tick, terms),
        cum: 0,
        notional: 0,
    })
}

impl Plain {
    /// An order enters: its notice comes first, then those of its trades, then that of what is left.
    #[tactic(auto, unfolding(eager_meaning::specs::Entering::enter))]
    pub(crate) fn enter(
        &mut self,
        alloc: Global,
        taker: Priced,
        immediate: bool,
        notice: Notice,
    ) -> Result<Vec<Notice>, AllocError>
        ensures state { IfOk result (λ _. self.new
            ≡ (enter (record { taker = taker; immediate = immediate; state = self.old; notice = notice })).state) }
        ensures notices { IfOk result (λ notices. notices.items
            ≡ (enter (record { taker = taker; immediate = immediate; state = self.old; notice = notice })).notices) }
    {
        let mut notices = Vec::new(alloc);
        notices.push(notice)?;
        match taker.row.key.side {
            Side::Buy => {
                let Entering {
                    own,
                    others,
                    fills,
                    left,
                } = entered(alloc, &taker, immediate, &self.buys, &self.sells)?;
                push_trade_notices(alloc, &mut notices, &fills, &mut self.orders)?;
                push_leftover_notices(alloc, &mut notices, immediate, &left, &self.orders)?;
                self.buys = own;
                self.sells = others;
            }
            Side::Sell => {
                let Entering {
                    own,
                    others,
                    fills,
                    left,
                } = entered(alloc, &taker, immediate, &self.sells, &self.buys)?;
                push_trade_notices(alloc, &mut notices, &fills, &mut self.orders)?;
                push_leftover_notices(alloc, &mut notices, immediate, &left, &self.orders)?;
                self.buys = others;
                self.sells = own;
            }
        }
        Ok(notices)
    }

    /// A row is priced by the present quote.
    pub(crate) fn priced_now(&self, row: Row) -> Priced
        ensures { result ≡ priced_now self.now row }
    {
        Priced {
            row,
            value: value_under(best_of(&self.markets), row),
            time: row.entry,
        }
    }

    /// The state with an accepted order, but for its row.
    fn add_order(
        &mut self,
        alloc: Global,
        member: u32,
        id: &Id,
        order: Order,
    ) -> Result<(), AllocError>
        ensures { IfOk result (λ _. self.new ≡ with_accepted member id.now order self.old) }
    {
        self.orders.push(order)?;
        self.use_id(alloc, member, id)
    }

    /// An order is accepted and enters.
    #[tactic(auto, unfolding(eager_meaning::specs::Entering::arrival_of_new))]
    fn accept(&mut self, asked: Asked, id: &Id, terms: &Terms) -> Result<Vec<Notice>, AllocError>
        requires { IsTick asked.tick }
        ensures state { IfOk result (λ _. self.new
            ≡ (enter (arrival_of_new asked.tick asked.event asked.member id.now terms.now self.old)).state) }
        ensures notices { IfOk result (λ notices. notices.items
            ≡ (enter (arrival_of_new asked.tick asked.event asked.member id.now terms.now self.old)).notices) }
    {
        let number = u32::try_from(self.orders.len()).map_err(|_| AllocError)?;
        let order = accepted_order(
            asked.alloc,
            asked.tick,
            asked.event,
            asked.member,
            id,
            terms,
        )?;
        let x = self.priced_now(row_of(asked.tick, asked.event, number, asked.member, 0, terms));
        let view = view_of(asked.alloc, &order, Some(x))?;
        self.add_order(asked.alloc, asked.member, id, order)?;
        self.enter(
            asked.alloc,
            x,
            is_immediate(terms),
            Notice {
                member: asked.member,
                kind: Kind::Order {
                    view,
                    execution: Execution::Accepted,
                },
            },
        )
    }

    /// A New, with the rule that it breaks or none.
    #[tactic(auto, unfolding(eager_meaning::specs::Entering::on_new))]
    pub(crate) fn on_new(
        &mut self,
        asked: Asked,
        id: &Id,
        terms: &Terms,
        broken: Option<Rule>,
    ) -> Result<Vec<Notice>, AllocError>
        requires { IsTick asked.tick }
        ensures state { IfOk result (λ _. self.new
            ≡ (on_new asked.tick asked.event asked.member id.now terms.now broken self.old).state) }
        ensures notices { IfOk result (λ notices. notices.items
            ≡ (on_new asked.tick asked.event asked.member id.now terms.now broken self.old).notices) }
    {
        match broken {
            Some(rule) => {
                let kind = Kind::Rejected {
                    id: Id::copy_of(asked.alloc, id.as_slice())?,
                    side: terms.side,
                    quantity: terms.quantity,
                    rule,
                };
                one_notice(asked.alloc, asked.member, kind)
            }
            None => self.accept(asked, id, terms),
        }
    }
}
