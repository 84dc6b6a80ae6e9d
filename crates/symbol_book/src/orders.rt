//! The orders of a book.
ghost use Rattle.std.specs.Prelude.{◌≡◌, ℕ, ◌+◌, ◌<◌, ◌≤◌, ◌++◌, ◌∷◌, [], All, OnOk, Some, length, slice_get, slice_index_or, vec_len};
ghost use Rattle.venue_words.specs.Conditions.{IsTick};
ghost use Rattle.venue_words.specs.declared.limits.TheConstants.{MAX_ID_BYTES};
ghost use Rattle.eager_meaning.specs.declared.order.Order.{Order};
ghost use Rattle.eager_meaning.specs.Changing.{replaced_order};
ghost use Rattle.eager_meaning.specs.Orders.{changed_at};
ghost use Rattle.eager_meaning.specs.Terms.{quantity_of};
ghost use Rattle.eager_meaning.specs.Trades.{order_after, orders_after};
ghost use Rattle.symbol_book.specs.Orders.{HasIdWithin, HasLeft, IsSmall};

use crate::id_copies::IdCopies;
use eager_meaning::{Fill, Order, is_pegged, limit_of, quantity_of};
use std::alloc::{AllocError, Global};
use std::marker::Model;
use std::ops::DerefSlice;
use venue_words::{Id, Terms};

/// All orders that were accepted, live or not, each at its number, and copies of their ids that take no memory.
#[derive(Drop)]
pub struct Orders {
    list: Vec<Order>,
    copies: IdCopies,
}

impl Model for Orders {
    ghost use Rattle.std.specs.Prelude.{◌-◌, All, vec_len};
    ghost use Rattle.std.specs.Vec.{vec_capacity};
    ghost use Rattle.symbol_book.specs.Orders.{HasIdWithin, OrderList};

    ghost Value = { OrderList };

    ghost view = { λ o. record {
      items = o.list.items;
      room = vec_capacity o.list - vec_len o.list;
      copies = o.copies.count;
      longest = o.copies.longest;
    } };

    ghost invariant = { λ o. All (HasIdWithin o.copies.longest) o.list.items };
}

impl DerefSlice for Orders {
    type Elem = Order;

    ghost deref_gives = { λ orders list. list ≡ orders.items };

    fn deref(&self) -> &[Order] {
        self.list.as_slice()
    }
}

impl Orders {
    /// No orders.
    pub fn new(alloc: Global) -> Orders
        ensures items { result.items ≡ [] }
    {
        Orders {
            list: Vec::new(alloc),
            copies: IdCopies::new(alloc),
        }
    }

    /// All of them.
    pub fn as_slice(&self) -> &[Order]
        ensures { result.now ≡ self.now.items }
    {
        self.list.as_slice()
    }

    /// Allows for an id of so many bytes.
    fn allow(&mut self, bytes: usize)
        requires bytes { bytes ≤ MAX_ID_BYTES }
        ensures items { self.new.items ≡ self.old.items }
        ensures room { self.new.room ≡ self.old.room }
        ensures longest { bytes ≤ self.new.longest }
    {
        self.copies.allow(bytes);
    }

    /// Makes room for one more order, with an id of so many bytes, and for so many copies of ids.
    pub fn reserve(&mut self, alloc: Global, bytes: usize, copies: usize) -> Result<(), AllocError>
        requires bytes { bytes ≤ MAX_ID_BYTES }
        ensures items { self.new.items ≡ self.old.items }
        ensures room { OnOk result (0 < self.new.room) }
        ensures copies { OnOk result (copies ≤ self.new.copies) }
        ensures longest { OnOk result (bytes ≤ self.new.longest) }
    {
        self.list.reserve(1)?;
        self.allow(bytes);
        self.copies.fill(alloc, copies)
    }

    /// One more order.
    pub fn push_reserved(&mut self, order: Order)
        requires room { 0 < self.old.room }
        requires id { length order.id ≤ self.old.longest }
        ensures items { self.new.items ≡ self.old.items ++ order ∷ [] }
        ensures copies { self.new.copies ≡ self.old.copies }
        ensures longest { self.new.longest ≡ self.old.longest }
    {
        self.list.push_reserved(order);
    }

    /// A copy of an order's id.
    pub fn copy_id(&mut self, number: u32) -> Id
        requires here { number < length self.old.items }
        requires copies { 0 < self.old.copies }
        ensures copy { (order : Order) → result ≡ (slice_index_or self.old.items number order).id }
        ensures items { self.new.items ≡ self.old.items }
        ensures copies { self.new.copies + 1 ≡ self.old.copies }
        ensures longest { self.new.longest ≡ self.old.longest }
    {
        let order = &self.list[number as usize];
        self.copies.copy(&order.id)
    }

    /// A trade is added to both of its orders.
    #[tactic(auto, unfolding(eager_meaning::specs::Trades::orders_after))]
    pub fn add_fill(&mut self, fill: Fill)
        requires taker { HasLeft fill fill.taker.order self.old.items }
        requires contra { HasLeft fill fill.contra.order (changed_at (order_after fill) fill.taker.order self.old.items) }
        requires small { All IsSmall self.old.items }
        ensures items { self.new.items ≡ orders_after fill self.old.items }
        ensures small { All IsSmall self.new.items }
        ensures count { length self.new.items ≡ length self.old.items }
        ensures copies { self.new.copies ≡ self.old.copies }
        ensures longest { self.new.longest ≡ self.old.longest }
    {
        add_trade(&mut self.list, fill.taker.order, fill);
        add_trade(&mut self.list, fill.contra.order, fill);
    }

    /// An order gets the terms and the id of a replace; what it traded is kept.
    pub fn set_terms(&mut self, tick: u32, number: u32, id: Id, terms: &Terms)
        requires tick { IsTick tick }
        requires here { number < length self.old.items }
        requires small { All IsSmall self.old.items }
        requires id { length id ≤ self.old.longest }
        requires more { (order : Order) → slice_get self.old.items number ≡ Some order
            → order.cum < quantity_of terms.now }
        ensures items { self.new.items ≡ changed_at (replaced_order tick id terms.now) number self.old.items }
        ensures small { All IsSmall self.new.items }
        ensures copies { self.new.copies ≡ self.old.copies }
        ensures longest { self.new.longest ≡ self.old.longest }
    {
        set_terms(tick, &mut self.list, number, id, terms);
    }
}

/// A trade is added to an order.
#[tactic(auto, unfolding(eager_meaning::specs::Trades::order_after))]
fn add_trade(orders: &mut Vec<Order>, number: u32, fill: Fill)
    requires left { HasLeft fill number orders.old.items }
    requires small { All IsSmall orders.old.items }
    ensures items { orders.new.items ≡ changed_at (order_after fill) number orders.old.items }
    ensures small { All IsSmall orders.new.items }
    ensures count { vec_len orders.new ≡ vec_len orders.old }
    ensures ids { (most : ℕ) → All (HasIdWithin most) orders.old.items → All (HasIdWithin most) orders.new.items }
{
    let order = &mut orders[number as usize];
    order.cum += fill.quantity;
    order.notional += u64::from(fill.price) * u64::from(fill.quantity);
}

/// An order gets the terms and the id of a replace.
fn set_terms(tick: u32, orders: &mut Vec<Order>, number: u32, id: Id, terms: &Terms)
    requires tick { IsTick tick }
    requires here { number < length orders.old.items }
    requires small { All IsSmall orders.old.items }
    requires more { (order : Order) → slice_get orders.old.items number ≡ Some order
        → order.cum < quantity_of terms.now }
    ensures items { orders.new.items ≡ changed_at (replaced_order tick id terms.now) number orders.old.items }
    ensures small { All IsSmall orders.new.items }
    ensures ids { (most : ℕ) → length id ≤ most → All (HasIdWithin most) orders.old.items
        → All (HasIdWithin most) orders.new.items }
{
    let order = &mut orders[number as usize];
    order.id = id;
    order.quantity = quantity_of(terms);
    order.pegged = is_pegged(terms);
    order.limit = limit_of(tick, terms);
}
