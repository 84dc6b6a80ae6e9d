//! What members are told.
ghost use Rattle.std.specs.Prelude.{◌≡◌};
ghost use Rattle.venue_words.specs.Reports.{live_status, status_of};

use crate::id::Id;
use crate::items::Items;
use crate::price::Side;
use crate::rule::Rule;

/// OrdStatus(39).
#[derive(Clone, Copy, Debug, PartialEq, Eq)]
pub enum OrderStatus {
    /// `0`: live, and it has not traded.
    New,
    /// `1`: live, and it has traded.
    PartiallyFilled,
    /// `2`: all its shares have traded.
    Filled,
    /// `4`: it left with shares that had not traded.
    Canceled,
}

impl OrderStatus {
    /// The status of a live order that has traded so many shares.
    pub fn of_live(cum: u32) -> OrderStatus
        ensures { result ≡ live_status cum }
    {
        if cum == 0 {
            OrderStatus::New
        } else {
            OrderStatus::PartiallyFilled
        }
    }
}

/// What an order has while it is live.
#[derive(Clone, Copy, Debug, PartialEq, Eq)]
pub struct LiveOrder {
    /// LeavesQty(151): the shares that have not traded.
    pub leaves: u32,
    /// PeggedPrice(839) in units of 0.005: none where it has no price at present.
    pub price: Option<u32>,
    /// PriorityEvent(9701): the number of the event of its time.
    pub time: u32,
}

/// An order as a report shows it. Prices are in units of 0.005.
#[derive(Debug, Drop)]
pub struct View {
    /// ClOrdID(11).
    pub id: Id,
    /// The sum of price times quantity over its trades, from which AvgPx(6) is made.
    pub notional: u64,
    /// The number of the event of its New, from which OrderID(37) is made.
    pub first: u32,
    /// OrderQty(38) in shares.
    pub quantity: u32,
    /// CumQty(14): the shares that it has traded.
    pub cum: u32,
    /// Price(44), where it has a limit.
    pub limit: Option<u32>,
    /// Its leaves, price and time; none where it has left.
    pub live: Option<LiveOrder>,
    pub side: Side,
    /// Whether it is pegged (40=P) and not a limit order (40=2).
    pub pegged: bool,
}

impl View {
    /// OrdStatus(39) of the order.
    pub fn status(&self) -> OrderStatus
        ensures { result ≡ status_of self.now }
    {
        match self.live {
            Some(_) => OrderStatus::of_live(self.cum),
            None if self.cum == self.quantity => OrderStatus::Filled,
            None => OrderStatus::Canceled,
        }
    }
}

/// What a report tells of an order; ExecType(150).
#[derive(Debug, Drop)]
pub enum Execution {
    /// The order entered (150=0).
    Accepted,
    /// The order traded so many shares at a price (150=F).
    Traded { quantity: u32, price: u32 },
    /// The order left (150=4): by a cancel, which `orig` then answers, or because what was left of an
    /// immediate order may not rest.
    Canceled { orig: Option<Id> },
    /// The order has new terms and a new ClOrdID (150=5); `orig` is the one that it had.
    Replaced { orig: Id },
    /// The order as it is (150=I).
    Status,
}

/// Which request an OrderCancelReject (35=9) answers; CxlRejResponseTo(434).
#[derive(Clone, Copy, Debug, PartialEq, Eq)]
pub enum RefusedRequest {
    /// `1`: OrderCancelRequest (35=F).
    Cancel,
    /// `2`: OrderCancelReplaceRequest (35=G).
    Replace,
}

/// The live order that a refused request names.
#[derive(Clone, Copy, Debug, PartialEq, Eq)]
pub struct NamedOrder {
    /// The number of the event of its New, from which OrderID(37) is made.
    pub first: u32,
    /// OrdStatus(39).
    pub status: OrderStatus,
}

/// What a report says.
#[derive(Debug, Drop)]
pub enum Kind {
    /// An order as it is now, and what became of it.
    Order {
        view: View,
        execution: Execution,
    },
    /// A New broke a rule (150=8). Side, quantity and id are those received.
    Rejected {
        id: Id,
        side: u8,
        quantity: i128,
        rule: Rule,
    },
    /// A status request that names no order (150=I). The side is the byte received.
    Unknown {
        id: Id,
        side: u8,
    },
    /// OrderCancelReject (35=9): a Cancel or a Replace broke a rule. `order` is the live order that `orig`
    /// names, if any.
    Refused {
        id: Id,
        orig: Id,
        order: Option<NamedOrder>,
        request: RefusedRequest,
        rule: Rule,
    },
}

/// A report of an event to a member.
#[derive(Debug)]
pub struct Report {
    pub event: u32,
    /// Its place among the event's reports, counted from 1.
    pub place: u32,
    pub member: u32,
    /// The event's moment, in milliseconds since 1970-01-01 00:00 UTC.
    pub moment: i64,
    pub kind: Kind,
}

// Written out, so that crates above let go of one by this theorem, and not part by part.
impl Drop for Report {
    fn drop(self) {
        let Report {
            event: _,
            place: _,
            member: _,
            moment: _,
            kind: _,
        } = self;
    }
}

/// A member's reports from a position on.
#[derive(Debug, Drop)]
pub struct Look {
    pub reports: Items<Report>,
    /// How many reports there are in all, of every member.
    pub front: u32,
}
