//! Reports as lines: the event and the place, the member, what it says of which id, and the fields.
use crate::ticks::{show_price, show_ten_thousandths};
use case_text::Told;
use std::fmt::Display;
use venue_words::{Execution, Id, Kind, NamedOrder, OrderStatus, RefusedRequest, Report, View};

fn tell_name(name: &str, told: &mut Told) {
    told.push(" ");
    told.push(name);
    told.push("=");
}

fn tell_field<V: Display>(name: &str, value: &V, told: &mut Told) {
    tell_name(name, told);
    told.show(value);
}

fn tell_price(name: &str, units: u32, told: &mut Told) {
    tell_name(name, told);
    show_price(units, told);
}

fn tell_status(status: OrderStatus, told: &mut Told) {
    tell_name("status", told);
    told.push(match status {
        OrderStatus::New => "new",
        OrderStatus::PartiallyFilled => "partly_filled",
        OrderStatus::Filled => "filled",
        OrderStatus::Canceled => "canceled",
    });
}

/// Tells what is said of an id, and which one that takes the place of.
fn tell_head(what: &str, id: &Id, orig: Option<&Id>, told: &mut Told) {
    told.push(" ");
    told.push(what);
    told.push(" ");
    told.bytes(id.as_slice());
    if let Some(orig) = orig {
        tell_name("orig", told);
        told.bytes(orig.as_slice());
    }
}

/// Tells what is left of an order, what it traded, and the average price.
fn tell_sums(view: &View, told: &mut Told) {
    tell_field("leaves", &view.live.map_or(0, |live| live.leaves), told);
    tell_field("cum", &view.cum, told);
    tell_name("average", told);
    let average = view
        .notional
        .saturating_mul(50)
        .checked_div(u64::from(view.cum));
    show_ten_thousandths(average.unwrap_or(0), told);
}

/// Tells an order's status, leaves, price and time, or the sums of one that left.
fn tell_standing(view: &View, told: &mut Told) {
    tell_status(view.status(), told);
    let Some(live) = view.live else {
        return tell_sums(view, told);
    };
    tell_field("leaves", &live.leaves, told);
    if let Some(price) = live.price {
        tell_price("price", price, told);
    }
    tell_field("time", &live.time, told);
}

/// Tells what became of an order.
fn tell_execution(view: &View, execution: &Execution, told: &mut Told) {
    match execution {
        Execution::Accepted => tell_head("accepted", &view.id, None, told),
        Execution::Status => tell_head("shown", &view.id, None, told),
        Execution::Replaced { orig } => {
            tell_head("replaced", &view.id, Some(orig), told);
            tell_field("first", &view.first, told);
        }
        Execution::Traded { quantity, price } => {
            tell_head("traded", &view.id, None, told);
            tell_status(view.status(), told);
            tell_field("shares", quantity, told);
            tell_price("at", *price, told);
            return tell_sums(view, told);
        }
        Execution::Canceled { orig } => {
            tell_head("canceled", &view.id, orig.as_ref(), told);
            tell_status(view.status(), told);
            return tell_sums(view, told);
        }
    }
    tell_standing(view, told);
}

/// Tells the order that a refused request names.
fn tell_named(order: &Option<NamedOrder>, told: &mut Told) {
    match order {
        Some(order) => {
            tell_field("first", &order.first, told);
            tell_status(order.status, told);
        }
        None => told.push(" of no order"),
    }
}

fn tell_kind(kind: &Kind, told: &mut Told) {
    match kind {
        Kind::Order { view, execution } => tell_execution(view, execution, told),
        Kind::Rejected { id, rule, .. } => {
            tell_head("rejected", id, None, told);
            tell_field("rule", &rule.number(), told);
        }
        Kind::Unknown { id, .. } => tell_head("unknown", id, None, told),
        Kind::Refused {
            id,
            orig,
            order,
            request,
            rule,
        } => {
            let what = match request {
                RefusedRequest::Cancel => "refused_cancel",
                RefusedRequest::Replace => "refused_replace",
            };
            tell_head(what, id, Some(orig), told);
            tell_named(order, told);
            tell_field("rule", &rule.number(), told);
        }
    }
}

/// Tells a report on a line of its own.
pub fn tell_report(report: &Report, told: &mut Told) {
    told.push("\n  ");
    told.show(&report.event);
    told.push("-");
    told.show(&report.place);
    told.push(match report.member {
        0 => " A",
        1 => " B",
        2 => " C",
        _ => " D",
    });
    tell_kind(&report.kind, told);
}
