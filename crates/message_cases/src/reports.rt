//! Reports as members are told them.
use crate::orders::tell_report;
use case_text::{Told, Words};
use fix_fields::{amount, number};
use std::alloc::{AllocError, Global};
use std::str::from_utf8;
use venue_words::{
    Execution, Kind, LiveOrder, NamedOrder, NoMemory, OrderStatus, RULES, RefusedRequest, Report,
    Rule, Side, View,
};

/// 2024-01-02 14:30:00 UTC, the moment of all events.
const MOMENT: i64 = 1_704_205_800_000;

/// An order; one with `leaves` is live.
fn view_of(words: &Words<'_>) -> Result<View, AllocError> {
    let live = match words.number(b"leaves") {
        Some(leaves) => Some(LiveOrder {
            leaves,
            price: words.number(b"price"),
            time: words.number(b"time").unwrap_or(0),
        }),
        None => None,
    };
    Ok(View {
        first: words.number(b"first").unwrap_or(0),
        id: words.id(b"id")?,
        side: if words.has(b"sell") {
            Side::Sell
        } else {
            Side::Buy
        },
        quantity: words.number(b"quantity").unwrap_or(0),
        pegged: words.has(b"pegged"),
        limit: words.number(b"limit"),
        cum: words.number(b"cum").unwrap_or(0),
        notional: u64::from(words.number(b"notional").unwrap_or(0)),
        live,
    })
}

/// The word behind event and place, and nothing where it is no text.
fn what_of<'a>(words: &Words<'a>) -> &'a str {
    from_utf8(words.at(2)).unwrap_or("")
}

/// What became of an order, by the word behind event and place.
fn execution_of(words: &Words<'_>) -> Result<Execution, AllocError> {
    Ok(match what_of(words) {
        "accepted" => Execution::Accepted,
        "traded" => Execution::Traded {
            quantity: words.number(b"shares").unwrap_or(0),
            price: words.number(b"at").unwrap_or(0),
        },
        "canceled" => Execution::Canceled {
            orig: match words.value(b"orig") {
                Some(_) => Some(words.id(b"orig")?),
                None => None,
            },
        },
        "replaced" => Execution::Replaced {
            orig: words.id(b"orig")?,
        },
        _ => Execution::Status,
    })
}

/// The rule of a number from 1 to 18, and else the first.
fn rule_of(words: &Words<'_>) -> Rule {
    let number = words.number(b"rule").unwrap_or(1).max(1);
    RULES
        .get(number as usize - 1)
        .copied()
        .unwrap_or(Rule::UnknownSymbol)
}

/// A Cancel or Replace that was refused.
fn refused_of(words: &Words<'_>, request: RefusedRequest) -> Result<Kind, AllocError> {
    let order = match words.number(b"first") {
        Some(first) => Some(NamedOrder {
            first,
            status: OrderStatus::of_live(words.number(b"cum").unwrap_or(0)),
        }),
        None => None,
    };
    Ok(Kind::Refused {
        id: words.id(b"id")?,
        orig: words.id(b"orig")?,
        order,
        request,
        rule: rule_of(words),
    })
}

/// What a report says, by the word behind event and place.
fn kind_of(words: &Words<'_>) -> Result<Kind, AllocError> {
    Ok(match what_of(words) {
        "rejected" => Kind::Rejected {
            id: words.id(b"id")?,
            side: words.byte(b"side"),
            quantity: words.value(b"quantity").and_then(amount).unwrap_or(0),
            rule: rule_of(words),
        },
        "unknown" => Kind::Unknown {
            id: words.id(b"id")?,
            side: words.byte(b"side"),
        },
        "refused_cancel" => refused_of(words, RefusedRequest::Cancel)?,
        "refused_replace" => refused_of(words, RefusedRequest::Replace)?,
        _ => Kind::Order {
            view: view_of(words)?,
            execution: execution_of(words)?,
        },
    })
}

/// The report that an input says.
fn report_of(alloc: Global, input: &[u8]) -> Result<Report, AllocError> {
    let words = Words::new(alloc, input)?;
    let kind = kind_of(&words)?;
    Ok(Report {
        event: number(words.at(0)).unwrap_or(0),
        place: number(words.at(1)).unwrap_or(0),
        member: 0,
        moment: MOMENT,
        kind,
    })
}

/// `report EVENT PLACE KIND [NAME[=VALUE]]..` tells the type and the body of a report: of symbol ZZ where the event is 0, and
/// else of X.
pub fn play(word: &str, input: &[u8], told: &mut Told) -> Result<bool, NoMemory> {
    if word != "report" {
        return Ok(false);
    }
    let report = report_of(told.alloc, input)?;
    let symbol: &[u8] = if report.event == 0 { b"ZZ" } else { b"X" };
    let done = tell_report(&report, symbol, told);
    drop(report);
    done?;
    Ok(true)
}
