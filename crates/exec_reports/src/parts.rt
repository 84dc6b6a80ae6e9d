//! What a report says, by its kind.
ghost use Rattle.std.specs.Prelude.{◌≡◌};
ghost use Rattle.std.specs.Option.{option_copied};
ghost use Rattle.exec_reports.specs.Parts.{view_in, standing_in, first_in, id_in, orig_in, exec_type, status_in, reason_in, side_in, type_code, type_in, limit_in, last_quantity_in, last_price_in, leaves_in, cum_in, notional_in, price_in, time_in, rule_in, answer_in, refusal_in, is_refusal};

use crate::codes::{refuse_reason, reject_reason, request_code, side_code, status_code};
use venue_words::{Execution, Id, Kind, LiveOrder, View};

/// The order that a report shows.
#[tactic(auto, unfolding(crate::specs::Parts::view_in))]
pub fn view_of(kind: &Kind) -> Option<&View>
    ensures { option_copied result ≡ view_in kind.now }
{
    match kind {
        Kind::Order { view, .. } => Some(view),
        Kind::Rejected { .. } | Kind::Unknown { .. } | Kind::Refused { .. } => None,
    }
}

/// What a live order has, where a report shows its price and time.
#[tactic(auto, unfolding(crate::specs::Parts::standing_in))]
pub fn standing_of(kind: &Kind) -> Option<LiveOrder>
    ensures { result ≡ standing_in kind.now }
{
    match kind {
        Kind::Order {
            view,
            execution: Execution::Accepted | Execution::Replaced { .. } | Execution::Status,
        } => view.live,
        _ => None,
    }
}

/// The event of the New of the order that is meant.
#[tactic(auto, unfolding(crate::specs::Parts::first_in))]
pub fn first_of(kind: &Kind) -> Option<u32>
    ensures { result ≡ first_in kind.now }
{
    match kind {
        Kind::Order { view, .. } => Some(view.first),
        Kind::Refused { order, .. } => order.map(|named| named.first),
        Kind::Rejected { .. } | Kind::Unknown { .. } => None,
    }
}

/// ClOrdID(11).
#[tactic(auto, unfolding(crate::specs::Parts::id_in))]
pub fn id_of(kind: &Kind) -> &[u8]
    ensures { result.now ≡ id_in kind.now }
{
    match kind {
        Kind::Order { view, .. } => view.id.as_slice(),
        Kind::Rejected { id, .. } | Kind::Unknown { id, .. } | Kind::Refused { id, .. } => {
            id.as_slice()
        }
    }
}

/// OrigClOrdID(41).
#[tactic(auto, unfolding(crate::specs::Parts::orig_in))]
pub fn orig_of(kind: &Kind) -> Option<&Id>
    ensures { option_copied result ≡ orig_in kind.now }
{
    match kind {
        Kind::Order {
            execution: Execution::Canceled { orig },
            ..
        } => orig.as_ref(),
        Kind::Order {
            execution: Execution::Replaced { orig },
            ..
        } => Some(orig),
        Kind::Refused { orig, .. } => Some(orig),
        _ => None,
    }
}

/// ExecType(150).
#[tactic(auto, unfolding(crate::specs::Parts::exec_type))]
pub fn type_of_report(kind: &Kind) -> u8
    ensures { result ≡ exec_type kind.now }
{
    match kind {
        Kind::Order { execution, .. } => match execution {
            Execution::Accepted => b'0',
            Execution::Traded { .. } => b'F',
            Execution::Canceled { .. } => b'4',
            Execution::Replaced { .. } => b'5',
            Execution::Status => b'I',
        },
        Kind::Rejected { .. } | Kind::Refused { .. } => b'8',
        Kind::Unknown { .. } => b'I',
    }
}

/// OrdStatus(39).
#[tactic(auto, unfolding(crate::specs::Parts::status_in))]
pub fn status_of(kind: &Kind) -> u8
    ensures { result ≡ status_in kind.now }
{
    match kind {
        Kind::Order { view, .. } => status_code(view.status()),
        Kind::Refused {
            order: Some(named),
            ..
        } => status_code(named.status),
        _ => b'8',
    }
}

/// OrdRejReason(103). Event 0 is that of a message that came to no book.
#[tactic(auto, unfolding(crate::specs::Parts::reason_in))]
pub fn reason_of(event: u32, kind: &Kind) -> Option<u8>
    ensures { result ≡ reason_in event kind.now }
{
    match kind {
        Kind::Rejected { rule, .. } => Some(reject_reason(*rule)),
        Kind::Unknown { .. } => Some(if event == 0 { 1 } else { 5 }),
        _ => None,
    }
}

/// Side(54). A refused cancel or replace shows none.
#[tactic(auto, unfolding(crate::specs::Parts::side_in))]
pub fn side_of(kind: &Kind) -> u8
    ensures { result ≡ side_in kind.now }
{
    match kind {
        Kind::Order { view, .. } => side_code(view.side),
        Kind::Rejected { side, .. } | Kind::Unknown { side, .. } => *side,
        Kind::Refused { .. } => 0,
    }
}

/// OrdType(40).
pub fn type_of(kind: &Kind) -> Option<u8>
    ensures { result ≡ type_in kind.now }
{
    view_of(kind).map(|view| if view.pegged { b'P' } else { b'2' })
}

/// Price(44), in units of 0.005.
pub fn limit_of(kind: &Kind) -> Option<u32>
    ensures { result ≡ limit_in kind.now }
{
    view_of(kind).and_then(|view| view.limit)
}

/// LastQty(32).
#[tactic(auto, unfolding(crate::specs::Parts::last_quantity_in))]
pub fn last_quantity_of(kind: &Kind) -> Option<u32>
    ensures { result ≡ last_quantity_in kind.now }
{
    match kind {
        Kind::Order {
            execution: Execution::Traded { quantity, .. },
            ..
        } => Some(*quantity),
        _ => None,
    }
}

/// LastPx(31), in units of 0.005.
#[tactic(auto, unfolding(crate::specs::Parts::last_price_in))]
pub fn last_price_of(kind: &Kind) -> Option<u32>
    ensures { result ≡ last_price_in kind.now }
{
    match kind {
        Kind::Order {
            execution: Execution::Traded { price, .. },
            ..
        } => Some(*price),
        _ => None,
    }
}

/// LeavesQty(151).
pub fn leaves_of(kind: &Kind) -> u32
    ensures { result ≡ leaves_in kind.now }
{
    view_of(kind)
        .and_then(|view| view.live)
        .map_or(0, |live| live.leaves)
}

/// CumQty(14).
pub fn cum_of(kind: &Kind) -> u32
    ensures { result ≡ cum_in kind.now }
{
    view_of(kind).map_or(0, |view| view.cum)
}

/// The sum of price times quantity over the order's trades, in units of 0.005.
pub fn notional_of(kind: &Kind) -> u64
    ensures { result ≡ notional_in kind.now }
{
    view_of(kind).map_or(0, |view| view.notional)
}

/// PeggedPrice(839), in units of 0.005.
pub fn price_of(kind: &Kind) -> Option<u32>
    ensures { result ≡ price_in kind.now }
{
    standing_of(kind).and_then(|live| live.price)
}

/// The priority event(9701).
pub fn time_of(kind: &Kind) -> Option<u32>
    ensures { result ≡ time_in kind.now }
{
    standing_of(kind).map(|live| live.time)
}

/// The rule's number(9702).
#[tactic(auto, unfolding(crate::specs::Parts::rule_in))]
pub fn rule_of(kind: &Kind) -> Option<u8>
    ensures { result ≡ rule_in kind.now }
{
    match kind {
        Kind::Rejected { rule, .. } | Kind::Refused { rule, .. } => Some(rule.number()),
        _ => None,
    }
}

/// CxlRejResponseTo(434).
#[tactic(auto, unfolding(crate::specs::Parts::answer_in))]
pub fn answer_of(kind: &Kind) -> Option<u8>
    ensures { result ≡ answer_in kind.now }
{
    match kind {
        Kind::Refused { request, .. } => Some(request_code(*request)),
        _ => None,
    }
}

/// CxlRejReason(102).
#[tactic(auto, unfolding(crate::specs::Parts::refusal_in))]
pub fn refusal_of(kind: &Kind) -> Option<u8>
    ensures { result ≡ refusal_in kind.now }
{
    match kind {
        Kind::Refused { rule, .. } => Some(refuse_reason(*rule)),
        _ => None,
    }
}

/// Whether a cancel or a replace was refused.
pub fn refuses(kind: &Kind) -> bool
    ensures { result ≡ is_refusal kind.now }
{
    matches!(kind, Kind::Refused { .. })
}
