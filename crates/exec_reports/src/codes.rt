//! The codes of values on the wire.
ghost use Rattle.std.specs.Prelude.{◌≡◌};
ghost use Rattle.exec_reports.specs.Codes.{status_code, side_code, request_code, reject_reason, refuse_reason};

use venue_words::{OrderStatus, RefusedRequest, Rule, Side};

/// OrdStatus(39).
#[tactic(auto, unfolding(crate::specs::Codes::status_code))]
pub fn status_code(status: OrderStatus) -> u8
    ensures { result ≡ status_code status }
{
    match status {
        OrderStatus::New => b'0',
        OrderStatus::PartiallyFilled => b'1',
        OrderStatus::Filled => b'2',
        OrderStatus::Canceled => b'4',
    }
}

/// Side(54).
#[tactic(auto, unfolding(crate::specs::Codes::side_code))]
pub fn side_code(side: Side) -> u8
    ensures { result ≡ side_code side }
{
    match side {
        Side::Buy => b'1',
        Side::Sell => b'2',
    }
}

/// CxlRejResponseTo(434).
#[tactic(auto, unfolding(crate::specs::Codes::request_code))]
pub fn request_code(request: RefusedRequest) -> u8
    ensures { result ≡ request_code request }
{
    match request {
        RefusedRequest::Cancel => b'1',
        RefusedRequest::Replace => b'2',
    }
}

/// Why a New that broke a rule is rejected: OrdRejReason(103).
#[tactic(auto, unfolding(crate::specs::Codes::reject_reason))]
pub fn reject_reason(rule: Rule) -> u8
    ensures { result ≡ reject_reason rule }
{
    match rule {
        Rule::UnknownSymbol => 1,
        Rule::UsedId => 6,
        Rule::Quantity | Rule::Minimum => 13,
        Rule::NoPrice | Rule::Price | Rule::PegOffset => 99,
        _ => 11,
    }
}

/// Why a cancel or a replace that broke a rule is refused: CxlRejReason(102).
#[tactic(auto, unfolding(crate::specs::Codes::refuse_reason))]
pub fn refuse_reason(rule: Rule) -> u8
    ensures { result ≡ refuse_reason rule }
{
    match rule {
        Rule::UnknownSymbol | Rule::UnknownOrder => 1,
        Rule::UsedId => 6,
        _ => 99,
    }
}
