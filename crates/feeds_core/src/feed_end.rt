//! What stands behind the whole lines of a feed.
ghost use Rattle.std.specs.Prelude.{◌≡◌, ◌<◌, ◌-◌, ◌^◌};
ghost use Rattle.feeds_core.specs.FeedTexts.{end_fault};

use crate::feed_text::FeedEnd;
use script_text::{LimitCause, LineCause, LineFault};

/// Why the line behind so many whole lines is refused, if there is one.
pub fn end_fault(end: FeedEnd, count: u32) -> Option<LineFault>
    requires { count < 2 ^ 32 - 1 }
    ensures { result ≡ end_fault end count }
{
    let line = count + 1;
    match end {
        FeedEnd::Whole => None,
        FeedEnd::Unended => Some(LineFault::Bad {
            line,
            cause: LineCause::NoEnd,
        }),
        FeedEnd::TooLong => Some(LineFault::Limit {
            line,
            which: LimitCause::Line,
        }),
        FeedEnd::Over => Some(LineFault::Limit {
            line,
            which: LimitCause::Bytes,
        }),
    }
}
