//! The limit on the bytes of a whole text.
ghost use Rattle.std.specs.Prelude.{◌≡◌, Err, if◌then◌else◌};
ghost use Rattle.line_reader.specs.Over.{over, over_fault};

use script_text::{LimitCause, LineFault};

/// What a fault comes to in a line that holds the byte past the limit: a bad line and a long one come before that limit.
pub fn over_fault(fault: LineFault) -> LineFault
    ensures { result ≡ over_fault fault }
{
    match fault {
        LineFault::Limit {
            line,
            which: LimitCause::Line,
        } => LineFault::Limit {
            line,
            which: LimitCause::Line,
        },
        LineFault::Limit { line, which: _ } => LineFault::Limit {
            line,
            which: LimitCause::Bytes,
        },
        other => other,
    }
}

/// What a line comes to under the limit, by what it came to without: `is_over` says that it holds the byte past the limit.
pub fn weigh<T: Drop>(read: Result<T, LineFault>, line: u32, is_over: bool) -> Result<T, LineFault>
    ensures { result ≡ (if is_over then Err (over line read) else read) }
{
    if !is_over {
        return read;
    }
    match read {
        Ok(_) => Err(LineFault::Limit {
            line,
            which: LimitCause::Bytes,
        }),
        Err(fault) => Err(over_fault(fault)),
    }
}
