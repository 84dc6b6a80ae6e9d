//! Why a line was not worked to its end.
ghost use Rattle.std.specs.Prelude.{◌≡◌};
ghost use Rattle.line_work.specs.Refusing.{fault_at, refusal_at};

use member_gate::DeskRefusal;
use script_text::{LimitCause, LineFault};

/// The fault of the line of this number, counted from 1, whose work was refused.
pub fn refusal_at(line: u32, refusal: DeskRefusal) -> LineFault
    ensures { result ≡ refusal_at line refusal }
{
    match refusal {
        DeskRefusal::Full { .. } => LineFault::Limit {
            line,
            which: LimitCause::Events,
        },
        DeskRefusal::NoMemory => LineFault::NoMemory,
    }
}

/// A line's fault as that of the line of this number, counted from 1.
pub fn fault_at(line: u32, fault: LineFault) -> LineFault
    ensures { result ≡ fault_at line fault }
{
    match fault {
        LineFault::Bad { cause, .. } => LineFault::Bad { line, cause },
        LineFault::Limit { which, .. } => LineFault::Limit { line, which },
        LineFault::NoMemory => LineFault::NoMemory,
    }
}
