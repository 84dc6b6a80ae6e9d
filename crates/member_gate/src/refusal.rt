//! Why a piece was not worked to its end.
use std::alloc::{AllocError, AllocFailed};
use std::fmt;
use venue_words::NoMemory;

/// Why a piece was not worked to its end. The connection has then ended, and the frames that were to be sent are lost,
/// though their numbers may be used. Commands that were submitted stand.
#[derive(Clone, Copy, Debug, PartialEq, Eq, Drop)]
pub enum DeskRefusal {
    /// A command came to a symbol whose journal held its limit, which is this number of events.
    Full { symbol: u32, found: u32 },
    NoMemory,
}

impl From<NoMemory> for DeskRefusal {
    ghost use Rattle.std.specs.Prelude.{◌≡◌};
    ghost use Rattle.member_gate.specs.declared.refusal.DeskRefusal.TheVariants.{NoMemory};

    ghost from_gives = { λ _ refusal. refusal ≡ NoMemory };

    fn from(_error: NoMemory) -> DeskRefusal {
        DeskRefusal::NoMemory
    }
}

impl From<AllocError> for DeskRefusal {
    ghost use Rattle.std.specs.Prelude.{◌≡◌};
    ghost use Rattle.member_gate.specs.declared.refusal.DeskRefusal.TheVariants.{NoMemory};

    ghost from_gives = { λ _ refusal. refusal ≡ NoMemory };

    fn from(_error: AllocError) -> DeskRefusal {
        DeskRefusal::NoMemory
    }
}

impl<T: Drop> From<AllocFailed<T>> for DeskRefusal {
    ghost use Rattle.std.specs.Prelude.{◌≡◌};
    ghost use Rattle.member_gate.specs.declared.refusal.DeskRefusal.TheVariants.{NoMemory};

    ghost from_gives = { λ _ refusal. refusal ≡ NoMemory };

    fn from(_error: AllocFailed<T>) -> DeskRefusal {
        DeskRefusal::NoMemory
    }
}

impl fmt::Display for DeskRefusal {
    ghost use Rattle.std.specs.Prelude.{Some};
    ghost use Rattle.member_gate.specs.Refusals.{refusal_text};

    ghost output = { λ refusal. Some (refusal_text refusal) };

    fn fmt<W: fmt::Write>(&self, f: &mut fmt::Formatter<W>) -> fmt::Result {
        match self {
            DeskRefusal::Full { symbol, found } => {
                write!(f, "symbol {symbol} is full at {found} events")
            }
            DeskRefusal::NoMemory => f.write_str("out of memory"),
        }
    }
}
