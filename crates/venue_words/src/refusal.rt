//! Why a call did nothing.
use std::alloc::{AllocError, AllocFailed};
use std::fmt;

/// Memory was wanted and not to be had.
#[derive(Clone, Copy, Debug, PartialEq, Eq, Drop)]
pub struct NoMemory;

impl From<AllocError> for NoMemory {
    fn from(_error: AllocError) -> NoMemory {
        NoMemory
    }
}

impl<T: Drop> From<AllocFailed<T>> for NoMemory {
    fn from(_error: AllocFailed<T>) -> NoMemory {
        NoMemory
    }
}

impl fmt::Display for NoMemory {
    ghost use Rattle.std.specs.Prelude.{Some, codes};

    ghost output = { λ _. Some (codes "out of memory") };

    fn fmt<W: fmt::Write>(&self, f: &mut fmt::Formatter<W>) -> fmt::Result {
        f.write_str("out of memory")
    }
}

/// Why a submitted command was not recorded. The book is as it was.
#[derive(Clone, Copy, Debug, PartialEq, Eq, Drop)]
pub enum FloorRefusal {
    /// The journal that was found holds its limit, which is this number of events.
    Full { found: u32 },
    NoMemory,
}

impl From<NoMemory> for FloorRefusal {
    ghost use Rattle.std.specs.Prelude.{◌≡◌};
    ghost use Rattle.venue_words.specs.declared.refusal.FloorRefusal.TheVariants.{NoMemory};

    ghost from_gives = { λ _ refusal. refusal ≡ NoMemory };

    fn from(_error: NoMemory) -> FloorRefusal {
        FloorRefusal::NoMemory
    }
}

impl fmt::Display for FloorRefusal {
    ghost use Rattle.std.specs.Prelude.{Some};
    ghost use Rattle.venue_words.specs.Refusals.{refusal_text};

    ghost output = { λ refusal. Some (refusal_text refusal) };

    fn fmt<W: fmt::Write>(&self, f: &mut fmt::Formatter<W>) -> fmt::Result {
        match self {
            FloorRefusal::Full { found } => write!(f, "full at {found} events"),
            FloorRefusal::NoMemory => f.write_str("out of memory"),
        }
    }
}
