//! How a run ended.
ghost use Rattle.std.specs.Prelude.{◌≡◌, ◌⊎◌, ◌≤◌, length};
ghost use Rattle.venue_words.specs.Conditions.{IsConfig};
ghost use Rattle.feeds_core.specs.Statuses.{IsFullStatus, IsOfRun, name_of};

use crate::status::FeedsStatus;
use std::alloc::Global;
use venue_words::{Bytes, Config};

/// How a run ended, with the name of the status's symbol, or nothing where it has none.
#[derive(Debug, Drop)]
pub struct Ended {
    pub status: FeedsStatus,
    pub name: Bytes,
    ghost short: { length name ≤ 16 },
}

impl Ended {
    ghost use Rattle.std.specs.Prelude.{◌≡◌, []};

    /// Without a symbol.
    pub fn new(alloc: Global, status: FeedsStatus) -> Ended
        ensures status { result.status ≡ status }
        ensures name { result.name ≡ [] }
    {
        Ended {
            status,
            name: Bytes(Vec::new(alloc)),
        }
    }
}

/// Names the symbol of a status, unless memory is wanted for that.
pub fn named(alloc: Global, config: &Config, status: FeedsStatus) -> Ended
    requires config { IsConfig config.now }
    requires status { IsOfRun config.now status }
    ensures { ((result.status ≡ status) × (result.name ≡ name_of config.now status))
        ⊎ ((result.status ≡ FeedsStatus.NoMemory) × IsFullStatus status) }
{
    let FeedsStatus::Full { symbol } = status else {
        return Ended::new(alloc, status);
    };
    let name = &config.symbols.as_slice()[symbol as usize];
    match Bytes::copy_of(alloc, name.as_slice()) {
        Ok(name) => Ended { status, name },
        Err(_) => Ended::new(alloc, FeedsStatus::NoMemory),
    }
}
