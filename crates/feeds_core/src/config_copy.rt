//! A copy of a config.
ghost use Rattle.std.specs.Prelude.{◌≡◌, IfOk};

use std::alloc::Global;
use venue_words::{Bytes, Config, Items, NoMemory};

/// Copies of names.
fn names_of(alloc: Global, names: &[Bytes]) -> Result<Items<Bytes>, NoMemory>
    ensures { IfOk result (λ copy. copy ≡ names.now) }
{
    let mut copy = Items(Vec::with_capacity(alloc, names.len())?);
    for name in names {
        copy.push(Bytes::copy_of(alloc, name.as_slice())?)?;
    }
    Ok(copy)
}

/// A copy of numbers.
fn numbers_of(alloc: Global, numbers: &[u32]) -> Result<Items<u32>, NoMemory>
    ensures { IfOk result (λ copy. copy ≡ numbers.now) }
{
    Ok(Items(Vec::from_slice(alloc, numbers)?))
}

/// A copy of a config, for a thread of its own.
pub fn copy_of(alloc: Global, config: &Config) -> Result<Config, NoMemory>
    ensures { IfOk result (λ copy. copy ≡ config.now) }
{
    Ok(Config {
        members: names_of(alloc, config.members.as_slice())?,
        markets: names_of(alloc, config.markets.as_slice())?,
        symbols: names_of(alloc, config.symbols.as_slice())?,
        limits: numbers_of(alloc, config.limits.as_slice())?,
        ticks: numbers_of(alloc, config.ticks.as_slice())?,
        begin: config.begin,
    })
}
