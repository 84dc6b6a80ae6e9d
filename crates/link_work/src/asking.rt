//! A turn begins: the link is pulled, and the clock is asked.
ghost use Rattle.std.specs.Prelude.{◌≡◌, ◌<◌, ◌≤◌, length, IfOk, OnErr};
ghost use Rattle.venue_words.specs.Causes.{HasCause};
ghost use Rattle.io_edge.specs.Links.{IsInside};
ghost use Rattle.link_work.specs.Turns.{Asks, EndsOnlyAt};

use io_edge::{Clock, Failed, Link, Pulled};

/// What a turn begins with: what the link gives, and the moment in milliseconds since 1970-01-01 00:00 UTC.
#[derive(Clone, Copy, Debug)]
pub struct Asked {
    pub pulled: Pulled,
    pub moment: i64,
}

/// Pulls the link once, and asks the clock once where that succeeds.
pub fn ask<K: Link, C: Clock>(
    link: &mut K,
    clock: &mut C,
    buffer: &mut [u8],
) -> Result<Asked, Failed>
    requires { 0 < length buffer.old }
    ensures inside { IfOk result (λ asked. IsInside asked.pulled buffer.new) }
    ensures asked { Asks (K.told link.old) (C.told clock.old) (K.told link.new) (C.told clock.new) result buffer.new }
    ensures end { EndsOnlyAt (K.ends link.old) (K.ends link.new) result }
    ensures cause { HasCause (K.faults link.old) (K.faults link.new) result }
{
    let pulled = link.pull(buffer)?;
    let moment = clock.now();
    Ok(Asked { pulled, moment })
}
