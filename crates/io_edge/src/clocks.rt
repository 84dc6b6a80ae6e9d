//! The clock of the system, and one in memory.
ghost use Rattle.std.specs.Prelude.{◌≡◌, ◌+◌, ◌-◌, ◌^◌, [], min, Some, None};
ghost use Rattle.io_edge.specs.Clocks.{GaveMoment, moment_at};
ghost use Rattle.io_edge.specs.MemClocks.{moments_of, times_asked, told_moments};

use crate::link::Clock;
use std::rt;
use std::time::{Duration, SystemTime};

/// The clock of the system. It tells nothing of what it has given.
#[derive(Drop)]
pub struct RealClock<'a, R: rt::Clock> {
    rt: &'a R,
    last: i64,
}

impl<'a, R: rt::Clock> RealClock<'a, R> {
    /// Over the system's clock. Where that can't be read, the last moment is given again, at first 1970.
    pub fn new(rt: &'a R) -> RealClock<'a, R> {
        RealClock { rt, last: 0 }
    }
}

impl<'a, R: rt::Clock> Clock for RealClock<'a, R> {
    ghost told = { λ _. None };

    fn now(&mut self) -> i64 {
        if let Ok(now) = SystemTime::now(self.rt) {
            let since = now
                .duration_since(SystemTime::UNIX_EPOCH)
                .unwrap_or(Duration::ZERO);
            self.last = i64::try_from(since.as_millis()).unwrap_or(i64::MAX);
        }
        self.last
    }
}

/// Gives these moments, and then the last one again and again.
#[derive(Drop)]
pub struct MemClock {
    moments: Vec<i64>,
    asked: u64,
}

impl MemClock {
    /// Without a moment it gives 1970. Once it was asked 2^64 - 1 times, it tells nothing.
    pub fn new(moments: Vec<i64>) -> MemClock
        ensures moments { moments_of result ≡ moments.items }
        ensures asked { times_asked result ≡ 0 }
        ensures told { ⟦<MemClock as Clock>⟧.told result ≡ Some [] }
    {
        MemClock { moments, asked: 0 }
    }
}

impl Clock for MemClock {
    ghost told = { λ s. told_moments (moments_of s) (times_asked s) };

    fn now(&mut self) -> i64
        ensures told { GaveMoment result (⟦<MemClock as Clock>⟧.told self.old) (⟦<MemClock as Clock>⟧.told self.new) }
        ensures given { result ≡ moment_at (moments_of self.old) (times_asked self.old) }
        ensures moments { moments_of self.new ≡ moments_of self.old }
        ensures asked { times_asked self.new ≡ min (times_asked self.old + 1) (2 ^ 64 - 1) }
    {
        let last = self.moments.len().saturating_sub(1) as u64;
        let place = self.asked.min(last) as usize;
        self.asked = self.asked.saturating_add(1);
        self.moments.get(place).copied().unwrap_or(0)
    }
}
