//! Connections that take a member's name from each other.
ghost use Rattle.std.specs.Prelude.{◌≡◌, ◌≤◌, ◌<◌, ◌+◌, ◌-◌, nat_le, min};

/// How many turns within a minute keep the name where it is.
const MOST_TURNS: u64 = 10;

/// A minute, in milliseconds.
const MINUTE: u64 = 60_000;

/// How often a new connection took a member's name from one that had it.
#[derive(Clone, Copy, Debug)]
pub(crate) struct Turns {
    /// All turns.
    pub(crate) count: u64,
    /// When the minute began, and how many turns came since.
    since: u64,
    recent: u64,
    /// Until when the name stays with the connection that has it.
    stays_until: u64,
}

impl Turns {
    pub(crate) fn new() -> Turns {
        Turns {
            count: 0,
            since: 0,
            recent: 0,
            stays_until: 0,
        }
    }

    /// Whether a new connection may take the name from one that has it.
    pub(crate) fn may_come(&self, now: u64) -> bool
        ensures { result ≡ nat_le self.now.stays_until now }
    {
        now >= self.stays_until
    }

    /// Notes a turn. After ten within a minute the name stays where it is for a minute.
    pub(crate) fn note(&mut self, now: u64)
        ensures stays { now - self.old.since ≤ 60000 → 9 ≤ self.old.recent → self.new.stays_until ≡ min (now + 60000) 18446744073709551615 }
    {
        self.count = self.count.saturating_add(1);
        if now.saturating_sub(self.since) > MINUTE {
            self.since = now;
            self.recent = 0;
        }
        self.recent = self.recent.saturating_add(1);
        if self.recent >= MOST_TURNS {
            self.stays_until = now.saturating_add(MINUTE);
            self.since = now;
            self.recent = 0;
        }
    }
}
