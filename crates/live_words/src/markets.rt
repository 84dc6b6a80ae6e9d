//! Which quotes of a market stand, and how long ago it was heard.
ghost use Rattle.std.specs.Prelude.{◌≡◌, ◌<◌, length, IfOk, false};
ghost use Rattle.live_words.specs.Markets.{stands, is_quiet};

use crate::words::Quoted;
use std::alloc::{AllocError, Global};

/// How the quotes of a market stand.
#[derive(Drop)]
pub struct Market {
    /// The moment when it was last heard, in milliseconds since 1970-01-01 00:00 UTC.
    pub heard: u64,
    /// Whether its quotes were taken away since then.
    pub silent: bool,
    /// Whether its quote of each symbol has a price.
    pub rows: Vec<bool>,
}

impl Market {
    /// A market that has not quoted any of so many symbols.
    pub fn new(alloc: Global, symbols: usize) -> Result<Market, AllocError>
        ensures rows { IfOk result (λ market. length market.rows.items ≡ symbols) }
    {
        Ok(Market {
            heard: 0,
            silent: false,
            rows: vec![in alloc; false; symbols]?,
        })
    }

    /// Whether nothing came from it for longer than the limit, in milliseconds; 0 is no limit.
    pub fn is_quiet(&self, now: u64, limit: u64) -> bool
        ensures { result ≡ is_quiet self.now.heard now limit }
    {
        limit > 0 && now.saturating_sub(self.heard) > limit
    }

    /// Notes that it is heard.
    pub fn hear(&mut self, now: u64)
        ensures { self.new ≡ record self.old { heard = now; silent = false } }
    {
        self.heard = now;
        self.silent = false;
    }

    /// Notes a quote of it.
    pub fn note(&mut self, quoted: Quoted, now: u64)
        ensures heard { self.new.heard ≡ now }
        ensures row { quoted.symbol < length self.old.rows.items → stands self.new.rows.items quoted.symbol ≡ quoted.priced }
    {
        self.hear(now);
        if quoted.symbol < self.rows.len() {
            self.rows[quoted.symbol] = quoted.priced;
        }
    }

    /// Notes that its quotes are taken away, and says whether any stood.
    pub fn empty(&mut self) -> bool {
        if !self.rows.contains(&true) {
            return false;
        }
        self.rows.fill(false);
        self.silent = true;
        true
    }
}
