//! Markets that fall silent: no order trades at a quote that nobody stands by any more.
ghost use Rattle.std.specs.Prelude.{◌≡◌, ◌≤◌, ◌+◌, OnOk, All};
ghost use Rattle.day_journal.specs.Log.{IsShortLine};
ghost use Rattle.venue_words.specs.Causes.{HasCause};
ghost use Rattle.live_edge.specs.Joins.{Joined};
ghost use Rattle.live_edge.specs.Rounds.{Keeps};
ghost use Rattle.live_words.specs.Silence.{AreKept, AreStaleEmptied};

use crate::desk::{Desk, since};
use crate::outside::Outside;
use io_edge::{Clock, Failed};
use live_words::{Event, Market, Quoted, Word, push_stale, read_word};
use std::alloc::{AllocError, Global};
use venue_words::Bytes;

/// So many markets that have not quoted any of so many symbols.
pub(crate) fn markets_of(
    alloc: Global,
    markets: usize,
    symbols: usize,
) -> Result<Vec<Market>, AllocError> {
    let mut made = Vec::new(alloc);
    for _ in 0..markets {
        made.push(Market::new(alloc, symbols)?)?;
    }
    Ok(made)
}

impl<O: Outside, C: Clock> Desk<O, C> {
    /// Notes that a market is heard.
    pub(crate) fn hear_market(&mut self, market: usize)
        ensures same { self.new ≡ record self.old { markets = self.new.markets; connections = self.new.connections } }
        ensures keeps { Keeps self.old.connections.story.tale self.new.connections.story.tale }
        ensures joined { Joined self.old.connections.story.tale.past self.old.connections.table (O.came self.old.connections.outside) (O.went self.old.connections.outside) → Joined self.new.connections.story.tale.past self.new.connections.table (O.came self.new.connections.outside) (O.went self.new.connections.outside) }
        ensures later { O.faults self.old.connections.outside + self.old.connections.faults ≤ O.faults self.new.connections.outside + self.new.connections.faults }
    {
        if market < self.markets.len() {
            let silent = self.markets[market].silent;
            self.markets[market].hear(self.now);
            if silent {
                self.connections.outside.log(Event::Heard { market });
            }
        }
    }

    /// Notes a quote.
    pub(crate) fn note_quote(&mut self, quoted: Quoted)
        ensures { self.new ≡ record self.old { markets = self.new.markets } }
    {
        if quoted.market < self.markets.len() {
            self.markets[quoted.market].note(quoted, self.now);
        }
    }

    /// Notes the quote of a journal's line, if it is one.
    fn note_line(&mut self, line: &[u8])
        ensures { self.new ≡ record self.old { markets = self.new.markets } }
    {
        if line.starts_with(b"Q ") {
            if let Word::Quote(quoted) = read_word(line, &self.setup) {
                self.note_quote(quoted);
            }
        }
    }

    /// Notes which quotes of a journal stand. All markets count as heard now.
    pub(crate) fn begin_markets(&mut self, had: &[Bytes])
        ensures { self.new ≡ record self.old { markets = self.new.markets; now = self.new.now; clock = self.new.clock } }
    {
        self.now = since(self.clock.now());
        for market in 0..self.markets.len() {
            self.hear_at_start(market);
        }
        for line in had {
            self.note_line(line.as_slice());
        }
    }

    /// Notes that a market counts as heard.
    fn hear_at_start(&mut self, market: usize)
        ensures { self.new ≡ record self.old { markets = self.new.markets } }
    {
        if market < self.markets.len() {
            self.markets[market].hear(self.now);
        }
    }

    /// Notes that the quotes of a market are taken away, if it is quiet and some stood, and tells the log.
    fn silence(&mut self, market: usize)
        ensures keeps { Keeps self.old.connections.story.tale self.new.connections.story.tale }
        ensures joined { Joined self.old.connections.story.tale.past self.old.connections.table (O.came self.old.connections.outside) (O.went self.old.connections.outside) → Joined self.new.connections.story.tale.past self.new.connections.table (O.came self.new.connections.outside) (O.went self.new.connections.outside) }
        ensures left { self.new.left ≡ self.old.left }
        ensures setup { self.new.setup ≡ self.old.setup }
        ensures last { self.new.last ≡ self.old.last }
        ensures stop { self.new.stop ≡ self.old.stop }
        ensures later { O.faults self.old.connections.outside + self.old.connections.faults ≤ O.faults self.new.connections.outside + self.new.connections.faults }
    {
        if market < self.markets.len()
            && self.markets[market].is_quiet(self.now, self.stale)
            && self.markets[market].empty()
        {
            self.connections.outside.log(Event::Silent { market });
        }
    }

    /// Takes away the quotes of each market of which nothing came for too long.
    pub(crate) fn end_stale(&mut self, body: &mut Vec<Bytes>) -> Result<(), Failed>
        requires body { All IsShortLine body.old.items }
        ensures body { OnOk result (All IsShortLine body.new.items) }
        ensures emptied { OnOk result (AreStaleEmptied self.old.setup self.old.markets.items self.old.now self.old.stale body.new.items) }
        ensures kept { OnOk result (AreKept body.old.items body.new.items) }
        ensures keeps { Keeps self.old.connections.story.tale self.new.connections.story.tale }
        ensures joined { Joined self.old.connections.story.tale.past self.old.connections.table (O.came self.old.connections.outside) (O.went self.old.connections.outside) → Joined self.new.connections.story.tale.past self.new.connections.table (O.came self.new.connections.outside) (O.went self.new.connections.outside) }
        ensures left { self.new.left ≡ self.old.left }
        ensures setup { self.new.setup ≡ self.old.setup }
        ensures last { self.new.last ≡ self.old.last }
        ensures cause { HasCause (O.faults self.old.connections.outside + self.old.connections.faults) (O.faults self.new.connections.outside + self.new.connections.faults) result }
    {
        let pushed = push_stale(
            self.connections.alloc,
            &self.setup,
            &self.markets,
            self.now,
            self.stale,
            body,
        );
        self.connections.kept(pushed)?;
        for market in 0..self.markets.len() {
            self.silence(market);
        }
        Ok(())
    }
}
