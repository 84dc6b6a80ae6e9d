//! Lines of a listing, one after the other.
ghost use Rattle.std.specs.Prelude.{◌≡◌, ◌≤◌, ◌<◌, ◌⊎◌, ℕ, List, [], true, false, None, length, IfOk, IsTrue, MatchResult};
ghost use Rattle.venue_words.specs.Conditions.{IsConfig};
ghost use Rattle.script_text.specs.Lines.{has_end};
ghost use Rattle.listing_reader.specs.Fitting.{has_word_names};
ghost use Rattle.audit_core.specs.Audited.{IsListing, limit_at};
ghost use Rattle.audit_core.specs.Ahead.{Awaits, GoesBehind, IsAt, IsHeard, SaysExpected, Sees, StopsIn, at, has_due, with_part};
ghost use Rattle.audit_core.specs.Names.{has_line_names};
ghost use Rattle.audit_core.specs.Progress.{IsOpen, HasRead, end_text};
ghost use Rattle.audit_core.specs.Telling.{Begins, HasPutCause, Lists, Telling};

use crate::part::OpenPart;
use crate::watch::{Watch, WatchFault};
use listing::runs_are_in_order;
use listing_reader::{Counts, read_event, read_symbol};
use market_laws::reports_are_few;
use std::alloc::Global;
use std::sync::ledger::Ledger;
use venue_words::{Bytes, Config, Steps};

/// What a line is where it stands.
#[derive(Debug, Drop)]
pub enum Seen {
    /// With it the lines may still be a beginning of a listing.
    Same,
    /// With it they are none. What should stand there is given where the lines before it say so.
    Differs { expected: Option<Bytes> },
}

/// How far the lines of a listing were read.
#[derive(Drop)]
pub struct Auditor {
    alloc: Global,
    /// The symbol whose part is read, or comes next.
    pub symbol: u32,
    /// Its part, once its line was read.
    pub part: Option<OpenPart>,
}

impl Auditor {
    /// Before the first line.
    #[tactic(auto, using(crate::proofs::Standing::stands_at_start, crate::proofs::Taking::awaits_at_start))]
    pub fn new(alloc: Global, config: &Config) -> Auditor
        requires config { IsConfig config.now }
        requires words { has_word_names config.now ≡ true }
        requires lines { has_line_names config.now ≡ true }
        ensures at { IsAt config.now result }
        ensures first { (result.symbol ≡ 0) × (result.part ≡ None) }
        ensures none { (telling : Telling) → HasRead telling (at config.now result) [] [] }
        ensures awaited { (text : List ℕ) → IsListing config.now text → Awaits (at config.now result) text }
    {
        let _symbols = config.symbols.len();
        Auditor {
            alloc,
            symbol: 0,
            part: None,
        }
    }

    /// Whether the lines that were read are a whole listing.
    #[tactic(auto, using(crate::proofs::Standing::whole_listing))]
    pub fn is_whole(&self, config: &Config) -> bool
        requires { IsAt config.now self.now }
        ensures whole { IsTrue result → (telling : Telling) (text told : List ℕ) → HasRead telling (at config.now self.now) text told →
            Lists telling config.now text told }
        ensures awaited { (rest : List ℕ) → has_end rest ≡ false → Awaits (at config.now self.now) rest → IsTrue result × (rest ≡ []) }
    {
        match self.part {
            None => self.symbol as usize == config.symbols.len(),
            Some(_) => false,
        }
    }

    // A part is let go by a call wherever it ends: a part that ends by itself is proved field by field at each end.

    /// The part that is read; where all of it was read its end is told, and the next one follows.
    fn go_on<W: Watch>(
        &mut self,
        config: &Config,
        part: OpenPart,
        watch: &mut W,
    ) -> Result<(), WatchFault>
        requires at { IsAt config.now self.old }
        requires none { self.old.part ≡ None }
        requires open { IsOpen config.now self.old.symbol part }
        requires heard { W.heard watch.old config.now self.old.symbol part.book.journal }
        ensures goes { MatchResult result
            (λ _. GoesBehind W.tells (W.heard watch.new) config.now self.old.symbol part self.new (W.output watch.old) (W.output watch.new))
            (λ _. Begins (W.output watch.old) (W.output watch.new) (end_text W.tells config.now self.old.symbol part)) }
        ensures cause { HasPutCause (W.faults watch.old) (W.faults watch.new) result }
    {
        let _symbols = config.symbols.len();
        if part.is_whole() {
            match watch.on_end(config, self.symbol, &part.book) {
                Ok(()) => drop(part),
                Err(fault) => {
                    drop(part);
                    return Err(fault);
                }
            }
            self.symbol += 1;
        } else {
            drop(self.part.replace(part));
        }
        Ok(())
    }

    /// The line of a symbol.
    fn symbol_line<W: Watch>(
        &mut self,
        config: &Config,
        text: &[u8],
        watch: &mut W,
    ) -> Result<Seen, WatchFault>
        requires at { IsAt config.now self.old }
        requires none { self.old.part ≡ None }
        requires heard { W.heard watch.old config.now self.old.symbol [] }
        requires clear { has_end text.now ≡ false }
        ensures sees { MatchResult result
            (λ seen. Sees W.tells (W.heard watch.new) config.now (at config.now self.old) self.new text.now (W.output watch.old) (W.output watch.new) seen)
            (λ _. StopsIn W.tells (at config.now self.old) text.now (W.output watch.old) (W.output watch.new)) }
        ensures cause { HasPutCause (W.faults watch.old) (W.faults watch.new) result }
    {
        reports_are_few();
        if self.symbol as usize >= config.symbols.len() {
            return Ok(Seen::Differs { expected: None });
        }
        let Some(counts) = read_symbol(self.alloc, text, config, self.symbol)? else {
            return Ok(Seen::Differs { expected: None });
        };
        if !has_room(config, self.symbol, counts) {
            return Ok(Seen::Differs { expected: None });
        }
        let part = OpenPart::new(self.alloc, config, self.symbol, counts)?;
        self.go_on(config, part, watch)?;
        Ok(Seen::Same)
    }

    /// The line of a report.
    fn report_line<W: Watch>(
        &mut self,
        config: &Config,
        mut part: OpenPart,
        text: &[u8],
        watch: &mut W,
    ) -> Result<Seen, WatchFault>
        requires at { IsAt config.now self.old }
        requires open { IsOpen config.now self.old.symbol part }
        requires more { part.told < length part.book.reports }
        requires none { self.old.part ≡ None }
        requires heard { W.heard watch.old config.now self.old.symbol part.book.journal }
        requires clear { has_end text.now ≡ false }
        ensures sees { MatchResult result
            (λ seen. Sees W.tells (W.heard watch.new) config.now (with_part (at config.now self.old) part) self.new text.now (W.output watch.old) (W.output watch.new) seen)
            (λ _. StopsIn W.tells (with_part (at config.now self.old) part) text.now (W.output watch.old) (W.output watch.new)) }
        ensures due { IfOk result SaysExpected }
        ensures cause { HasPutCause (W.faults watch.old) (W.faults watch.new) result }
    {
        let line = match part.report_text(self.alloc, config, self.symbol) {
            Ok(line) => line,
            Err(_) => {
                drop(part);
                return Err(WatchFault::NoMemory);
            }
        };
        let _reports = part.book.front();
        if line.as_slice() == text {
            part.told += 1;
            self.go_on(config, part, watch)?;
            Ok(Seen::Same)
        } else {
            drop(part);
            Ok(Seen::Differs {
                expected: Some(Bytes(line)),
            })
        }
    }

    /// The line of an event.
    fn event_line<W: Watch, L: Ledger>(
        &mut self,
        config: &Config,
        mut part: OpenPart,
        text: &[u8],
        watch: &mut W,
        steps: &mut Steps<L>,
    ) -> Result<Seen, WatchFault>
        requires at { IsAt config.now self.old }
        requires open { IsOpen config.now self.old.symbol part }
        requires told { part.told ≡ length part.book.reports }
        requires none { self.old.part ≡ None }
        requires heard { W.heard watch.old config.now self.old.symbol part.book.journal }
        requires clear { has_end text.now ≡ false }
        ensures sees { MatchResult result
            (λ seen. Sees W.tells (W.heard watch.new) config.now (with_part (at config.now self.old) part) self.new text.now (W.output watch.old) (W.output watch.new) seen)
            (λ _. StopsIn W.tells (with_part (at config.now self.old) part) text.now (W.output watch.old) (W.output watch.new)) }
        ensures cause { HasPutCause (W.faults watch.old) (W.faults watch.new) result }
    {
        runs_are_in_order();
        let read = match read_event(self.alloc, text, config, self.symbol) {
            Ok(read) => read,
            Err(_) => {
                drop(part);
                return Err(WatchFault::NoMemory);
            }
        };
        let Some(event) = read else {
            drop(part);
            return Ok(Seen::Differs { expected: None });
        };
        let from = part.told as usize;
        let stands = match part.work(config, self.symbol, event, steps) {
            Ok(stands) => stands,
            Err(_) => {
                drop(part);
                return Err(WatchFault::NoMemory);
            }
        };
        if !stands {
            drop(part);
            return Ok(Seen::Differs { expected: None });
        }
        let made = &part.book.reports()[from..];
        match watch.on_event(config, self.symbol, &part.book, made) {
            Ok(()) => {}
            Err(fault) => {
                drop(part);
                return Err(fault);
            }
        }
        self.go_on(config, part, watch)?;
        Ok(Seen::Same)
    }

    /// Reads the next line, which is given without its LF. The caller stops at one that differs, and at an error.
    pub fn line<W: Watch, L: Ledger>(
        &mut self,
        config: &Config,
        text: &[u8],
        watch: &mut W,
        steps: &mut Steps<L>,
    ) -> Result<Seen, WatchFault>
        requires stands { IsHeard (W.heard watch.old) config.now self.old }
        requires clear { has_end text.now ≡ false }
        ensures sees { MatchResult result
            (λ seen. Sees W.tells (W.heard watch.new) config.now (at config.now self.old) self.new text.now (W.output watch.old) (W.output watch.new) seen)
            (λ _. StopsIn W.tells (at config.now self.old) text.now (W.output watch.old) (W.output watch.new)) }
        ensures due { has_due self.old.part ≡ true → IfOk result SaysExpected }
        ensures cause { HasPutCause (W.faults watch.old) (W.faults watch.new) result }
    {
        match self.part.take() {
            None => self.symbol_line(config, text, watch),
            Some(part) if part.has_report() => self.report_line(config, part, text, watch),
            Some(part) => self.event_line(config, part, text, watch, steps),
        }
    }
}

/// Whether the counts of a symbol's line can be those of a journal.
fn has_room(config: &Config, symbol: u32, counts: Counts) -> bool
    requires config { IsConfig config.now }
    requires within { symbol < length config.now.symbols }
    ensures few { IsTrue result → counts.events ≤ limit_at config.now symbol }
    ensures room { counts.events ≤ limit_at config.now symbol → (1 ≤ counts.events) ⊎ (counts.reports ≡ 0) → IsTrue result }
{
    counts.events <= config.limits.as_slice()[symbol as usize]
        && (counts.events > 0 || counts.reports == 0)
}
