//! The part of one symbol while it is read.
ghost use Rattle.std.specs.Prelude.{◌≡◌, ◌≤◌, ◌<◌, ◌+◌, ◌++◌, ◌∷◌, List, [], true, false, length, drop, IfOk, OnOk, IsTrue, nat_lt};
ghost use Rattle.venue_words.specs.Conditions.{IsConfig};
ghost use Rattle.venue_words.specs.declared.command.Event.{Event};
ghost use Rattle.script_text.specs.Lines.{has_end};
ghost use Rattle.listing.specs.Lines.{report_line, ended};
ghost use Rattle.symbol_book.specs.Commands.{takes_command};
ghost use Rattle.listing_reader.specs.Fitting.{fits_event};
ghost use Rattle.audit_core.specs.Audited.{limit_at};
ghost use Rattle.audit_core.specs.Ahead.{CountsAre};
ghost use Rattle.audit_core.specs.Names.{has_line_names};
ghost use Rattle.audit_core.specs.Progress.{IsOpen, IsRead, Grows, Works, is_allowed, is_read, report_lines};
ghost use Rattle.audit_core.specs.Telling.{reports_of_last};

use listing::{push_report_line, runs_are_in_order};
use listing_reader::Counts;
use std::alloc::Global;
use std::sync::ledger::Ledger;
use symbol_book::Book;
use venue_words::{Command, Config, Event, FloorRefusal, NoMemory, Report, Steps};

/// The line of a report, without its LF.
fn report_text(
    alloc: Global,
    config: &Config,
    symbol: u32,
    report: &Report,
) -> Result<Vec<u8>, NoMemory>
    requires { has_line_names config.now ≡ true }
    ensures line { IfOk result (λ line. line.items ≡ report_line config.now symbol report.now) }
    ensures clear { IfOk result (λ line. has_end line.items ≡ false) }
{
    let _event = report.event;
    let _place = report.place;
    let mut line = Vec::new(alloc);
    push_report_line(alloc, &mut line, config, symbol, report)?;
    line.truncate(line.len() - 1);
    Ok(line)
}

fn copy_of(alloc: Global, event: &Event) -> Result<Event, NoMemory>
    ensures { IfOk result (λ copy. copy ≡ event.now) }
{
    let command = Command::copy_of(alloc, &event.command)?;
    Ok(Event {
        number: event.number,
        feed: event.feed,
        moment: event.moment,
        command,
    })
}

/// The part of a symbol: what its line counts, the book of the events that were read, and how many of its reports were.
#[derive(Drop)]
pub struct OpenPart {
    pub counts: Counts,
    pub book: Book,
    pub told: u32,
}

impl OpenPart {
    /// Behind the line of the symbol.
    pub fn new(
        alloc: Global,
        config: &Config,
        symbol: u32,
        counts: Counts,
    ) -> Result<OpenPart, NoMemory>
        requires config { IsConfig config.now }
        requires within { symbol < length config.now.symbols }
        requires few { counts.events ≤ limit_at config.now symbol }
        ensures open { IfOk result (IsOpen config.now symbol) }
        ensures counts { IfOk result (λ part. part.counts ≡ counts) }
        ensures empty { IfOk result (λ part. (part.told ≡ 0) × (part.book.journal ≡ []) × (part.book.reports ≡ [])) }
    {
        let limit = config.limits.as_slice()[symbol as usize];
        let tick = config.ticks.as_slice()[symbol as usize];
        let book = Book::new(alloc, config.markets.len() as u32, limit, tick)?;
        Ok(OpenPart {
            counts,
            book,
            told: 0,
        })
    }

    /// Whether a report of the last event comes next.
    pub fn has_report(&self) -> bool
        ensures { result ≡ nat_lt self.now.told (length self.now.book.reports) }
    {
        self.told < self.book.front()
    }

    /// Whether all that the symbol's line counts was read.
    pub fn is_whole(&self) -> bool
        ensures value { result ≡ is_read self.now }
        ensures read { IsTrue result → IsRead self.now }
        ensures more { result ≡ false → IsRead self.now → ⊥ }
    {
        self.book.journal().len() == self.counts.events as usize
            && self.book.front() == self.counts.reports
            && self.told == self.counts.reports
    }

    /// The line of the report that comes next, without its LF.
    pub fn report_text(
        &self,
        alloc: Global,
        config: &Config,
        symbol: u32,
    ) -> Result<Vec<u8>, NoMemory>
        requires names { has_line_names config.now ≡ true }
        requires more { self.now.told < length self.now.book.reports }
        ensures next { IfOk result (λ line. report_lines config.now symbol (drop self.now.told self.now.book.reports)
            ≡ ended line.items ++ report_lines config.now symbol (drop (self.now.told + 1) self.now.book.reports)) }
        ensures clear { IfOk result (λ line. has_end line.items ≡ false) }
    {
        let report = &self.book.reports()[self.told as usize];
        report_text(alloc, config, symbol, report)
    }

    /// Whether the counts of the symbol's line allow the events and reports that there are.
    fn is_counted(&self) -> bool
        ensures { result ≡ is_allowed self.now }
    {
        let events = self.book.journal().len();
        let reports = self.book.front();
        (events < self.counts.events as usize && reports <= self.counts.reports)
            || (events == self.counts.events as usize && reports == self.counts.reports)
    }

    /// Gives the book its next event. It answers whether there is room below the symbol's limit.
    fn apply<L: Ledger>(&mut self, event: Event, steps: &mut Steps<L>) -> Result<bool, NoMemory>
        requires takes { takes_command self.old.book.markets event.command ≡ true }
        requires number { event.number ≡ length self.old.book.journal + 1 }
        ensures works { IfOk result (λ applied. IsTrue applied → Works self.old self.new event) }
        ensures full { IfOk result (λ applied. applied ≡ false → length self.old.book.journal ≡ self.old.book.limit) }
    {
        let room = match self.book.prepare(&event.command) {
            Ok(room) => room,
            Err(FloorRefusal::Full { .. }) => return Ok(false),
            Err(FloorRefusal::NoMemory) => return Err(NoMemory),
        };
        self.book.apply(room, event, steps);
        let _numbered = self.book.journal();
        Ok(true)
    }

    /// Works the event that was read. It answers whether it may stand here: it has the next number, and the counts of the
    /// symbol's line allow it and its reports.
    pub fn work<L: Ledger>(
        &mut self,
        config: &Config,
        symbol: u32,
        event: Event,
        steps: &mut Steps<L>,
    ) -> Result<bool, NoMemory>
        requires open { IsOpen config.now symbol self.old }
        requires fits { fits_event config.now event ≡ true }
        requires told { self.old.told ≡ length self.old.book.reports }
        ensures open { IfOk result (λ stands. IsTrue stands → IsOpen config.now symbol self.new) }
        ensures works { IfOk result (λ stands. IsTrue stands → Works self.old self.new event) }
        ensures grows { IfOk result (λ stands. IsTrue stands → Grows config.now symbol self.old self.new event) }
        ensures refuses { IfOk result (λ stands. stands ≡ false → (later : List Event) →
            CountsAre config.now symbol self.old (event ∷ later) → ⊥) }
    {
        runs_are_in_order();
        let events = self.book.journal().len();
        if event.number as usize != events + 1 || events >= self.counts.events as usize {
            return Ok(false);
        }
        if !self.apply(event, steps)? {
            return Ok(false);
        }
        Ok(self.is_counted())
    }

    /// Works an event of a journal anew, whose reports then come next.
    pub fn work_again<L: Ledger>(
        &mut self,
        alloc: Global,
        config: &Config,
        symbol: u32,
        event: &Event,
        steps: &mut Steps<L>,
    ) -> Result<(), NoMemory>
        requires open { IsOpen config.now symbol self.old }
        requires fits { fits_event config.now event.now ≡ true }
        requires told { self.old.told ≡ length self.old.book.reports }
        requires number { event.now.number ≡ length self.old.book.journal + 1 }
        requires more { length self.old.book.journal < self.old.counts.events }
        ensures open { OnOk result (IsOpen config.now symbol self.new) }
        ensures works { OnOk result (Works self.old self.new event.now) }
        ensures made { OnOk result (drop self.new.told self.new.book.reports ≡ reports_of_last config.now symbol self.new.book.journal) }
    {
        runs_are_in_order();
        let _config = config.markets.len();
        let _symbol = symbol;
        let copy = copy_of(alloc, event)?;
        let is_applied = self.apply(copy, steps)?;
        prove!(is_applied);
        Ok(())
    }

    /// Passes over the reports that come next.
    pub fn pass_reports(&mut self)
        requires { self.old.told ≤ length self.old.book.reports }
        ensures { self.new ≡ record self.old { told = length self.old.book.reports } }
    {
        self.told = self.book.front();
    }
}
