//! Tables by what their lines say.
ghost use Rattle.std.specs.Prelude.{◌≡◌, ◌+◌, ◌++◌, ℕ, List, [], IfOk, OnOk};
ghost use Rattle.venue_words.specs.Conditions.{IsConfig};
ghost use Rattle.venue_words.specs.declared.command.Event.{Event};
ghost use Rattle.venue_words.specs.declared.config.Config.{Config};
ghost use Rattle.audit_core.specs.Telling.{IsBookOf, IsNext, Telling, reports_of_last};

use crate::lines::Lines;
use crate::table::Table;
use audit_core::{Watch, WatchFault};
use io_edge::{Failed, Sink};
use std::alloc::Global;
use symbol_book::Book;
use venue_words::{Config, NoMemory, Report};

/// What the lines of a table say. Each call appends its text, and a refusal may leave a part of it.
pub trait Rows {
    /// The texts.
    ghost tells: { Telling };

    /// The first line.
    ghost header: { List ℕ };

    /// These events of a symbol were told of, and the ends of all symbols before.
    ghost heard: { Self → Config → ℕ → List Event → Type 0 };

    /// Begins a day with the header.
    fn begin(&mut self, out: &mut Vec<u8>, config: &Config) -> Result<(), NoMemory>
        requires { IsConfig config.now }
        ensures heard { OnOk result (heard self.new config.now 0 []) }
        ensures text { OnOk result (out.new.items ≡ out.old.items ++ header) };

    /// Tells of the last event of a symbol's book, which made these reports.
    fn push_event(
        &mut self,
        out: &mut Vec<u8>,
        config: &Config,
        symbol: u32,
        book: &Book,
        made: &[Report],
    ) -> Result<(), NoMemory>
        requires next { IsNext (heard self.old) config.now symbol book.now }
        requires made { made.now ≡ reports_of_last config.now symbol book.now.journal }
        ensures heard { OnOk result (heard self.new config.now symbol book.now.journal) }
        ensures text { OnOk result (out.new.items ≡ out.old.items ++ tells.event config.now symbol book.now.journal) };

    /// Tells of the whole journal of a symbol.
    fn push_end(
        &mut self,
        out: &mut Vec<u8>,
        config: &Config,
        symbol: u32,
        book: &Book,
    ) -> Result<(), NoMemory>
        requires of { IsBookOf config.now symbol book.now }
        requires heard { heard self.old config.now symbol book.now.journal }
        ensures heard { OnOk result (heard self.new config.now (symbol + 1) []) }
        ensures text { OnOk result (out.new.items ≡ out.old.items ++ tells.end config.now symbol book.now.journal) };
}

/// A table whose lines say this, on its way to a sink.
#[derive(Drop)]
pub struct RowTable<R: Drop, K: Drop> {
    rows: R,
    lines: Lines<K>,
}

impl<R: Rows + Drop, K: Sink + Drop> RowTable<R, K> {
    /// An empty table that goes to this sink.
    pub fn new(alloc: Global, rows: R, out: K) -> Result<RowTable<R, K>, NoMemory>
        ensures output { IfOk result (λ table. ⟦<RowTable<R, K> as Watch>⟧.output table ≡ record { told = K.told out; held = [] }) }
        ensures faults { IfOk result (λ table. ⟦<RowTable<R, K> as Watch>⟧.faults table ≡ K.faults out) }
    {
        Ok(RowTable {
            rows,
            lines: Lines::new(alloc, out)?,
        })
    }

    /// What its lines say.
    pub fn rows(&self) -> &R {
        &self.rows
    }

    /// What its lines say, and the sink that it went to.
    pub fn into_parts(self) -> (R, K)
        ensures told { K.told result.1 ≡ (⟦<RowTable<R, K> as Watch>⟧.output self).told }
    {
        let RowTable { rows, lines } = self;
        let Lines { out, .. } = lines;
        (rows, out)
    }

    /// The sink that it went to.
    pub fn into_out(self) -> K
        ensures told { K.told result ≡ (⟦<RowTable<R, K> as Watch>⟧.output self).told }
    {
        let RowTable { lines, .. } = self;
        let Lines { out, .. } = lines;
        out
    }
}

impl<R: Rows + Drop, K: Sink + Drop> Watch for RowTable<R, K> {
    ghost tells = { R.tells };

    ghost output = { λ table. record { told = K.told table.lines.out; held = table.lines.bytes.items } };

    ghost faults = { λ table. K.faults table.lines.out };

    ghost heard = { λ table config symbol journal. R.heard table.rows config symbol journal };

    fn on_event(
        &mut self,
        config: &Config,
        symbol: u32,
        book: &Book,
        made: &[Report],
    ) -> Result<(), WatchFault> {
        self.rows
            .push_event(&mut self.lines.bytes, config, symbol, book, made)?;
        match self.lines.put_piece() {
            Ok(()) => Ok(()),
            Err(_) => Err(WatchFault::WriteFault),
        }
    }

    fn on_end(&mut self, config: &Config, symbol: u32, book: &Book) -> Result<(), WatchFault> {
        self.rows
            .push_end(&mut self.lines.bytes, config, symbol, book)?;
        match self.lines.put_piece() {
            Ok(()) => Ok(()),
            Err(_) => Err(WatchFault::WriteFault),
        }
    }
}

impl<R: Rows + Drop, K: Sink + Drop> Table for RowTable<R, K> {
    ghost header = { R.header };

    fn begin(&mut self, config: &Config) -> Result<(), NoMemory> {
        self.rows.begin(&mut self.lines.bytes, config)
    }

    fn finish(&mut self) -> Result<(), Failed> {
        self.lines.put_all()
    }
}
