//! The table of what each member did.
ghost use Rattle.std.specs.Prelude.{◌≡◌};

use crate::lines::{push_header, push_summary};
use audit_tables::{RowTable, Rows};
use std::alloc::Global;
use symbol_book::Book;
use venue_words::{Config, NoMemory, Report};

/// Tells at a symbol's end what each member did in it.
#[derive(Drop)]
pub struct SummaryRows {
    alloc: Global,
}

/// What each member did in each symbol, on its way to a sink.
pub type SummaryTable<K> = RowTable<SummaryRows, K>;

impl SummaryRows {
    /// Nothing is told yet.
    pub fn new(alloc: Global) -> SummaryRows {
        SummaryRows { alloc }
    }
}

impl Rows for SummaryRows {
    ghost use Rattle.venue_words.specs.Conditions.{IsConfig};
    ghost use Rattle.audit_summary.specs.Summaries.{summary_header, summary_telling};

    ghost tells = { summary_telling };

    ghost header = { summary_header };

    ghost heard = { λ _ config _ _. IsConfig config };

    fn begin(&mut self, out: &mut Vec<u8>, _config: &Config) -> Result<(), NoMemory> {
        push_header(out)
    }

    fn push_event(
        &mut self,
        _out: &mut Vec<u8>,
        _config: &Config,
        _symbol: u32,
        _book: &Book,
        _made: &[Report],
    ) -> Result<(), NoMemory> {
        Ok(())
    }

    fn push_end(
        &mut self,
        out: &mut Vec<u8>,
        config: &Config,
        symbol: u32,
        book: &Book,
    ) -> Result<(), NoMemory> {
        push_summary(self.alloc, out, config, symbol, book)
    }
}
