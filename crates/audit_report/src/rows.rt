//! The sections of the page, told symbol by symbol, and what is gathered on the way for its head and its charts.
ghost use Rattle.std.specs.Prelude.{◌≡◌, ℕ, [], OnOk};
ghost use Rattle.venue_words.specs.Conditions.{IsConfig};
ghost use Rattle.audit_report.specs.Gathering.{HasTrades};
ghost use Rattle.audit_tables.specs.Quotes.{HasQuotes};

use crate::facts::{MemberFacts, SymbolFacts, count_last, no_members};
use crate::parts::Part;
use crate::rests::count_rests;
use crate::sections::{push_section, share_of};
use crate::trades::{Market, add_trades};
use audit_chart::day::Day;
use audit_html::chunks::Chunks;
use audit_tables::Rows;
use audit_tables::quotes::{no_quotes, note_event};
use best_prices::Markets;
use day_picture::Sketch;
use std::alloc::Global;
use symbol_book::Book;
use venue_words::{Bytes, Config, NoMemory, Report};

/// What is gathered of a symbol beside its section.
#[derive(Drop)]
pub struct Gathered {
    pub facts: SymbolFacts,
    pub sketch: Sketch,
    /// So many bytes its section has.
    pub size: usize,
}

/// Tells at a symbol's end its trades, its orders and its refused requests.
#[derive(Drop)]
pub struct ReportRows {
    alloc: Global,
    /// The quotes of the markets in the symbol whose events come.
    markets: Markets,
    /// Its trades so far.
    trades: Chunks,
    day: Day,
    facts: SymbolFacts,
    /// The symbols that ended.
    pub gathered: Vec<Gathered>,
    pub members: Vec<MemberFacts>,
    pub member_names: Vec<Bytes>,
    pub symbol_names: Vec<Bytes>,
}

/// Copies of names.
fn copies_of(alloc: Global, names: &[Bytes]) -> Result<Vec<Bytes>, NoMemory> {
    let mut copies = Vec::new(alloc);
    for name in names {
        copies.push(Bytes::copy_of(alloc, name.as_slice())?)?;
    }
    Ok(copies)
}

impl ReportRows {
    /// Nothing is told yet.
    pub fn new(alloc: Global) -> Result<ReportRows, NoMemory> {
        Ok(ReportRows {
            alloc,
            markets: Markets::new(alloc, 0)?,
            trades: Chunks::new(alloc, 0),
            day: Day::new(alloc, 0)?,
            facts: SymbolFacts::none(),
            gathered: Vec::new(alloc),
            members: Vec::new(alloc),
            member_names: Vec::new(alloc),
            symbol_names: Vec::new(alloc),
        })
    }

    /// Stands before the first event of a symbol.
    fn begin_symbol(&mut self, config: &Config) -> Result<(), NoMemory>
        requires { IsConfig config.now }
        ensures quotes { OnOk result ((symbol : ℕ) → HasQuotes config.now symbol [] self.new.markets) }
        ensures trades { OnOk result ((symbol : ℕ) → HasTrades config.now symbol [] self.new.trades) }
    {
        self.markets = no_quotes(self.alloc, config)?;
        self.trades = Chunks::new(self.alloc, share_of(Part::Trades, config));
        self.day = Day::new(self.alloc, config.markets.len() as u32)?;
        self.facts = SymbolFacts::none();
        Ok(())
    }

    /// Counts and notes an event, for the head and the chart.
    fn note(&mut self, book: &Book, made: &[Report]) -> Result<(), NoMemory>
        ensures markets { self.new.markets ≡ self.old.markets }
        ensures trades { self.new.trades ≡ self.old.trades }
        ensures alloc { self.new.alloc ≡ self.old.alloc }
    {
        count_last(&mut self.facts, &mut self.members, book.journal(), made);
        self.day.note(book, made)
    }

    /// How many events there are so far of the symbol whose lines were not read to their end.
    pub fn open_events(&self) -> u64 {
        self.facts.events
    }

    /// Its trades so far.
    pub fn open_trades(&self) -> &Chunks {
        &self.trades
    }

    /// Its chart so far.
    pub fn open_sketch(&mut self) -> &mut Sketch {
        &mut self.day.sketch
    }

    /// Keeps what was gathered of a symbol that ended.
    fn keep(&mut self, book: &Book, size: usize) -> Result<(), NoMemory>
        ensures markets { self.new.markets ≡ self.old.markets }
        ensures trades { self.new.trades ≡ self.old.trades }
        ensures alloc { self.new.alloc ≡ self.old.alloc }
    {
        count_rests(&mut self.facts, &mut self.members, book);
        let next = Day::new(self.alloc, 0)?;
        let day = std::mem::replace(&mut self.day, next);
        self.gathered.push(Gathered {
            facts: self.facts,
            sketch: day.into_sketch(),
            size,
        })?;
        Ok(())
    }
}

impl Rows for ReportRows {
    ghost use Rattle.std.specs.Prelude.{[]};
    ghost use Rattle.audit_report.specs.Sections.{report_telling};
    ghost use Rattle.audit_report.specs.Gathering.{HasTrades};
    ghost use Rattle.audit_tables.specs.Quotes.{HasQuotes};

    ghost tells = { report_telling };

    ghost header = { [] };

    ghost heard = { λ rows config symbol journal. HasQuotes config symbol journal rows.markets × HasTrades config symbol journal rows.trades };

    fn begin(&mut self, _out: &mut Vec<u8>, config: &Config) -> Result<(), NoMemory> {
        self.members = no_members(self.alloc, config.members.len())?;
        self.member_names = copies_of(self.alloc, config.members.as_slice())?;
        self.symbol_names = copies_of(self.alloc, config.symbols.as_slice())?;
        self.gathered = Vec::new(self.alloc);
        self.begin_symbol(config)?;
        Ok(())
    }

    fn push_event(
        &mut self,
        _out: &mut Vec<u8>,
        config: &Config,
        symbol: u32,
        book: &Book,
        made: &[Report],
    ) -> Result<(), NoMemory> {
        note_event(&mut self.markets, config, symbol, book);
        let market = Market {
            config,
            symbol,
            best: self.markets.best(),
        };
        add_trades(self.alloc, &mut self.trades, market, made)?;
        self.note(book, made)?;
        Ok(())
    }

    fn push_end(
        &mut self,
        out: &mut Vec<u8>,
        config: &Config,
        symbol: u32,
        book: &Book,
    ) -> Result<(), NoMemory> {
        let start = out.len();
        push_section(self.alloc, out, config, symbol, book, &self.trades)?;
        self.keep(book, out.len().saturating_sub(start))?;
        self.begin_symbol(config)?;
        Ok(())
    }
}
