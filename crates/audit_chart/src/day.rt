//! What is noted of a symbol's day while its events go by.
use audit_core::{Watch, WatchFault};
use best_prices::Markets;
use day_picture::Sketch;
use std::alloc::Global;
use symbol_book::Book;
use venue_words::{Command, Config, Execution, Kind, NoMemory, Report, Side, View};

/// A symbol's day.
#[derive(Drop)]
pub struct Day {
    markets: Markets,
    /// The shares left of each order, by the event of its New.
    leaves: Vec<u32>,
    buys: u64,
    sells: u64,
    pub sketch: Sketch,
}

/// The shares that an order has left, as a report shows it.
fn left_of(view: &View) -> u32 {
    match view.live {
        Some(live) => live.leaves,
        None => 0,
    }
}

/// A total in which one number took another's place.
fn replaced(total: u64, was: u32, left: u32) -> u64 {
    total
        .saturating_sub(u64::from(was))
        .saturating_add(u64::from(left))
}

impl Day {
    /// A day of which nothing was noted, over so many markets.
    pub fn new(alloc: Global, markets: u32) -> Result<Day, NoMemory> {
        Ok(Day {
            markets: Markets::new(alloc, markets)?,
            leaves: Vec::new(alloc),
            buys: 0,
            sells: 0,
            sketch: Sketch::new(alloc),
        })
    }

    fn note_quote(&mut self, command: &Command) {
        if let Command::Quote { market, bid, offer } = command {
            if (*market as usize) < self.markets.len() {
                let _changed = self.markets.set(*market, *bid, *offer);
                self.sketch.note_quote(self.markets.best());
            }
        }
    }

    /// Notes the shares that an order has left, and answers those that it had before.
    fn note_leaves(&mut self, first: u32, left: u32) -> Result<u32, NoMemory> {
        let place = first as usize;
        let missing = place.saturating_add(1).saturating_sub(self.leaves.len());
        for _ in 0..missing {
            self.leaves.push(0)?;
        }
        let Some(entry) = self.leaves.get_mut(place) else {
            return Ok(0);
        };
        let was = *entry;
        *entry = left;
        Ok(was)
    }

    fn note_order(&mut self, view: &View) -> Result<(), NoMemory> {
        let left = left_of(view);
        let was = self.note_leaves(view.first, left)?;
        match view.side {
            Side::Buy => self.buys = replaced(self.buys, was, left),
            Side::Sell => self.sells = replaced(self.sells, was, left),
        }
        Ok(())
    }

    /// Notes what a report says of an order. A trade is told to both of its orders, and noted by its buy's report.
    fn note_report(&mut self, report: &Report) -> Result<(), NoMemory> {
        let Kind::Order { view, execution } = &report.kind else {
            return Ok(());
        };
        self.note_order(view)?;
        if let (Execution::Traded { quantity, price }, Side::Buy) = (execution, view.side) {
            self.sketch.note_trade(*price, *quantity)?;
        }
        Ok(())
    }

    fn note_reports(&mut self, made: &[Report]) -> Result<(), NoMemory> {
        for report in made {
            self.note_report(report)?;
        }
        Ok(())
    }

    /// What was noted for the chart.
    pub fn into_sketch(self) -> Sketch {
        let Day { sketch, .. } = self;
        sketch
    }

    /// Notes the last event of a book, which made these reports.
    pub fn note(&mut self, book: &Book, made: &[Report]) -> Result<(), NoMemory> {
        let Some(event) = book.journal().last() else {
            return Ok(());
        };
        self.sketch.begin_event(event.number, event.moment)?;
        self.note_quote(&event.command);
        self.note_reports(made)?;
        self.sketch.note_resting(self.buys, self.sells);
        Ok(())
    }
}

/// Notes the day of one symbol.
#[derive(Drop)]
pub struct DayWatch {
    pub symbol: u32,
    pub day: Day,
}

impl Watch for DayWatch {
    ghost use Rattle.std.specs.Prelude.{[], None};

    ghost tells = { record { event = λ _ _ _. []; end = λ _ _ _. [] } };

    ghost output = { λ _. record { told = None; held = [] } };

    ghost faults = { λ _. 0 };

    ghost heard = { λ _ _ _ _. Unit {0} };

    fn on_event(
        &mut self,
        _config: &Config,
        symbol: u32,
        book: &Book,
        made: &[Report],
    ) -> Result<(), WatchFault> {
        if symbol == self.symbol {
            self.day.note(book, made)?;
        }
        Ok(())
    }

    fn on_end(&mut self, _config: &Config, _symbol: u32, _book: &Book) -> Result<(), WatchFault> {
        Ok(())
    }
}
