//! What a chart shows, column by column. A day of any length has a bounded number of them: where they become too many, neighbours are merged.
use crate::axis::{Axis, MOST_COLUMNS};
use std::alloc::Global;
use venue_words::{Best, NoMemory};

/// What a column shows.
#[derive(Clone, Copy, Debug)]
pub struct Column {
    /// The least bid and the greatest offer that were in force in it, in cents; none where the quote was missing or crossed all the time.
    pub quote: Option<(u32, u32)>,
    /// The least and the greatest price of its trades, in units of 0.005.
    pub trades: Option<(u32, u32)>,
    /// The shares that were traded in it.
    pub volume: u64,
    /// The shares of the buys that rest at its end, and of the sells.
    pub buys: u64,
    pub sells: u64,
}

/// The least and the greatest of two pairs.
fn widened(one: Option<(u32, u32)>, other: Option<(u32, u32)>) -> Option<(u32, u32)> {
    match (one, other) {
        (Some(a), Some(b)) => Some((a.0.min(b.0), a.1.max(b.1))),
        (Some(a), None) => Some(a),
        (None, b) => b,
    }
}

impl Column {
    /// A column in which nothing is.
    pub fn empty() -> Column {
        Column {
            quote: None,
            trades: None,
            volume: 0,
            buys: 0,
            sells: 0,
        }
    }

    /// A column and the one after it, as one.
    fn with(self, later: Column) -> Column {
        Column {
            quote: widened(self.quote, later.quote),
            trades: widened(self.trades, later.trades),
            volume: self.volume.saturating_add(later.volume),
            buys: later.buys,
            sells: later.sells,
        }
    }
}

/// The columns of a symbol's day so far.
#[derive(Drop)]
pub struct Columns {
    alloc: Global,
    pub axis: Axis,
    pub step: usize,
    /// The number of the first column, counted in their width.
    first: u64,
    list: Vec<Column>,
    /// What a column would show in which nothing more comes.
    now: Column,
}

impl Columns {
    /// None yet.
    pub fn new(alloc: Global, axis: Axis) -> Columns {
        Columns {
            alloc,
            axis,
            step: 0,
            first: 0,
            list: Vec::new(alloc),
            now: Column::empty(),
        }
    }

    /// The columns of the next width.
    fn widen(&mut self) -> Result<(), NoMemory> {
        let old = self.axis.width(self.step).max(1);
        self.step = self.step.saturating_add(1);
        let times = (self.axis.width(self.step) / old).max(1);
        let mut merged: Vec<Column> = Vec::new(self.alloc);
        let mut number = self.first;
        let mut last = self.first / times;
        self.first = last;
        for column in &self.list {
            let at = number / times;
            match merged.last_mut() {
                Some(front) if at == last => *front = front.with(*column),
                _ => merged.push(*column)?,
            }
            last = at;
            number = number.saturating_add(1);
        }
        self.list = merged;
        Ok(())
    }

    /// The number of the column of a place, but none before the last one that there is.
    fn number_of(&self, at: u64) -> u64 {
        let number = at / self.axis.width(self.step).max(1);
        let ends = self.first.saturating_add(self.list.len() as u64);
        number.max(ends.saturating_sub(1))
    }

    /// Goes on to a place: from here on, the last column is its own.
    pub fn go_to(&mut self, at: u64) -> Result<(), NoMemory> {
        if self.list.is_empty() {
            self.first = at / self.axis.width(self.step).max(1);
        }
        for _ in 0..64 {
            if self.number_of(at).saturating_sub(self.first) < MOST_COLUMNS as u64 {
                break;
            }
            self.widen()?;
        }
        let wanted = self
            .number_of(at)
            .saturating_sub(self.first)
            .saturating_add(1);
        for _ in 0..MOST_COLUMNS {
            if self.list.len() as u64 >= wanted || self.list.len() >= MOST_COLUMNS {
                break;
            }
            self.list.push(self.now)?;
        }
        Ok(())
    }

    /// Notes the national quote from here on.
    pub fn note_quote(&mut self, best: Best) {
        self.now.quote = match (best.bid, best.offer) {
            (Some(bid), Some(offer)) if bid <= offer => Some((bid, offer)),
            _ => None,
        };
        if let Some(column) = self.list.last_mut() {
            column.quote = widened(column.quote, self.now.quote);
        }
    }

    /// Notes a trade here.
    pub fn note_trade(&mut self, price: u32, quantity: u32) {
        if let Some(column) = self.list.last_mut() {
            column.trades = widened(column.trades, Some((price, price)));
            column.volume = column.volume.saturating_add(u64::from(quantity));
        }
    }

    /// Notes the shares that rest from here on.
    pub fn note_resting(&mut self, buys: u64, sells: u64) {
        self.now.buys = buys;
        self.now.sells = sells;
        if let Some(column) = self.list.last_mut() {
            column.buys = buys;
            column.sells = sells;
        }
    }

    /// The columns between two places at a step: those before the first one are empty, and those after the last show what stood then.
    pub fn between(&mut self, first: u64, last: u64, step: usize) -> Result<Vec<Column>, NoMemory> {
        for _ in 0..64 {
            if self.step >= step {
                break;
            }
            self.widen()?;
        }
        let width = self.axis.width(self.step).max(1);
        let mut columns = Vec::new(self.alloc);
        let mut number = first / width;
        let end = last / width;
        for _ in 0..MOST_COLUMNS {
            if number > end {
                break;
            }
            columns.push(self.column_at(number))?;
            number = number.saturating_add(1);
        }
        Ok(columns)
    }

    fn column_at(&self, number: u64) -> Column {
        if number < self.first || self.list.is_empty() {
            return Column::empty();
        }
        match self.list.get(number.saturating_sub(self.first) as usize) {
            Some(column) => *column,
            None => self.now,
        }
    }
}
