//! A symbol's chart: what is noted of its day, and the picture of it.
use crate::axis::{Axis, Stretch, push_ticks, push_width, time_at};
use crate::columns::{Column, Columns};
use crate::panels::{
    PRICES, Panel, RESTING, TRADED, push_dot, push_item, push_price_rules, push_prices,
    push_resting, push_traded, push_traded_legend,
};
use crate::scale::{Prices, prices_of};
use crate::svg::{push, push_plain, push_two, push_with};
use std::alloc::Global;
use venue_words::{Best, NoMemory};

/// A symbol with at most so many trades has a dot for each.
const MOST_DOTS: usize = 200;

/// A trade.
#[derive(Clone, Copy)]
pub struct Dot {
    /// On the axis of time.
    pub time: u64,
    pub event: u64,
    /// In units of 0.005.
    pub price: u32,
    pub quantity: u32,
}

/// What is noted of a symbol's day for its chart. It has the same size whatever the day.
#[derive(Drop)]
pub struct Sketch {
    by_time: Columns,
    by_event: Columns,
    dots: Vec<Dot>,
    trades: u64,
    /// The first and the last moment, once there is an event.
    times: Option<(u64, u64)>,
    events: u64,
}

/// From which moment to which a chart goes, on the axis of time.
#[derive(Clone, Copy, Debug)]
pub struct Range {
    pub first: u64,
    pub last: u64,
}

impl Range {
    /// One that covers both.
    pub fn with(self, other: Range) -> Range {
        Range {
            first: self.first.min(other.first),
            last: self.last.max(other.last),
        }
    }
}

impl Sketch {
    /// Nothing is noted yet.
    pub fn new(alloc: Global) -> Sketch {
        Sketch {
            by_time: Columns::new(alloc, Axis::Time),
            by_event: Columns::new(alloc, Axis::Events),
            dots: Vec::new(alloc),
            trades: 0,
            times: None,
            events: 0,
        }
    }

    /// Begins an event. Moments may go back: an event stands where the latest one so far does.
    pub fn begin_event(&mut self, number: u32, moment: i64) -> Result<(), NoMemory> {
        let at = time_at(moment);
        self.times = match self.times {
            None => Some((at, at)),
            Some((first, last)) => Some((first, last.max(at))),
        };
        self.events = u64::from(number);
        self.by_time.go_to(at)?;
        self.by_event.go_to(u64::from(number))
    }

    /// Notes the national quote behind the event.
    pub fn note_quote(&mut self, best: Best) {
        self.by_time.note_quote(best);
        self.by_event.note_quote(best);
    }

    /// Notes a trade of the event.
    pub fn note_trade(&mut self, price: u32, quantity: u32) -> Result<(), NoMemory> {
        self.by_time.note_trade(price, quantity);
        self.by_event.note_trade(price, quantity);
        self.trades = self.trades.saturating_add(1);
        if self.dots.len() < MOST_DOTS {
            let time = self.times.map_or(0, |times| times.1);
            self.dots.push(Dot {
                time,
                event: self.events,
                price,
                quantity,
            })?;
        }
        Ok(())
    }

    /// Notes the shares that rest behind the event.
    pub fn note_resting(&mut self, buys: u64, sells: u64) {
        self.by_time.note_resting(buys, sells);
        self.by_event.note_resting(buys, sells);
    }

    /// From which moment to which its events are.
    pub fn range(&self) -> Option<Range> {
        match self.times {
            Some((first, last)) => Some(Range { first, last }),
            None => None,
        }
    }
}

/// Where the parts of a chart stand.
#[derive(Clone, Copy)]
struct Places {
    prices: Panel,
    traded: Panel,
    resting: Panel,
    height: u64,
}

impl Places {
    /// Below so many lines of notes.
    fn below(notes: u64) -> Places {
        let prices = Panel {
            top: notes.saturating_mul(16).saturating_add(34),
            height: PRICES,
        };
        let traded = Panel {
            top: prices.bottom().saturating_add(46),
            height: TRADED,
        };
        let resting = Panel {
            top: traded.bottom().saturating_add(46),
            height: RESTING,
        };
        Places {
            prices,
            traded,
            resting,
            height: resting.bottom().saturating_add(30),
        }
    }
}

/// Appends whole cents as a price of a quote.
fn push_cents(out: &mut Vec<u8>, units: u64) -> Result<(), NoMemory> {
    push_with(out, b"#.", &[units / 200])?;
    push_two(out, units % 200 / 2)
}

/// Appends the notes below the legend: that a quote is missing somewhere, and that some are out of the picture.
fn push_notes(out: &mut Vec<u8>, has_gaps: bool, cut: Option<(u64, u64)>) -> Result<(), NoMemory> {
    let mut y = 36u64;
    if has_gaps {
        push_item(out, 0, y, b"e", b"Quote missing or crossed")?;
        y = y.saturating_add(16);
    }
    if let Some((low, high)) = cut {
        push_with(
            out,
            b"<text x=\"0\" y=\"#\">Not all in the picture: quotes from ",
            &[y],
        )?;
        push_cents(out, low)?;
        push(out, b" to ")?;
        push_cents(out, high)?;
        push(out, b"</text>")?;
    }
    Ok(())
}

/// Appends the legend of the panel of prices.
fn push_legend(out: &mut Vec<u8>, has_bars: bool, axis: Axis, width: u64) -> Result<(), NoMemory> {
    let at = push_item(out, 0, 20, b"q", b"National quote")?;
    if !has_bars {
        push_with(
            out,
            b"<circle class=\"t\" cx=\"#\" cy=\"16\" r=\"4\"/>",
            &[at.saturating_add(5)],
        )?;
        push_item(out, at.saturating_add(16), 20, b"", b"Trades")?;
        return Ok(());
    }
    push_item(out, at, 20, b"t", b"")?;
    push_with(
        out,
        b"<text x=\"#\" y=\"20\">Trades, low to high by ",
        &[at.saturating_add(16)],
    )?;
    push_width(out, axis, width)?;
    push(out, b"</text>")
}

fn has_gaps(columns: &[Column]) -> bool {
    columns.iter().any(|column| column.quote.is_none())
}

/// Appends the dots of trades.
fn push_dots(
    out: &mut Vec<u8>,
    dots: &[Dot],
    panel: Panel,
    prices: &Prices,
    stretch: &Stretch,
) -> Result<(), NoMemory> {
    for dot in dots {
        let at = match stretch.axis {
            Axis::Time => dot.time,
            Axis::Events => dot.event,
        };
        push_dot(out, panel, prices, stretch.across(at), dot)?;
    }
    Ok(())
}

/// Appends the panels, their legends and the axis.
fn push_panels(
    alloc: Global,
    out: &mut Vec<u8>,
    columns: &[Column],
    dots: &[Dot],
    stretch: &Stretch,
    has_bars: bool,
) -> Result<u64, NoMemory> {
    let prices = prices_of(alloc, columns)?;
    let gaps = has_gaps(columns);
    let cut = prices.and_then(|prices| prices.cut);
    let notes = u64::from(gaps).saturating_add(u64::from(cut.is_some()));
    let places = Places::below(notes);
    let width = stretch.span / (columns.len() as u64).max(1);
    let ends = [
        (places.prices.top, places.prices.bottom()),
        (places.traded.top, places.traded.bottom()),
        (places.resting.top, places.resting.bottom()),
    ];
    push_ticks(alloc, out, stretch, &ends, places.height.saturating_sub(10))?;
    push_legend(out, has_bars, stretch.axis, width)?;
    push_notes(out, gaps, cut)?;
    if let Some(prices) = prices {
        push_price_rules(out, places.prices, &prices)?;
        push_prices(out, places.prices, columns, &prices, has_bars)?;
        if !has_bars {
            push_dots(out, dots, places.prices, &prices, stretch)?;
        }
    } else {
        push_with(
            out,
            b"<text class=\"c\" x=\"50%\" y=\"#\">no quote came</text>",
            &[places.prices.top.saturating_add(places.prices.height / 2)],
        )?;
    }
    push_traded_legend(
        out,
        places.traded.top.saturating_sub(12),
        stretch.axis,
        width,
    )?;
    push_traded(out, places.traded, columns)?;
    let legend = places.resting.top.saturating_sub(12);
    let at = push_item(out, 0, legend, b"u", b"Buys that rest")?;
    push_item(out, at, legend, b"s", b"Sells that rest")?;
    push_resting(out, places.resting, columns)?;
    Ok(places.height)
}

impl Sketch {
    /// The picture's inside between these moments, and how high it is.
    fn inside(&mut self, alloc: Global, range: Range) -> Result<(Vec<u8>, u64), NoMemory> {
        let mut out = Vec::new(alloc);
        let is_instant = range.first == range.last;
        let (first, last) = if is_instant {
            (1, self.events.max(1))
        } else {
            (range.first, range.last)
        };
        let columns = if is_instant {
            &mut self.by_event
        } else {
            &mut self.by_time
        };
        let axis = columns.axis;
        let step = axis.step_for(first, last);
        let shown = columns.between(first, last, step)?;
        let width = axis.width(columns.step).max(1);
        let stretch = Stretch {
            axis,
            first,
            last,
            start: (first / width).saturating_mul(width),
            span: (shown.len() as u64).saturating_mul(width),
        };
        let has_bars = self.trades > self.dots.len() as u64;
        let height = push_panels(alloc, &mut out, &shown, &self.dots, &stretch, has_bars)?;
        Ok((out, height))
    }

    /// Appends the picture as a part of a page, which has its styles.
    pub fn push_in_page(
        &mut self,
        alloc: Global,
        out: &mut Vec<u8>,
        name: &[u8],
        range: Range,
    ) -> Result<(), NoMemory> {
        let (inside, height) = self.inside(alloc, range)?;
        push_with(
            out,
            b"<div class=\"chart\"><svg role=\"img\" width=\"100%\" height=\"#\" aria-label=\"The day of ",
            &[height],
        )?;
        push_plain(out, name)?;
        push(out, b": quote, trades and resting shares over time\">")?;
        push(out, &inside)?;
        push(out, b"</svg></div>")
    }

    /// Appends the picture as a file of its own, 1000 wide, with this title.
    pub fn push_alone(
        &mut self,
        alloc: Global,
        out: &mut Vec<u8>,
        title: &[u8],
        style: &[u8],
    ) -> Result<(), NoMemory> {
        let range = self.range().unwrap_or(Range { first: 0, last: 0 });
        let (inside, inner) = self.inside(alloc, range)?;
        let height = inner.saturating_add(32);
        push_with(
            out,
            b"<svg xmlns=\"http://www.w3.org/2000/svg\" width=\"1000\" height=\"#\" viewBox=\"0 0 1000 #\"><style>",
            &[height, height],
        )?;
        push(out, style)?;
        push_with(
            out,
            b"</style><rect width=\"1000\" height=\"#\" fill=\"var(--bg)\"/><text x=\"16\" y=\"26\" font-size=\"15\" font-weight=\"600\" fill=\"var(--ink)\">",
            &[height],
        )?;
        push_plain(out, title)?;
        push_with(
            out,
            b"</text><svg class=\"chart\" x=\"16\" y=\"32\" width=\"900\" height=\"#\" overflow=\"visible\">",
            &[inner],
        )?;
        push(out, &inside)?;
        push(out, b"</svg></svg>\n")
    }
}
