//! The conflation of one symbol at one market.
ghost use Rattle.std.specs.Prelude.{◌≡◌, None};
ghost use Rattle.quote_flow.specs.Cells.{reaches, is_emptied, is_urgent, is_due, passes_now, passing, holding, on_quote, on_tick, fresh};

use crate::quote::Sides;

/// What passed last, and when, in milliseconds since 1970-01-01 00:00 UTC.
#[derive(Clone, Copy, Debug, PartialEq, Eq)]
pub struct Passed {
    pub sides: Sides,
    pub moment: i64,
}

/// What is known of one symbol at one market.
#[derive(Clone, Copy, Debug, PartialEq, Eq)]
pub struct Cell {
    /// None before the first quote.
    pub last: Option<Passed>,
    /// The last quote that came, where it waits.
    pub held: Option<Sides>,
}

/// A cell after an input, and the quote that passes, if one does.
#[derive(Clone, Copy, Debug, PartialEq, Eq)]
pub struct Step {
    pub cell: Cell,
    pub passes: Option<Sides>,
}

/// Whether a bid is as high as an offer.
fn reaches(bid: Option<u32>, offer: Option<u32>) -> bool
    ensures { result ≡ reaches bid offer }
{
    match (bid, offer) {
        (Some(bid), Some(offer)) => offer <= bid,
        (_, _) => false,
    }
}

/// Whether a side loses its price.
fn is_emptied(old: Option<u32>, new: Option<u32>) -> bool
    ensures { result ≡ is_emptied old new }
{
    old.is_some() && new.is_none()
}

/// Whether a quote passes at once, whatever passed a moment ago: it crosses itself or what passed last, or empties a side.
fn is_urgent(last: Sides, new: Sides) -> bool
    ensures { result ≡ is_urgent last new }
{
    reaches(new.bid, new.offer)
        || reaches(new.bid, last.offer)
        || reaches(last.bid, new.offer)
        || is_emptied(last.bid, new.bid)
        || is_emptied(last.offer, new.offer)
}

/// Whether so many milliseconds have passed since the last quote passed. A clock that went back holds nothing.
fn is_due(pace: u64, last: Passed, moment: i64) -> bool
    ensures { result ≡ is_due pace last moment }
{
    moment < last.moment || i128::from(pace) <= i128::from(moment) - i128::from(last.moment)
}

/// Whether a quote passes at the moment at which it comes.
fn passes_now(pace: u64, last: Option<Passed>, moment: i64, new: Sides) -> bool
    ensures { result ≡ passes_now pace last moment new }
{
    match last {
        Some(last) => is_due(pace, last, moment) || is_urgent(last.sides, new),
        None => true,
    }
}

impl Cell {
    /// A cell to which nothing came yet.
    pub fn new() -> Cell
        ensures { result ≡ fresh }
    {
        Cell {
            last: None,
            held: None,
        }
    }

    /// The quote passes.
    fn passing(moment: i64, sides: Sides) -> Step
        ensures { result ≡ passing moment sides }
    {
        Step {
            cell: Cell {
                last: Some(Passed { sides, moment }),
                held: None,
            },
            passes: Some(sides),
        }
    }

    /// A quote comes at a moment: it passes, or it is held in place of the one that was held.
    pub fn take(self, pace: u64, moment: i64, sides: Sides) -> Step
        ensures { result ≡ on_quote pace moment self sides }
    {
        if passes_now(pace, self.last, moment, sides) {
            return Cell::passing(moment, sides);
        }
        Step {
            cell: Cell {
                last: self.last,
                held: Some(sides),
            },
            passes: None,
        }
    }

    /// The clock says this moment: a quote that was held passes where it is due.
    pub fn tick(self, pace: u64, moment: i64) -> Step
        ensures { result ≡ on_tick pace moment self }
    {
        let rests = Step {
            cell: self,
            passes: None,
        };
        let Some(sides) = self.held else {
            return rests;
        };
        match self.last {
            Some(last) if !is_due(pace, last, moment) => rests,
            _ => Cell::passing(moment, sides),
        }
    }
}
