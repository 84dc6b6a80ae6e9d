//! The conflation of all symbols and markets.
ghost use Rattle.std.specs.Prelude.{◌≡◌, ◌<◌, ◌++◌, length, position, slice_get, IfSome, IfOk, OnOk};
ghost use Rattle.quote_flow.specs.Tables.{is_of, quote_of, slots_at, passes_at, slots_with, passed_with, slots_after, passed_after, slots_ticked, passed_ticked};

use crate::cell::Cell;
use crate::quote::{MarketQuote, Sides};
use std::alloc::Global;
use std::marker::Model;
use venue_words::NoMemory;

/// A symbol at a market, and what is known of it.
#[derive(Clone, Copy, Debug, PartialEq, Eq)]
pub struct Slot {
    pub symbol: u32,
    pub market: u32,
    pub cell: Cell,
}

/// Whether a quote is of this symbol and market.
fn is_of(quote: &MarketQuote, slot: &Slot) -> bool
    ensures { result ≡ is_of quote.now slot.now }
{
    slot.symbol == quote.symbol && slot.market == quote.market
}

/// The place of a quote's symbol and market.
fn place_of(slots: &[Slot], quote: &MarketQuote) -> Option<usize>
    ensures place { result ≡ position (is_of quote.now) slots.now }
    ensures within { IfSome result (λ at. at < length slots.now) }
{
    slots.iter().position(|slot| is_of(quote, slot))
}

/// Appends the quote of a symbol at a market that passes, if one does.
fn push_passed(
    out: &mut Vec<MarketQuote>,
    symbol: u32,
    market: u32,
    passes: Option<Sides>,
) -> Result<(), NoMemory>
    ensures { OnOk result (out.new.items ≡ out.old.items ++ quote_of symbol market passes) }
{
    if let Some(sides) = passes {
        out.push(MarketQuote {
            symbol,
            market,
            sides,
        })?;
    }
    Ok(())
}

/// A quote comes to the slot at a place.
fn take_at(slots: &mut [Slot], at: usize, pace: u64, moment: i64, sides: Sides) -> Option<Sides>
    requires { at < length slots.old }
    ensures slots { slots.new ≡ slots_at pace moment slots.old sides at (slice_get slots.old at) }
    ensures passes { result ≡ passes_at pace moment sides (slice_get slots.old at) }
{
    let slot = slots[at];
    let step = slot.cell.take(pace, moment, sides);
    slots[at] = Slot {
        symbol: slot.symbol,
        market: slot.market,
        cell: step.cell,
    };
    step.passes
}

/// A quote comes. After a refusal it may be lost.
#[tactic(auto, unfolding(crate::specs::Tables::slots_with, crate::specs::Tables::passed_with))]
fn take_quote(
    slots: &mut Vec<Slot>,
    pace: u64,
    moment: i64,
    quote: &MarketQuote,
    out: &mut Vec<MarketQuote>,
) -> Result<(), NoMemory>
    ensures slots { OnOk result (slots.new.items ≡ slots_with pace moment slots.old.items quote.now) }
    ensures passed { OnOk result (out.new.items
        ≡ out.old.items ++ passed_with pace moment slots.old.items quote.now) }
{
    let passes = match place_of(slots, quote) {
        Some(at) => take_at(slots, at, pace, moment, quote.sides),
        None => {
            let step = Cell::new().take(pace, moment, quote.sides);
            slots.push(Slot {
                symbol: quote.symbol,
                market: quote.market,
                cell: step.cell,
            })?;
            step.passes
        }
    };
    push_passed(out, quote.symbol, quote.market, passes)
}

/// Quotes come at a moment, one after the other.
fn take_quotes(
    slots: &mut Vec<Slot>,
    pace: u64,
    moment: i64,
    quotes: &[MarketQuote],
    out: &mut Vec<MarketQuote>,
) -> Result<(), NoMemory>
    ensures slots { OnOk result (slots.new.items ≡ slots_after pace moment slots.old.items quotes.now) }
    ensures passed { OnOk result (out.new.items
        ≡ out.old.items ++ passed_after pace moment slots.old.items quotes.now) }
{
    for quote in quotes {
        take_quote(slots, pace, moment, quote, out)?;
    }
    Ok(())
}

/// The clock says a moment to all slots: what they are then.
fn ticked(
    alloc: Global,
    slots: &[Slot],
    pace: u64,
    moment: i64,
    out: &mut Vec<MarketQuote>,
) -> Result<Vec<Slot>, NoMemory>
    ensures slots { IfOk result (λ next. next.items ≡ slots_ticked pace moment slots.now) }
    ensures passed { OnOk result (out.new.items ≡ out.old.items ++ passed_ticked pace moment slots.now) }
{
    let mut next = Vec::new(alloc);
    for slot in slots {
        let step = slot.cell.tick(pace, moment);
        next.push(Slot {
            symbol: slot.symbol,
            market: slot.market,
            cell: step.cell,
        })?;
        push_passed(out, slot.symbol, slot.market, step.passes)?;
    }
    Ok(next)
}

/// Passes at most one quote of a symbol at a market in so many milliseconds, the last one; at once one that crosses or that empties
/// a side. Without a pace it passes all.
#[derive(Drop)]
pub struct Conflater {
    alloc: Global,
    pace: Option<u64>,
    slots: Vec<Slot>,
}

impl Model for Conflater {
    ghost use Rattle.quote_flow.specs.Tables.{Table};

    ghost Value = { Table };

    ghost view = { λ c. record { pace = c.pace; slots = c.slots.items } };
}

impl Conflater {
    ghost use Rattle.std.specs.Prelude.{[]};
    ghost use Rattle.quote_flow.specs.Tables.{turned, passed};

    /// So many milliseconds apart, or with none without any distance.
    pub fn new(alloc: Global, pace: Option<u64>) -> Conflater
        ensures { result ≡ record { pace = pace; slots = [] } }
    {
        Conflater {
            alloc,
            pace,
            slots: Vec::new(alloc),
        }
    }

    /// Quotes come, and the clock says a moment, in milliseconds since 1970-01-01 00:00 UTC: those that pass are appended. It is to
    /// be called at least once in each pace, without quotes too, so that none is held for longer. After a refusal quotes may be lost.
    pub fn turn(
        &mut self,
        moment: i64,
        quotes: &[MarketQuote],
        out: &mut Vec<MarketQuote>,
    ) -> Result<(), NoMemory>
        ensures table { OnOk result (self.new ≡ turned self.old moment quotes.now) }
        ensures passed { OnOk result (out.new.items ≡ out.old.items ++ passed self.old moment quotes.now) }
    {
        let Some(pace) = self.pace else {
            out.extend_from_slice(quotes)?;
            return Ok(());
        };
        take_quotes(&mut self.slots, pace, moment, quotes, out)?;
        self.slots = ticked(self.alloc, &self.slots, pace, moment, out)?;
        Ok(())
    }
}
