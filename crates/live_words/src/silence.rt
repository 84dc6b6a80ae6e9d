//! The lines that take a quiet market's quotes away.
ghost use Rattle.std.specs.Prelude.{◌≡◌, true, Some, slice_get, OnOk, All};
ghost use Rattle.day_journal.specs.Log.{IsShortLine};
ghost use Rattle.live_words.specs.declared.markets.Market.{Market};
ghost use Rattle.live_words.specs.Markets.{is_quiet, stands};
ghost use Rattle.live_words.specs.Silence.{AreKept, AreRowsEmptied, AreStaleEmptied, IsEmptied};

use crate::lines::empty_line;
use crate::markets::Market;
use crate::setup::Setup;
use std::alloc::Global;
use venue_words::{Bytes, NoMemory};

/// Adds the line of a quote that leaves a market without prices of a symbol.
fn push_row(
    alloc: Global,
    setup: &Setup,
    market: usize,
    symbol: usize,
    lines: &mut Vec<Bytes>,
) -> Result<(), NoMemory>
    requires short { All IsShortLine lines.old.items }
    ensures short { OnOk result (All IsShortLine lines.new.items) }
    ensures emptied { OnOk result (IsEmptied setup.now market symbol lines.new.items) }
    ensures kept { OnOk result (AreKept lines.old.items lines.new.items) }
{
    if let Some(symbol) = setup.symbol(symbol) {
        if let Some(market) = setup.market(market) {
            lines.push(empty_line(alloc, symbol, market)?)?;
        }
    }
    Ok(())
}

/// Whether a quote of a symbol has a price.
fn does_stand(rows: &[bool], symbol: usize) -> bool
    ensures { result ≡ stands rows.now symbol }
{
    match rows.get(symbol) {
        Some(row) => *row,
        None => false,
    }
}

/// Adds for each quote of a market that stands the line that leaves it without prices.
fn push_rows(
    alloc: Global,
    setup: &Setup,
    market: usize,
    rows: &[bool],
    lines: &mut Vec<Bytes>,
) -> Result<(), NoMemory>
    requires short { All IsShortLine lines.old.items }
    ensures short { OnOk result (All IsShortLine lines.new.items) }
    ensures emptied { OnOk result (AreRowsEmptied setup.now market rows.now lines.new.items) }
    ensures kept { OnOk result (AreKept lines.old.items lines.new.items) }
{
    let mut symbol = 0;
    while symbol < rows.len() {
        if does_stand(rows, symbol) {
            push_row(alloc, setup, market, symbol, lines)?;
        }
        symbol += 1;
    }
    Ok(())
}

/// Which quotes of a market have a price, if it is quiet.
fn quiet_rows(markets: &[Market], market: usize, now: u64, limit: u64) -> &[bool]
    ensures { (m : Market) → slice_get markets.now market ≡ Some m → is_quiet m.heard now limit ≡ true → result.now ≡ m.rows.items }
{
    match markets.get(market) {
        Some(found) => {
            if found.is_quiet(now, limit) {
                found.rows.as_slice()
            } else {
                &[]
            }
        }
        None => &[],
    }
}

/// Adds for each quote that stands of a market that is quiet the line that leaves it without prices.
///
/// `now` and `limit` are in milliseconds; 0 is no limit. After a refusal some of the lines are there.
pub fn push_stale(
    alloc: Global,
    setup: &Setup,
    markets: &[Market],
    now: u64,
    limit: u64,
    lines: &mut Vec<Bytes>,
) -> Result<(), NoMemory>
    requires short { All IsShortLine lines.old.items }
    ensures short { OnOk result (All IsShortLine lines.new.items) }
    ensures emptied { OnOk result (AreStaleEmptied setup.now markets.now now limit lines.new.items) }
    ensures kept { OnOk result (AreKept lines.old.items lines.new.items) }
{
    let mut market = 0;
    while market < markets.len() {
        let rows = quiet_rows(markets, market, now, limit);
        push_rows(alloc, setup, market, rows, lines)?;
        market += 1;
    }
    Ok(())
}
