//! The rows of trades.
ghost use Rattle.std.specs.Prelude.{◌≡◌, ◌++◌, ◌∷◌, [], IfOk, OnOk};
ghost use Rattle.venue_words.specs.declared.price.Best.{Best};
ghost use Rattle.audit_html.specs.Chunks.{Adds};
ghost use Rattle.audit_report.specs.Parts.{box};
ghost use Rattle.audit_report.specs.TradeRows.{market_cells, party_cells, price_cells, quote_cells, rows_at, trade_row};
ghost use Rattle.audit_tables.specs.Trades.{trade_of, trades_in};

use crate::cells::{push_link_of, push_member_of, push_td, push_when};
use crate::parts::{Part, add_row};
use audit_html::chunks::Chunks;
use audit_html::numbers::push_count;
use audit_html::texts::push;
use audit_tables::trade_line::{next_traded, taker_word};
use exec_reports::parts::{last_price_of, last_quantity_of, side_of};
use exec_reports::texts::push_price;
use quote_text::push_side;
use std::alloc::Global;
use venue_words::{Best, Config, NoMemory, Report, Side};

/// A symbol of a config, and its national quote.
#[derive(Clone, Copy)]
pub struct Market<'a> {
    pub config: &'a Config,
    pub symbol: u32,
    pub best: Best,
}

/// Appends at which price a trade was, and of how many shares.
#[tactic(auto, unfolding(crate::specs::TradeRows::price_cells))]
fn push_price_cells(alloc: Global, out: &mut Vec<u8>, report: &Report) -> Result<(), NoMemory>
    ensures { OnOk result (out.new.items ≡ out.old.items ++ price_cells report.now) }
{
    let quantity = last_quantity_of(&report.kind).unwrap_or(0);
    push_td(out)?;
    push_price(out, last_price_of(&report.kind).unwrap_or(0))?;
    push_td(out)?;
    push_count(alloc, out, u64::from(quantity))
}

/// Appends the national quote.
#[tactic(auto, unfolding(crate::specs::TradeRows::quote_cells))]
fn push_quote_cells(out: &mut Vec<u8>, best: Best) -> Result<(), NoMemory>
    ensures { OnOk result (out.new.items ≡ out.old.items ++ quote_cells best) }
{
    push_td(out)?;
    push_side(out, best.bid)?;
    push_td(out)?;
    push_side(out, best.offer)
}

/// Appends when a trade was, at which price, of how many shares, and the national quote.
#[tactic(auto, unfolding(crate::specs::TradeRows::market_cells))]
fn push_market_cells(
    alloc: Global,
    out: &mut Vec<u8>,
    best: Best,
    report: &Report,
) -> Result<(), NoMemory>
    ensures { OnOk result (out.new.items ≡ out.old.items ++ market_cells best report.now) }
{
    push_when(alloc, out, report)?;
    push_price_cells(alloc, out, report)?;
    push_quote_cells(out, best)
}

/// Appends the member and the ClOrdID of an order that traded.
#[tactic(auto, unfolding(crate::specs::TradeRows::party_cells))]
fn push_party_cells(
    alloc: Global,
    out: &mut Vec<u8>,
    config: &Config,
    symbol: u32,
    report: &Report,
) -> Result<(), NoMemory>
    ensures { OnOk result (out.new.items ≡ out.old.items ++ party_cells config.now symbol report.now) }
{
    push_td(out)?;
    push_member_of(alloc, out, config, report)?;
    push_td(out)?;
    push_link_of(alloc, out, config, symbol, report)
}

/// The row of a trade, of which the order that buys and the order that sells are told.
fn row_by_side(
    alloc: Global,
    market: Market<'_>,
    taker: Side,
    buy: &Report,
    sell: &Report,
) -> Result<Vec<u8>, NoMemory>
    ensures { IfOk result (λ row. row.items ≡ trade_row market.entry.config.now market.entry.symbol market.entry.best
        (record { buy = buy.now; sell = sell.now; taker = taker })) }
{
    let mut row = Vec::new(alloc);
    push(&mut row, b"<tr class=\"row\">")?;
    push_market_cells(alloc, &mut row, market.best, buy)?;
    push_party_cells(alloc, &mut row, market.config, market.symbol, buy)?;
    push_party_cells(alloc, &mut row, market.config, market.symbol, sell)?;
    push_td(&mut row)?;
    push(&mut row, taker_word(taker))?;
    push(&mut row, b"\n")?;
    Ok(row)
}

/// The row of a trade, of which the taker and the contra are told.
fn row_of(
    alloc: Global,
    market: Market<'_>,
    taker: &Report,
    contra: &Report,
) -> Result<Vec<u8>, NoMemory>
    ensures { IfOk result (λ row. row.items ≡ trade_row market.entry.config.now market.entry.symbol market.entry.best
        (trade_of taker.now contra.now)) }
{
    if side_of(&taker.kind) == b'1' {
        row_by_side(alloc, market, Side::Buy, taker, contra)
    } else {
        row_by_side(alloc, market, Side::Sell, contra, taker)
    }
}

/// Adds the row of a trade, of which the taker and the contra are told.
fn add_trade(
    alloc: Global,
    chunks: &mut Chunks,
    market: Market<'_>,
    taker: &Report,
    contra: &Report,
) -> Result<(), NoMemory>
    ensures { OnOk result (Adds (box Part.Trades) (trade_row market.entry.config.now market.entry.symbol market.entry.best
        (trade_of taker.now contra.now) ∷ []) chunks.old chunks.new) }
{
    let row = row_of(alloc, market, taker, contra)?;
    add_row(chunks, Part::Trades, row.as_slice())
}

/// Adds a row for each trade of which reports tell.
pub fn add_trades(
    alloc: Global,
    chunks: &mut Chunks,
    market: Market<'_>,
    reports: &[Report],
) -> Result<(), NoMemory>
    ensures { OnOk result (Adds (box Part.Trades)
        (rows_at market.entry.config.now market.entry.symbol market.entry.best (trades_in reports.now)) chunks.old chunks.new) }
{
    let mut place = 0;
    'trades: loop {
        let Some(first) = next_traded(reports, place) else {
            return Ok(());
        };
        let Some(second) = next_traded(reports, first + 1) else {
            return Ok(());
        };
        add_trade(alloc, chunks, market, &reports[first], &reports[second])?;
        place = second + 1;
    }
}
