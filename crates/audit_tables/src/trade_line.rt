//! The lines of trades.
ghost use Rattle.std.specs.Prelude.{◌≡◌, ◌++◌, [], None, IfSome, OnOk, drop, filter, unwrap_or};
ghost use Rattle.fix_write.specs.Moments.{moment_text};
ghost use Rattle.exec_reports.specs.Parts.{first_in, last_price_in, last_quantity_in, limit_in};
ghost use Rattle.exec_reports.specs.Texts.{order_id, price_text};
ghost use Rattle.quote_text.specs.Sides.{side_text};
ghost use Rattle.listing.specs.Commands.{name_at};
ghost use Rattle.listing.specs.Lines.{ended};
ghost use Rattle.audit_tables.specs.Cells.{cell};
ghost use Rattle.audit_tables.specs.Trades.{IsNextTraded, at_limit, is_traded, limit_word, parties, taker_word, taking_cells, trade_cells, trade_line, trade_lines, trade_of, trades_in};

use crate::cells::{push_cell, push_id_cell, push_number_cell};
use exec_reports::parts::{first_of, id_of, last_price_of, last_quantity_of, limit_of, side_of};
use exec_reports::texts::{push_order_id, push_price};
use fix_write::push_moment;
use listing::name_at;
use quote_text::push_side;
use venue_words::{Best, Config, NoMemory, Report, Side};

/// Whether a report tells of a trade.
pub fn is_traded(report: &Report) -> bool
    ensures { result ≡ is_traded report.now }
{
    last_quantity_of(&report.kind).is_some()
}

/// Appends a comma and the moment of a report.
fn push_moment_cell(out: &mut Vec<u8>, moment: i64) -> Result<(), NoMemory>
    ensures { OnOk result (out.new.items ≡ out.old.items ++ cell (moment_text moment)) }
{
    out.push(b',')?;
    push_moment(out, moment)
}

/// Appends a comma and a price.
fn push_price_cell(out: &mut Vec<u8>, units: u32) -> Result<(), NoMemory>
    ensures { OnOk result (out.new.items ≡ out.old.items ++ cell (price_text units)) }
{
    out.push(b',')?;
    push_price(out, units)
}

/// Appends a comma and a side of a quote.
fn push_side_cell(out: &mut Vec<u8>, cents: Option<u32>) -> Result<(), NoMemory>
    ensures { OnOk result (out.new.items ≡ out.old.items ++ cell (side_text cents)) }
{
    out.push(b',')?;
    push_side(out, cents)
}

/// Appends a comma and the identifier of the order that a report shows.
fn push_order_cell(out: &mut Vec<u8>, symbol: &[u8], report: &Report) -> Result<(), NoMemory>
    ensures { OnOk result (out.new.items ≡ out.old.items ++ cell (order_id symbol.now (first_in report.now.kind))) }
{
    out.push(b',')?;
    push_order_id(out, symbol, first_of(&report.kind))
}

/// Appends the orders of a trade and their members.
fn push_parties(
    out: &mut Vec<u8>,
    config: &Config,
    symbol: u32,
    buy: &Report,
    sell: &Report,
) -> Result<(), NoMemory>
    ensures { OnOk result (out.new.items ≡ out.old.items ++ parties config.now symbol buy.now sell.now) }
{
    let symbol = name_at(config.symbols.as_slice(), symbol);
    push_order_cell(out, symbol, buy)?;
    push_order_cell(out, symbol, sell)?;
    push_cell(out, name_at(config.members.as_slice(), buy.member))?;
    push_cell(out, name_at(config.members.as_slice(), sell.member))
}

/// Appends the first cells of a trade: when it was, at which price, of whom, and the national quote.
#[tactic(auto, unfolding(crate::specs::Trades::trade_cells))]
fn push_trade_cells(
    out: &mut Vec<u8>,
    config: &Config,
    symbol: u32,
    best: Best,
    buy: &Report,
    sell: &Report,
) -> Result<(), NoMemory>
    ensures { OnOk result (out.new.items ≡ out.old.items ++ trade_cells config.now symbol best buy.now sell.now) }
{
    out.extend_from_slice(name_at(config.symbols.as_slice(), symbol))?;
    push_number_cell(out, u64::from(buy.event))?;
    push_moment_cell(out, buy.moment)?;
    push_price_cell(out, last_price_of(&buy.kind).unwrap_or(0))?;
    push_number_cell(out, u64::from(last_quantity_of(&buy.kind).unwrap_or(0)))?;
    push_parties(out, config, symbol, buy, sell)?;
    push_side_cell(out, best.bid)?;
    push_side_cell(out, best.offer)
}

/// Whose order took.
pub fn taker_word(taker: Side) -> &'static [u8]
    ensures { result.now ≡ taker_word taker }
{
    match taker {
        Side::Buy => b"buyer",
        Side::Sell => b"seller",
    }
}

/// Whether a price is that of a limit.
fn limit_word(limit: Option<u32>, price: u32) -> &'static [u8]
    ensures { result.now ≡ limit_word limit price }
{
    match limit {
        None => b"-",
        Some(limit) => { if limit == price { b"yes" } else { b"no" } }
    }
}

/// Whether an order traded at its limit.
fn at_limit(report: &Report) -> &'static [u8]
    ensures { result.now ≡ at_limit report.now }
{
    let price = last_price_of(&report.kind).unwrap_or(0);
    limit_word(limit_of(&report.kind), price)
}

/// Appends the last cells of a trade: the ClOrdIDs, who took, and who traded at a limit.
#[tactic(auto, unfolding(crate::specs::Trades::taking_cells))]
fn push_taking_cells(
    out: &mut Vec<u8>,
    taker: Side,
    buy: &Report,
    sell: &Report,
) -> Result<(), NoMemory>
    ensures { OnOk result (out.new.items ≡ out.old.items ++ taking_cells taker buy.now sell.now) }
{
    push_id_cell(out, id_of(&buy.kind))?;
    push_id_cell(out, id_of(&sell.kind))?;
    push_cell(out, taker_word(taker))?;
    push_cell(out, at_limit(buy))?;
    push_cell(out, at_limit(sell))
}

/// Appends the line of a trade, of which the taker and the contra are told. A refusal leaves a part of it.
fn push_trade(
    out: &mut Vec<u8>,
    config: &Config,
    symbol: u32,
    best: Best,
    taker: &Report,
    contra: &Report,
) -> Result<(), NoMemory>
    ensures { OnOk result (out.new.items ≡ out.old.items
        ++ ended (trade_line config.now symbol best (trade_of taker.now contra.now))) }
{
    if side_of(&taker.kind) == b'1' {
        push_trade_cells(out, config, symbol, best, taker, contra)?;
        push_taking_cells(out, Side::Buy, taker, contra)?;
    } else {
        push_trade_cells(out, config, symbol, best, contra, taker)?;
        push_taking_cells(out, Side::Sell, contra, taker)?;
    }
    out.push(b'\n')?;
    Ok(())
}

/// The place of the first report from a place on that tells of a trade.
pub fn next_traded(reports: &[Report], start: usize) -> Option<usize>
    ensures none { result ≡ None → filter is_traded (drop start reports.now) ≡ [] }
    ensures some { IfSome result (λ place. IsNextTraded reports.now start place) }
{
    for place in start..reports.len() {
        let report = &reports[place];
        if is_traded(report) {
            return Some(place);
        }
    }
    None
}

/// Appends a line for each trade of which reports tell, at this national quote. A refusal leaves a part of them.
pub fn push_trades(
    out: &mut Vec<u8>,
    config: &Config,
    symbol: u32,
    best: Best,
    reports: &[Report],
) -> Result<(), NoMemory>
    ensures { OnOk result (out.new.items ≡ out.old.items ++ trade_lines config.now symbol best (trades_in reports.now)) }
{
    let mut place = 0;
    'trades: loop {
        let Some(first) = next_traded(reports, place) else {
            return Ok(());
        };
        let Some(second) = next_traded(reports, first + 1) else {
            return Ok(());
        };
        let taker = &reports[first];
        let contra = &reports[second];
        push_trade(out, config, symbol, best, taker, contra)?;
        place = second + 1;
    }
}
