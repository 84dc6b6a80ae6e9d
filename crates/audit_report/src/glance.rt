//! The day at a glance: its figures, and a line for each symbol.
use crate::facts::SymbolFacts;
use crate::members::push_cell;
use crate::rows::Gathered;
use audit_html::numbers::{push_count, push_value};
use audit_html::texts::{push, push_shown};
use exec_reports::texts::push_price;
use fix_write::digits::push_number;
use std::alloc::Global;
use venue_words::{Bytes, NoMemory};

/// What is counted of all symbols.
pub(crate) fn total_of(symbols: &[Gathered]) -> SymbolFacts {
    let mut all = SymbolFacts::none();
    for symbol in symbols {
        let facts = &symbol.facts;
        all.events = all.events.saturating_add(facts.events);
        all.orders = all.orders.saturating_add(facts.orders);
        all.refused = all.refused.saturating_add(facts.refused);
        all.trades = all.trades.saturating_add(facts.trades);
        all.shares = all.shares.saturating_add(facts.shares);
        all.value = all.value.saturating_add(facts.value);
        all.buys = all.buys.saturating_add(facts.buys);
        all.sells = all.sells.saturating_add(facts.sells);
    }
    all
}

/// Appends a figure with its name.
fn push_figure(alloc: Global, out: &mut Vec<u8>, name: &[u8], number: u64) -> Result<(), NoMemory> {
    push(out, b"<div><dt>")?;
    push(out, name)?;
    push(out, b"</dt><dd>")?;
    push_count(alloc, out, number)?;
    push(out, b"</dd></div>")
}

/// Appends the figures of the day.
pub(crate) fn push_figures(
    alloc: Global,
    out: &mut Vec<u8>,
    all: &SymbolFacts,
) -> Result<(), NoMemory> {
    push(
        out,
        b"<section id=\"glance\"><h2>The day at a glance</h2><dl class=\"glance\">",
    )?;
    push_figure(alloc, out, b"Events", all.events)?;
    push_figure(alloc, out, b"Orders entered", all.orders)?;
    push_figure(alloc, out, b"Requests refused", all.refused)?;
    push_figure(alloc, out, b"Trades", all.trades)?;
    push_figure(alloc, out, b"Shares traded", all.shares)?;
    push(out, b"<div><dt>Value traded</dt><dd>")?;
    push_value(alloc, out, all.value)?;
    push(out, b"</dd></div>")?;
    push_figure(
        alloc,
        out,
        b"Shares that rest",
        all.buys.saturating_add(all.sells),
    )?;
    push(out, b"</dl>")
}

/// Appends the least, the greatest and the average price of a symbol's trades.
fn push_prices(out: &mut Vec<u8>, facts: &SymbolFacts) -> Result<(), NoMemory> {
    let Some((low, high)) = facts.prices else {
        return push(
            out,
            b"<td class=\"n\">&ndash;<td class=\"n\">&ndash;<td class=\"n\">&ndash;",
        );
    };
    push(out, b"<td class=\"n\">")?;
    push_price(out, low)?;
    push(out, b"<td class=\"n\">")?;
    push_price(out, high)?;
    push(out, b"<td class=\"n\">")?;
    push_mean(out, facts.value, facts.shares)
}

/// Appends value over shares in units of 0.005, cut off after four decimals.
fn push_mean(out: &mut Vec<u8>, value: u64, shares: u64) -> Result<(), NoMemory> {
    let mean = u128::from(value) * 50 / u128::from(shares.max(1));
    let mean = u64::try_from(mean).unwrap_or(u64::MAX);
    push_number(out, mean / 10_000)?;
    push(out, b".")?;
    let rest = mean % 10_000;
    push_number(out, rest / 1_000)?;
    push_number(out, rest / 100 % 10)?;
    push_number(out, rest / 10 % 10)?;
    push_number(out, rest % 10)
}

/// Appends a line for each symbol, which leads to its section.
pub(crate) fn push_symbols(
    alloc: Global,
    out: &mut Vec<u8>,
    names: &[Bytes],
    symbols: &[Gathered],
) -> Result<(), NoMemory> {
    push(
        out,
        b"<div class=\"box few\"><table><thead><tr><th>Symbol<th class=\"n\">Events<th class=\"n\">Quotes<th class=\"n\">Orders<th class=\"n\">Refused<th class=\"n\">Trades<th class=\"n\">Shares<th class=\"n\">Value<th class=\"n\">Low<th class=\"n\">High<th class=\"n\">Average<th class=\"n\">Buys rest<th class=\"n\">Sells rest</thead><tbody>",
    )?;
    for (name, symbol) in names.iter().zip(symbols.iter()) {
        let facts = &symbol.facts;
        push(out, b"<tr><td><a href=\"#s-")?;
        push_shown(alloc, out, name.as_slice())?;
        push(out, b"\">")?;
        push_shown(alloc, out, name.as_slice())?;
        push(out, b"</a>")?;
        push_cell(alloc, out, facts.events)?;
        push_cell(alloc, out, facts.quotes)?;
        push_cell(alloc, out, facts.orders)?;
        push_cell(alloc, out, facts.refused)?;
        push_cell(alloc, out, facts.trades)?;
        push_cell(alloc, out, facts.shares)?;
        push(out, b"<td class=\"n\">")?;
        push_value(alloc, out, facts.value)?;
        push_prices(out, facts)?;
        push_cell(alloc, out, facts.buys)?;
        push_cell(alloc, out, facts.sells)?;
    }
    push(out, b"</tbody></table></div></section>\n")
}
