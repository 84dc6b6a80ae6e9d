//! The page: its head with the verdict and what is counted, and after it for each symbol its chart and its section.
ghost use Rattle.std.specs.Prelude.{◌≡◌, ◌≤◌, ◌-◌, ◌++◌, drop, length, take, IfOk, OnOk};
ghost use Rattle.audit_report.specs.Weaving.{IsWoven};

use crate::glance::{push_figures, push_symbols, total_of};
use crate::members::{push_members, push_rules};
use crate::parts::Part;
use crate::rows::{Gathered, ReportRows};
use crate::sections::push_part;
use crate::style::{POLICY, SCRIPT, STYLE};
use crate::verdict::{Source, push_verdict};
use audit_core::Verdict;
use audit_html::texts::{push, push_shown};
use day_picture::Range;
use day_picture::axis::{push_clock, push_date_words};
use std::alloc::Global;
use venue_words::{Bytes, NoMemory};

/// What stands in the page's head beside what is counted.
#[derive(Clone, Copy)]
pub struct Head<'a> {
    /// The last parts of the files' names.
    pub config: &'a str,
    pub listing: &'a str,
    pub source: Source<'a>,
    /// The lines that the verdict is of: those of the listing, or those before the one that differs.
    pub lines: u64,
    /// The line that differs, where the listing has it.
    pub found: Option<&'a [u8]>,
}

/// The range of what two ranges hold, where there are some.
fn joined(one: Option<Range>, other: Option<Range>) -> Option<Range> {
    match (one, other) {
        (Some(one), Some(other)) => Some(one.with(other)),
        (None, other) => other,
        (one, None) => one,
    }
}

/// From which moment to which the events of all symbols are.
fn range_of(symbols: &[Gathered]) -> Option<Range> {
    let mut all: Option<Range> = None;
    for symbol in symbols {
        all = joined(all, symbol.sketch.range());
    }
    all
}

/// Appends the day in words.
fn push_day(alloc: Global, out: &mut Vec<u8>, range: Option<Range>) -> Result<(), NoMemory> {
    let Some(range) = range else {
        return push(out, b"a day without events");
    };
    push_date_words(alloc, out, range.first)?;
    if range.first / 86_400_000 != range.last / 86_400_000 {
        push(out, b" to ")?;
        push_date_words(alloc, out, range.last)?;
    }
    Ok(())
}

/// Appends the page up to its body.
fn push_start(alloc: Global, out: &mut Vec<u8>, range: Option<Range>) -> Result<(), NoMemory> {
    push(
        out,
        b"<!doctype html>\n<html lang=\"en\"><head><meta charset=\"utf-8\"><meta http-equiv=\"Content-Security-Policy\" content=\"",
    )?;
    push(out, POLICY)?;
    push(
        out,
        b"\"><meta name=\"viewport\" content=\"width=device-width,initial-scale=1\"><title>Audit of ",
    )?;
    push_day(alloc, out, range)?;
    push(out, b"</title><style>")?;
    push(out, STYLE)?;
    push(out, b"</style></head>\n<body>\n")
}

/// Appends which day it is, and of which files.
fn push_header(
    alloc: Global,
    out: &mut Vec<u8>,
    head: &Head<'_>,
    range: Option<Range>,
) -> Result<(), NoMemory> {
    push(out, b"<header><h1>Audit of ")?;
    push_day(alloc, out, range)?;
    push(out, b"</h1><p class=\"soft\">Listing <code>")?;
    push_shown(alloc, out, head.listing.as_bytes())?;
    push(out, b"</code>, config <code>")?;
    push_shown(alloc, out, head.config.as_bytes())?;
    push(out, b"</code>")?;
    if let Some(range) = range {
        push(out, b". Events from ")?;
        push_clock(out, range.first, 1)?;
        push(out, b" to ")?;
        push_clock(out, range.last, 1)?;
        push(out, b" UTC")?;
    }
    push(out, b".</p></header>\n")
}

/// Appends the heading of a symbol's section.
fn push_heading(alloc: Global, out: &mut Vec<u8>, name: &[u8]) -> Result<(), NoMemory> {
    push(out, b"<section id=\"s-")?;
    push_shown(alloc, out, name)?;
    push(out, b"\"><h2>")?;
    push_shown(alloc, out, name)?;
    push(out, b"</h2>")
}

/// What stands before the section's text of the symbol at a place: its heading and its chart.
fn opening_of(
    alloc: Global,
    rows: &mut ReportRows,
    place: usize,
    range: Option<Range>,
) -> Result<Vec<u8>, NoMemory> {
    let mut out = Vec::new(alloc);
    let name: &[u8] = rows
        .symbol_names
        .get(place)
        .map_or(b"", |name| name.as_slice());
    let name = Bytes::copy_of(alloc, name)?;
    push_heading(alloc, &mut out, name.as_slice())?;
    let Some(symbol) = rows.gathered.get_mut(place) else {
        return Ok(out);
    };
    match range {
        Some(range) if symbol.facts.events > 0 => {
            symbol
                .sketch
                .push_in_page(alloc, &mut out, name.as_slice(), range)?
        }
        _ => push(&mut out, b"<p>No events.</p>")?,
    }
    Ok(out)
}

/// The head of the page: the verdict, the day at a glance and the members.
fn head_of(
    alloc: Global,
    head: &Head<'_>,
    verdict: &Verdict,
    rows: &ReportRows,
) -> Result<Vec<u8>, NoMemory> {
    let mut out = Vec::new(alloc);
    let symbols = rows.gathered.as_slice();
    let names = rows.member_names.as_slice();
    let range = range_of(symbols);
    push_start(alloc, &mut out, range)?;
    push_header(alloc, &mut out, head, range)?;
    push_verdict(alloc, &mut out, head, verdict, symbols)?;
    push_figures(alloc, &mut out, &total_of(symbols))?;
    push_symbols(alloc, &mut out, rows.symbol_names.as_slice(), symbols)?;
    push_members(alloc, &mut out, names, rows.members.as_slice())?;
    push_rules(alloc, &mut out, names, rows.members.as_slice())?;
    Ok(out)
}

/// Appends the section of the symbol in which a line differs: its trades before that line. Its orders are told only where all of its lines are there.
fn push_open(
    alloc: Global,
    out: &mut Vec<u8>,
    rows: &mut ReportRows,
    range: Option<Range>,
) -> Result<(), NoMemory> {
    let place = rows.gathered.len();
    let name: &[u8] = rows
        .symbol_names
        .get(place)
        .map_or(b"", |name| name.as_slice());
    let name = Bytes::copy_of(alloc, name)?;
    if rows.open_events() == 0 {
        return Ok(());
    }
    push_heading(alloc, out, name.as_slice())?;
    push(
        out,
        b"<p>Up to the line that differs. Orders and refused requests are told only of a symbol whose lines are all there.</p>",
    )?;
    let sketch = rows.open_sketch();
    if let Some(range) = joined(range, sketch.range()) {
        sketch.push_in_page(alloc, out, name.as_slice(), range)?;
    }
    push_part(
        alloc,
        out,
        Part::Trades,
        name.as_slice(),
        rows.open_trades(),
    )?;
    push(out, b"</section>\n")
}

/// Appends the foot of the page.
fn push_foot(out: &mut Vec<u8>) -> Result<(), NoMemory> {
    push(
        out,
        b"<footer><p>Times are UTC. Prices have four decimals, values three, and both are exact; averages are cut off after four decimals. What is told here is computed from the listing, which was verified; the charts are drawn from the same numbers. Bytes that are not printable stand as <code>\\HH</code>, as in the listing.</p></footer>\n<script>",
    )?;
    push(out, SCRIPT)?;
    push(out, b"</script>\n</body></html>\n")
}

/// What stands after all sections.
fn end_of(
    alloc: Global,
    verdict: &Verdict,
    rows: &mut ReportRows,
    range: Option<Range>,
) -> Result<Vec<u8>, NoMemory> {
    let mut out = Vec::new(alloc);
    if let Verdict::Differs { .. } = verdict {
        push_open(alloc, &mut out, rows, range)?;
    }
    push_foot(&mut out)?;
    Ok(out)
}

/// Where so many bytes from a place on end, in a text of this length.
fn next_end(begin: usize, size: usize, length: usize) -> usize
    requires { begin ≤ length }
    ensures within { result ≤ length }
    ensures behind { begin ≤ result }
{
    begin + size.min(length - begin)
}

/// Appends a text from one place to another.
fn push_between(out: &mut Vec<u8>, text: &[u8], begin: usize, end: usize) -> Result<(), NoMemory>
    requires { (begin ≤ end) × (end ≤ length text.now) }
    ensures { OnOk result (out.new.items ≡ out.old.items ++ take (end - begin) (drop begin text.now)) }
{
    push(out, &text[begin..end])
}

/// Appends a text from a place on.
fn push_rest(out: &mut Vec<u8>, text: &[u8], begin: usize) -> Result<(), NoMemory>
    requires { begin ≤ length text.now }
    ensures { OnOk result (out.new.items ≡ out.old.items ++ drop begin text.now) }
{
    push(out, &text[begin..])
}

/// The page of a day. The text of all sections stands in it, whole and in its order; before each symbol's part of it stand the symbol's heading and
/// chart, and before all of them the verdict and what is counted of the day.
pub fn page_of(
    alloc: Global,
    head: &Head<'_>,
    verdict: &Verdict,
    rows: &mut ReportRows,
    sections: &[u8],
) -> Result<Vec<u8>, NoMemory>
    ensures { IfOk result (λ page. IsWoven sections.now page.items) }
{
    let mut out = head_of(alloc, head, verdict, rows)?;
    let range = range_of(rows.gathered.as_slice());
    let mut begin = 0;
    for place in 0..rows.gathered.len() {
        let opening = opening_of(alloc, rows, place, range)?;
        push(&mut out, opening.as_slice())?;
        let size = rows.gathered.get(place).map_or(0, |symbol| symbol.size);
        let end = next_end(begin, size, sections.len());
        push_between(&mut out, sections, begin, end)?;
        push(&mut out, b"</section>\n")?;
        begin = end;
    }
    push_rest(&mut out, sections, begin)?;
    let end = end_of(alloc, verdict, rows, range)?;
    push(&mut out, end.as_slice())?;
    Ok(out)
}
