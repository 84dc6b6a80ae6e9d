//! A snapshot as a page.
use crate::numbers::{Age, Count, Price, QuoteSide};
use crate::rows::{Level, is_stale, level_of};
use crate::snapshot::{Following, MarketRow, MemberRow, Resting, Snapshot, SymbolRow, Trade};
use crate::style::{FOOT, HEAD};
use fix_write::push_moment;
use std::alloc::{AllocError, Global};
use std::fmt;
use venue_words::NoMemory;

/// How long ago a moment was; a dash where there is none.
#[derive(Clone, Copy)]
struct Since {
    moment: Option<u64>,
    now: u64,
}

impl fmt::Display for Since {
    fn fmt<W: fmt::Write>(&self, f: &mut fmt::Formatter<W>) -> fmt::Result {
        match self.moment {
            Some(moment) => write!(f, "{}", Age(self.now.saturating_sub(moment))),
            None => f.write_str("-"),
        }
    }
}

impl fmt::Display for Following {
    fn fmt<W: fmt::Write>(&self, f: &mut fmt::Formatter<W>) -> fmt::Result {
        match self {
            Following::Whole => f.write_str("all lines are shown"),
            Following::Behind => f.write_str(
                "<span class=\"warn\">\u{25b2} still reading: what stands here is older than the journal</span>",
            ),
            Following::Unread => {
                f.write_str("<span class=\"bad\">\u{25a0} the file can't be read at present</span>")
            }
            Following::Damaged { at } => write!(
                f,
                "<span class=\"bad\">\u{25a0} the journal is damaged at byte {at}: nothing after it is shown</span>"
            ),
            Following::Refused { line } => write!(
                f,
                "<span class=\"bad\">\u{25a0} line {line} is of another program: nothing from it on is shown</span>"
            ),
            Following::Stopped => f.write_str(
                "<span class=\"bad\">\u{25a0} no longer followed: it has grown too long, or memory ran out; start pegwatch again</span>",
            ),
        }
    }
}

/// Begins a table of these columns.
fn begin_table(out: &mut String, title: &str, columns: &[&str]) -> Result<(), AllocError> {
    write!(out, "<h2>{title}</h2>\n<table><thead><tr>")?;
    for column in columns {
        write!(out, "<th scope=\"col\">{column}</th>")?;
    }
    out.push_str("</tr></thead><tbody>\n")
}

fn end_table(out: &mut String) -> Result<(), AllocError> {
    out.push_str("</tbody></table>\n")
}

const MEMBER_COLUMNS: [&str; 7] = [
    "Member",
    "Session",
    "Last number in",
    "Last number out",
    "Last heard",
    "Bytes waiting",
    "Turns",
];

fn push_waiting(out: &mut String, member: &MemberRow) -> Result<(), AllocError> {
    match member.waiting {
        Some(waiting) => {
            let class = if waiting.bytes > 65_536 { "warn" } else { "" };
            let sign = if waiting.bytes > 65_536 {
                "\u{25b2} "
            } else {
                ""
            };
            write!(
                out,
                "<td data-l=\"Bytes waiting\" class=\"{class}\">{sign}{}</td><td data-l=\"Turns\">{}</td></tr>\n",
                Count(waiting.bytes),
                Count(waiting.turns)
            )
        }
        None => out.push_str(
            "<td data-l=\"Bytes waiting\" class=\"dim\">?</td><td data-l=\"Turns\" class=\"dim\">?</td></tr>\n",
        ),
    }
}

fn push_member(out: &mut String, member: &MemberRow, now: u64) -> Result<(), AllocError> {
    let session = if member.up {
        "\u{25cf} up"
    } else {
        "<span class=\"warn\">\u{25cb} down</span>"
    };
    let seen = Since {
        moment: member.seen,
        now,
    };
    write!(
        out,
        "<tr><td data-l=\"Member\">{}</td><td data-l=\"Session\">{session}</td><td data-l=\"Last number in\">{}</td><td data-l=\"Last number out\">{}</td><td data-l=\"Last heard\">{seen}</td>",
        member.name,
        Count(u64::from(member.last_in)),
        Count(u64::from(member.last_out))
    )?;
    push_waiting(out, member)
}

const SYMBOL_COLUMNS: [&str; 8] = [
    "Symbol",
    "State",
    "Quotes",
    "Events of limit",
    "Buys (shares)",
    "Sells (shares)",
    "Trades (shares)",
    "Last trade",
];

/// A market's quote with its age.
fn push_quote(out: &mut String, market: &MarketRow, snapshot: &Snapshot) -> Result<(), AllocError> {
    let since = Since {
        moment: market.since,
        now: snapshot.now,
    };
    let (begin, end) = if is_stale(market.since, snapshot.now, snapshot.stale) {
        ("<span class=\"warn\">\u{25b2} stale ", "</span>")
    } else {
        ("<span class=\"dim\">", "</span>")
    };
    write!(
        out,
        "<div>{} {} / {} {begin}{since}{end}</div>",
        market.name,
        QuoteSide(market.bid),
        QuoteSide(market.offer)
    )
}

/// How many events of a symbol's limit are used.
fn push_events(out: &mut String, symbol: &SymbolRow) -> Result<(), AllocError> {
    let percent = u64::from(symbol.events) * 100 / u64::from(symbol.limit.max(1));
    let (begin, end) = match level_of(symbol.events, symbol.limit) {
        Level::Fine => ("", ""),
        Level::Near => ("<span class=\"warn\">\u{25b2} ", "</span>"),
        Level::Almost => ("<span class=\"bad\">\u{25a0} almost full: ", "</span>"),
    };
    write!(
        out,
        "<td data-l=\"Events of limit\">{begin}{} of {} ({percent} %){end}</td>",
        Count(u64::from(symbol.events)),
        Count(u64::from(symbol.limit))
    )
}

fn push_resting(out: &mut String, label: &str, side: Resting) -> Result<(), AllocError> {
    write!(
        out,
        "<td data-l=\"{label}\">{} ({})</td>",
        Count(side.orders),
        Count(side.shares)
    )
}

fn push_last(out: &mut String, last: Option<Trade>, now: u64) -> Result<(), AllocError> {
    match last {
        Some(trade) => write!(
            out,
            "<td data-l=\"Last trade\"><span>{} at {} <span class=\"dim\">{}</span></span></td></tr>\n",
            Count(u64::from(trade.quantity)),
            Price(trade.price),
            Age(now.saturating_sub(trade.moment))
        ),
        None => out.push_str("<td data-l=\"Last trade\" class=\"dim\">none</td></tr>\n"),
    }
}

fn push_symbol(
    out: &mut String,
    symbol: &SymbolRow,
    snapshot: &Snapshot,
) -> Result<(), AllocError> {
    let state = match symbol.halted {
        Some(true) => "<span class=\"bad\">\u{25a0} HALTED</span>",
        Some(false) => "open",
        None => "<span class=\"dim\">?</span>",
    };
    write!(
        out,
        "<tr><td data-l=\"Symbol\">{}</td><td data-l=\"State\">{state}</td><td data-l=\"Quotes\"><span>",
        symbol.name
    )?;
    for market in &symbol.markets {
        push_quote(out, market, snapshot)?;
    }
    out.push_str("</span></td>")?;
    push_events(out, symbol)?;
    push_resting(out, "Buys (shares)", symbol.buys)?;
    push_resting(out, "Sells (shares)", symbol.sells)?;
    write!(
        out,
        "<td data-l=\"Trades (shares)\">{} ({})</td>",
        Count(symbol.trades),
        Count(symbol.traded)
    )?;
    push_last(out, symbol.last, snapshot.now)
}

/// A moment as `20261202-14:30:00.000`.
fn push_time(alloc: Global, out: &mut String, moment: u64) -> Result<(), NoMemory> {
    let mut text = Vec::new(alloc);
    push_moment(&mut text, i64::try_from(moment).unwrap_or(i64::MAX))?;
    out.push_str(String::from_utf8_lossy(alloc, text.as_slice())?.as_str())?;
    Ok(())
}

/// The journal, and when the snapshot was taken.
fn push_journal(alloc: Global, out: &mut String, snapshot: &Snapshot) -> Result<(), NoMemory> {
    let journal = &snapshot.journal;
    out.push_str("<h1>The day at ")?;
    push_time(alloc, out, snapshot.now)?;
    write!(
        out,
        " UTC</h1>\n<p>Journal: {} bytes, {} lines, the last {} ago; {}</p>\n",
        Count(journal.bytes),
        Count(journal.lines),
        Since {
            moment: journal.last,
            now: snapshot.now
        },
        journal.following
    )?;
    if !snapshot.desk {
        out.push_str(
            "<p class=\"warn\">\u{25b2} The desk does not answer: the venue is not running, or waits for its disk.</p>\n",
        )?;
    }
    Ok(())
}

fn push_body(alloc: Global, out: &mut String, snapshot: &Snapshot) -> Result<(), NoMemory> {
    push_journal(alloc, out, snapshot)?;
    begin_table(out, "Symbols", &SYMBOL_COLUMNS)?;
    for symbol in &snapshot.symbols {
        push_symbol(out, symbol, snapshot)?;
    }
    end_table(out)?;
    begin_table(out, "Members", &MEMBER_COLUMNS)?;
    for member in &snapshot.members {
        push_member(out, member, snapshot.now)?;
    }
    end_table(out)?;
    Ok(())
}

/// The page: it stands alone, and fetches itself anew every second.
pub fn page(alloc: Global, snapshot: &Snapshot) -> Result<String, NoMemory> {
    let mut out = String::new(alloc);
    out.push_str(HEAD)?;
    push_body(alloc, &mut out, snapshot)?;
    out.push_str(FOOT)?;
    Ok(out)
}
