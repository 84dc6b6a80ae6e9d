//! What the page tells of a symbol. Each call appends its text; after a refusal a part of it may stand there.
ghost use Rattle.std.specs.Prelude.{◌≡◌, ◌++◌, ℕ, List, OnOk};
ghost use Rattle.audit_core.specs.Telling.{IsBookOf};
ghost use Rattle.listing.specs.Commands.{name_at};
ghost use Rattle.audit_html.specs.Chunks.{Holds};
ghost use Rattle.audit_report.specs.Gathering.{body_held};
ghost use Rattle.audit_report.specs.Orders.{order_rows};
ghost use Rattle.audit_report.specs.Parts.{box};
ghost use Rattle.audit_report.specs.Refusals.{refusal_rows};
ghost use Rattle.audit_report.specs.Sections.{body_text, count_words, counts_words, cut_text, cut_words, find_text, hint_text, open_text, part_anchor, part_frame, part_of, rows_begin, section_text, share_of, summary_text};
ghost use Rattle.audit_report.specs.TradeRows.{trade_rows};

use crate::orders::add_all;
use crate::parts::{Part, class, hint, how, letter, many, most, tags, title};
use crate::refusals::add_refusals;
use audit_html::chunks::Chunks;
use audit_html::numbers::push_count;
use audit_html::texts::{push, push_shown};
use audit_tables::SymbolDay;
use listing::name_at;
use std::alloc::Global;
use symbol_book::Book;
use venue_words::{Config, NoMemory, Report};

/// So many rows of a part are shown of each symbol: an equal share.
pub fn share_of(part: Part, config: &Config) -> u32
    ensures { result ≡ share_of part config.now }
{
    (most(part) as usize / config.symbols.len().max(1)) as u32
}

fn open_text(all: u64) -> &'static [u8]
    ensures { result.now ≡ open_text all }
{
    if 0 < all && all <= 60 { b" open" } else { b"" }
}

/// Appends how many of how many are here.
#[tactic(auto, unfolding(crate::specs::Sections::counts_words))]
fn push_counts(alloc: Global, out: &mut Vec<u8>, most: u32, all: u64) -> Result<(), NoMemory>
    ensures { OnOk result (out.new.items ≡ out.old.items ++ counts_words most all) }
{
    push(out, b"<p>The first ")?;
    push_count(alloc, out, u64::from(most))?;
    push(out, b" of ")?;
    push_count(alloc, out, all)?;
    Ok(())
}

/// Appends that only the first rows are here.
#[tactic(auto, unfolding(crate::specs::Sections::cut_words))]
fn push_cut_words(
    alloc: Global,
    out: &mut Vec<u8>,
    part: Part,
    most: u32,
    all: u64,
) -> Result<(), NoMemory>
    ensures { OnOk result (out.new.items ≡ out.old.items ++ cut_words part most all) }
{
    push_counts(alloc, out, most, all)?;
    push(out, b" ")?;
    push(out, many(part))?;
    push(out, b" are here. All of them: <code>")?;
    push(out, how(part))?;
    push(out, b"</code>.</p>")?;
    Ok(())
}

/// Appends that only the first rows are here, where there are more.
fn push_cut(
    alloc: Global,
    out: &mut Vec<u8>,
    part: Part,
    most: u32,
    all: u64,
) -> Result<(), NoMemory>
    ensures { OnOk result (out.new.items ≡ out.old.items ++ cut_text part most all) }
{
    if u64::from(most) < all {
        push_cut_words(alloc, out, part, most, all)
    } else {
        Ok(())
    }
}

/// Appends the anchor of a part.
#[tactic(auto, unfolding(crate::specs::Sections::part_anchor))]
fn push_part_anchor(
    alloc: Global,
    out: &mut Vec<u8>,
    part: Part,
    symbol: &[u8],
) -> Result<(), NoMemory>
    ensures { OnOk result (out.new.items ≡ out.old.items ++ part_anchor part symbol.now) }
{
    push(out, letter(part))?;
    push(out, b"-")?;
    push_shown(alloc, out, symbol)
}

/// Appends what can be searched.
#[tactic(auto, unfolding(crate::specs::Sections::hint_text))]
fn push_hint(out: &mut Vec<u8>, part: Part) -> Result<(), NoMemory>
    ensures { OnOk result (out.new.items ≡ out.old.items ++ hint_text part) }
{
    push(out, b"\" placeholder=\"")?;
    push(out, hint(part))?;
    push(out, b"\" aria-label=\"")?;
    push(out, hint(part))?;
    push(out, b"\" hidden>")?;
    Ok(())
}

/// Appends the box that searches a part.
#[tactic(auto, unfolding(crate::specs::Sections::find_text))]
fn push_find(alloc: Global, out: &mut Vec<u8>, part: Part, symbol: &[u8]) -> Result<(), NoMemory>
    ensures { OnOk result (out.new.items ≡ out.old.items ++ find_text part symbol.now) }
{
    push(out, b"<input class=\"find\" type=\"search\" data-of=\"")?;
    push_part_anchor(alloc, out, part, symbol)?;
    push_hint(out, part)?;
    Ok(())
}

/// Appends how its rows begin.
#[tactic(auto, unfolding(crate::specs::Sections::rows_begin))]
fn push_rows_begin(
    alloc: Global,
    out: &mut Vec<u8>,
    part: Part,
    symbol: &[u8],
) -> Result<(), NoMemory>
    ensures { OnOk result (out.new.items ≡ out.old.items ++ rows_begin part symbol.now) }
{
    push(out, b"<div class=\"")?;
    push(out, class(part))?;
    push(out, b"\" id=\"")?;
    push_part_anchor(alloc, out, part, symbol)?;
    push(out, b"\">")?;
    Ok(())
}

/// Appends the box that searches a part, and the rows that are held.
#[tactic(auto, unfolding(crate::specs::Sections::body_text))]
fn push_body(
    alloc: Global,
    out: &mut Vec<u8>,
    part: Part,
    symbol: &[u8],
    text: &[u8],
) -> Result<(), NoMemory>
    ensures { OnOk result (out.new.items ≡ out.old.items ++ body_text part symbol.now (text.now ++ (box part).end)) }
{
    push_find(alloc, out, part, symbol)?;
    push_rows_begin(alloc, out, part, symbol)?;
    push(out, text)?;
    push(out, tags(part).end)?;
    push(out, b"</div>")
}

/// Appends the rows that are held, where there are some.
fn push_held(
    alloc: Global,
    out: &mut Vec<u8>,
    part: Part,
    symbol: &[u8],
    chunks: &Chunks,
) -> Result<(), NoMemory>
    ensures { OnOk result (out.new.items ≡ out.old.items ++ body_held part symbol.now chunks.now) }
{
    if chunks.shown == 0 {
        Ok(())
    } else {
        push_body(alloc, out, part, symbol, chunks.text.as_slice())
    }
}

/// Appends how many rows there are.
#[tactic(auto, unfolding(crate::specs::Sections::count_words))]
fn push_count_words(alloc: Global, out: &mut Vec<u8>, all: u64) -> Result<(), NoMemory>
    ensures { OnOk result (out.new.items ≡ out.old.items ++ count_words all) }
{
    push(out, b" <span class=\"soft\">")?;
    push_count(alloc, out, all)?;
    push(out, b"</span></summary><div class=\"in\">")
}

/// Appends the line at which a part opens.
#[tactic(auto, unfolding(crate::specs::Sections::summary_text))]
fn push_summary(alloc: Global, out: &mut Vec<u8>, part: Part, all: u64) -> Result<(), NoMemory>
    ensures { OnOk result (out.new.items ≡ out.old.items ++ summary_text part all) }
{
    push(out, b"<details class=\"part\"")?;
    push(out, open_text(all))?;
    push(out, b"><summary>")?;
    push(out, title(part))?;
    push_count_words(alloc, out, all)
}

/// Appends a part.
#[tactic(auto, unfolding(crate::specs::Sections::part_frame))]
pub fn push_part(
    alloc: Global,
    out: &mut Vec<u8>,
    part: Part,
    symbol: &[u8],
    chunks: &Chunks,
) -> Result<(), NoMemory>
    ensures { OnOk result (out.new.items ≡ out.old.items
        ++ part_frame part chunks.now.all chunks.now.most (body_held part symbol.now chunks.now)) }
{
    push_summary(alloc, out, part, chunks.all)?;
    push_cut(alloc, out, part, chunks.most, chunks.all)?;
    push_held(alloc, out, part, symbol, chunks)?;
    push(out, b"</div></details>")?;
    push(out, b"\n")?;
    Ok(())
}

/// The name of a symbol.
fn symbol_name<'a>(config: &'a Config, symbol: u32) -> &'a [u8]
    ensures { result.now ≡ name_at config.now.symbols symbol }
{
    name_at(config.symbols.as_slice(), symbol)
}

/// Appends a part of a symbol.
fn push_part_of(
    alloc: Global,
    out: &mut Vec<u8>,
    part: Part,
    config: &Config,
    symbol: u32,
    chunks: &Chunks,
) -> Result<(), NoMemory>
    ensures { OnOk result ((rows : List (List ℕ)) → Holds (box part) rows chunks.now → chunks.now.most ≡ share_of part config.now
        → out.new.items ≡ out.old.items ++ part_of part config.now symbol rows) }
{
    push_part(alloc, out, part, symbol_name(config, symbol), chunks)?;
    Ok(())
}

/// Appends the orders of a symbol.
fn push_orders(alloc: Global, out: &mut Vec<u8>, day: SymbolDay<'_>) -> Result<(), NoMemory>
    requires { IsBookOf day.config.now day.symbol day.book.now }
    ensures { OnOk result (out.new.items ≡ out.old.items ++ part_of Part.Orders day.entry.config.now day.entry.symbol
        (order_rows day.entry.config.now day.entry.symbol day.entry.book.now.journal)) }
{
    let mut orders = Chunks::new(alloc, share_of(Part::Orders, day.config));
    add_all(alloc, &mut orders, day)?;
    push_part_of(alloc, out, Part::Orders, day.config, day.symbol, &orders)?;
    Ok(())
}

/// Appends the refused requests of a symbol.
fn push_refusals(
    alloc: Global,
    out: &mut Vec<u8>,
    config: &Config,
    symbol: u32,
    reports: &[Report],
) -> Result<(), NoMemory>
    ensures { OnOk result (out.new.items ≡ out.old.items
        ++ part_of Part.Refusals config.now symbol (refusal_rows config.now reports.now)) }
{
    let mut refusals = Chunks::new(alloc, share_of(Part::Refusals, config));
    add_refusals(alloc, &mut refusals, config, reports)?;
    push_part_of(alloc, out, Part::Refusals, config, symbol, &refusals)?;
    Ok(())
}

/// Appends the trades, the orders and the refused requests of a symbol.
pub fn push_section(
    alloc: Global,
    out: &mut Vec<u8>,
    config: &Config,
    symbol: u32,
    book: &Book,
    trades: &Chunks,
) -> Result<(), NoMemory>
    requires of { IsBookOf config.now symbol book.now }
    requires trades { Holds (box Part.Trades) (trade_rows config.now symbol book.now.journal) trades.now }
    requires most { trades.now.most ≡ share_of Part.Trades config.now }
    ensures { OnOk result (out.new.items ≡ out.old.items ++ section_text config.now symbol book.now.journal) }
{
    push_part_of(alloc, out, Part::Trades, config, symbol, trades)?;
    let day = SymbolDay {
        config,
        symbol,
        book,
    };
    push_orders(alloc, out, day)?;
    push_refusals(alloc, out, config, symbol, book.reports())?;
    Ok(())
}
