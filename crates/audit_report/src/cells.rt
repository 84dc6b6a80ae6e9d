//! Cells of the page. Each call appends one; after a refusal a part of it may stand there.
ghost use Rattle.std.specs.Prelude.{◌≡◌, ◌++◌, [], OnOk};
ghost use Rattle.audit_report.specs.Cells.{anchor, link, link_of, member_of, td, when_cells};

use audit_columns::columns::push_clock;
use audit_html::texts::{push, push_shown};
use exec_reports::parts::{first_of, id_of};
use fix_write::digits::push_number;
use listing::name_at;
use std::alloc::Global;
use venue_words::{Config, NoMemory, Report};

/// Begins a cell.
pub fn push_td(out: &mut Vec<u8>) -> Result<(), NoMemory>
    ensures { OnOk result (out.new.items ≡ out.old.items ++ td []) }
{
    push(out, b"<td>")
}

/// Appends when a report was, and of which event it is.
#[tactic(auto, unfolding(crate::specs::Cells::when_cells))]
pub fn push_when(alloc: Global, out: &mut Vec<u8>, report: &Report) -> Result<(), NoMemory>
    ensures { OnOk result (out.new.items ≡ out.old.items ++ when_cells report.now) }
{
    push_td(out)?;
    push_clock(alloc, out, report.moment)?;
    push_td(out)?;
    push_number(out, u64::from(report.event))
}

/// Appends where the page tells of the order that entered at an event.
#[tactic(auto, unfolding(crate::specs::Cells::anchor))]
pub fn push_anchor(
    alloc: Global,
    out: &mut Vec<u8>,
    config: &Config,
    symbol: u32,
    first: u32,
) -> Result<(), NoMemory>
    ensures { OnOk result (out.new.items ≡ out.old.items ++ anchor config.now symbol first) }
{
    push_shown(alloc, out, name_at(config.symbols.as_slice(), symbol))?;
    push(out, b"-")?;
    push_number(out, u64::from(first))
}

/// Appends an identifier that leads there.
#[tactic(auto, unfolding(crate::specs::Cells::link))]
pub fn push_link(
    alloc: Global,
    out: &mut Vec<u8>,
    config: &Config,
    symbol: u32,
    first: u32,
    id: &[u8],
) -> Result<(), NoMemory>
    ensures { OnOk result (out.new.items ≡ out.old.items ++ link config.now symbol first id.now) }
{
    push(out, b"<a href=\"#")?;
    push_anchor(alloc, out, config, symbol, first)?;
    push(out, b"\">")?;
    push_shown(alloc, out, id)?;
    push(out, b"</a>")
}

/// Appends the identifier of the order that a report shows.
pub fn push_link_of(
    alloc: Global,
    out: &mut Vec<u8>,
    config: &Config,
    symbol: u32,
    report: &Report,
) -> Result<(), NoMemory>
    ensures { OnOk result (out.new.items ≡ out.old.items ++ link_of config.now symbol report.now) }
{
    let first = first_of(&report.kind).unwrap_or(0);
    push_link(alloc, out, config, symbol, first, id_of(&report.kind))
}

/// Appends the member of a report.
pub fn push_member_of(
    alloc: Global,
    out: &mut Vec<u8>,
    config: &Config,
    report: &Report,
) -> Result<(), NoMemory>
    ensures { OnOk result (out.new.items ≡ out.old.items ++ member_of config.now report.now) }
{
    push_shown(
        alloc,
        out,
        name_at(config.members.as_slice(), report.member),
    )
}
