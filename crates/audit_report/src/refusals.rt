//! The rows of requests that were refused.
ghost use Rattle.std.specs.Prelude.{◌≡◌, ◌++◌, IfOk, OnOk, option_to_list};
ghost use Rattle.std.specs.Option.{option_map};
ghost use Rattle.audit_html.specs.Chunks.{Adds};
ghost use Rattle.audit_report.specs.Lives.{request_word};
ghost use Rattle.audit_report.specs.Parts.{box};
ghost use Rattle.audit_report.specs.Refusals.{refusal_row, refusal_rows, refused_in, row_of, who_cells, why_cell};

use crate::cells::{push_member_of, push_td, push_when};
use crate::parts::{Part, add_row};
use audit_html::chunks::Chunks;
use audit_html::texts::{push, push_html, push_shown};
use exec_reports::parts::id_of;
use fix_write::digits::push_number;
use std::alloc::Global;
use venue_words::{Config, Kind, NoMemory, RefusedRequest, Report, Rule};

pub fn request_word(request: RefusedRequest) -> &'static [u8]
    ensures { result.now ≡ request_word request }
{
    match request {
        RefusedRequest::Cancel => b"cancel",
        RefusedRequest::Replace => b"replace",
    }
}

/// Appends whose request it was, and its identifier.
#[tactic(auto, unfolding(crate::specs::Refusals::who_cells))]
fn push_who(
    alloc: Global,
    out: &mut Vec<u8>,
    config: &Config,
    report: &Report,
) -> Result<(), NoMemory>
    ensures { OnOk result (out.new.items ≡ out.old.items ++ who_cells config.now report.now) }
{
    push_td(out)?;
    push_member_of(alloc, out, config, report)?;
    push_td(out)?;
    push_shown(alloc, out, id_of(&report.kind))
}

/// Appends why it was refused.
#[tactic(auto, unfolding(crate::specs::Refusals::why_cell))]
fn push_why(out: &mut Vec<u8>, rule: Rule) -> Result<(), NoMemory>
    ensures { OnOk result (out.new.items ≡ out.old.items ++ why_cell rule) }
{
    push(out, b"<td class=\"words\">")?;
    push_html(out, rule.text().as_bytes())?;
    push(out, b" <span class=\"soft\">(rule ")?;
    push_number(out, u64::from(rule.number()))?;
    push(out, b")</span>")?;
    push(out, b"\n")?;
    Ok(())
}

/// Appends the row of a request that broke a rule.
#[tactic(auto, unfolding(crate::specs::Refusals::refusal_row))]
fn push_row(
    alloc: Global,
    out: &mut Vec<u8>,
    config: &Config,
    report: &Report,
    request: &[u8],
    rule: Rule,
) -> Result<(), NoMemory>
    ensures { OnOk result (out.new.items ≡ out.old.items ++ refusal_row config.now report.now request.now rule) }
{
    push(out, b"<tr class=\"row\">")?;
    push_when(alloc, out, report)?;
    push_who(alloc, out, config, report)?;
    push(out, b"<td>")?;
    push(out, request)?;
    push_why(out, rule)?;
    Ok(())
}

/// The row of a request that broke a rule.
fn row_with(
    alloc: Global,
    config: &Config,
    report: &Report,
    request: &[u8],
    rule: Rule,
) -> Result<Vec<u8>, NoMemory>
    ensures { IfOk result (λ row. row.items ≡ refusal_row config.now report.now request.now rule) }
{
    let mut row = Vec::new(alloc);
    push_row(alloc, &mut row, config, report, request, rule)?;
    Ok(row)
}

/// The row of a report, where it tells that a request was refused.
#[tactic(auto, unfolding(crate::specs::Refusals::refused_in))]
fn row_of(alloc: Global, config: &Config, report: &Report) -> Result<Option<Vec<u8>>, NoMemory>
    ensures { IfOk result (λ row. option_map (λ row. row.items) row ≡ row_of config.now report.now) }
{
    let row = match &report.kind {
        Kind::Rejected { rule, .. } => row_with(alloc, config, report, b"new order", *rule)?,
        Kind::Refused { request, rule, .. } => {
            row_with(alloc, config, report, request_word(*request), *rule)?
        }
        Kind::Order { .. } | Kind::Unknown { .. } => return Ok(None),
    };
    Ok(Some(row))
}

/// Adds the row of a report, where it tells that a request was refused.
#[tactic(auto, using(audit_html::proofs::Boxing::added_none))]
fn add_refusal(
    alloc: Global,
    chunks: &mut Chunks,
    config: &Config,
    report: &Report,
) -> Result<(), NoMemory>
    ensures { OnOk result (Adds (box Part.Refusals) (option_to_list (row_of config.now report.now)) chunks.old chunks.new) }
{
    let Some(row) = row_of(alloc, config, report)? else {
        return Ok(());
    };
    add_row(chunks, Part::Refusals, row.as_slice())
}

/// Adds a row for each report that tells that a request was refused.
pub fn add_refusals(
    alloc: Global,
    chunks: &mut Chunks,
    config: &Config,
    reports: &[Report],
) -> Result<(), NoMemory>
    ensures { OnOk result (Adds (box Part.Refusals) (refusal_rows config.now reports.now) chunks.old chunks.new) }
{
    for report in reports {
        add_refusal(alloc, chunks, config, report)?;
    }
    Ok(())
}
