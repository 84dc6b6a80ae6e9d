//! What a member was told of an order. Each call appends its text; after a refusal a part of it may stand there.
ghost use Rattle.std.specs.Prelude.{◌≡◌, ◌++◌, OnOk};
ghost use Rattle.audit_order.specs.Lives.{is_news, limit_text, line_of, peg_word, report_lines, side_word, terms_text, what_text};

use audit_columns::columns::push_event_cells;
use exec_reports::parts::leaves_of;
use exec_reports::texts::push_price;
use fix_write::digits::push_number;
use listing::name_at;
use std::alloc::Global;
use venue_words::{Config, Event, Execution, Kind, NoMemory, Report, Side, View};

pub(crate) fn push(out: &mut Vec<u8>, text: &[u8]) -> Result<(), NoMemory>
    ensures { OnOk result (out.new.items ≡ out.old.items ++ text.now) }
{
    out.extend_from_slice(text)?;
    Ok(())
}

fn side_word(side: Side) -> &'static [u8]
    ensures { result.now ≡ side_word side }
{
    match side {
        Side::Buy => b" buys ",
        Side::Sell => b" sells ",
    }
}

fn peg_word(pegged: bool) -> &'static [u8]
    ensures { result.now ≡ peg_word pegged }
{
    if pegged { b" pegged" } else { b"" }
}

fn push_limit(out: &mut Vec<u8>, limit: Option<u32>) -> Result<(), NoMemory>
    ensures { OnOk result (out.new.items ≡ out.old.items ++ limit_text limit) }
{
    match limit {
        None => Ok(()),
        Some(price) => {
            push(out, b" with limit ")?;
            push_price(out, price)
        }
    }
}

/// Appends what an order asks.
#[tactic(auto, unfolding(crate::specs::Lives::terms_text))]
fn push_terms(out: &mut Vec<u8>, member: &[u8], view: &View) -> Result<(), NoMemory>
    ensures { OnOk result (out.new.items ≡ out.old.items ++ terms_text member.now view.now) }
{
    push(out, member)?;
    push(out, side_word(view.side))?;
    push_number(out, u64::from(view.quantity))?;
    push(out, peg_word(view.pegged))?;
    push_limit(out, view.limit)
}

/// Appends what became of an order.
#[tactic(auto, unfolding(crate::specs::Lives::what_text))]
fn push_what(
    out: &mut Vec<u8>,
    member: &[u8],
    view: &View,
    execution: &Execution,
) -> Result<(), NoMemory>
    ensures { OnOk result (out.new.items ≡ out.old.items ++ what_text member.now view.now execution.now) }
{
    match execution {
        Execution::Accepted => {
            push(out, b"entered: ")?;
            push_terms(out, member, view)
        }
        Execution::Traded { quantity, price } => {
            push(out, b"traded ")?;
            push_number(out, u64::from(*quantity))?;
            push(out, b" at ")?;
            push_price(out, *price)
        }
        Execution::Canceled { .. } => push(out, b"canceled"),
        Execution::Replaced { .. } => {
            push(out, b"replaced: ")?;
            push_terms(out, member, view)
        }
        Execution::Status => Ok(()),
    }
}

/// Whether a report of this tells something new.
#[tactic(auto, unfolding(crate::specs::Lives::is_news))]
fn is_news(execution: &Execution) -> bool
    ensures { result ≡ is_news execution.now }
{
    match execution {
        Execution::Accepted
        | Execution::Traded { .. }
        | Execution::Canceled { .. }
        | Execution::Replaced { .. } => true,
        Execution::Status => false,
    }
}

/// Appends the line of a report, where it tells of the order.
#[tactic(auto, unfolding(crate::specs::Lives::line_of, crate::specs::Lives::told_line))]
fn push_report(
    alloc: Global,
    out: &mut Vec<u8>,
    config: &Config,
    journal: &[Event],
    first: u32,
    report: &Report,
) -> Result<(), NoMemory>
    ensures { OnOk result (out.new.items ≡ out.old.items ++ line_of config.now journal.now first report.now report.now.kind) }
{
    let Kind::Order { view, execution } = &report.kind else {
        return Ok(());
    };
    if view.first != first || !is_news(execution) {
        return Ok(());
    }
    push_event_cells(alloc, out, journal, report.event)?;
    let member = name_at(config.members.as_slice(), report.member);
    push_what(out, member, view, execution)?;
    push(out, b", ")?;
    push_number(out, u64::from(leaves_of(&report.kind)))?;
    push(out, b" left\n")
}

/// Appends the lines of reports.
pub fn push_reports(
    alloc: Global,
    out: &mut Vec<u8>,
    config: &Config,
    journal: &[Event],
    first: u32,
    reports: &[Report],
) -> Result<(), NoMemory>
    ensures { OnOk result (out.new.items ≡ out.old.items ++ report_lines config.now journal.now first reports.now) }
{
    for report in reports {
        push_report(alloc, out, config, journal, first, report)?;
    }
    Ok(())
}
