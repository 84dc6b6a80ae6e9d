//! The life of an order: what its member was told, report by report. Each call appends its text; after a refusal a part of it may stand there.
ghost use Rattle.std.specs.Prelude.{◌≡◌, ◌++◌, OnOk, codes};
ghost use Rattle.std.specs.List.{AllByRecursion, flat_map};
ghost use Rattle.std.specs.Option.{option_copied};
ghost use Rattle.venue_words.specs.Rules.{rule_text};
ghost use Rattle.audit_html.specs.Html.{html_text};
ghost use Rattle.audit_report.specs.Buckets.{AreOf, IsAt, life_lines, line_there};
ghost use Rattle.audit_report.specs.Lives.{asks_text, beside, leaves_words, life_line, price_or_inactive, priced_text, request_word, role_word, state_cells, trade_words, what_text, with_text};

use crate::cells::{push_link_of, push_member_of, push_td, push_when};
use crate::refusals::request_word;
use crate::words::{push_terms, side_word, terms_at};
use audit_html::numbers::push_count;
use audit_html::texts::{push, push_html, push_shown};
use exec_reports::parts::{id_of, leaves_of};
use exec_reports::texts::push_price;
use std::alloc::Global;
use venue_words::{
    Config, Event, Execution, Kind, LiveOrder, NoMemory, RefusedRequest, Report, Rule, View,
};

/// A report by its place, and whether it would be a taker's there.
#[derive(Clone, Copy, Debug, Drop)]
pub struct At {
    pub place: u32,
    pub took: bool,
}

/// A symbol's events and what they made.
#[derive(Clone, Copy)]
pub struct Told<'a> {
    pub config: &'a Config,
    pub symbol: u32,
    pub journal: &'a [Event],
    pub reports: &'a [Report],
}

/// Appends with whom an order traded.
fn push_with(
    alloc: Global,
    out: &mut Vec<u8>,
    config: &Config,
    symbol: u32,
    other: Option<&Report>,
) -> Result<(), NoMemory>
    ensures { OnOk result (out.new.items ≡ out.old.items ++ with_text config.now symbol (option_copied other.entry)) }
{
    let Some(other) = other else {
        return Ok(());
    };
    push(out, b" with ")?;
    push_member_of(alloc, out, config, other)?;
    push(out, b" <span class=\"i\">")?;
    push_link_of(alloc, out, config, symbol, other)?;
    push(out, b"</span>")
}

fn role_word(took: bool) -> &'static [u8]
    ensures { result.now ≡ role_word took }
{
    if took { b", as taker" } else { b", resting" }
}

fn push_price_or_inactive(out: &mut Vec<u8>, price: Option<u32>) -> Result<(), NoMemory>
    ensures { OnOk result (out.new.items ≡ out.old.items ++ price_or_inactive price) }
{
    match price {
        None => push(out, b", inactive"),
        Some(price) => {
            push(out, b", priced ")?;
            push_price(out, price)
        }
    }
}

fn push_priced(out: &mut Vec<u8>, live: Option<LiveOrder>) -> Result<(), NoMemory>
    ensures { OnOk result (out.new.items ≡ out.old.items ++ priced_text live) }
{
    match live {
        None => Ok(()),
        Some(live) => push_price_or_inactive(out, live.price),
    }
}

/// Appends what an order asks from an event on.
#[tactic(auto, unfolding(crate::specs::Lives::asks_text))]
fn push_asks(
    alloc: Global,
    out: &mut Vec<u8>,
    journal: &[Event],
    event: u32,
    view: &View,
) -> Result<(), NoMemory>
    ensures { OnOk result (out.new.items ≡ out.old.items ++ asks_text journal.now event view.now) }
{
    push(out, side_word(view.side))?;
    push_count(alloc, out, u64::from(view.quantity))?;
    push(out, b", ")?;
    push_terms(out, terms_at(journal, event), view.pegged, view.limit)?;
    push_priced(out, view.live)
}

/// The other report of a trade.
fn beside<'a>(reports: &'a [Report], at: At) -> Option<&'a Report>
    requires { IsAt reports.now at }
    ensures { option_copied result ≡ beside reports.now at.place }
{
    let place = at.place as usize;
    if at.took {
        reports.get(place + 1)
    } else {
        reports.get(place.saturating_sub(1))
    }
}

/// Appends a trade, by the report at a place.
#[tactic(auto, unfolding(crate::specs::Lives::trade_words))]
fn push_trade_words(
    alloc: Global,
    out: &mut Vec<u8>,
    told: Told<'_>,
    at: At,
    quantity: u32,
    price: u32,
) -> Result<(), NoMemory>
    requires { IsAt told.reports.now at }
    ensures { OnOk result (out.new.items ≡ out.old.items
        ++ trade_words told.entry.config.now told.entry.symbol told.entry.reports.now at.place quantity price) }
{
    push(out, b"traded ")?;
    push_count(alloc, out, u64::from(quantity))?;
    push(out, b" at ")?;
    push_price(out, price)?;
    let other = beside(told.reports, at);
    push_with(alloc, out, told.config, told.symbol, other)?;
    push(out, role_word(at.took))
}

/// Appends that a cancel or a replace was refused, and why.
fn push_refused(out: &mut Vec<u8>, request: RefusedRequest, rule: Rule) -> Result<(), NoMemory>
    ensures { OnOk result (out.new.items ≡ out.old.items
        ++ (request_word request ++ codes " refused: " ++ html_text (rule_text rule))) }
{
    push(out, request_word(request))?;
    push(out, b" refused: ")?;
    push_html(out, rule.text().as_bytes())
}

/// Appends what the report at a place tells.
#[tactic(auto, unfolding(crate::specs::Lives::what_text))]
fn push_what(
    alloc: Global,
    out: &mut Vec<u8>,
    told: Told<'_>,
    at: At,
    report: &Report,
) -> Result<(), NoMemory>
    requires { IsAt told.reports.now at }
    ensures { OnOk result (out.new.items ≡ out.old.items ++ what_text told.entry.config.now told.entry.symbol told.entry.journal.now
        told.entry.reports.now at.place report.now.event report.now.kind) }
{
    match &report.kind {
        Kind::Order { view, execution } => match execution {
            Execution::Accepted => {
                push(out, b"entered: ")?;
                push_asks(alloc, out, told.journal, report.event, view)
            }
            Execution::Replaced { .. } => {
                push(out, b"replaced: ")?;
                push_asks(alloc, out, told.journal, report.event, view)
            }
            Execution::Traded { quantity, price } => {
                push_trade_words(alloc, out, told, at, *quantity, *price)
            }
            Execution::Canceled { orig: None } => push(out, b"canceled"),
            Execution::Canceled { orig: Some(_) } => push(out, b"canceled on request"),
            Execution::Status => Ok(()),
        },
        Kind::Refused { request, rule, .. } => push_refused(out, *request, *rule),
        Kind::Rejected { .. } | Kind::Unknown { .. } => Ok(()),
    }
}

/// Appends the shares that are left, of a report that shows an order.
#[tactic(auto, unfolding(crate::specs::Lives::leaves_words))]
fn push_leaves(alloc: Global, out: &mut Vec<u8>, kind: &Kind) -> Result<(), NoMemory>
    ensures { OnOk result (out.new.items ≡ out.old.items ++ leaves_words kind.now) }
{
    match kind {
        Kind::Order { .. } => {
            push_count(alloc, out, u64::from(leaves_of(kind)))?;
            push(out, b" left")
        }
        Kind::Rejected { .. } | Kind::Unknown { .. } | Kind::Refused { .. } => Ok(()),
    }
}

/// Appends the shares that are left, and the identifier that is told.
#[tactic(auto, unfolding(crate::specs::Lives::state_cells))]
fn push_state(alloc: Global, out: &mut Vec<u8>, kind: &Kind) -> Result<(), NoMemory>
    ensures { OnOk result (out.new.items ≡ out.old.items ++ state_cells kind.now) }
{
    push_td(out)?;
    push_leaves(alloc, out, kind)?;
    push_td(out)?;
    push_shown(alloc, out, id_of(kind))
}

/// Appends the line of the report at a place.
#[tactic(auto, unfolding(crate::specs::Lives::life_line))]
fn push_line(
    alloc: Global,
    out: &mut Vec<u8>,
    told: Told<'_>,
    at: At,
    report: &Report,
) -> Result<(), NoMemory>
    requires { IsAt told.reports.now at }
    ensures { OnOk result (out.new.items ≡ out.old.items ++ life_line told.entry.config.now told.entry.symbol told.entry.journal.now
        told.entry.reports.now at.place report.now) }
{
    push(out, b"<tr>")?;
    push_when(alloc, out, report)?;
    push_td(out)?;
    push_what(alloc, out, told, at, report)?;
    push_state(alloc, out, &report.kind)
}

/// Appends the line of the report at a place of the list.
#[tactic(auto, using(crate::proofs::Bucketing::line_read))]
fn push_line_at(alloc: Global, out: &mut Vec<u8>, told: Told<'_>, at: At) -> Result<(), NoMemory>
    requires { IsAt told.reports.now at }
    ensures { OnOk result (out.new.items ≡ out.old.items ++ line_there told.entry.config.now told.entry.symbol told.entry.journal.now
        told.entry.reports.now at.place) }
{
    push_line(alloc, out, told, at, &told.reports[at.place as usize])
}

/// Appends the lines of the reports at these places.
fn push_lines(
    alloc: Global,
    out: &mut Vec<u8>,
    told: Told<'_>,
    places: &[At],
) -> Result<(), NoMemory>
    requires { AllByRecursion (IsAt told.reports.now) places.now }
    ensures { OnOk result (out.new.items ≡ out.old.items ++ flat_map (λ at. line_there told.entry.config.now told.entry.symbol
        told.entry.journal.now told.entry.reports.now at.place) places.now) }
{
    for at in places {
        push_line_at(alloc, out, told, *at)?;
    }
    Ok(())
}

/// Appends the life of the order that entered at an event, by the places of all reports that tell of it.
pub fn push_life(
    alloc: Global,
    out: &mut Vec<u8>,
    told: Told<'_>,
    first: u32,
    places: &[At],
) -> Result<(), NoMemory>
    requires { AreOf told.reports.now first places.now }
    ensures { OnOk result (out.new.items ≡ out.old.items
        ++ life_lines told.entry.config.now told.entry.symbol told.entry.journal.now told.entry.reports.now first) }
{
    let _first = first;
    push_lines(alloc, out, told, places)?;
    Ok(())
}
