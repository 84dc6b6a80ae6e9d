//! What an event, a report or a resting order counts for a member.
ghost use Rattle.std.specs.Prelude.{◌≡◌, ◌++◌, IfOk, OnOk, filter_map, map, option_to_list};
ghost use Rattle.audit_summary.specs.Columns.{accepted_in, breaks, command_in, is_accepted, member_in, rejected_in, shares_in, trade_in};

use exec_reports::parts::{last_quantity_of, rule_of};
use std::alloc::{AllocError, Global};
use venue_words::{Command, Event, Execution, Kind, Priced, Report};

/// The member whose command it is; a quote is of no member.
#[tactic(auto, unfolding(crate::specs::Columns::member_in))]
fn member_in(command: &Command) -> Option<u32>
    ensures { result ≡ member_in command.now }
{
    match command {
        Command::Quote { .. } => None,
        Command::New { member, .. }
        | Command::Cancel { member, .. }
        | Command::Replace { member, .. }
        | Command::Status { member, .. } => Some(*member),
    }
}

/// A command counts once for its member.
fn command_in(event: &Event) -> Option<(u32, u32)>
    ensures { result ≡ command_in event.now }
{
    let member = member_in(&event.command)?;
    Some((member, 1))
}

/// Whether it tells that an order entered.
#[tactic(auto, unfolding(crate::specs::Columns::is_accepted))]
fn is_accepted(kind: &Kind) -> bool
    ensures { result ≡ is_accepted kind.now }
{
    matches!(
        kind,
        Kind::Order {
            execution: Execution::Accepted,
            ..
        }
    )
}

/// A report that an order entered counts once for its member.
#[tactic(auto, unfolding(crate::specs::Columns::accepted_in))]
fn accepted_in(report: &Report) -> Option<(u32, u32)>
    ensures { result ≡ accepted_in report.now }
{
    if is_accepted(&report.kind) {
        Some((report.member, 1))
    } else {
        None
    }
}

/// A report of a trade counts once for its member.
fn trade_in(report: &Report) -> Option<(u32, u32)>
    ensures { result ≡ trade_in report.now }
{
    let _quantity = last_quantity_of(&report.kind)?;
    Some((report.member, 1))
}

/// A report of a trade counts its shares for its member.
fn shares_in(report: &Report) -> Option<(u32, u32)>
    ensures { result ≡ shares_in report.now }
{
    let quantity = last_quantity_of(&report.kind)?;
    Some((report.member, quantity))
}

/// Whether it tells that this rule was broken.
fn breaks(rule: u8, kind: &Kind) -> bool
    ensures { result ≡ breaks rule kind.now }
{
    match rule_of(kind) {
        Some(broken) => broken == rule,
        None => false,
    }
}

/// A report that this rule was broken counts once for its member.
#[tactic(auto, unfolding(crate::specs::Columns::rejected_in))]
fn rejected_in(rule: u8, report: &Report) -> Option<(u32, u32)>
    ensures { result ≡ rejected_in rule report.now }
{
    if breaks(rule, &report.kind) {
        Some((report.member, 1))
    } else {
        None
    }
}

/// Adds a pair, where there is one.
fn push_pair(pairs: &mut Vec<(u32, u32)>, pair: Option<(u32, u32)>) -> Result<(), AllocError>
    ensures { OnOk result (pairs.new.items ≡ pairs.old.items ++ option_to_list pair) }
{
    if let Some(pair) = pair {
        pairs.push(pair)?;
    }
    Ok(())
}

/// What the commands of a journal count.
pub fn command_pairs(alloc: Global, journal: &[Event]) -> Result<Vec<(u32, u32)>, AllocError>
    ensures { IfOk result (λ pairs. pairs.items ≡ filter_map command_in journal.now) }
{
    let mut pairs = Vec::new(alloc);
    for event in journal {
        push_pair(&mut pairs, command_in(event))?;
    }
    Ok(pairs)
}

/// What reports that orders entered count.
pub fn accepted_pairs(alloc: Global, reports: &[Report]) -> Result<Vec<(u32, u32)>, AllocError>
    ensures { IfOk result (λ pairs. pairs.items ≡ filter_map accepted_in reports.now) }
{
    let mut pairs = Vec::new(alloc);
    for report in reports {
        push_pair(&mut pairs, accepted_in(report))?;
    }
    Ok(pairs)
}

/// What reports of trades count.
pub fn trade_pairs(alloc: Global, reports: &[Report]) -> Result<Vec<(u32, u32)>, AllocError>
    ensures { IfOk result (λ pairs. pairs.items ≡ filter_map trade_in reports.now) }
{
    let mut pairs = Vec::new(alloc);
    for report in reports {
        push_pair(&mut pairs, trade_in(report))?;
    }
    Ok(pairs)
}

/// The shares that reports of trades count.
pub fn share_pairs(alloc: Global, reports: &[Report]) -> Result<Vec<(u32, u32)>, AllocError>
    ensures { IfOk result (λ pairs. pairs.items ≡ filter_map shares_in reports.now) }
{
    let mut pairs = Vec::new(alloc);
    for report in reports {
        push_pair(&mut pairs, shares_in(report))?;
    }
    Ok(pairs)
}

/// What reports that a rule was broken count.
pub fn rejected_pairs(
    alloc: Global,
    rule: u8,
    reports: &[Report],
) -> Result<Vec<(u32, u32)>, AllocError>
    ensures { IfOk result (λ pairs. pairs.items ≡ filter_map (rejected_in rule) reports.now) }
{
    reports
        .iter()
        .filter_map(|report| rejected_in(rule, report))
        .collect(alloc)
}

/// What orders that rest count: each once.
pub fn order_pairs(alloc: Global, rows: &[Priced]) -> Result<Vec<(u32, u32)>, AllocError>
    ensures { IfOk result (λ pairs. pairs.items ≡ map (λ x. (x.row.member, 1)) rows.now) }
{
    rows.iter().map(|x| (x.row.member, 1)).collect(alloc)
}

/// What orders that rest count: the shares that are left.
pub fn leaves_pairs(alloc: Global, rows: &[Priced]) -> Result<Vec<(u32, u32)>, AllocError>
    ensures { IfOk result (λ pairs. pairs.items ≡ map (λ x. (x.row.member, x.row.leaves)) rows.now) }
{
    rows.iter()
        .map(|x| (x.row.member, x.row.leaves))
        .collect(alloc)
}
