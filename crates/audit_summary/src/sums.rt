//! The sums of a symbol, by column and member, and for all.
ghost use Rattle.std.specs.Prelude.{◌≡◌, ◌<◌, ◌≤◌, ◌+◌, ◌^◌, ◌++◌, length, map, filter_map, option_to_list, IfOk, OnOk};
ghost use Rattle.eager_meaning.specs.Showing.{row_of_order};
ghost use Rattle.eager_meaning.specs.State.{resting};
ghost use Rattle.eager_meaning.specs.Step.{runs};
ghost use Rattle.audit_core.specs.Audited.{run_of};
ghost use Rattle.audit_core.specs.Telling.{IsBookOf};
ghost use Rattle.audit_summary.specs.Columns.{accepted_in, command_in, rejected_in, resting_rows, rows_to, shares_in, trade_in};
ghost use Rattle.audit_summary.specs.Counting.{AreTotals};
ghost use Rattle.audit_summary.specs.Sums.{AreRejections, AreSums};

use crate::columns::{
    accepted_pairs, command_pairs, leaves_pairs, order_pairs, rejected_pairs, share_pairs,
    trade_pairs,
};
use crate::totals::{Counted, totals};
use audit_tables::counts::{event_count, order_count};
use std::alloc::Global;
use std::marker::Brand;
use std::sync::ledger::{Blank, Ledger};
use symbol_book::Book;
use venue_words::{Config, Event, NoMemory, Priced, Report, Steps};

/// How many rules there are.
const RULES: u8 = 18;

/// What is counted in a symbol for each member, and for all.
#[derive(Drop)]
pub struct Sums {
    pub commands: Counted,
    pub accepted: Counted,
    pub trades: Counted,
    pub shares: Counted,
    pub resting_orders: Counted,
    pub resting_shares: Counted,
    /// By rule, from the first.
    pub rejected: Vec<Counted>,
}

/// How many commands came of each member.
#[tactic(auto, using(crate::proofs::Lists::few))]
fn commands(alloc: Global, many: usize, journal: &[Event]) -> Result<Counted, NoMemory>
    requires { length journal.now < 2 ^ 32 }
    ensures { IfOk result (AreTotals many (filter_map command_in journal.now)) }
{
    let pairs = command_pairs(alloc, journal)?;
    totals(alloc, many, pairs.as_slice())
}

/// How many orders of each member entered.
#[tactic(auto, using(crate::proofs::Lists::few))]
fn accepted(alloc: Global, many: usize, reports: &[Report]) -> Result<Counted, NoMemory>
    requires { length reports.now < 2 ^ 32 }
    ensures { IfOk result (AreTotals many (filter_map accepted_in reports.now)) }
{
    let pairs = accepted_pairs(alloc, reports)?;
    totals(alloc, many, pairs.as_slice())
}

/// How many trades each member was told of.
#[tactic(auto, using(crate::proofs::Lists::few))]
fn trades(alloc: Global, many: usize, reports: &[Report]) -> Result<Counted, NoMemory>
    requires { length reports.now < 2 ^ 32 }
    ensures { IfOk result (AreTotals many (filter_map trade_in reports.now)) }
{
    let pairs = trade_pairs(alloc, reports)?;
    totals(alloc, many, pairs.as_slice())
}

/// How many shares each member was told to have traded.
#[tactic(auto, using(crate::proofs::Lists::few))]
fn shares(alloc: Global, many: usize, reports: &[Report]) -> Result<Counted, NoMemory>
    requires { length reports.now < 2 ^ 32 }
    ensures { IfOk result (AreTotals many (filter_map shares_in reports.now)) }
{
    let pairs = share_pairs(alloc, reports)?;
    totals(alloc, many, pairs.as_slice())
}

/// How many commands of each member a rule rejected or refused.
#[tactic(auto, using(crate::proofs::Lists::few))]
fn rejected(alloc: Global, many: usize, rule: u8, reports: &[Report]) -> Result<Counted, NoMemory>
    requires { length reports.now < 2 ^ 32 }
    ensures { IfOk result (AreTotals many (filter_map (rejected_in rule) reports.now)) }
{
    let pairs = rejected_pairs(alloc, rule, reports)?;
    totals(alloc, many, pairs.as_slice())
}

/// The same for each rule, from the first.
fn rejections(alloc: Global, many: usize, reports: &[Report]) -> Result<Vec<Counted>, NoMemory>
    requires { length reports.now < 2 ^ 32 }
    ensures { IfOk result (λ columns. AreRejections many 18 reports.now columns.items) }
{
    let mut columns = Vec::new(alloc);
    for place in 0..RULES {
        let column = rejected(alloc, many, place + 1, reports)?;
        columns.push(column)?;
    }
    Ok(columns)
}

/// Adds the row of an order, where it rests.
fn add_row<L: Ledger>(
    rows: &mut Vec<Priced>,
    book: &Book,
    number: u32,
    steps: &mut Steps<L>,
) -> Result<(), NoMemory>
    requires { number < length (runs book.now.markets book.now.tick book.now.journal).state.orders }
    ensures rows { OnOk result (rows.new.items ≡ rows.old.items ++ option_to_list (row_of_order number
        (resting (runs book.now.markets book.now.tick book.now.journal).state))) }
    ensures few { length rows.new.items ≤ length rows.old.items + 1 }
{
    if let Some(x) = book.resting_order(number, steps) {
        rows.push(x)?;
    }
    Ok(())
}

/// The rows of all orders that rest, order by order.
fn rows_counted<L: Ledger>(
    alloc: Global,
    book: &Book,
    blank: Blank,
) -> Result<Vec<Priced>, NoMemory>
    requires { (blank.name ≡ L.name) × (blank.parts ≡ L.parts) × (L.parts ≡ 1) }
    ensures rows { IfOk result (λ rows. rows.items ≡ resting_rows (runs book.now.markets book.now.tick book.now.journal).state) }
    ensures few { IfOk result (λ rows. length rows.items < 2 ^ 32) }
{
    let mut steps: Steps<L> = Steps::start(blank);
    let mut rows = Vec::new(alloc);
    let count = order_count(book);
    for number in 0..count {
        add_row(&mut rows, book, number, &mut steps)?;
    }
    Ok(rows)
}

/// The same, with a count of steps that nobody looks at.
fn resting_rows(alloc: Global, book: &Book) -> Result<Vec<Priced>, NoMemory>
    ensures rows { IfOk result (λ rows. rows.items ≡ resting_rows (runs book.now.markets book.now.tick book.now.journal).state) }
    ensures few { IfOk result (λ rows. length rows.items < 2 ^ 32) }
{
    rows_counted::<Brand>(alloc, book, Blank::new(1))
}

/// How many of these orders are of each member.
fn orders(alloc: Global, many: usize, rows: &[Priced]) -> Result<Counted, NoMemory>
    requires { length rows.now < 2 ^ 32 }
    ensures { IfOk result (AreTotals many (map (λ x. (x.row.member, 1)) rows.now)) }
{
    let pairs = order_pairs(alloc, rows)?;
    totals(alloc, many, pairs.as_slice())
}

/// How many shares are left of those of each member.
fn leaves(alloc: Global, many: usize, rows: &[Priced]) -> Result<Counted, NoMemory>
    requires { length rows.now < 2 ^ 32 }
    ensures { IfOk result (AreTotals many (map (λ x. (x.row.member, x.row.leaves)) rows.now)) }
{
    let pairs = leaves_pairs(alloc, rows)?;
    totals(alloc, many, pairs.as_slice())
}

/// What is counted in a symbol for each member.
pub fn sums_of(alloc: Global, config: &Config, symbol: u32, book: &Book) -> Result<Sums, NoMemory>
    requires { IsBookOf config.now symbol book.now }
    ensures { IfOk result (AreSums (length config.now.members) book.now.journal (run_of config.now symbol book.now.journal)) }
{
    let many = config.members.len();
    let journal = book.journal();
    let reports = book.reports();
    // Their counts are `u32`, so that no sum overflows.
    let _events = event_count(journal);
    let _reports = book.front();
    let rows = resting_rows(alloc, book)?;
    Ok(Sums {
        commands: commands(alloc, many, journal)?,
        accepted: accepted(alloc, many, reports)?,
        trades: trades(alloc, many, reports)?,
        shares: shares(alloc, many, reports)?,
        resting_orders: orders(alloc, many, rows.as_slice())?,
        resting_shares: leaves(alloc, many, rows.as_slice())?,
        rejected: rejections(alloc, many, reports)?,
    })
}
