//! The lines of a symbol. Each call appends its text; after a refusal a part of it may stand there.
ghost use Rattle.std.specs.Prelude.{◌≡◌, ◌≤◌, ◌++◌, length, OnOk};
ghost use Rattle.std.specs.List.{flat_map};
ghost use Rattle.venue_words.specs.declared.limits.TheConstants.{MAX_MEMBERS};
ghost use Rattle.listing.specs.Lines.{ended};
ghost use Rattle.audit_core.specs.Telling.{IsBookOf};
ghost use Rattle.audit_summary.specs.Counting.{once};
ghost use Rattle.audit_summary.specs.Summaries.{summary_header, summary_text, who_name};
ghost use Rattle.audit_summary.specs.Sums.{once_cell, sum_cell, sum_of, sums_cells, sums_line};

use crate::sums::{Sums, sums_of};
use crate::totals::Counted;
use audit_tables::cells::{push_cell, push_number_cell};
use listing::name_at;
use std::alloc::Global;
use symbol_book::Book;
use venue_words::{Config, NoMemory};

/// Appends the line of the fields' names.
pub fn push_header(out: &mut Vec<u8>) -> Result<(), NoMemory>
    ensures { OnOk result (out.new.items ≡ out.old.items ++ summary_header) }
{
    out.extend_from_slice(
        b"symbol,member,events,accepted,trades,shares,resting_orders,resting_shares,rejected_1_unknown_symbol,rejected_2_used_clordid,rejected_3_quantity,rejected_4_side,rejected_5_order_type,rejected_6_time_in_force,rejected_7_no_price,rejected_8_price,rejected_9_peg_price,rejected_10_peg_move,rejected_11_peg_offset_type,rejected_12_peg_offset,rejected_13_peg_rounding,rejected_14_minimum,rejected_15_minimum_method,rejected_16_unknown_order,rejected_17_other_side,rejected_18_traded_quantity\n",
    )?;
    Ok(())
}

/// The sum of a member, or of all. Behind the last member there is none, and that is written as 0.
fn sum_of(counted: &Counted, member: Option<u32>) -> u64
    ensures { result ≡ sum_of member counted.now }
{
    match member {
        None => counted.all,
        Some(member) => counted.each.get(member as usize).copied().unwrap_or(0),
    }
}

/// Of what both parties of a trade are told: for all members it counts once.
fn once(member: Option<u32>, told: u64) -> u64
    ensures { result ≡ once member told }
{
    match member {
        None => told / 2,
        Some(_) => told,
    }
}

/// Appends a comma and a sum.
fn push_sum(out: &mut Vec<u8>, counted: &Counted, member: Option<u32>) -> Result<(), NoMemory>
    ensures { OnOk result (out.new.items ≡ out.old.items ++ sum_cell member counted.now) }
{
    push_number_cell(out, sum_of(counted, member))
}

/// Appends a comma and a sum of what both parties of a trade are told.
fn push_once(out: &mut Vec<u8>, counted: &Counted, member: Option<u32>) -> Result<(), NoMemory>
    ensures { OnOk result (out.new.items ≡ out.old.items ++ once_cell member counted.now) }
{
    push_number_cell(out, once(member, sum_of(counted, member)))
}

/// Appends a sum from each column.
fn push_columns(out: &mut Vec<u8>, columns: &[Counted], member: Option<u32>) -> Result<(), NoMemory>
    ensures { OnOk result (out.new.items ≡ out.old.items ++ flat_map (λ column. sum_cell member column) columns.now) }
{
    for column in columns {
        push_sum(out, column, member)?;
    }
    Ok(())
}

/// Appends the sums of a member, or of all.
#[tactic(auto, unfolding(crate::specs::Sums::sums_cells))]
fn push_sums(out: &mut Vec<u8>, sums: &Sums, member: Option<u32>) -> Result<(), NoMemory>
    ensures { OnOk result (out.new.items ≡ out.old.items ++ sums_cells member sums.now) }
{
    push_sum(out, &sums.commands, member)?;
    push_sum(out, &sums.accepted, member)?;
    push_once(out, &sums.trades, member)?;
    push_once(out, &sums.shares, member)?;
    push_sum(out, &sums.resting_orders, member)?;
    push_sum(out, &sums.resting_shares, member)?;
    push_columns(out, sums.rejected.as_slice(), member)
}

/// The name of a member, or a star for all of them.
fn who_name<'a>(config: &'a Config, member: Option<u32>) -> &'a [u8]
    ensures { result.now ≡ who_name config.now member }
{
    match member {
        None => b"*",
        Some(member) => name_at(config.members.as_slice(), member),
    }
}

/// Appends the line of a member, or of all.
#[tactic(auto, unfolding(crate::specs::Sums::sums_line))]
fn push_line(
    out: &mut Vec<u8>,
    config: &Config,
    symbol: u32,
    member: Option<u32>,
    sums: &Sums,
) -> Result<(), NoMemory>
    ensures { OnOk result (out.new.items ≡ out.old.items ++ ended (sums_line config.now symbol member sums.now)) }
{
    out.extend_from_slice(name_at(config.symbols.as_slice(), symbol))?;
    push_cell(out, who_name(config, member))?;
    push_sums(out, sums, member)?;
    out.push(b'\n')?;
    Ok(())
}

/// Appends a line for each member, and one for all of them.
pub fn push_summary(
    alloc: Global,
    out: &mut Vec<u8>,
    config: &Config,
    symbol: u32,
    book: &Book,
) -> Result<(), NoMemory>
    requires of { IsBookOf config.now symbol book.now }
    requires few { length config.now.members ≤ MAX_MEMBERS }
    ensures { OnOk result (out.new.items ≡ out.old.items ++ summary_text config.now symbol book.now.journal) }
{
    let sums = sums_of(alloc, config, symbol, book)?;
    for member in 0..config.members.len() {
        push_line(out, config, symbol, Some(member as u32), &sums)?;
    }
    push_line(out, config, symbol, None, &sums)?;
    Ok(())
}
