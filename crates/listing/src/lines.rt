//! The lines of a listing, each with its LF.
ghost use Rattle.std.specs.Prelude.{◌≡◌, ◌++◌, decimal, length, OnOk};
ghost use Rattle.fix_write.specs.Moments.{moment_text};
ghost use Rattle.listing.specs.Commands.{name_at, word, command_text};
ghost use Rattle.listing.specs.Lines.{symbol_line, event_line, report_body, report_line, ended};

use crate::commands::{name_at, push_command, push_word};
use exec_reports::{body, kind};
use fix_write::digits::push_number;
use fix_write::push_moment;
use script_text::push_escaped_text;
use std::alloc::Global;
use venue_words::{Command, Config, Event, NoMemory, Report};

/// Appends a space and a number.
fn push_number_word(out: &mut Vec<u8>, number: u64) -> Result<(), NoMemory>
    ensures { OnOk result (out.new.items ≡ out.old.items ++ word (decimal number)) }
{
    out.push(b' ')?;
    push_number(out, number)
}

/// Appends a space and a moment.
fn push_moment_word(out: &mut Vec<u8>, moment: i64) -> Result<(), NoMemory>
    ensures { OnOk result (out.new.items ≡ out.old.items ++ word (moment_text moment)) }
{
    out.push(b' ')?;
    push_moment(out, moment)
}

/// Appends a space and a command.
fn push_command_word(
    out: &mut Vec<u8>,
    fields: &mut Vec<u8>,
    config: &Config,
    command: &Command,
) -> Result<(), NoMemory>
    ensures { OnOk result (out.new.items ≡ out.old.items ++ word (command_text config.now command.now)) }
{
    out.push(b' ')?;
    push_command(out, fields, config, command)
}

/// Appends the line of a symbol with so many events and reports. A refusal leaves a part of it.
#[tactic(auto, unfolding(crate::specs::Lines::symbol_line))]
pub fn push_symbol_line(
    out: &mut Vec<u8>,
    symbol: &[u8],
    events: usize,
    reports: usize,
) -> Result<(), NoMemory>
    ensures { OnOk result (out.new.items ≡ out.old.items ++ ended (symbol_line symbol.now events reports)) }
{
    out.push(b'S')?;
    push_word(out, symbol)?;
    push_number_word(out, events as u64)?;
    push_number_word(out, reports as u64)?;
    out.push(b'\n')?;
    Ok(())
}

/// Appends the line of an event. `fields` is room for the fields of what a member asks. A refusal leaves a part of the line.
#[tactic(auto, unfolding(crate::specs::Lines::event_line))]
pub fn push_event_line(
    out: &mut Vec<u8>,
    fields: &mut Vec<u8>,
    config: &Config,
    symbol: u32,
    event: &Event,
) -> Result<(), NoMemory>
    ensures { OnOk result (out.new.items ≡ out.old.items ++ ended (event_line config.now symbol event.now)) }
{
    out.push(b'J')?;
    push_word(out, name_at(config.symbols.as_slice(), symbol))?;
    push_number_word(out, u64::from(event.number))?;
    push_number_word(out, u64::from(event.feed))?;
    push_moment_word(out, event.moment)?;
    push_command_word(out, fields, config, &event.command)?;
    out.push(b'\n')?;
    Ok(())
}

/// Appends a space and the body of a report as text.
fn push_body(
    alloc: Global,
    out: &mut Vec<u8>,
    config: &Config,
    symbol: u32,
    report: &Report,
) -> Result<(), NoMemory>
    ensures { OnOk result (out.new.items ≡ out.old.items ++ word (report_body config.now symbol report.now)) }
{
    let member = name_at(config.members.as_slice(), report.member);
    let symbol = name_at(config.symbols.as_slice(), symbol);
    let body = body(alloc, report, symbol, member)?;
    out.push(b' ')?;
    push_escaped_text(out, body.as_slice())?;
    Ok(())
}

/// Appends the line of a report. A refusal leaves a part of it.
#[tactic(auto, unfolding(crate::specs::Lines::report_line))]
pub fn push_report_line(
    alloc: Global,
    out: &mut Vec<u8>,
    config: &Config,
    symbol: u32,
    report: &Report,
) -> Result<(), NoMemory>
    ensures { OnOk result (out.new.items ≡ out.old.items ++ ended (report_line config.now symbol report.now)) }
{
    out.push(b'R')?;
    push_word(out, name_at(config.symbols.as_slice(), symbol))?;
    push_number_word(out, u64::from(report.event))?;
    push_number_word(out, u64::from(report.place))?;
    push_word(out, name_at(config.members.as_slice(), report.member))?;
    push_word(out, &[kind(report).byte()])?;
    push_body(alloc, out, config, symbol, report)?;
    out.push(b'\n')?;
    Ok(())
}
