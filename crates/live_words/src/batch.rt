//! Lines laid into a batch.
ghost use Rattle.std.specs.Prelude.{◌≡◌, ◌≤◌, ◌++◌, ◌∷◌, [], length, OnOk, All};
ghost use Rattle.day_journal.specs.Log.{IsShortLine};
ghost use Rattle.live_words.specs.Lines.{moment_line};
ghost use Rattle.live_words.specs.Words.{empty_lines};

use crate::lines::{empty_line, moment_line, open_line};
use crate::setup::Setup;
use std::alloc::Global;
use venue_words::{Bytes, NoMemory};

/// Adds the `O` line of a member.
pub fn push_open(
    alloc: Global,
    setup: &Setup,
    member: usize,
    lines: &mut Vec<Bytes>,
) -> Result<(), NoMemory>
    requires short { All IsShortLine lines.old.items }
    ensures short { OnOk result (All IsShortLine lines.new.items) }
{
    if let Some(name) = setup.name(member) {
        lines.push(open_line(alloc, name)?)?;
    }
    Ok(())
}

/// Adds the line of a moment.
pub fn push_moment_line(alloc: Global, moment: i64, lines: &mut Vec<Bytes>) -> Result<(), NoMemory>
    requires short { All IsShortLine lines.old.items }
    ensures short { OnOk result (All IsShortLine lines.new.items) }
    ensures added { OnOk result (lines.new.items ≡ lines.old.items ++ moment_line moment ∷ []) }
{
    lines.push(moment_line(alloc, moment)?)?;
    Ok(())
}

/// Adds for each market the line of a quote that leaves it without prices of a symbol.
pub fn push_empty(
    alloc: Global,
    setup: &Setup,
    symbol: usize,
    lines: &mut Vec<Bytes>,
) -> Result<(), NoMemory>
    requires short { All IsShortLine lines.old.items }
    ensures short { OnOk result (All IsShortLine lines.new.items) }
    ensures emptied { OnOk result (lines.new.items ≡ lines.old.items ++ empty_lines setup.now symbol) }
{
    if let Some(name) = setup.symbol(symbol) {
        for market in setup.markets() {
            lines.push(empty_line(alloc, name, market.as_slice())?)?;
        }
    }
    Ok(())
}

/// Adds a copy of a line.
pub fn push_copy(alloc: Global, line: &[u8], lines: &mut Vec<Bytes>) -> Result<(), NoMemory>
    requires line { IsShortLine line.now }
    requires short { All IsShortLine lines.old.items }
    ensures short { OnOk result (All IsShortLine lines.new.items) }
    ensures added { OnOk result (lines.new.items ≡ lines.old.items ++ line.now ∷ []) }
{
    lines.push(Bytes::copy_of(alloc, line)?)?;
    Ok(())
}

/// Adds all lines of a batch's body.
pub fn push_all(body: Vec<Bytes>, lines: &mut Vec<Bytes>) -> Result<(), NoMemory>
    requires body { All IsShortLine body.items }
    requires short { All IsShortLine lines.old.items }
    ensures short { OnOk result (All IsShortLine lines.new.items) }
    ensures added { OnOk result (lines.new.items ≡ lines.old.items ++ body.items) }
{
    let mut body = body;
    lines.append(&mut body)?;
    Ok(())
}
