//! The lines of a round.
ghost use Rattle.std.specs.Prelude.{◌≡◌, ◌≤◌, ◌++◌, ◌∷◌, [], length, IfOk, OnOk, All};
ghost use Rattle.day_journal.specs.Log.{IsShortLine};
ghost use Rattle.live_words.specs.Lines.{open_line, bytes_line, empty_line, moment_line};

use fix_write::push_moment;
use script_text::push_escaped_text;
use std::alloc::Global;
use venue_words::{Bytes, NoMemory};

/// The line of a member's new connection, and of the end of one.
#[tactic(auto, using(crate::proofs::LineLaws::open_line_short))]
pub fn open_line(alloc: Global, name: &[u8]) -> Result<Bytes, NoMemory>
    requires name { length name.now ≤ 16 }
    ensures short { IfOk result IsShortLine }
    ensures line { IfOk result (λ line. line ≡ open_line name.now) }
{
    let mut line = Vec::from_slice(alloc, b"O ")?;
    line.extend_from_slice(name)?;
    Ok(Bytes(line))
}

/// The line of a piece of a member's bytes.
#[tactic(auto, using(crate::proofs::LineLaws::bytes_line_short))]
pub fn bytes_line(alloc: Global, name: &[u8], piece: &[u8]) -> Result<Bytes, NoMemory>
    requires name { length name.now ≤ 16 }
    requires piece { length piece.now ≤ 4096 }
    ensures short { IfOk result IsShortLine }
    ensures line { IfOk result (λ line. line ≡ bytes_line name.now piece.now) }
{
    let mut line = Vec::from_slice(alloc, b"B ")?;
    line.extend_from_slice(name)?;
    line.push(b' ')?;
    push_escaped_text(&mut line, piece)?;
    Ok(Bytes(line))
}

/// The line of a quote that leaves a market without prices of a symbol.
#[tactic(auto, using(crate::proofs::LineLaws::empty_line_short))]
pub fn empty_line(alloc: Global, symbol: &[u8], market: &[u8]) -> Result<Bytes, NoMemory>
    requires symbol { length symbol.now ≤ 16 }
    requires market { length market.now ≤ 16 }
    ensures short { IfOk result IsShortLine }
    ensures line { IfOk result (λ line. line ≡ empty_line symbol.now market.now) }
{
    let mut line = Vec::from_slice(alloc, b"Q ")?;
    line.extend_from_slice(symbol)?;
    line.push(b' ')?;
    line.extend_from_slice(market)?;
    line.extend_from_slice(b" - -")?;
    Ok(Bytes(line))
}

/// The line of a moment, in milliseconds since 1970-01-01 00:00 UTC.
#[tactic(auto, using(crate::proofs::LineLaws::moment_line_short))]
pub fn moment_line(alloc: Global, moment: i64) -> Result<Bytes, NoMemory>
    ensures short { IfOk result IsShortLine }
    ensures line { IfOk result (λ line. line ≡ moment_line moment) }
{
    let mut line = Vec::from_slice(alloc, b"T ")?;
    push_moment(&mut line, moment)?;
    Ok(Bytes(line))
}
