//! The lines of a feed that quotes make.
ghost use Rattle.std.specs.Prelude.{◌≡◌, ◌++◌, ◌∷◌, [], OnOk};
ghost use Rattle.member_gate.specs.Answering.{name_at};
ghost use Rattle.market_data.specs.Lines.{last_moment, lines_from, moment_if, quote_line, timed};

use crate::snapshots::Snapshot;
use fix_write::push_moment;
use quote_text::push_side;
use venue_words::{Bytes, Command, Config, NoMemory};

/// Appends the name at a place and a space. After a refusal the text may hold a part of it.
fn push_name(text: &mut Vec<u8>, names: &[Bytes], place: u32) -> Result<(), NoMemory>
    ensures { OnOk result (text.new.items ≡ text.old.items ++ (name_at names.now place ++ 32 ∷ [])) }
{
    if let Some(name) = names.get(place as usize) {
        text.extend_from_slice(name.as_slice())?;
    }
    text.push(b' ')?;
    Ok(())
}

/// Appends the line of a quote. After a refusal the text may hold a part of it.
fn push_quote(
    text: &mut Vec<u8>,
    config: &Config,
    symbol: u32,
    quote: &Command,
) -> Result<(), NoMemory>
    ensures { OnOk result (text.new.items ≡ text.old.items ++ quote_line config.now symbol quote.now) }
{
    let Command::Quote { market, bid, offer } = quote else {
        return Ok(());
    };
    text.extend_from_slice(b"Q ")?;
    push_name(text, config.symbols.as_slice(), symbol)?;
    push_name(text, config.markets.as_slice(), *market)?;
    push_side(text, *bid)?;
    text.push(b' ')?;
    push_side(text, *offer)?;
    text.push(b'\n')?;
    Ok(())
}

/// Appends the line of a moment, unless it stands last already. After a refusal the text may hold a part of it.
fn push_moment_line(text: &mut Vec<u8>, last: Option<i64>, moment: i64) -> Result<(), NoMemory>
    ensures { OnOk result (text.new.items ≡ text.old.items ++ moment_if last moment) }
{
    if last == Some(moment) {
        return Ok(());
    }
    text.extend_from_slice(b"T ")?;
    push_moment(text, moment)?;
    text.push(b'\n')?;
    Ok(())
}

/// Appends the lines of a snapshot at a moment: its quotes, behind the moment where another one stands last. After a refusal
/// the text may hold a part of them.
pub fn push_snapshot(
    text: &mut Vec<u8>,
    last: &mut Option<i64>,
    config: &Config,
    moment: i64,
    snapshot: &Snapshot,
) -> Result<(), NoMemory>
    ensures lines { OnOk result (text.new.items
        ≡ text.old.items ++ lines_from config.now last.old (timed moment snapshot.now)) }
    ensures last { OnOk result (last.new ≡ last_moment last.old (timed moment snapshot.now)) }
{
    for quote in snapshot.quotes.as_slice() {
        push_moment_line(text, *last, moment)?;
        *last = Some(moment);
        push_quote(text, config, snapshot.symbol, quote)?;
    }
    Ok(())
}
