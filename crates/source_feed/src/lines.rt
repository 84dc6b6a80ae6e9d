//! Quotes as lines of the desk.
ghost use Rattle.std.specs.Prelude.{◌≡◌, ◌++◌, ◌∷◌, [], OnOk};
ghost use Rattle.member_gate.specs.Answering.{name_at};
ghost use Rattle.source_feed.specs.Serving.{line_of, lines_of};

use quote_flow::MarketQuote;
use quote_text::push_side;
use venue_words::{Bytes, Config, NoMemory};

/// Appends the name at a place and a space.
fn push_name(text: &mut Vec<u8>, names: &[Bytes], place: u32) -> Result<(), NoMemory>
    ensures { OnOk result (text.new.items ≡ text.old.items ++ (name_at names.now place ++ 32 ∷ [])) }
{
    if let Some(name) = names.get(place as usize) {
        text.extend_from_slice(name.as_slice())?;
    }
    text.push(b' ')?;
    Ok(())
}

/// Appends the line of a quote.
fn push_line(text: &mut Vec<u8>, config: &Config, quote: &MarketQuote) -> Result<(), NoMemory>
    ensures { OnOk result (text.new.items ≡ text.old.items ++ line_of config.now quote.now) }
{
    text.extend_from_slice(b"Q ")?;
    push_name(text, config.symbols.as_slice(), quote.symbol)?;
    push_name(text, config.markets.as_slice(), quote.market)?;
    push_side(text, quote.sides.bid)?;
    text.push(b' ')?;
    push_side(text, quote.sides.offer)?;
    text.push(b'\n')?;
    Ok(())
}

/// Appends the lines of quotes, `Q SYMBOL MARKET BID OFFER` each. After a refusal some of them may stand there.
pub fn push_lines(
    text: &mut Vec<u8>,
    config: &Config,
    quotes: &[MarketQuote],
) -> Result<(), NoMemory>
    ensures { OnOk result (text.new.items ≡ text.old.items ++ lines_of config.now quotes.now) }
{
    for quote in quotes {
        push_line(text, config, quote)?;
    }
    Ok(())
}
