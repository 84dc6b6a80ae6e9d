//! The quotes of a snapshot.
ghost use Rattle.std.specs.Prelude.{◌≡◌, ◌++◌, OnOk};
ghost use Rattle.source_session.specs.Quotes.{quote_by, quotes_by};

use market_data::Snapshot;
use quote_flow::{MarketQuote, Sides};
use venue_words::{Command, NoMemory};

/// Appends the quote of a symbol.
fn push_quote(quotes: &mut Vec<MarketQuote>, symbol: u32, command: &Command) -> Result<(), NoMemory>
    ensures { OnOk result (quotes.new.items ≡ quotes.old.items ++ quote_by symbol command.now) }
{
    let Command::Quote { market, bid, offer } = command else {
        return Ok(());
    };
    let sides = Sides {
        bid: *bid,
        offer: *offer,
    };
    quotes.push(MarketQuote {
        symbol,
        market: *market,
        sides,
    })?;
    Ok(())
}

/// Appends the quotes of a snapshot. After a refusal some of them may stand there.
pub(crate) fn push_quotes(
    quotes: &mut Vec<MarketQuote>,
    snapshot: &Snapshot,
) -> Result<(), NoMemory>
    ensures { OnOk result (quotes.new.items
        ≡ quotes.old.items ++ quotes_by snapshot.now.symbol snapshot.now.quotes) }
{
    for command in snapshot.quotes.as_slice() {
        push_quote(quotes, snapshot.symbol, command)?;
    }
    Ok(())
}
