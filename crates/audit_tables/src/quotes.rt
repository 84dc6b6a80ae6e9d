//! The markets' quotes of a symbol, event by event.
ghost use Rattle.std.specs.Prelude.{◌≡◌, ◌-◌, ℕ, [], true, Some, IfOk, length, slice_get};
ghost use Rattle.venue_words.specs.Conditions.{IsConfig};
ghost use Rattle.venue_words.specs.declared.command.Event.{Event};
ghost use Rattle.symbol_book.specs.Commands.{takes_command};
ghost use Rattle.audit_core.specs.Telling.{IsNext};
ghost use Rattle.audit_tables.specs.Quotes.{HasQuotes, markets_after};

use best_prices::Markets;
use std::alloc::Global;
use symbol_book::Book;
use venue_words::{Command, Config, Event, NoMemory};

/// Notes the quote of a command.
fn note_quote(markets: &mut Markets, command: &Command)
    requires { takes_command (length markets.old) command.now ≡ true }
    ensures { markets.new ≡ markets_after markets.old command.now }
{
    match command {
        Command::Quote { market, bid, offer } => {
            markets.set(*market, *bid, *offer);
        }
        _ => {}
    }
}

/// Notes the quote of the last event of a journal.
pub(crate) fn note_last(markets: &mut Markets, journal: &[Event])
    requires { (event : Event) → slice_get journal.now (length journal.now - 1) ≡ Some event →
        takes_command (length markets.old) event.command ≡ true }
    ensures { (event : Event) → slice_get journal.now (length journal.now - 1) ≡ Some event →
        markets.new ≡ markets_after markets.old event.command }
{
    match journal.last() {
        Some(event) => note_quote(markets, &event.command),
        None => {}
    }
}

/// The markets without a quote.
pub fn no_quotes(alloc: Global, config: &Config) -> Result<Markets, NoMemory>
    requires { IsConfig config.now }
    ensures { IfOk result (λ markets. (symbol : ℕ) → HasQuotes config.now symbol [] markets) }
{
    let markets = Markets::new(alloc, config.markets.len() as u32)?;
    Ok(markets)
}

/// Notes the quote of the last event of a symbol's book.
pub fn note_event(markets: &mut Markets, config: &Config, symbol: u32, book: &Book)
    requires { IsNext (λ config symbol journal. HasQuotes config symbol journal markets.old) config.now symbol book.now }
    ensures { HasQuotes config.now symbol book.now.journal markets.new }
{
    let _market = config.markets.len();
    let _symbol = symbol;
    note_last(markets, book.journal());
}
