//! Which commands a book takes.
ghost use Rattle.std.specs.Prelude.{◌≡◌};
ghost use Rattle.venue_words.specs.Conditions.{fits_id, fits_quote};
ghost use Rattle.symbol_book.specs.Commands.{takes_command};

use venue_words::limits::{MAX_CENTS, MAX_ID_BYTES};
use venue_words::{Command, Id};

fn fits_quote(price: Option<u32>) -> bool
    ensures { result ≡ fits_quote price }
{
    match price {
        None => true,
        Some(cents) => 1 <= cents && cents <= MAX_CENTS,
    }
}

fn fits_id(id: &Id) -> bool
    ensures { result ≡ fits_id id.now }
{
    id.as_slice().len() <= MAX_ID_BYTES
}

/// Whether a book of so many markets takes a command: prices of quotes are from 0.01 to 19,999.99, ids have at most 64 bytes, and
/// a quote is of a market that is there.
pub fn takes_command(markets: usize, command: &Command) -> bool
    ensures { result ≡ takes_command markets command.now }
{
    match command {
        Command::Quote { market, bid, offer } => {
            fits_quote(*bid) && fits_quote(*offer) && (*market as usize) < markets
        }
        Command::New { id, .. } => fits_id(id),
        Command::Cancel { id, orig, .. } | Command::Replace { id, orig, .. } => {
            fits_id(id) && fits_id(orig.get())
        }
        Command::Status { id, .. } => fits_id(id),
    }
}
