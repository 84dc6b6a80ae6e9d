//! The text of a symbol's part of a listing.
ghost use Rattle.std.specs.Prelude.{◌≡◌, IfOk};
ghost use Rattle.symbol_book.specs.Setting.{book_setting, run_at};
ghost use Rattle.venue_core.specs.Runs.{run_in};
ghost use Rattle.feeds_core.specs.Putting.{book_text};

use io_edge::{Failed, Sink};
use listing::{SymbolPart, runs_are_in_order, write_part};
use std::alloc::Global;
use symbol_book::Book;
use venue_words::{Config, NoMemory};

/// Keeps what is put. Want of memory is its only fault.
#[derive(Drop)]
struct PartText {
    bytes: Vec<u8>,
    faults: u64,
}

impl Sink for PartText {
    ghost use Rattle.std.specs.Prelude.{[], Some};

    ghost faults = { λ text. text.faults };

    ghost told = { λ text. Some text.bytes.items };

    ghost waiting = { λ _. [] };

    fn put(&mut self, piece: &[u8]) -> Result<(), Failed> {
        if self.bytes.extend_from_slice(piece).is_err() {
            self.faults = self.faults.saturating_add(1);
            return Err(Failed);
        }
        Ok(())
    }

    fn flush(&mut self) -> Result<(), Failed> {
        Ok(())
    }
}

/// The text of the part of a symbol, whose book this is.
pub fn text_of(
    alloc: Global,
    config: &Config,
    symbol: u32,
    book: &Book,
) -> Result<Vec<u8>, NoMemory>
    requires { run_at (book_setting book.now) book.now.journal ≡ run_in config.now symbol book.now.journal }
    ensures { IfOk result (λ text. text.items ≡ book_text config.now symbol book.now) }
{
    runs_are_in_order();
    let part = SymbolPart {
        config,
        symbol,
        journal: book.journal(),
        reports: book.reports(),
    };
    let mut text = PartText {
        bytes: Vec::new(alloc),
        faults: 0,
    };
    match write_part(alloc, &part, &mut text) {
        Ok(()) => Ok(text.bytes),
        Err(_) => Err(NoMemory),
    }
}
