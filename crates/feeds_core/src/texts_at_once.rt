//! The texts of several symbols' parts of a listing, made at once.
ghost use Rattle.std.specs.Prelude.{◌≡◌, ◌+◌, ◌<◌, ◌≤◌, ℕ, IfOk, length, slice_index_or, vec_len};
ghost use Rattle.venue_words.specs.declared.limits.TheConstants.{MAX_SYMBOLS};
ghost use Rattle.symbol_book.specs.Book.{BookView};
ghost use Rattle.feeds_core.specs.Books.{MakeRunsFrom};
ghost use Rattle.feeds_core.specs.Putting.{book_text};

use crate::part_text::text_of;
use std::alloc::Global;
use std::thread::{Threads, map_indices};
use symbol_book::Book;
use venue_words::{Config, NoMemory};

/// The texts of the parts of symbols that stand one behind the other in the config, from this one on, in their order. They are
/// made at once, each in a thread of its own where one can be started.
pub fn texts_of<R: Threads + Sync>(
    rt: &R,
    alloc: Global,
    config: &Config,
    first: u32,
    books: &[Book],
) -> Result<Vec<Result<Vec<u8>, NoMemory>>, NoMemory>
    requires few { first + length books.now ≤ MAX_SYMBOLS }
    requires runs { MakeRunsFrom config.now first books.now }
    ensures count { IfOk result (λ texts. vec_len texts ≡ length books.now) }
    ensures each { IfOk result (λ texts. (place : ℕ) (book : BookView) (text : _) → place < length books.now
        → book ≡ slice_index_or books.now place book → text ≡ slice_index_or texts.items place text
        → IfOk text (λ bytes. bytes.items ≡ book_text config.now (first + place) book)) }
{
    let texts = map_indices(
        rt,
        alloc,
        books.len(),
        &|place: usize| -> Result<Vec<u8>, NoMemory>
            requires { (place < length books.now) × (first + length books.now ≤ MAX_SYMBOLS) × MakeRunsFrom config.now first books.now }
            ensures { IfOk result (λ bytes. (book : BookView) → book ≡ slice_index_or books.entry.now place book
                → bytes.items ≡ book_text config.entry.now (first + place) book) }
        { text_of(alloc, config, first + place as u32, &books[place]) },
    )?;
    Ok(texts)
}
