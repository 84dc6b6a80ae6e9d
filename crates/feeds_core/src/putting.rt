//! The listing of a closed venue's books.
ghost use Rattle.std.specs.Prelude.{◌≡◌, ◌+◌, ◌≤◌, ℕ, Err, IfOk, List, length};
ghost use Rattle.io_edge.specs.Grows.{Puts};
ghost use Rattle.venue_words.specs.Causes.{Rose};
ghost use Rattle.venue_words.specs.declared.limits.TheConstants.{MAX_SYMBOLS};
ghost use Rattle.feeds_core.specs.Books.{MakeRuns, MakeRunsFrom};
ghost use Rattle.feeds_core.specs.FeedRuns.{listing_of};
ghost use Rattle.feeds_core.specs.Putting.{journals_of, parts_text};

use crate::texts_at_once::texts_of;
use io_edge::Sink;
use listing::ListingFault;
use std::alloc::Global;
use std::thread::Threads;
use symbol_book::Book;
use venue_words::{Config, NoMemory};

/// The texts of so many symbols are made at once. More would be held in memory at one time, and fewer leave processors idle
/// where symbols differ in size.
const SYMBOLS_AT_ONCE: usize = 16;

/// Puts a text, where there was memory for it.
fn put_text<K: Sink>(text: &Result<Vec<u8>, NoMemory>, out: &mut K) -> Result<(), ListingFault>
    ensures text { (bytes : List ℕ) → IfOk text.now (λ made. made.items ≡ bytes) → Puts (K.told out.old) (K.told out.new) result bytes }
    ensures later { K.faults out.old ≤ K.faults out.new }
    ensures cause { result ≡ Err ListingFault.WriteFault → Rose (K.faults out.old) (K.faults out.new) }
{
    match text {
        Ok(bytes) => match out.put(bytes.as_slice()) {
            Ok(()) => Ok(()),
            Err(_) => Err(ListingFault::WriteFault),
        },
        Err(_) => Err(ListingFault::NoMemory),
    }
}

/// Puts the parts of symbols that stand one behind the other in the config, from this one on.
fn put_parts<R: Threads + Sync, K: Sink>(
    rt: &R,
    alloc: Global,
    config: &Config,
    first: u32,
    books: &[Book],
    out: &mut K,
) -> Result<(), ListingFault>
    requires few { first + length books.now ≤ MAX_SYMBOLS }
    requires runs { MakeRunsFrom config.now first books.now }
    ensures text { Puts (K.told out.old) (K.told out.new) result (parts_text config.now first books.now) }
    ensures later { K.faults out.old ≤ K.faults out.new }
    ensures cause { result ≡ Err ListingFault.WriteFault → Rose (K.faults out.old) (K.faults out.new) }
{
    let texts = match texts_of(rt, alloc, config, first, books) {
        Ok(texts) => texts,
        Err(_) => return Err(ListingFault::NoMemory),
    };
    for text in &texts {
        match put_text(text, out) {
            Ok(()) => {}
            Err(fault) => return Err(fault),
        }
    }
    Ok(())
}

/// Puts the listing of the books of a config's symbols, in their order. The texts of several symbols are made at once, each in a
/// thread of its own where one can be started. After a fault a beginning of the listing was put.
pub fn put_books<R: Threads + Sync, K: Sink>(
    rt: &R,
    alloc: Global,
    config: &Config,
    books: &[Book],
    out: &mut K,
) -> Result<(), ListingFault>
    requires few { length books.now ≤ MAX_SYMBOLS }
    requires runs { MakeRuns config.now books.now }
    ensures text { Puts (K.told out.old) (K.told out.new) result
        (listing_of config.now (journals_of books.now)) }
    ensures later { K.faults out.old ≤ K.faults out.new }
    ensures cause { result ≡ Err ListingFault.WriteFault → Rose (K.faults out.old) (K.faults out.new) }
{
    let mut first = 0u32;
    let mut rest = books;
    while !rest.is_empty() {
        let (some, later) = rest.split_at(rest.len().min(SYMBOLS_AT_ONCE));
        match put_parts(rt, alloc, config, first, some, out) {
            Ok(()) => {}
            Err(fault) => return Err(fault),
        }
        first += some.len() as u32;
        rest = later;
    }
    Ok(())
}
