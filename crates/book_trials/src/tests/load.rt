//! A book under load.
ghost use Rattle.std.specs.Prelude.{◌≡◌};

use super::orders::{event, mid, order, quote};
use match_core::Engine;
use plain_rows::submit;
use std::alloc::Global;
use std::process::Abort;
use std::test::Fail;
use symbol_book::{Book, BookOver, HashSeed};
use venue_words::{Command, Terms};

/// One unit of price.
const UNIT: i128 = 500_000;

/// How many orders rest, and how many quotes come then.
const COUNT: u32 = 100_000;

/// A pegged buy of 100 that follows the midpoint, the bid, or the bid at a distance.
fn terms(number: u32) -> Terms {
    let third = number % 3;
    Terms {
        peg: Some(if third == 0 { 2 } else { 5 }),
        offset: if third == 2 { Some(-2 * UNIT) } else { None },
        ..mid(b'1', 100)
    }
}

/// A value that may be handed to another thread.
fn sent<T: Send>(value: T) -> T
    ensures { result ≡ value }
{
    value
}

/// The book takes a command.
fn take<E: Engine + Drop>(rt: &impl Abort, book: &mut BookOver<E>, number: u32, command: Command) {
    let taken = submit(book, &event(number, command));
    assert_eq!(rt; taken, Some(Ok(number)));
}

/// Orders that rest in three groups, and then as many quotes.
fn load<E: Engine + Drop>(
    rt: &impl Abort,
    alloc: Global,
    book: &mut BookOver<E>,
) -> Result<(), Fail> {
    for number in 1..COUNT + 1 {
        let command = order(alloc, number % 200, number, terms(number))?;
        take(rt, book, number, command);
    }
    for number in 1..COUNT + 1 {
        let cents = 1000 + number % 7;
        take(rt, book, COUNT + number, quote(cents, cents + 2));
    }
    assert_eq!(rt; book.resting(), COUNT);
    assert_eq!(rt; book.groups(), 3);
    Ok(())
}

#[test]
fn many_quotes_over_many_orders_are_fast(rt: HostRuntime) -> Result<(), Fail> {
    let seed = HashSeed::random(&rt)?;
    let mut book = sent(Book::with_seed(rt.alloc(), seed, 2, 1_000_000, 2)?);
    load(&rt, rt.alloc(), &mut book)
}
