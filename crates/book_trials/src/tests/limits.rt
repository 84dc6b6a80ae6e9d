//! A book at its limit.
use super::orders::{event, mid, order, quote};
use match_core::Engine;
use plain_rows::{submit, text_of};
use std::alloc::{AllocError, Global};
use std::process::Abort;
use std::test::Fail;
use symbol_book::{Book, BookOver};
use venue_words::{Event, FloorRefusal, Held};

/// A quote, and a buy and a sell that trade at its midpoint.
fn event_of(alloc: Global, number: u32) -> Result<Event, AllocError> {
    let command = match number {
        1 => quote(1000, 1001),
        2 => order(alloc, 0, number, mid(b'1', 100))?,
        _ => order(alloc, 1, number, mid(b'2', 100))?,
    };
    Ok(event(number, command))
}

/// Three events, behind which the book is full.
fn fill<E: Engine + Drop>(
    rt: &impl Abort,
    alloc: Global,
    book: &mut BookOver<E>,
) -> Result<(), Fail> {
    for number in 1..4u32 {
        let event = event_of(alloc, number)?;
        assert_eq!(rt; submit(book, &event), Some(Ok(number)));
    }
    Ok(())
}

fn reports_of<E: Engine + Drop>(alloc: Global, book: &BookOver<E>) -> Result<String, AllocError> {
    text_of(alloc, book.reports())
}

/// A full book refuses a quote.
fn refuse<E: Engine + Drop>(rt: &impl Abort, book: &mut BookOver<E>) {
    let refused = submit(book, &event(4, quote(1000, 1001)));
    assert_eq!(rt; refused, Some(Err(FloorRefusal::Full { found: 3 })));
    assert_eq!(rt; book.journal().len(), 3);
    assert_eq!(rt; book.resting(), 0);
}

fn fill_and_refuse<E: Engine + Drop>(
    rt: &impl Abort,
    alloc: Global,
    book: &mut BookOver<E>,
) -> Result<(), Fail> {
    fill(rt, alloc, book)?;
    let before = reports_of(alloc, book)?;
    refuse(rt, book);
    let after = reports_of(alloc, book)?;
    assert_eq!(rt; after.as_str(), before.as_str());
    Ok(())
}

#[test]
fn a_full_book_refuses_and_stays_as_it_was(rt: HostRuntime) -> Result<(), Fail> {
    let mut book = Book::new(rt.alloc(), 2, 3, 2)?;
    fill_and_refuse(&rt, rt.alloc(), &mut book)
}

/// How many reports a member sees from a position on, and the position behind them.
fn seen<E: Engine + Drop>(
    book: &BookOver<E>,
    member: u32,
    from: u32,
) -> Result<(u32, usize), Fail> {
    let look = book.look(member, from)?;
    Ok((look.front, look.reports.len()))
}

fn fill_and_look<E: Engine + Drop>(
    rt: &impl Abort,
    alloc: Global,
    book: &mut BookOver<E>,
) -> Result<(), Fail> {
    fill(rt, alloc, book)?;
    assert_eq!(rt; seen(book, 1, 0)?, (4, 2));
    assert_eq!(rt; seen(book, 0, 1)?, (4, 1));
    Ok(())
}

#[test]
fn a_member_sees_his_own_reports_from_a_position_on(rt: HostRuntime) -> Result<(), Fail> {
    let mut book = Book::new(rt.alloc(), 2, 3, 2)?;
    fill_and_look(&rt, rt.alloc(), &mut book)
}
