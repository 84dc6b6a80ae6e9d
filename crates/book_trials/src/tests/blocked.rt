//! A book that minimums block.
use super::comparing::compare;
use super::orders::{SHARE, event, mid, order, quote};
use plain_rows::over_groups;
use std::alloc::{AllocError, Global};
use std::test::Fail;
use venue_words::{Event, Terms};

/// A quote, then 300 buys that want 100 shares of each trade, then 300 sells of 50.
fn event_of(alloc: Global, number: u32) -> Result<Event, AllocError> {
    if number == 1 {
        return Ok(event(number, quote(1000, 1001)));
    }
    let terms = if number <= 301 {
        Terms {
            minimum: Some(100 * SHARE),
            method: Some(2),
            ..mid(b'1', 300)
        }
    } else {
        mid(b'2', 50)
    };
    Ok(event(number, order(alloc, 0, number, terms)?))
}

/// Nothing trades, although all of the book crosses.
#[test]
fn minimums_may_block_a_whole_book(rt: HostRuntime) -> Result<(), Fail> {
    let alloc = rt.alloc();
    let mut events = Vec::new(alloc);
    for number in 1..602u32 {
        events.push(event_of(alloc, number)?)?;
    }
    assert_eq!(rt; compare(&rt, alloc, 2, events.as_slice())?, 0);
    let shown = over_groups(alloc, 2, events.as_slice())?;
    assert_eq!(rt; shown.resting, (600, 2));
    Ok(())
}
