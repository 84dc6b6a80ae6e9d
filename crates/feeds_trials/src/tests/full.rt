//! Two feeds of one symbol, at its limit and past it.
use super::{Ran, run, word_of};
use feeds_core::FeedsStatus;
use std::alloc::{AllocError, Global};
use std::sync::Wait;
use std::test::Fail;
use std::thread::Threads;

/// A member's logon and a hundred of his orders.
fn orders_of(alloc: Global, name: &str) -> Result<String, AllocError> {
    let mut text = format!(in alloc;
        "M {name} 35=A|49={name}|56=PEGV|34=1|52=20240102-14:30:00|98=0|108=30|1137=9|\n"
    )?;
    for id in 1..101u32 {
        let number = id + 1;
        text.push_str(&format!(in alloc;
            "M {name} 35=D|49={name}|56=PEGV|34={number}|52=20240102-14:30:00|11={id}|55=X|54=1|38=100|40=P|1094=2|60=20240102-14:30:00|\n"
        )?)?;
    }
    Ok(text)
}

fn run_both<R: Threads + Wait + Sync>(
    rt: &R,
    alloc: Global,
    limit: u32,
) -> Result<Ran, AllocError> {
    let config = format!(in alloc;
        "PEGV 1\nMEMBER F\nMEMBER G\nSYMBOL X {limit}\nBEGIN 20240102-14:30:00.000\n"
    )?;
    let first = orders_of(alloc, "F")?;
    let second = orders_of(alloc, "G")?;
    run(
        rt,
        alloc,
        config.as_str(),
        &[first.as_str(), second.as_str()],
    )
}

/// An order in the listing.
#[derive(Clone, Copy)]
struct Event {
    number: u32,
    /// The number of its feed.
    feed: usize,
    member: &'static str,
    /// Its identifier.
    id: u32,
}

impl Event {
    /// Whether a line is the order that was taken.
    fn is_taken_by(&self, alloc: Global, line: &str) -> Result<bool, AllocError> {
        let Event {
            number,
            feed,
            member,
            id,
        } = self;
        let taken = format!(in alloc;
            "J X {number} {feed} 20240102-14:30:00.000 D {member} 11={id}|54=1|38=100|40=P|1094=2|"
        )?;
        Ok(line == taken.as_str())
    }

    /// Whether a line is its report.
    fn is_told_by(&self, alloc: Global, line: &str) -> Result<bool, AllocError> {
        let Event {
            number,
            member,
            id,
            ..
        } = self;
        let told = format!(in alloc;
            "R X {number} 1 {member} 8 37=X-{number}|11={id}|17=X-{number}-1|150=0|39=0|55=X|54=1|38=100|40=P|151=100|14=0|6=0.0000|60=20240102-14:30:00.000|9701={number}|"
        )?;
        Ok(line == told.as_str())
    }
}

/// The first event that is not the next order of one of the feeds; behind the last event, where these are not all of their orders.
fn first_wrong(alloc: Global, listing: &str) -> Result<Option<u32>, AllocError> {
    let mut ids = [0u32, 0];
    let mut number = 0u32;
    let mut lines = listing.lines();
    if lines.next() != Some("S X 200 200") {
        return Ok(Some(0));
    }
    while let Some(line) = lines.next() {
        number = number.saturating_add(1);
        let feed = if word_of(line, 3) == "1" { 0usize } else { 1 };
        ids[feed] = ids[feed].saturating_add(1);
        let event = Event {
            number,
            feed: feed + 1,
            member: if feed == 0 { "F" } else { "G" },
            id: ids[feed],
        };
        let report = lines.next().unwrap_or("");
        if !event.is_taken_by(alloc, line)? || !event.is_told_by(alloc, report)? {
            return Ok(Some(number));
        }
    }
    Ok(if ids == [100, 100] {
        None
    } else {
        Some(number.saturating_add(1))
    })
}

#[test]
fn a_full_journal_holds_both_feeds_in_their_order(rt: HostRuntime) -> Result<(), Fail> {
    let ran = run_both(&rt, rt.alloc(), 200)?;
    let wrong = first_wrong(rt.alloc(), ran.text())?;
    let is_done = ran.status == FeedsStatus::Done;
    assert!(rt; is_done && wrong.is_none(), "{:?}, {wrong:?}", ran.status);
    Ok(())
}

#[test]
fn one_command_too_many_puts_nothing(rt: HostRuntime) -> Result<(), Fail> {
    let ran = run_both(&rt, rt.alloc(), 199)?;
    let full = FeedsStatus::Full { symbol: 0 };
    assert!(rt;
        ran.came_to(full, "", "pegvenue: full X\n"),
        "{:?}",
        ran.status
    );
    Ok(())
}
