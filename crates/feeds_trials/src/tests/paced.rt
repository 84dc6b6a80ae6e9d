//! Two feeds that are held in turn.
use super::{run_paced, word_of};
use crossbeam_utils::Backoff;
use feed_work::Pace;
use feeds_core::FeedsStatus;
use std::sync::atomic::{AtomicU64, Ordering};
use std::test::Fail;

const CONFIG: &str = "PEGV 1\nMARKET N\nSYMBOL X 6\nBEGIN 20240102-14:30:00.000\n";

const FEED: &str = "Q X N 10.00 10.01\nQ X N 10.01 10.02\nQ X N 10.02 10.03\n";

/// After so many turns a hold gives up.
const MOST_TURNS: u64 = 100_000_000;

/// Holds two feeds so that their first commands alternate.
#[derive(Drop)]
struct Alternate {
    /// How many calls of each feed have begun.
    first: AtomicU64,
    second: AtomicU64,
    /// How many holds gave up.
    given_up: AtomicU64,
}

impl Alternate {
    fn new() -> Alternate {
        Alternate {
            first: AtomicU64::new(0),
            second: AtomicU64::new(0),
            given_up: AtomicU64::new(0),
        }
    }

    /// Holds the caller until so many calls were counted.
    fn hold(&self, calls: &AtomicU64, count: u64) {
        let backoff = Backoff::new();
        for _ in 0..MOST_TURNS {
            if count <= calls.load(Ordering::SeqCst) {
                return;
            }
            backoff.snooze();
        }
        self.given_up.fetch_add(1, Ordering::SeqCst);
    }
}

impl Pace for Alternate {
    fn before(&self, feed: u32) {
        if feed == 1 {
            match self.first.fetch_add(1, Ordering::SeqCst) {
                1 => self.hold(&self.second, 2),
                2 => self.hold(&self.second, 3),
                _ => {}
            }
        } else {
            match self.second.fetch_add(1, Ordering::SeqCst) {
                0 => self.hold(&self.first, 2),
                1 => self.hold(&self.first, 3),
                _ => {}
            }
        }
    }
}

/// Whether a listing is of six quotes, of which the first four alternate.
fn alternates(listing: &str) -> bool {
    let mut lines = listing.lines();
    if lines.next() != Some("S X 6 0") {
        return false;
    }
    for feed in ["1", "2", "1", "2"] {
        match lines.next() {
            Some(line) if word_of(line, 3) == feed => {}
            _ => return false,
        }
    }
    lines.next().is_some() && lines.next().is_some() && lines.next().is_none()
}

#[test]
fn feeds_are_worked_at_once(rt: HostRuntime) -> Result<(), Fail> {
    let pace = Alternate::new();
    let texts = (CONFIG, [FEED, FEED].as_slice());
    let ran = run_paced(&rt, rt.alloc(), &pace, texts, 4096, (0, 0, 0))?;
    let given_up = pace.given_up.load(Ordering::SeqCst);
    let is_done = ran.status == FeedsStatus::Done && alternates(ran.text());
    assert!(rt; given_up == 0 && is_done, "{:?}, {given_up}", ran.status);
    Ok(())
}
