//! A listing beside its feeds.
ghost use Rattle.std.specs.Prelude.{◌≡◌};

use crate::books::{FILES, day_files};
use audit_feeds::{FeedsVerdict, audit_feeds};
use io_edge::MemShelf;
use std::alloc::Global;
use std::marker::Brand;
use std::process::Abort;
use std::sync::ledger::{Blank, Ledger};
use std::test::Fail;
use std::thread::Threads;
use venue_words::{Bytes, Steps};

/// The feed of the day in `books`.
const FEED: &[&[u8]] = &[
    b"M FUND 35=A|49=FUND|56=PEGV|34=1|52=20240102-14:30:00|98=0|108=30|1137=9|\n",
    b"M DESK 35=A|49=DESK|56=PEGV|34=1|52=20240102-14:30:00|98=0|108=30|1137=9|\n",
    b"M BANK 35=A|49=BANK|56=PEGV|34=1|52=20240102-14:30:00|98=0|108=30|1137=9|\n",
    b"Q ACME NYSE 50.00 50.02\n",
    b"T 20240102-14:30:01.000\n",
    b"M FUND 35=D|49=FUND|56=PEGV|34=2|52=20240102-14:30:01|11=f1|55=ACME|54=1|38=300|40=P|1094=2|110=200|60=20240102-14:30:01|\n",
    b"M BANK 35=D|49=BANK|56=PEGV|34=2|52=20240102-14:30:01|11=b1|55=ACME|54=1|38=100|40=P|1094=5|60=20240102-14:30:01|\n",
    b"T 20240102-14:30:02.000\n",
    b"M DESK 35=D|49=DESK|56=PEGV|34=2|52=20240102-14:30:02|11=d1|55=ACME|54=1|38=150|40=2|44=50.01|60=20240102-14:30:02|\n",
    b"M BANK 35=D|49=BANK|56=PEGV|34=3|52=20240102-14:30:02|11=b2|55=ACME|54=2|38=100|40=P|1094=2|60=20240102-14:30:02|\n",
    b"T 20240102-14:30:03.000\n",
    b"Q ACME NSDQ 50.01 50.03\n",
    b"T 20240102-14:30:04.000\n",
    b"Q ACME NSDQ 50.02 50.03\n",
];

/// The shelf with a feed that has this text in the place of a line.
fn shelf_with(alloc: Global, place: usize, text: &[u8]) -> Result<MemShelf, Fail> {
    let mut feed = Vec::new(alloc);
    for (line, bytes) in FEED.iter().enumerate() {
        feed.extend_from_slice(if line == place { text } else { bytes })?;
    }
    let mut files = day_files(alloc)?;
    files.push((String::from_str(alloc, "f")?, feed))?;
    Ok(MemShelf::new(files, 1_000, Vec::new(alloc)))
}

/// Where the day's journals are not what the feed asks.
fn departures_of<R: Threads + Sync, L: Ledger>(
    rt: &R,
    alloc: Global,
    place: usize,
    text: &[u8],
    blank: Blank,
) -> Result<Bytes, Fail>
    requires { (blank.name ≡ L.name) × (blank.parts ≡ L.parts) × (L.parts ≡ 1) }
{
    let mut steps = Steps::<L>::start(blank);
    let mut shelf = shelf_with(alloc, place, text)?;
    let verdict = audit_feeds(rt, alloc, FILES, &["f"], &mut shelf, &mut steps);
    drop(shelf);
    match verdict {
        Ok(FeedsVerdict::Same) => Ok(Bytes::copy_of(alloc, b"same")?),
        Ok(FeedsVerdict::Departures(departures)) => Ok(departures),
        Ok(FeedsVerdict::Differs { .. }) => Err(Fail::from("a line differs")),
        Err(_) => Ok(Bytes::copy_of(alloc, b"refused")?),
    }
}

fn look_at<R: Threads + Abort + Sync>(
    rt: &R,
    alloc: Global,
    place: usize,
    text: &[u8],
    right: &[u8],
) -> Result<(), Fail> {
    let departures = departures_of::<R, Brand>(rt, alloc, place, text, Blank::new(1))?;
    assert_eq!(rt; departures.as_slice(), right);
    Ok(())
}

/// A place of the feed, the text that stands there for its line, and what is told.
const CASES: &[(usize, &[u8], &[u8])] = &[
    (14, b"", b"same"),
    (13, b"", b"ACME: event 7 is not command 7 of feed 1\n"),
    (
        13,
        b"Q ACME NSDQ 50.02 50.03\nQ ACME NSDQ 50.02 50.03\n",
        b"ACME: command 8 of feed 1 is missing\n",
    ),
    (
        11,
        b"Q ACME NSDQ 50.01 50.04\n",
        b"ACME: event 6 is not command 6 of feed 1\n",
    ),
    (
        10,
        b"T 20240102-14:30:03.001\n",
        b"ACME: event 6 is not command 6 of feed 1\n",
    ),
    (3, b"Q ACME NYSE 50 50.02\n", b"refused"),
];

#[test]
fn departures_are_told(rt: HostRuntime) -> Result<(), Fail> {
    let alloc = rt.alloc();
    for (place, text, right) in CASES {
        look_at(&rt, alloc, *place, text, right)?;
    }
    Ok(())
}
