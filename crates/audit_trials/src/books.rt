//! A symbol's book behind an event.
ghost use Rattle.std.specs.Prelude.{◌≡◌};

use audit_book::BookRows;
use audit_core::{AuditFiles, Verdict};
use audit_tables::asked::{Asked, Found, Question};
use audit_tables::{RowTable, Table, tabulate};
use io_edge::{MemShelf, MemSink};
use std::alloc::Global;
use std::marker::Brand;
use std::process::Abort;
use std::sync::ledger::{Blank, Ledger};
use std::test::Fail;
use venue_words::Steps;

const CONFIG: &[u8] =
    b"PEGV 1\nMEMBER FUND\nMEMBER DESK\nMEMBER BANK\nMARKET NYSE\nMARKET NSDQ\nSYMBOL ACME 100\nBEGIN 20240102-14:30:00.000\n";

/// A minimum that is not met, a quote that reprices one of two orders at a price, and one that locks the market.
const DAY: &[&[u8]] = &[
    b"S ACME 7 6\n",
    b"J ACME 1 1 20240102-14:30:00.000 Q NYSE 50.00 50.02\n",
    b"J ACME 2 1 20240102-14:30:01.000 D FUND 11=f1|54=1|38=300|40=P|110=200|1094=2|\n",
    b"R ACME 2 1 FUND 8 37=ACME-2|11=f1|17=ACME-2-1|150=0|39=0|55=ACME|54=1|38=300|40=P|151=300|14=0|6=0.0000|60=20240102-14:30:01.000|839=50.0100|9701=2|\n",
    b"J ACME 3 1 20240102-14:30:01.000 D BANK 11=b1|54=1|38=100|40=P|1094=5|\n",
    b"R ACME 3 1 BANK 8 37=ACME-3|11=b1|17=ACME-3-1|150=0|39=0|55=ACME|54=1|38=100|40=P|151=100|14=0|6=0.0000|60=20240102-14:30:01.000|839=50.0000|9701=3|\n",
    b"J ACME 4 1 20240102-14:30:02.000 D DESK 11=d1|54=1|38=150|40=2|44=50.01|\n",
    b"R ACME 4 1 DESK 8 37=ACME-4|11=d1|17=ACME-4-1|150=0|39=0|55=ACME|54=1|38=150|40=2|44=50.0100|151=150|14=0|6=0.0000|60=20240102-14:30:02.000|839=50.0100|9701=4|\n",
    b"J ACME 5 1 20240102-14:30:02.000 D BANK 11=b2|54=2|38=100|40=P|1094=2|\n",
    b"R ACME 5 1 BANK 8 37=ACME-5|11=b2|17=ACME-5-1|150=0|39=0|55=ACME|54=2|38=100|40=P|151=100|14=0|6=0.0000|60=20240102-14:30:02.000|839=50.0100|9701=5|\n",
    b"R ACME 5 2 BANK 8 37=ACME-5|11=b2|17=ACME-5-2|150=F|39=2|55=ACME|54=2|38=100|40=P|32=100|31=50.0100|151=0|14=100|6=50.0100|60=20240102-14:30:02.000|\n",
    b"R ACME 5 3 DESK 8 37=ACME-4|11=d1|17=ACME-5-3|150=F|39=1|55=ACME|54=1|38=150|40=2|44=50.0100|32=100|31=50.0100|151=50|14=100|6=50.0100|60=20240102-14:30:02.000|\n",
    b"J ACME 6 1 20240102-14:30:03.000 Q NSDQ 50.01 50.03\n",
    b"J ACME 7 1 20240102-14:30:04.000 Q NSDQ 50.02 50.03\n",
];

const BEHIND_TRADE: &[u8] =
    b"ACME behind event 5 at 14:30:02.000: bid 50.0000, offer 50.0200\nbuys           since                  entered                leaves     minimum    member\n50.0100        2        14:30:01.000  2        14:30:01.000  300        200        FUND\n50.0100        4        14:30:02.000  4        14:30:02.000  50         -          DESK\n50.0000        3        14:30:01.000  3        14:30:01.000  100        -          BANK\nsells          since                  entered                leaves     minimum    member\nbuys by price  shares     orders\n50.0100        350        2\n50.0000        100        1\nsells by price shares     orders\n";

const BEHIND_REPRICE: &[u8] =
    b"ACME behind event 6 at 14:30:03.000: bid 50.0100, offer 50.0200\nbuys           since                  entered                leaves     minimum    member\n50.0150        6        14:30:03.000  2        14:30:01.000  300        200        FUND\n50.0100        4        14:30:02.000  4        14:30:02.000  50         -          DESK\n50.0100        6        14:30:03.000  3        14:30:01.000  100        -          BANK\nsells          since                  entered                leaves     minimum    member\nbuys by price  shares     orders\n50.0150        300        1\n50.0100        150        2\nsells by price shares     orders\n";

const BEHIND_LOCK: &[u8] =
    b"ACME behind event 7 at 14:30:04.000: bid 50.0200, offer 50.0200\nbuys           since                  entered                leaves     minimum    member\n50.0200        7        14:30:04.000  3        14:30:01.000  100        -          BANK\n50.0100        4        14:30:02.000  4        14:30:02.000  50         -          DESK\nlocked quote   7        14:30:04.000  2        14:30:01.000  300        200        FUND\nsells          since                  entered                leaves     minimum    member\nbuys by price  shares     orders\n50.0200        100        1\n50.0100        50         1\nsells by price shares     orders\n";

/// The config and the listing of the day.
pub(crate) fn day_files(alloc: Global) -> Result<Vec<(String, Vec<u8>)>, Fail> {
    let mut listing = Vec::new(alloc);
    for line in DAY {
        listing.extend_from_slice(line)?;
    }
    let mut files = Vec::new(alloc);
    files.push((String::from_str(alloc, "l")?, listing))?;
    let config = Vec::from_slice(alloc, CONFIG)?;
    files.push((String::from_str(alloc, "c")?, config))?;
    Ok(files)
}

pub(crate) fn day_shelf(alloc: Global) -> Result<MemShelf, Fail> {
    Ok(MemShelf::new(day_files(alloc)?, 1_000, Vec::new(alloc)))
}

pub(crate) const FILES: AuditFiles<'static> = AuditFiles {
    config: "c",
    listing: "l",
};

/// Puts a table of the day.
pub(crate) fn tabulate_day<T: Table, L: Ledger>(
    alloc: Global,
    table: &mut T,
    steps: &mut Steps<L>,
) -> Result<(), Fail> {
    let mut shelf = day_shelf(alloc)?;
    let verdict = tabulate(alloc, FILES, &mut shelf, table, steps);
    drop(shelf);
    match verdict {
        Ok(Verdict::Same) => Ok(()),
        Ok(Verdict::Differs { .. }) => Err(Fail::from("a line differs")),
        Err(_) => Err(Fail::from("a fault")),
    }
}

/// The book behind an event of the day, and what was found.
fn book_of<A: Asked, L: Ledger>(
    alloc: Global,
    name: &[u8],
    event: u32,
    blank: Blank,
) -> Result<(MemSink, Found), Fail>
    requires name { name.now ≡ A.name }
    requires event { event ≡ A.event }
    requires blank { (blank.name ≡ L.name) × (blank.parts ≡ L.parts) × (L.parts ≡ 1) }
{
    let mut steps = Steps::<L>::start(blank);
    let question: Question<'_, A> = Question::new(name, event);
    let rows: BookRows<'_, A> = BookRows::new(alloc, question)?;
    let mut table = RowTable::new(alloc, rows, MemSink::new(alloc, Vec::new(alloc)))?;
    let tabulated = tabulate_day(alloc, &mut table, &mut steps);
    let found = table.rows().found();
    let out = table.into_out();
    tabulated?;
    Ok((out, found))
}

fn look_at_book(
    rt: &impl Abort,
    alloc: Global,
    name: &[u8],
    event: u32,
    right: (&[u8], Found),
) -> Result<(), Fail> {
    let (sink, found) = book_of::<Brand, Brand>(alloc, name, event, Blank::new(1))?;
    let is_so = sink.bytes() == right.0 && found == right.1;
    assert!(rt; is_so, "event {event}: {found:?}");
    Ok(())
}

#[test]
fn a_book_is_put_as_it_queues(rt: HostRuntime) -> Result<(), Fail> {
    let alloc = rt.alloc();
    look_at_book(&rt, alloc, b"ACME", 5, (BEHIND_TRADE, Found::All))?;
    look_at_book(&rt, alloc, b"ACME", 6, (BEHIND_REPRICE, Found::All))?;
    look_at_book(&rt, alloc, b"ACME", 7, (BEHIND_LOCK, Found::All))
}

#[test]
fn what_is_not_there_is_told(rt: HostRuntime) -> Result<(), Fail> {
    let alloc = rt.alloc();
    look_at_book(&rt, alloc, b"ACME", 8, (b"", Found::NoEvent))?;
    look_at_book(&rt, alloc, b"BETA", 5, (b"", Found::NoSymbol))
}
