//! The life of an order.
ghost use Rattle.std.specs.Prelude.{◌≡◌};

use crate::books::tabulate_day;
use audit_order::OrderRows;
use audit_tables::RowTable;
use audit_tables::asked::{Asked, Found, Question};
use io_edge::MemSink;
use std::alloc::Global;
use std::marker::Brand;
use std::process::Abort;
use std::sync::ledger::{Blank, Ledger};
use std::test::Fail;
use venue_words::Steps;

/// A midpoint order that is repriced and then has no price.
const REPRICED: &[u8] =
    b"2        14:30:01.000  entered: FUND buys 300 pegged, 300 left\n2        14:30:01.000  rests: 50.0100 since event 2, 300 left, place 1 of 1; bid 50.0000, offer 50.0200\n6        14:30:03.000  rests: 50.0150 since event 6, 300 left, place 1 of 3; bid 50.0100, offer 50.0200\n7        14:30:04.000  rests: locked quote since event 7, 300 left, no place; bid 50.0200, offer 50.0200\n";

/// A limit order that trades in part.
const TRADED: &[u8] =
    b"4        14:30:02.000  entered: DESK buys 150 with limit 50.0100, 150 left\n4        14:30:02.000  rests: 50.0100 since event 4, 150 left, place 2 of 3; bid 50.0000, offer 50.0200\n5        14:30:02.000  traded 100 at 50.0100, 50 left\n5        14:30:02.000  rests: 50.0100 since event 4, 50 left, place 2 of 3; bid 50.0000, offer 50.0200\n";

/// An order that trades as it enters.
const TAKER: &[u8] =
    b"5        14:30:02.000  entered: BANK sells 100 pegged, 100 left\n5        14:30:02.000  traded 100 at 50.0100, 0 left\n";

/// The life of the order that entered at an event of the day, and what was found.
fn life_of<A: Asked, L: Ledger>(
    alloc: Global,
    name: &[u8],
    event: u32,
    blank: Blank,
) -> Result<(MemSink, Found), Fail>
    requires name { name.now ≡ A.name }
    requires event { event ≡ A.event }
    requires blank { (blank.name ≡ L.name) × (blank.parts ≡ L.parts) × (L.parts ≡ 1) }
{
    let mut steps = Steps::<L>::start(blank);
    let question: Question<'_, A> = Question::new(name, event);
    let rows: OrderRows<'_, A> = OrderRows::new(alloc, question)?;
    let mut table = RowTable::new(alloc, rows, MemSink::new(alloc, Vec::new(alloc)))?;
    let tabulated = tabulate_day(alloc, &mut table, &mut steps);
    let found = table.rows().found();
    let out = table.into_out();
    tabulated?;
    Ok((out, found))
}

fn look_at_life(
    rt: &impl Abort,
    alloc: Global,
    event: u32,
    text: &[u8],
    found: Found,
) -> Result<(), Fail> {
    let (sink, right) = life_of::<Brand, Brand>(alloc, b"ACME", event, Blank::new(1))?;
    let is_so = sink.bytes() == text && right == found;
    assert!(rt; is_so, "event {event}: {right:?}");
    Ok(())
}

/// The events of the day, and what is told of the orders that entered there.
const LIVES: &[(u32, &[u8], Found)] = &[
    (2, REPRICED, Found::All),
    (4, TRADED, Found::All),
    (5, TAKER, Found::All),
    (6, b"", Found::NoOrder),
    (8, b"", Found::NoEvent),
];

#[test]
fn lives_are_told(rt: HostRuntime) -> Result<(), Fail> {
    let alloc = rt.alloc();
    for (event, text, found) in LIVES {
        look_at_life(&rt, alloc, *event, text, *found)?;
    }
    Ok(())
}
