//! The tables of a day's listing.
ghost use Rattle.std.specs.Prelude.{◌≡◌};

use crate::tests::{FILES, PART, listing_with, shelf_of};
use audit_core::{AuditFault, AuditRefusal, Verdict};
use audit_tables::{TradeRows, TradeTable, tabulate};
use io_edge::MemSink;
use std::alloc::Global;
use std::marker::Brand;
use std::process::Abort;
use std::sync::ledger::{Blank, Ledger};
use std::test::Fail;
use venue_words::Steps;

const HEADER: &[u8] =
    b"symbol,event,moment,price,quantity,buy_order,sell_order,buyer,seller,bid,offer,buyer_clordid,seller_clordid,taker,buyer_at_limit,seller_at_limit\n";

const TRADES: &[u8] =
    b"symbol,event,moment,price,quantity,buy_order,sell_order,buyer,seller,bid,offer,buyer_clordid,seller_clordid,taker,buyer_at_limit,seller_at_limit\nX,3,20240102-14:30:00.000,10.0050,100,X-2,X-3,A,B,10.00,10.01,a1,b1,seller,-,-\n";

/// Puts the table of a listing, and gives the line that differs, where one does.
fn line_of<L: Ledger>(
    alloc: Global,
    listing: Vec<u8>,
    table: &mut TradeTable<MemSink>,
    steps: &mut Steps<L>,
) -> Result<Option<u32>, Fail> {
    let mut shelf = shelf_of(alloc, listing, 300, Vec::new(alloc))?;
    let verdict = tabulate(alloc, FILES, &mut shelf, table, steps);
    drop(shelf);
    match verdict {
        Ok(Verdict::Same) => Ok(None),
        Ok(Verdict::Differs { line, .. }) => Ok(Some(line)),
        Err(_) => Err(Fail::from("a fault")),
    }
}

/// The table of a listing with other text in the place of a line, and the line that differs, where one does.
fn trades_with<L: Ledger>(
    alloc: Global,
    place: usize,
    text: &[u8],
    steps: &mut Steps<L>,
) -> Result<(MemSink, Option<u32>), Fail> {
    let listing = listing_with(alloc, place, text)?;
    let mut table = TradeTable::new(
        alloc,
        TradeRows::new(alloc)?,
        MemSink::new(alloc, Vec::new(alloc)),
    )?;
    let line = line_of(alloc, listing, &mut table, steps);
    let out = table.into_out();
    let line = line?;
    Ok((out, line))
}

/// Whether a listing with other text in the place of a line makes this table, and differs first with this line.
fn makes<L: Ledger>(
    alloc: Global,
    change: (usize, &[u8]),
    table: &[u8],
    differs: Option<u32>,
    steps: &mut Steps<L>,
) -> Result<bool, Fail> {
    let (sink, line) = trades_with(alloc, change.0, change.1, steps)?;
    Ok(line == differs && sink.bytes() == table)
}

fn look_at_trades<L: Ledger>(rt: &impl Abort, alloc: Global, blank: Blank) -> Result<(), Fail>
    requires name { blank.name ≡ L.name }
    requires parts { blank.parts ≡ L.parts }
    requires one { blank.parts ≡ 1 }
{
    let mut steps = Steps::<L>::start(blank);
    assert!(rt; makes(alloc, (PART.len(), b""), TRADES, None, &mut steps)?);
    assert!(rt; makes(alloc, (4, b""), HEADER, Some(5), &mut steps)?);
    Ok(())
}

#[test]
fn trades_are_put_with_their_parties_and_the_quote(rt: HostRuntime) -> Result<(), Fail> {
    look_at_trades::<Brand>(&rt, rt.alloc(), Blank::new(1))
}

/// A put that fails is told.
fn look_at_puts<L: Ledger>(rt: &impl Abort, alloc: Global, blank: Blank) -> Result<(), Fail>
    requires name { blank.name ≡ L.name }
    requires parts { blank.parts ≡ L.parts }
    requires one { blank.parts ≡ 1 }
{
    let mut steps = Steps::<L>::start(blank);
    let listing = listing_with(alloc, PART.len(), b"")?;
    let mut shelf = shelf_of(alloc, listing, 300, Vec::new(alloc))?;
    let mut fails = Vec::new(alloc);
    fails.push(1)?;
    let mut table = TradeTable::new(alloc, TradeRows::new(alloc)?, MemSink::new(alloc, fails))?;
    let found = tabulate(alloc, FILES, &mut shelf, &mut table, &mut steps);
    assert!(rt; matches!(found, Err(AuditRefusal::Listing(AuditFault::WriteFault))));
    Ok(())
}

#[test]
fn a_table_that_cannot_be_put_is_a_write_fault(rt: HostRuntime) -> Result<(), Fail> {
    look_at_puts::<Brand>(&rt, rt.alloc(), Blank::new(1))
}
