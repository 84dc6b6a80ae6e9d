//! What each member did in each symbol, counted.
ghost use Rattle.std.specs.Prelude.{◌≡◌};

use crate::books::tabulate_day;
use audit_summary::{SummaryRows, SummaryTable};
use io_edge::MemSink;
use std::alloc::Global;
use std::marker::Brand;
use std::process::Abort;
use std::sync::ledger::{Blank, Ledger};
use std::test::Fail;
use venue_words::Steps;

const SUMMARY: &[u8] =
    b"symbol,member,events,accepted,trades,shares,resting_orders,resting_shares,rejected_1_unknown_symbol,rejected_2_used_clordid,rejected_3_quantity,rejected_4_side,rejected_5_order_type,rejected_6_time_in_force,rejected_7_no_price,rejected_8_price,rejected_9_peg_price,rejected_10_peg_move,rejected_11_peg_offset_type,rejected_12_peg_offset,rejected_13_peg_rounding,rejected_14_minimum,rejected_15_minimum_method,rejected_16_unknown_order,rejected_17_other_side,rejected_18_traded_quantity\nACME,FUND,1,1,0,0,1,300,0,0,0,0,0,0,0,0,0,0,0,0,0,0,0,0,0,0\nACME,DESK,1,1,1,100,1,50,0,0,0,0,0,0,0,0,0,0,0,0,0,0,0,0,0,0\nACME,BANK,2,2,1,100,1,100,0,0,0,0,0,0,0,0,0,0,0,0,0,0,0,0,0,0\nACME,*,4,4,1,100,3,450,0,0,0,0,0,0,0,0,0,0,0,0,0,0,0,0,0,0\n";

fn look_at_summary<L: Ledger>(rt: &impl Abort, alloc: Global, blank: Blank) -> Result<(), Fail>
    requires name { blank.name ≡ L.name }
    requires parts { blank.parts ≡ L.parts }
    requires one { blank.parts ≡ 1 }
{
    let mut steps = Steps::<L>::start(blank);
    let rows = SummaryRows::new(alloc);
    let mut table = SummaryTable::new(alloc, rows, MemSink::new(alloc, Vec::new(alloc)))?;
    let tabulated = tabulate_day(alloc, &mut table, &mut steps);
    let out = table.into_out();
    tabulated?;
    assert_eq!(rt; out.bytes(), SUMMARY);
    Ok(())
}

#[test]
fn what_each_member_did_is_counted(rt: HostRuntime) -> Result<(), Fail> {
    look_at_summary::<Brand>(&rt, rt.alloc(), Blank::new(1))
}
