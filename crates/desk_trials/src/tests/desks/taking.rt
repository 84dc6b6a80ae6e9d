//! How a desk is taken and given back.
ghost use Rattle.std.specs.Prelude.{◌≡◌, ◌<◌, IfOk};

use super::config_of;
use member_gate::{CellDesks, DeskCell, DeskTable, Desks, desks_of};
use std::alloc::Global;
use std::sync::Wait;
use std::test::Fail;
use venue_words::NoMemory;

/// Takes a member's desk and lets it go: whether it was there.
fn is_there<D: Desks>(desks: &mut D, member: u32) -> bool
    requires { member < D.members desks.old }
    ensures { D.members desks.new ≡ D.members desks.old }
{
    let desk = desks.take(member);
    let is_some = desk.is_some();
    drop(desk);
    is_some
}

/// Takes a member's desk twice, gives it back and takes it again: whether it was there each time.
fn take_twice<D: Desks>(desks: &mut D, member: u32) -> (bool, bool, bool)
    requires { member < D.members desks.old }
    ensures { D.members desks.new ≡ D.members desks.old }
{
    let first = desks.take(member);
    let there = first.is_some();
    let again = is_there(desks, member);
    if let Some(desk) = first {
        desks.give(member, desk);
    }
    (there, again, is_there(desks, member))
}

/// Threads may share it.
fn share<T: Sync>(_shared: &T) {}

/// A table of the desks of both members.
fn table_of(alloc: Global) -> Result<DeskTable, NoMemory>
    ensures { IfOk result (λ table. ⟦<DeskTable as Desks>⟧.members table ≡ 2) }
{
    let config = config_of(alloc)?;
    let desks = desks_of(alloc, &config);
    drop(config);
    Ok(DeskTable::new(alloc, desks?)?)
}

/// Two takes of a desk in a table, and of one in a cell; and how many refusals the cell's desks counted.
fn takes(
    rt: &impl Wait,
    alloc: Global,
) -> Result<((bool, bool, bool), (bool, bool, bool), u64), NoMemory> {
    let mut table = table_of(alloc)?;
    let from_table = take_twice(&mut table, 0);
    let cell = DeskCell::new(table);
    share(&cell);
    let mut desks = CellDesks {
        rt,
        cell: &cell,
        refused: 0,
    };
    let from_cell = take_twice(&mut desks, 1);
    let refused = desks.refused;
    drop(desks);
    drop(cell);
    Ok((from_table, from_cell, refused))
}

#[test]
fn a_desk_is_taken_once(rt: HostRuntime) -> Result<(), Fail> {
    let (from_table, from_cell, refused) = takes(&rt, rt.alloc())?;
    assert_eq!(rt; from_table, (true, false, true));
    assert_eq!(rt; from_cell, (true, false, true));
    assert_eq!(rt; refused, 1);
    Ok(())
}
