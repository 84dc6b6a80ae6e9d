//! Room for one event is made on both sides.
ghost use Rattle.std.specs.Prelude.{◌≡◌, ◌+◌, ◌≤◌, IsSome, IsNone, IfSome, OnOk};
ghost use Rattle.std.specs.Option.{ForSome};
ghost use Rattle.venue_words.specs.Conditions.{IsKey};
ghost use Rattle.peg_groups.specs.KeyCount.{key_count};
ghost use Rattle.match_core.specs.SidesView.{OnSide};

use crate::narrow::NarrowSide;
use limit_tree::{Node, leaf};
use peg_groups::SideBook;
use std::alloc::Global;
use std::sync::ledger::{Blank, Ledger};
use venue_words::{Key, Method, NoMemory, Row, Side, Steps};

/// Drops what no row needs on both sides, with a count of steps of its own.
pub fn narrow_both<S: NarrowSide, L: Ledger>(buys: &mut S, sells: &mut S, blank: Blank)
    requires name { blank.name ≡ L.name }
    requires parts { blank.parts ≡ L.parts }
    requires one { blank.parts ≡ 1 }
    ensures buys { S.state buys.new ≡ S.state buys.old }
    ensures sells { S.state sells.new ≡ S.state sells.old }
    ensures buys_width { S.width buys.new ≡ key_count (S.state buys.old).rows }
    ensures sells_width { S.width sells.new ≡ key_count (S.state sells.old).rows }
{
    let mut steps = Steps::<L>::start(blank);
    buys.narrow(&mut steps);
    sells.narrow(&mut steps);
}

/// Makes room for one event on both sides.
pub fn reserve_both<S: SideBook>(
    buys: &mut S,
    sells: &mut S,
    key: Option<Key>,
) -> Result<(), NoMemory>
    requires key { ForSome key IsKey }
    ensures buys { S.state buys.new ≡ S.state buys.old }
    ensures sells { S.state sells.new ≡ S.state sells.old }
    ensures rows { OnOk result (IfSome key (λ k. OnSide k.side (S.row_room buys.new k) (S.row_room sells.new k))) }
    ensures buys_moves { OnOk result (S.move_room buys.new) }
    ensures sells_moves { OnOk result (S.move_room sells.new) }
    ensures width { S.width buys.new + S.width sells.new ≤ S.width buys.old + S.width sells.old + 1 }
    ensures no_key { IsNone key → S.width buys.new + S.width sells.new ≡ S.width buys.old + S.width sells.old }
{
    match key {
        None => {
            buys.reserve(None)?;
            sells.reserve(None)
        }
        Some(key) => match key.side {
            Side::Buy => {
                buys.reserve(Some(key))?;
                sells.reserve(None)
            }
            Side::Sell => {
                buys.reserve(None)?;
                sells.reserve(Some(key))
            }
        },
    }
}

/// Makes a node for a row that enters.
pub fn make_spare(spare: &mut Option<Box<Node>>, alloc: Global, key: Key) -> Result<(), NoMemory>
    ensures { OnOk result (IsSome spare.new) }
{
    if spare.is_some() {
        return Ok(());
    }
    let row = Row {
        order: 0,
        member: 0,
        key,
        cap: 0,
        entry: 0,
        leaves: 0,
        minimum: 0,
        method: Method::Once,
        traded: false,
    };
    *spare = Some(Box::new(alloc, leaf(row))?);
    Ok(())
}
