//! A row enters a book: it walks once, and what is left of it rests.
ghost use Rattle.std.specs.Prelude.{◌≡◌, ℕ, ◌+◌, ◌-◌, ◌*◌, ◌<◌, ◌≤◌, ◌++◌, ◌∷◌, [], nat_lt, length, IsSome, if◌then◌else◌};
ghost use Rattle.std.specs.List.{AllByRecursion};
ghost use Rattle.venue_words.specs.declared.price.Best.{Best};
ghost use Rattle.limit_tree.specs.Part.{IsLeaf};
ghost use Rattle.venue_words.specs.Conditions.{IsRow, IsTick};
ghost use Rattle.eager_meaning.specs.Entering.{entered};
ghost use Rattle.eager_meaning.specs.Matching.{row_after, unfilled, takes_of};
ghost use Rattle.eager_meaning.specs.Walk.{total_of};
ghost use Rattle.eager_meaning.specs.Work.{examined_by};
ghost use Rattle.peg_groups.specs.Side.{IsLaterThan, priced_at};
ghost use Rattle.match_core.specs.Aside.{HasLeaves};
ghost use Rattle.match_core.specs.BothSides.{own_of, others_of, entered_rows};
ghost use Rattle.match_core.specs.Rooms.{IsClear, IsReady};
ghost use Rattle.match_core.specs.SidesView.{OnSide, AreSides};

use crate::scratch::Scratch;
use crate::walking::walk_in;
use limit_tree::{Node, leaf};
use peg_groups::SideBook;
use peg_price::{peg_value, row_value};
use std::sync::ledger::Ledger;
use venue_words::{Best, Priced, Row, Side, Steps};

/// A row priced by a quote, with its entry as its time.
#[tactic(auto, unfolding(venue_words::specs::Peg::value_under))]
pub fn price_at(row: Row, quote: Best) -> Priced
    requires { IsTick row.key.grid }
    ensures { result ≡ priced_at quote row }
{
    Priced {
        row,
        value: row_value(peg_value(row.key, quote), row.cap),
        time: row.entry,
    }
}

/// The row after it traded some shares.
#[tactic(auto, unfolding(eager_meaning::specs::Matching::row_after, venue_words::specs::Peg::value_under))]
fn after(row: Row, shares: u32) -> Row
    requires within { shares ≤ row.leaves }
    ensures leaves { result.leaves ≡ row.leaves - shares }
    ensures row { (quote : Best) → priced_at quote result ≡ row_after shares (priced_at quote row) }
    ensures key { result.key ≡ row.key }
    ensures cap { result.cap ≡ row.cap }
    ensures entry { result.entry ≡ row.entry }
{
    Row {
        leaves: row.leaves - shares,
        traded: row.traded || 0 < shares,
        ..row
    }
}

/// A spare node with another row.
pub fn node_of(mut node: Box<Node>, row: Row) -> Box<Node>
    ensures row { result.value.row ≡ row }
    ensures alone { IsLeaf result.value }
{
    *node = leaf(row);
    node
}

/// A row rests with its entry as its time, where it has shares left.
fn put_left<S: SideBook, L: Ledger>(
    own: &mut S,
    spare: &mut Option<Box<Node>>,
    row: Row,
    steps: &mut Steps<L>,
)
    requires row { IsRow row }
    requires spare { IsSome spare.old }
    requires room { S.row_room own.old row.key }
    requires later { IsLaterThan (S.state own.old) row.entry }
    requires last { AllByRecursion (λ x. x.row.entry < row.entry) (S.state own.old).rows }
    ensures own { (S.state own.new).rows
        ≡ (S.state own.old).rows ++ unfilled (priced_at (S.state own.old).best row ∷ []) }
    ensures best { (S.state own.new).best ≡ (S.state own.old).best }
    ensures event { (S.state own.new).event ≡ (S.state own.old).event }
    ensures width { S.width own.new ≡ S.width own.old }
    ensures most { steps.new ≤ steps.old + 512 }
{
    if row.leaves == 0 {
        return;
    }
    match spare.take() {
        None => unreachable!(),
        Some(node) => own.put(node_of(node, row), steps),
    }
}

/// What is left of a row that traded some shares rests, unless the order is immediate.
fn rest<S: SideBook, L: Ledger>(
    own: &mut S,
    spare: &mut Option<Box<Node>>,
    row: Row,
    shares: u32,
    immediate: bool,
    steps: &mut Steps<L>,
)
    requires row { IsRow row }
    requires within { shares ≤ row.leaves }
    requires spare { IsSome spare.old }
    requires room { S.row_room own.old row.key }
    requires later { IsLaterThan (S.state own.old) row.entry }
    requires last { AllByRecursion (λ x. x.row.entry < row.entry) (S.state own.old).rows }
    ensures own { (S.state own.new).rows ≡ (if immediate then (S.state own.old).rows
        else (S.state own.old).rows ++ unfilled (row_after shares (priced_at (S.state own.old).best row) ∷ [])) }
    ensures best { (S.state own.new).best ≡ (S.state own.old).best }
    ensures event { (S.state own.new).event ≡ (S.state own.old).event }
    ensures width { S.width own.new ≡ S.width own.old }
    ensures most { steps.new ≤ steps.old + 512 }
{
    if immediate {
        return;
    }
    put_left(own, spare, after(row, shares), steps);
}

/// A row that enters, the quote that prices it, and whether it stays only to trade at once.
#[derive(Clone, Copy)]
pub struct Entering {
    pub row: Row,
    pub quote: Best,
    pub immediate: bool,
}

/// A row enters its own side, after it walked through the other one. Answers whether shares are left of it.
pub fn enter_row<S: SideBook, L: Ledger>(
    own: &mut S,
    other: &mut S,
    scratch: &mut Scratch,
    spare: &mut Option<Box<Node>>,
    enters: Entering,
    steps: &mut Steps<L>,
) -> bool
    requires row { IsRow enters.row × (0 < enters.row.leaves) }
    requires quote { (S.state own.old).best ≡ enters.quote }
    requires others_full { AllByRecursion HasLeaves (S.state other.old).rows }
    requires scratch { IsClear scratch.old
        × IsReady (length (S.state own.old).rows + length (S.state other.old).rows) scratch.old }
    requires spare { IsSome spare.old }
    requires room { S.row_room own.old enters.row.key }
    requires later { IsLaterThan (S.state own.old) enters.row.entry }
    requires last { AllByRecursion (λ x. x.row.entry < enters.row.entry) (S.state own.old).rows }
    ensures own { (S.state own.new).rows
        ≡ (entered (priced_at enters.quote enters.row) enters.immediate (S.state own.old).rows
        (S.state other.old).rows).own }
    ensures others { (S.state other.new).rows
        ≡ (entered (priced_at enters.quote enters.row) enters.immediate (S.state own.old).rows
        (S.state other.old).rows).others }
    ensures fills { scratch.new.fills.items
        ≡ (entered (priced_at enters.quote enters.row) enters.immediate (S.state own.old).rows
        (S.state other.old).rows).fills }
    ensures left { result ≡ nat_lt 0 (enters.row.leaves
        - total_of (takes_of (priced_at enters.quote enters.row) (S.state other.old).rows)) }
    ensures few { length scratch.new.fills.items + (length (S.state own.new).rows + length (S.state other.new).rows)
        ≤ length (S.state own.old).rows + length (S.state other.old).rows + 1 }
    ensures clear { IsClear scratch.new }
    ensures best { (S.state own.new).best ≡ (S.state own.old).best }
    ensures event { (S.state own.new).event ≡ (S.state own.old).event }
    ensures width { S.width own.new ≡ S.width own.old }
    ensures other_best { (S.state other.new).best ≡ (S.state other.old).best }
    ensures other_event { (S.state other.new).event ≡ (S.state other.old).event }
    ensures other_width { S.width other.new ≡ S.width other.old }
    ensures most { steps.new ≤ steps.old + 1536 * (S.width other.old + 1)
        * examined_by (priced_at enters.quote enters.row) (S.state other.old).rows + 512 }
{
    let taker = price_at(enters.row, enters.quote);
    let walked = walk_in(&taker, other, &mut scratch.aside, &mut scratch.fills, steps);
    rest(
        own,
        spare,
        enters.row,
        walked.shares,
        enters.immediate,
        steps,
    );
    walked.shares < enters.row.leaves
}

/// A row enters its side of a book.
pub fn enter_on<S: SideBook, L: Ledger>(
    buys: &mut S,
    sells: &mut S,
    scratch: &mut Scratch,
    spare: &mut Option<Box<Node>>,
    enters: Entering,
    steps: &mut Steps<L>,
) -> bool
    requires row { IsRow enters.row × (0 < enters.row.leaves) }
    requires sides { (latest : ℕ) × AreSides enters.quote latest (S.state buys.old) (S.state sells.old)
        × (latest < enters.row.entry) }
    requires clear { IsClear scratch.old }
    requires ready { IsReady (length (S.state buys.old).rows + length (S.state sells.old).rows) scratch.old }
    requires spare { IsSome spare.old }
    requires room { OnSide enters.row.key.side (S.row_room buys.old enters.row.key) (S.row_room sells.old enters.row.key) }
    ensures buys { (S.state buys.new).rows ≡ own_of enters.row.key.side
        (entered_rows enters.quote enters.row enters.immediate (S.state buys.old).rows (S.state sells.old).rows).own
        (entered_rows enters.quote enters.row enters.immediate (S.state buys.old).rows (S.state sells.old).rows).others }
    ensures sells { (S.state sells.new).rows ≡ others_of enters.row.key.side
        (entered_rows enters.quote enters.row enters.immediate (S.state buys.old).rows (S.state sells.old).rows).own
        (entered_rows enters.quote enters.row enters.immediate (S.state buys.old).rows (S.state sells.old).rows).others }
    ensures fills { scratch.new.fills.items
        ≡ (entered_rows enters.quote enters.row enters.immediate (S.state buys.old).rows (S.state sells.old).rows).fills }
    ensures left { result ≡ nat_lt 0 (enters.row.leaves - total_of (takes_of (priced_at enters.quote enters.row)
        (others_of enters.row.key.side (S.state buys.old).rows (S.state sells.old).rows))) }
    ensures few { length scratch.new.fills.items + (length (S.state buys.new).rows + length (S.state sells.new).rows)
        ≤ length (S.state buys.old).rows + length (S.state sells.old).rows + 1 }
    ensures sides { AreSides enters.quote enters.row.entry (S.state buys.new) (S.state sells.new) }
    ensures clear { IsClear scratch.new }
    ensures most { steps.new ≤ steps.old + 2048 * (S.width buys.old + S.width sells.old + 1) * (examined_by
        (priced_at enters.quote enters.row)
        (others_of enters.row.key.side (S.state buys.old).rows (S.state sells.old).rows) + 1) }
{
    match enters.row.key.side {
        Side::Buy => enter_row(buys, sells, scratch, spare, enters, steps),
        Side::Sell => enter_row(sells, buys, scratch, spare, enters, steps),
    }
}
