//! The contras that were set aside trade and come back.
ghost use Rattle.std.specs.Prelude.{◌≡◌, ℕ, ◌+◌, ◌*◌, ◌<◌, ◌≤◌, [], ◌∷◌, ◌++◌, length, reverse, filter, nat_lt, vec_len};
ghost use Rattle.std.specs.List.{AllByRecursion};
ghost use Rattle.std.specs.Vec.{vec_capacity};
ghost use Rattle.venue_words.specs.Rows.{IsAbsent};
ghost use Rattle.venue_words.specs.declared.row.Key.{Key};
ghost use Rattle.eager_meaning.specs.Walk.{walk, taken_from};
ghost use Rattle.eager_meaning.specs.Matching.{fills_of, row_after, fill_price, party_of};
ghost use Rattle.peg_groups.specs.Side.{Standing, standing_of, taken_row};
ghost use Rattle.match_core.specs.Aside.{taken_rows, IsAlone, AreOut, PassesAll, finals, put_filled, put_filled_one};

use crate::gathering::{row_of, taken_shares};
use eager_meaning::{Fill, Party};
use limit_tree::fill;
use peg_groups::{SideBook, Taken};
use std::sync::ledger::Ledger;
use venue_words::{Priced, Steps};

/// The price of a trade: that of the older of the two, which crossed and so have one.
#[tactic(auto, unfolding(eager_meaning::specs::Matching::fill_price))]
pub fn fill_price(taker: &Priced, contra: &Priced) -> u32
    ensures { result ≡ fill_price taker.now contra.now }
{
    let older = if taker.is_older(contra) {
        taker
    } else {
        contra
    };
    older.price().unwrap_or(0)
}

/// A row as a party of a trade.
pub fn party_of(x: &Priced) -> Party
    ensures { result ≡ party_of x.now }
{
    Party {
        order: x.row.order,
        price: x.price(),
        time: x.time,
    }
}

/// Shares of a row that is out of its side are traded.
pub fn lower(taken: &mut Taken, shares: u32)
    requires alone { IsAlone taken.old }
    requires within { shares ≤ taken.old.node.value.row.leaves }
    ensures row { taken_row taken.new ≡ row_after shares (taken_row taken.old) }
    ensures alone { IsAlone taken.new }
{
    if 0 < shares {
        fill(&mut taken.node, shares);
    }
}

/// The row after it traded some shares.
pub fn trade(mut taken: Taken, shares: u32) -> Taken
    requires alone { IsAlone taken }
    requires within { shares ≤ taken.node.value.row.leaves }
    ensures row { taken_row result ≡ row_after shares (taken_row taken) }
    ensures alone { IsAlone result }
{
    lower(&mut taken, shares);
    taken
}

/// Adds the trade with a contra, where shares are taken from it.
fn push_fill(t: &Priced, taken: &Taken, shares: u32, fills: &mut Vec<Fill>)
    requires { vec_len fills.old < vec_capacity fills.old }
    ensures items { fills.new.items ≡ fills.old.items ++ fills_of t.now (filter (λ take. nat_lt 0 take.shares)
        (record { contra = taken_row taken.now; shares = shares } ∷ [])) }
    ensures len { vec_len fills.new ≤ vec_len fills.old + 1 }
    ensures capacity { vec_capacity fills.new ≡ vec_capacity fills.old }
{
    if 0 < shares {
        let contra = row_of(taken);
        fills.push_reserved(Fill {
            taker: party_of(t),
            contra: party_of(&contra),
            quantity: shares,
            price: fill_price(t, &contra),
        });
    }
}

/// Puts a row back, where it has shares left.
pub fn put_filled_back<S: SideBook, L: Ledger>(taken: Taken, other: &mut S, steps: &mut Steps<L>)
    requires alone { IsAlone taken }
    requires absent { IsAbsent taken.node.value.row.entry (S.state other.old).rows }
    requires fits { S.fits other.old (standing_of (taken_row taken)) }
    ensures put { (S.state other.new).rows ≡ put_filled_one (taken_row taken) (S.state other.old).rows }
    ensures best { (S.state other.new).best ≡ (S.state other.old).best }
    ensures event { (S.state other.new).event ≡ (S.state other.old).event }
    ensures fits { (standing : Standing) → S.fits other.old standing → S.fits other.new standing }
    ensures rows { (key : Key) → S.row_room other.old key → S.row_room other.new key }
    ensures moves { S.move_room other.old → S.move_room other.new }
    ensures width { S.width other.new ≡ S.width other.old }
    ensures most { steps.new ≤ steps.old + 512 }
{
    let row = taken.node.row;
    if 0 < row.leaves {
        other.put_back(taken, steps);
    }
}

/// The rows set aside come back as they are, the last one first.
pub fn give_back<S: SideBook, L: Ledger>(
    other: &mut S,
    aside: &mut Vec<Taken>,
    steps: &mut Steps<L>,
)
    requires out { AreOut (taken_rows (reverse aside.old.items)) (S.state other.old).rows }
    requires alone { AllByRecursion IsAlone (reverse aside.old.items) }
    requires out_fit { AllByRecursion (λ taken. S.fits other.old (standing_of (taken_row taken)))
        (reverse aside.old.items) }
    ensures put { (S.state other.new).rows ≡ put_filled (taken_rows (reverse aside.old.items)) (S.state other.old).rows }
    ensures empty { aside.new.items ≡ [] }
    ensures best { (S.state other.new).best ≡ (S.state other.old).best }
    ensures event { (S.state other.new).event ≡ (S.state other.old).event }
    ensures fits { (standing : Standing) → S.fits other.old standing → S.fits other.new standing }
    ensures rows { (key : Key) → S.row_room other.old key → S.row_room other.new key }
    ensures moves { S.move_room other.old → S.move_room other.new }
    ensures width { S.width other.new ≡ S.width other.old }
    ensures capacity { vec_capacity aside.new ≡ vec_capacity aside.old }
    ensures most { steps.new ≤ steps.old + 512 * length (reverse aside.old.items) }
{
    while let Some(taken) = aside.pop() {
        put_filled_back(taken, other, steps);
    }
}

/// The rows set aside trade and come back, the last one first.
pub fn settle<S: SideBook, L: Ledger>(
    t: &Priced,
    other: &mut S,
    aside: &mut Vec<Taken>,
    fills: &mut Vec<Fill>,
    steps: &mut Steps<L>,
)
    requires out { AreOut (taken_rows (reverse aside.old.items)) (S.state other.old).rows }
    requires passes { (rest : ℕ) × PassesAll t.now t.now.row.leaves (taken_rows (reverse aside.old.items)) rest }
    requires alone { AllByRecursion IsAlone (reverse aside.old.items) }
    requires out_fit { AllByRecursion (λ taken. S.fits other.old (standing_of (taken_row taken)))
        (reverse aside.old.items) }
    requires room { vec_len fills.old + length (reverse aside.old.items) ≤ vec_capacity fills.old }
    ensures put { (S.state other.new).rows
        ≡ put_filled (finals t.now t.now.row.leaves (taken_rows (reverse aside.old.items))) (S.state other.old).rows }
    ensures filled { fills.new.items ≡ fills.old.items ++ fills_of t.now (filter (λ take. nat_lt 0 take.shares)
        (walk t.now t.now.row.leaves (taken_rows (reverse aside.old.items)))) }
    ensures empty { aside.new.items ≡ [] }
    ensures best { (S.state other.new).best ≡ (S.state other.old).best }
    ensures event { (S.state other.new).event ≡ (S.state other.old).event }
    ensures fits { (standing : Standing) → S.fits other.old standing → S.fits other.new standing }
    ensures rows { (key : Key) → S.row_room other.old key → S.row_room other.new key }
    ensures moves { S.move_room other.old → S.move_room other.new }
    ensures width { S.width other.new ≡ S.width other.old }
    ensures capacity { vec_capacity aside.new ≡ vec_capacity aside.old }
    ensures fills_capacity { vec_capacity fills.new ≡ vec_capacity fills.old }
    ensures most { steps.new ≤ steps.old + 512 * length (reverse aside.old.items) }
{
    let mut left = t.row.leaves;
    while let Some(taken) = aside.pop() {
        let shares = taken_shares(&t.row, left, &taken);
        push_fill(t, &taken, shares, fills);
        put_filled_back(trade(taken, shares), other, steps);
        left -= shares;
    }
}
