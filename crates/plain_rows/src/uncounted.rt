//! Any side of a book as one of which a book can be made, however many steps its calls take.
ghost use Rattle.std.specs.Prelude.{◌≡◌, ℕ, ◌+◌, ◌≤◌, length, IfSome, IsNone, MatchOption};
ghost use Rattle.limit_tree.specs.Part.{IsLeaf};
ghost use Rattle.venue_words.specs.Conditions.{IsRow};
ghost use Rattle.venue_words.specs.FirstRow.{IsFirst, NoneActive};
ghost use Rattle.venue_words.specs.Retime.{reprice};
ghost use Rattle.venue_words.specs.Rows.{IsAbsent, IsByEntry};
ghost use Rattle.venue_words.specs.declared.row.Key.{Key};
ghost use Rattle.venue_words.specs.declared.row.Priced.{Priced};
ghost use Rattle.peg_groups.specs.BestValue.{best_value};
ghost use Rattle.peg_groups.specs.Side.{Standing, IsLaterThan, IsCut, IsHeldAt, NoneAt};
ghost use Rattle.peg_groups.specs.Side.{priced_at, standing_of, taken_row, with_row, without};

use limit_tree::Node;
use match_core::NarrowSide;
use peg_groups::{SideBook, Taken};
use std::marker::Brand;
use std::sync::ledger::{Blank, Ledger};
use venue_words::{Best, Key, NoMemory, Steps};

/// Any side, as one of which a book can be made. Its rows, values and times are those of the side that it hands each call on
/// to, with a count of steps of that call's own; it ticks once itself, but not where it tells the best value. Its width is a
/// number beside the side: one more for each key that room was made for, and the number of keys once it was narrowed.
#[derive(Drop)]
pub struct Uncounted<S: SideBook + Drop> {
    side: S,
    width: usize,
}

impl<S: SideBook + Drop> Uncounted<S> {
    pub fn new(side: S) -> Uncounted<S>
        ensures { result.side ≡ side }
    {
        Uncounted { side, width: 0 }
    }
}

/// Enters a row, with a count of its own.
fn put_apart<S: SideBook, L: Ledger>(side: &mut S, node: Box<Node>, blank: Blank)
    requires name { blank.name ≡ L.name }
    requires parts { blank.parts ≡ L.parts }
    requires one { blank.parts ≡ 1 }
    requires row { IsRow node.value.row }
    requires alone { IsLeaf node.value }
    requires room { S.row_room side.old node.value.row.key }
    requires later { IsLaterThan (S.state side.old) node.value.row.entry }
    ensures state { S.state side.new ≡ with_row (priced_at (S.state side.old).best node.value.row) (S.state side.old) }
    ensures fits { (standing : Standing) → S.fits side.old standing → S.fits side.new standing }
    ensures moves { S.move_room side.old → S.move_room side.new }
{
    let mut steps = Steps::<L>::start(blank);
    side.put(node, &mut steps);
}

/// Puts a row back, with a count of its own.
fn put_back_apart<S: SideBook, L: Ledger>(side: &mut S, taken: Taken, blank: Blank)
    requires name { blank.name ≡ L.name }
    requires parts { blank.parts ≡ L.parts }
    requires one { blank.parts ≡ 1 }
    requires alone { IsLeaf taken.node.value }
    requires absent { IsAbsent taken.node.value.row.entry (S.state side.old).rows }
    requires fits { S.fits side.old (standing_of (taken_row taken)) }
    ensures state { S.state side.new ≡ with_row (taken_row taken) (S.state side.old) }
    ensures fits { (standing : Standing) → S.fits side.old standing → S.fits side.new standing }
    ensures rows { (key : Key) → S.row_room side.old key → S.row_room side.new key }
    ensures moves { S.move_room side.old → S.move_room side.new }
{
    let mut steps = Steps::<L>::start(blank);
    side.put_back(taken, &mut steps);
}

/// Takes the row of a key, a cap and an entry out, with a count of its own.
fn cut_apart<S: SideBook, L: Ledger>(
    side: &mut S,
    key: Key,
    cap: u32,
    entry: u32,
    blank: Blank,
) -> Option<Box<Node>>
    requires name { blank.name ≡ L.name }
    requires parts { blank.parts ≡ L.parts }
    requires one { blank.parts ≡ 1 }
    ensures by_entry { IsByEntry (S.state side.old).rows }
    ensures found { MatchOption result (S.state side.new ≡ S.state side.old)
        (λ node. IsCut key cap entry (S.state side.old) (S.state side.new) node.value.row) }
    ensures none { IsNone result → NoneAt key cap entry (S.state side.old).rows }
    ensures alone { IfSome result (λ node. IsLeaf node.value) }
    ensures cut_fits { IfSome result (λ _. (row : Priced) → IsHeldAt key cap entry (S.state side.old).rows row
        → S.fits side.new (standing_of row)) }
    ensures fits { (standing : Standing) → S.fits side.old standing → S.fits side.new standing }
    ensures rows { (key : Key) → S.row_room side.old key → S.row_room side.new key }
    ensures moves { S.move_room side.old → S.move_room side.new }
{
    let mut steps = Steps::<L>::start(blank);
    side.cut(key, cap, entry, &mut steps)
}

/// The greatest value of a row, with a count of its own.
fn best_apart<S: SideBook, L: Ledger>(side: &S, blank: Blank) -> Option<u32>
    requires name { blank.name ≡ L.name }
    requires parts { blank.parts ≡ L.parts }
    requires one { blank.parts ≡ 1 }
    ensures by_entry { IsByEntry (S.state side.now).rows }
    ensures value { result ≡ best_value (S.state side.now).rows }
{
    let mut steps = Steps::<L>::start(blank);
    side.best_value(&mut steps)
}

/// Takes the first active row out, with a count of its own.
fn take_apart<S: SideBook, L: Ledger>(side: &mut S, blank: Blank) -> Option<Taken>
    requires name { blank.name ≡ L.name }
    requires parts { blank.parts ≡ L.parts }
    requires one { blank.parts ≡ 1 }
    ensures by_entry { IsByEntry (S.state side.old).rows }
    ensures none { IsNone result → NoneActive (S.state side.old).rows }
    ensures same { IsNone result → S.state side.new ≡ S.state side.old }
    ensures best { IfSome result (λ taken. IsFirst (S.state side.old).rows (taken_row taken)) }
    ensures state { IfSome result (λ taken. S.state side.new
        ≡ without taken.node.value.row.entry (S.state side.old)) }
    ensures alone { IfSome result (λ taken. IsLeaf taken.node.value) }
    ensures taken_fits { IfSome result (λ taken. S.fits side.new (standing_of (taken_row taken))) }
    ensures fits { (standing : Standing) → S.fits side.old standing → S.fits side.new standing }
    ensures rows { (key : Key) → S.row_room side.old key → S.row_room side.new key }
    ensures moves { S.move_room side.old → S.move_room side.new }
{
    let mut steps = Steps::<L>::start(blank);
    side.take_best(&mut steps)
}

/// The value and the time of a row, with a count of its own.
fn priced_apart<S: SideBook, L: Ledger>(
    side: &S,
    key: Key,
    cap: u32,
    entry: u32,
    blank: Blank,
) -> Option<(Option<u32>, u32)>
    requires name { blank.name ≡ L.name }
    requires parts { blank.parts ≡ L.parts }
    requires one { blank.parts ≡ 1 }
    ensures { MatchOption result (NoneAt key cap entry (S.state side.now).rows) (λ pair. (row : Priced)
        × IsHeldAt key cap entry (S.state side.now).rows row × (row.value ≡ pair.0) × (row.time ≡ pair.1)) }
{
    let mut steps = Steps::<L>::start(blank);
    side.priced(key, cap, entry, &mut steps)
}

/// Prices every row, with a count of its own.
fn reprice_apart<S: SideBook, L: Ledger>(side: &mut S, event: u32, best: Best, blank: Blank)
    requires name { blank.name ≡ L.name }
    requires parts { blank.parts ≡ L.parts }
    requires one { blank.parts ≡ 1 }
    requires room { S.move_room side.old }
    requires later { IsLaterThan (S.state side.old) event }
    ensures state { S.state side.new
        ≡ record { rows = reprice event best (S.state side.old).rows; best = best; event = event } }
    ensures rows { (key : Key) → S.row_room side.old key → S.row_room side.new key }
{
    let mut steps = Steps::<L>::start(blank);
    side.reprice(event, best, &mut steps);
}

/// Drops what no row needs, with a count of its own.
fn tidy_apart<S: SideBook, L: Ledger>(side: &mut S, blank: Blank)
    requires name { blank.name ≡ L.name }
    requires parts { blank.parts ≡ L.parts }
    requires one { blank.parts ≡ 1 }
    ensures { S.state side.new ≡ S.state side.old }
{
    let mut steps = Steps::<L>::start(blank);
    side.tidy(&mut steps);
}

/// One more for a key that is given.
fn wider(width: usize, key: Option<Key>) -> usize
    ensures most { result ≤ width + 1 }
    ensures no_key { IsNone key → result ≡ width }
{
    if key.is_some() {
        width.saturating_add(1)
    } else {
        width
    }
}

impl<S: SideBook + Drop> SideBook for Uncounted<S> {
    ghost state = { λ s. S.state s.side };

    ghost width = { λ s. s.width };

    ghost visits = { λ _. 0 };

    ghost fits = { λ s standing. S.fits s.side standing };

    ghost row_room = { λ s key. S.row_room s.side key };

    ghost move_room = { λ s. S.move_room s.side };

    fn len(&self) -> usize {
        self.side.len()
    }

    fn groups(&self) -> usize {
        self.side.groups()
    }

    fn reserve(&mut self, key: Option<Key>) -> Result<(), NoMemory> {
        self.side.reserve(key)?;
        self.width = wider(self.width, key);
        Ok(())
    }

    fn put<L: Ledger>(&mut self, node: Box<Node>, steps: &mut Steps<L>) {
        steps.tick();
        put_apart::<S, Brand>(&mut self.side, node, Blank::new(1));
    }

    fn put_back<L: Ledger>(&mut self, taken: Taken, steps: &mut Steps<L>) {
        steps.tick();
        put_back_apart::<S, Brand>(&mut self.side, taken, Blank::new(1));
    }

    fn cut<L: Ledger>(
        &mut self,
        key: Key,
        cap: u32,
        entry: u32,
        steps: &mut Steps<L>,
    ) -> Option<Box<Node>> {
        steps.tick();
        cut_apart::<S, Brand>(&mut self.side, key, cap, entry, Blank::new(1))
    }

    fn best_value<L: Ledger>(&self, _steps: &mut Steps<L>) -> Option<u32> {
        best_apart::<S, Brand>(&self.side, Blank::new(1))
    }

    fn take_best<L: Ledger>(&mut self, steps: &mut Steps<L>) -> Option<Taken> {
        steps.tick();
        take_apart::<S, Brand>(&mut self.side, Blank::new(1))
    }

    fn priced<L: Ledger>(
        &self,
        key: Key,
        cap: u32,
        entry: u32,
        steps: &mut Steps<L>,
    ) -> Option<(Option<u32>, u32)> {
        steps.tick();
        priced_apart::<S, Brand>(&self.side, key, cap, entry, Blank::new(1))
    }

    fn reprice<L: Ledger>(&mut self, event: u32, best: Best, steps: &mut Steps<L>) {
        steps.tick();
        reprice_apart::<S, Brand>(&mut self.side, event, best, Blank::new(1));
    }

    fn tidy<L: Ledger>(&mut self, steps: &mut Steps<L>) {
        steps.tick();
        tidy_apart::<S, Brand>(&mut self.side, Blank::new(1));
    }
}

impl<S: SideBook + Drop> NarrowSide for Uncounted<S> {
    fn narrow<L: Ledger>(&mut self, steps: &mut Steps<L>) {
        steps.tick();
        tidy_apart::<S, Brand>(&mut self.side, Blank::new(1));
        self.width = self.side.groups();
    }
}
