//! What one side of a book is, however it keeps its rows.
ghost use Rattle.std.specs.Prelude.{◌≡◌, ℕ, ◌+◌, ◌*◌, ◌<◌, ◌≤◌, length, IfSome, IsNone, OnOk, OnErr, MatchOption};
ghost use Rattle.std.specs.Option.{ForSome};
ghost use Rattle.limit_tree.specs.Part.{IsLeaf};
ghost use Rattle.venue_words.specs.Conditions.{IsKey, IsRow};
ghost use Rattle.venue_words.specs.FirstRow.{IsFirst, NoneActive};
ghost use Rattle.venue_words.specs.Retime.{reprice};
ghost use Rattle.venue_words.specs.Rows.{IsAbsent, IsByEntry};
ghost use Rattle.venue_words.specs.declared.row.Key.{Key};
ghost use Rattle.venue_words.specs.declared.row.Priced.{Priced};
ghost use Rattle.peg_groups.specs.BestValue.{best_value};
ghost use Rattle.peg_groups.specs.KeyCount.{key_count};
ghost use Rattle.peg_groups.specs.Side.{SideState, Standing, IsLaterThan, IsCut, IsHeldAt, NoneAt, priced_at, standing_of, taken_row, with_row, without};

use limit_tree::Node;
use std::sync::ledger::Ledger;
use venue_words::{Best, Key, NoMemory, Steps};

/// A row that was taken out of its side, with the value and the time that it has. The value is in units
/// of 0.005, and none while the row is inactive; the time is the number of an event.
#[derive(Drop)]
pub struct Taken {
    pub node: Box<Node>,
    pub value: Option<u32>,
    pub time: u32,
}

/// One side of a book: resting rows, each with a value and a time under the last quote. It is seen as the
/// list of its rows in order of entry, so a row that is taken out and put back stands where it stood.
/// Only `reserve` takes memory.
pub trait SideBook {
    /// The rows with values and times, the quote of the last pricing, and its event.
    ghost state: { Self → SideState };

    /// How wide the side is: how many things a call that goes over it may visit.
    ghost width: { Self → ℕ };

    /// How many visits a pricing takes, and a look at the best value.
    ghost visits: { Self → ℕ };

    /// Which rows that are out of the side can be put back.
    ghost fits: { Self → Standing → Type 0 };

    /// That a row of a key can enter without memory.
    ghost row_room: { Self → Key → Type 0 };

    /// That a pricing can be done without memory.
    ghost move_room: { Self → Type 0 };

    /// The number of rows.
    fn len(&self) -> usize
        ensures { result ≡ length (state self.now).rows };

    /// The number of different keys of the rows.
    fn groups(&self) -> usize
        ensures { result ≡ key_count (state self.now).rows };

    /// Makes room for one row of the key, where one is given, and for one pricing. A refusal leaves the rows
    /// and all room that there was.
    fn reserve(&mut self, key: Option<Key>) -> Result<(), NoMemory>
        requires key { ForSome key IsKey }

        // What stays.
        ensures by_entry { IsByEntry (state self.old).rows }
        ensures state { state self.new ≡ state self.old }
        ensures fits { (standing : Standing) → fits self.old standing → fits self.new standing }
        ensures rows_kept { (k : Key) → row_room self.old k → row_room self.new k }
        ensures moves_kept { move_room self.old → move_room self.new }

        // The room that is there afterwards.
        ensures rows { OnOk result (IfSome key (row_room self.new)) }
        ensures moves { OnOk result (move_room self.new) }

        // The side is one wider at most, and no wider with no key or after a refusal.
        ensures width { width self.new ≤ width self.old + 1 }
        ensures no_key { IsNone key → width self.new ≡ width self.old }
        ensures err { OnErr result (width self.new ≡ width self.old) };

    /// Enters a row at the present quote, with its entry as time.
    fn put<L: Ledger>(&mut self, node: Box<Node>, steps: &mut Steps<L>)
        requires row { IsRow node.value.row }
        requires alone { IsLeaf node.value }
        requires room { row_room self.old node.value.row.key }
        requires later { IsLaterThan (state self.old) node.value.row.entry }

        ensures state { state self.new ≡ with_row (priced_at (state self.old).best node.value.row) (state self.old) }
        ensures fits { (standing : Standing) → fits self.old standing → fits self.new standing }
        ensures moves { move_room self.old → move_room self.new }
        ensures width { width self.new ≡ width self.old }
        ensures ticks { steps.old + 1 ≤ steps.new }
        ensures most { steps.new ≤ steps.old + 512 };

    /// Puts a row back that was taken out, with the value and the time that it had. Its leaves and whether it
    /// has traded may differ from then.
    fn put_back<L: Ledger>(&mut self, taken: Taken, steps: &mut Steps<L>)
        requires alone { IsLeaf taken.node.value }
        requires absent { IsAbsent taken.node.value.row.entry (state self.old).rows }
        requires fits { fits self.old (standing_of (taken_row taken)) }

        ensures state { state self.new ≡ with_row (taken_row taken) (state self.old) }
        ensures fits { (standing : Standing) → fits self.old standing → fits self.new standing }
        ensures rows { (key : Key) → row_room self.old key → row_room self.new key }
        ensures moves { move_room self.old → move_room self.new }
        ensures width { width self.new ≡ width self.old }
        ensures ticks { steps.old + 1 ≤ steps.new }
        ensures most { steps.new ≤ steps.old + 512 };

    /// Takes the row out that has this key, cap and entry; none where no row has them.
    fn cut<L: Ledger>(
        &mut self,
        key: Key,
        cap: u32,
        entry: u32,
        steps: &mut Steps<L>,
    ) -> Option<Box<Node>>
        ensures by_entry { IsByEntry (state self.old).rows }
        ensures found { MatchOption result (state self.new ≡ state self.old)
            (λ node. IsCut key cap entry (state self.old) (state self.new) node.value.row) }
        ensures none { IsNone result → NoneAt key cap entry (state self.old).rows }
        ensures alone { IfSome result (λ node. IsLeaf node.value) }

        // The row can be put back with the value and the time that it had.
        ensures cut_fits { IfSome result (λ _. (row : Priced) → IsHeldAt key cap entry (state self.old).rows row
            → fits self.new (standing_of row)) }
        ensures fits { (standing : Standing) → fits self.old standing → fits self.new standing }
        ensures rows { (key : Key) → row_room self.old key → row_room self.new key }
        ensures moves { move_room self.old → move_room self.new }
        ensures width { width self.new ≡ width self.old }
        ensures ticks { steps.old + 1 ≤ steps.new }
        ensures most { steps.new ≤ steps.old + 512 };

    /// The greatest value of a row, with every row left where it is; none where no row is active.
    fn best_value<L: Ledger>(&self, steps: &mut Steps<L>) -> Option<u32>
        ensures by_entry { IsByEntry (state self.now).rows }
        ensures value { result ≡ best_value (state self.now).rows }
        ensures visits { steps.old + visits self.now ≤ steps.new }
        ensures most { steps.new ≤ steps.old + width self.now };

    /// Takes the first active row by priority out; none where no row is active.
    fn take_best<L: Ledger>(&mut self, steps: &mut Steps<L>) -> Option<Taken>
        ensures by_entry { IsByEntry (state self.old).rows }
        ensures none { IsNone result → NoneActive (state self.old).rows }
        ensures same { IsNone result → state self.new ≡ state self.old }
        ensures best { IfSome result (λ taken. IsFirst (state self.old).rows (taken_row taken)) }
        ensures state { IfSome result (λ taken. state self.new ≡ without taken.node.value.row.entry (state self.old)) }
        ensures alone { IfSome result (λ taken. IsLeaf taken.node.value) }

        // The row can be put back.
        ensures taken_fits { IfSome result (λ taken. fits self.new (standing_of (taken_row taken))) }
        ensures fits { (standing : Standing) → fits self.old standing → fits self.new standing }
        ensures rows { (key : Key) → row_room self.old key → row_room self.new key }
        ensures moves { move_room self.old → move_room self.new }
        ensures width { width self.new ≡ width self.old }
        ensures ticks { steps.old + 1 ≤ steps.new }
        ensures most { steps.new ≤ steps.old + 960 * (width self.old + 1) };

    /// The value and the time of the row that has this key, cap and entry; none where no row has them.
    fn priced<L: Ledger>(
        &self,
        key: Key,
        cap: u32,
        entry: u32,
        steps: &mut Steps<L>,
    ) -> Option<(Option<u32>, u32)>
        ensures found { MatchOption result (NoneAt key cap entry (state self.now).rows) (λ pair. (row : Priced)
            × IsHeldAt key cap entry (state self.now).rows row × (row.value ≡ pair.0) × (row.time ≡ pair.1)) }
        ensures ticks { steps.old + 1 ≤ steps.new }
        ensures most { steps.new ≤ steps.old + 512 };

    /// Prices every row at a quote; a row whose value differs has the event as time from then on.
    fn reprice<L: Ledger>(&mut self, event: u32, best: Best, steps: &mut Steps<L>)
        requires room { move_room self.old }
        requires later { IsLaterThan (state self.old) event }

        ensures state { state self.new ≡ record { rows = reprice event best (state self.old).rows; best = best; event = event } }
        ensures rows { (key : Key) → row_room self.old key → row_room self.new key }
        ensures width { width self.new ≡ width self.old }
        ensures visits { steps.old + visits self.old ≤ steps.new }
        ensures most { steps.new ≤ steps.old + 128 * (width self.old + 1) };

    /// Drops what no row needs: room, and the means to put rows back that are out.
    fn tidy<L: Ledger>(&mut self, steps: &mut Steps<L>)
        ensures state { state self.new ≡ state self.old }
        ensures width { width self.new ≤ width self.old }
        ensures most { steps.new ≤ steps.old + 128 * (width self.old + 1) };
}
