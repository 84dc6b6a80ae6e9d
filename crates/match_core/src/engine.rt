//! The resting orders of one symbol, and what matching does to them.
ghost use Rattle.std.specs.Prelude.{◌≡◌, ℕ, ◌+◌, ◌*◌, ◌-◌, ◌<◌, ◌≤◌, ◌++◌, nat_lt, List, Option, Some, None, OnOk, length, map, option_map};
ghost use Rattle.std.specs.Option.{ForSome};
ghost use Rattle.venue_words.specs.Conditions.{IsKey, IsRow};
ghost use Rattle.venue_words.specs.Price.{price_shown};
ghost use Rattle.venue_words.specs.Retime.{reprice};
ghost use Rattle.venue_words.specs.declared.price.Best.{Best};
ghost use Rattle.venue_words.specs.declared.row.Key.{Key};
ghost use Rattle.venue_words.specs.declared.row.Priced.{Priced};
ghost use Rattle.eager_meaning.specs.Changing.{without, with_leaves};
ghost use Rattle.eager_meaning.specs.Matching.{takes_of};
ghost use Rattle.eager_meaning.specs.Showing.{row_of_order};
ghost use Rattle.eager_meaning.specs.Walk.{total_of};
ghost use Rattle.eager_meaning.specs.Work.{key_count, examined_by, examined_in_recheck};
ghost use Rattle.eager_meaning.specs.declared.trade.Fill.{Fill};
ghost use Rattle.peg_groups.specs.Side.{priced_at};
ghost use Rattle.match_core.specs.BothSides.{own_of, others_of, requoted_rows, entered_rows, Rests};

use eager_meaning::Fill;
use std::sync::ledger::Ledger;
use venue_words::{Best, Key, NoMemory, Row, Steps};

/// The resting orders of one symbol, priced by a national quote, and what matching does to them. It is seen as the
/// buys and the sells in order of entry, and the trades of the last call that matched. Only `reserve` takes memory.
pub trait Engine {
    /// The buys, in order of entry.
    ghost buys: { Self → List Priced };

    /// The sells, in order of entry.
    ghost sells: { Self → List Priced };

    /// The quote by which they are priced.
    ghost best: { Self → Best };

    /// The last event at which a row entered or all were priced.
    ghost latest: { Self → ℕ };

    /// The trades of the last `requote` or `enter`, in their order. `reserve` may forget them.
    ghost fills: { Self → List Fill };

    /// How many things a call that goes over both sides may visit.
    ghost width: { Self → ℕ };

    /// That one `requote` can be done without memory or, where a key is given, one `enter` of a row of that key.
    ghost ready: { Self → Option Key → Type 0 };

    /// Makes room for one event, which enters a row of the key, where one is given. A refusal leaves the rows.
    fn reserve(&mut self, key: Option<Key>) -> Result<(), NoMemory>
        requires key { ForSome key IsKey }
        ensures buys { buys self.new ≡ buys self.old }
        ensures sells { sells self.new ≡ sells self.old }
        ensures best { best self.new ≡ best self.old }
        ensures latest { latest self.new ≡ latest self.old }
        ensures ready { OnOk result (ready self.new key) }

        // It is no wider than there are keys, and one for a row of a new key.
        ensures width { OnOk result (width self.new ≤ key_count (buys self.old ++ sells self.old) + 1) }
        ensures no_key { OnOk result (key ≡ None → width self.new ≤ key_count (buys self.old ++ sells self.old)) };

    /// The trades of the last `requote` or `enter`, if no room was made since.
    fn fills(&self) -> &[Fill]
        ensures { result.now ≡ fills self.now };

    /// The quote by which the rows are priced.
    fn quote(&self) -> Best
        ensures { result ≡ best self.now };

    /// How many rows rest.
    fn len(&self) -> usize
        ensures { result ≡ length (buys self.now) + length (sells self.now) };

    /// How many different keys the rows have.
    fn groups(&self) -> usize
        ensures { result ≡ key_count (buys self.now ++ sells self.now) };

    /// Prices every row by a new national quote, and rechecks the book.
    fn requote<L: Ledger>(&mut self, event: u32, quote: Best, steps: &mut Steps<L>)
        requires ready { ready self.old None }
        requires later { latest self.old < event }
        ensures buys { buys self.new ≡ (requoted_rows event quote (buys self.old) (sells self.old)).buys }
        ensures sells { sells self.new ≡ (requoted_rows event quote (buys self.old) (sells self.old)).sells }
        ensures fills { fills self.new ≡ (requoted_rows event quote (buys self.old) (sells self.old)).fills }
        ensures best { best self.new ≡ quote }
        ensures latest { latest self.new ≡ event }

        // Each trade empties a row.
        ensures few { length (fills self.new) + (length (buys self.new) + length (sells self.new))
            ≤ length (buys self.old) + length (sells self.old) }
        ensures most { steps.new ≤ steps.old + 1664 * (width self.old + 2) * (examined_in_recheck
            (reprice event quote (buys self.old)) (reprice event quote (sells self.old)) + 1) };

    /// Enters a row with its entry as its time. It walks once through the other side, and what is left of it rests,
    /// unless the order is immediate. Answers whether shares are left of it.
    fn enter<L: Ledger>(&mut self, row: Row, immediate: bool, steps: &mut Steps<L>) -> bool
        requires row { IsRow row }
        requires shares { 0 < row.leaves }
        requires ready { ready self.old (Some row.key) }
        requires later { latest self.old < row.entry }
        ensures buys { buys self.new ≡ own_of row.key.side
            (entered_rows (best self.old) row immediate (buys self.old) (sells self.old)).own
            (entered_rows (best self.old) row immediate (buys self.old) (sells self.old)).others }
        ensures sells { sells self.new ≡ others_of row.key.side
            (entered_rows (best self.old) row immediate (buys self.old) (sells self.old)).own
            (entered_rows (best self.old) row immediate (buys self.old) (sells self.old)).others }
        ensures fills { fills self.new
            ≡ (entered_rows (best self.old) row immediate (buys self.old) (sells self.old)).fills }
        ensures left { result ≡ nat_lt 0 (row.leaves - total_of (takes_of (priced_at (best self.old) row)
            (others_of row.key.side (buys self.old) (sells self.old)))) }
        ensures best { best self.new ≡ best self.old }
        ensures latest { latest self.new ≡ row.entry }

        // Each trade empties a row.
        ensures few { length (fills self.new) + (length (buys self.new) + length (sells self.new))
            ≤ length (buys self.old) + length (sells self.old) + 1 }
        ensures most { steps.new ≤ steps.old + 2048 * (width self.old + 1) * (examined_by (priced_at (best self.old) row)
            (others_of row.key.side (buys self.old) (sells self.old)) + 1) };

    /// The price of a resting row in units of 0.005, or none while it is inactive, and its time.
    fn priced<L: Ledger>(&self, row: &Row, steps: &mut Steps<L>) -> (Option<u32>, u32)
        requires rests { Rests row.now (buys self.now ++ sells self.now) }
        ensures shown { option_map (λ x. (price_shown x, x.time))
            (row_of_order row.now.order (buys self.now ++ sells self.now)) ≡ Some result }
        ensures most { steps.new ≤ steps.old + 512 };

    /// Takes a resting row out. No room is lost.
    fn cut<L: Ledger>(&mut self, row: &Row, steps: &mut Steps<L>)
        requires rests { Rests row.now (buys self.old ++ sells self.old) }
        ensures buys { buys self.new ≡ without row.now.entry (buys self.old) }
        ensures sells { sells self.new ≡ without row.now.entry (sells self.old) }
        ensures best { best self.new ≡ best self.old }
        ensures latest { latest self.new ≡ latest self.old }
        ensures fills { fills self.new ≡ fills self.old }
        ensures ready { (key : Option Key) → ready self.old key → ready self.new key }
        ensures width { width self.new ≡ width self.old }
        ensures most { steps.new ≤ steps.old + 512 };

    /// Gives a resting row other leaves; its price, its time and its place stay.
    fn lower<L: Ledger>(&mut self, row: &Row, leaves: u32, steps: &mut Steps<L>)
        requires rests { Rests row.now (buys self.old ++ sells self.old) }
        requires shares { 0 < leaves }
        ensures buys { buys self.new ≡ map (with_leaves row.now.entry leaves) (buys self.old) }
        ensures sells { sells self.new ≡ map (with_leaves row.now.entry leaves) (sells self.old) }
        ensures best { best self.new ≡ best self.old }
        ensures latest { latest self.new ≡ latest self.old }
        ensures fills { fills self.new ≡ fills self.old }
        ensures width { width self.new ≡ width self.old }
        ensures most { steps.new ≤ steps.old + 1536 };
}
