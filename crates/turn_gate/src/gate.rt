//! The gate.
ghost use Rattle.std.specs.Prelude.{◌≡◌, ◌+◌, ◌-◌, ◌<◌, ◌≤◌, max, true, [], ◌∷◌, ◌++◌, length, IfOk, IfErr, OnErr};
ghost use Rattle.std.specs.List.{range_with_len};
ghost use Rattle.venue_words.specs.Floors.{CostsAtMost, CostsNothing};
ghost use Rattle.venue_words.specs.Journals.{event, StartsWith, IfFull, reports_of};
ghost use Rattle.turn_gate.specs.Numbers.{IncreasesWithin, merge_of};
ghost use Rattle.turn_gate.specs.Rule.{whole};
ghost use Rattle.turn_gate.specs.Seats.{Extends};
ghost use Rattle.turn_gate.specs.Steps.{longer_of};

use crate::calls;
use crate::rule::{CompareSeen, JoinSeats, OneHistory, SplitPart};
use crate::seat::Seat;
use crate::turn::{NEXT_TICKET, TableSeat};
use crate::view::SeatView;
use atomic_table::{Badge, Table};
use std::alloc::Global;
use std::marker::Model;
use std::mem;
use std::sync::Wait;
use std::sync::ledger::Ledger;
use venue_words::{Command, FloorRefusal, Held, Look, NoMemory, Steps};

/// A value, such as a symbol's book, on which one seat at a time works. Threads share a gate by
/// reference, and each calls it with a seat of its own. Every command that the value takes stands in one
/// history, which is the value's journal.
pub struct Gate<V: Held> {
    table: Table<Option<V>, SeatView, V, OneHistory, Global>,
}

// Written out, so that crates above let go of one by this theorem, and not part by part.
impl<V: Held + Drop> Drop for Gate<V> {
    fn drop(self) {
        let Gate { table: _ } = self;
    }
}

impl<V: Held> Model for Gate<V> {
    ghost use Rattle.std.specs.Prelude.{◌≡◌};
    ghost use Rattle.turn_gate.specs.Seats.{GateId, gate_id};

    ghost Value = { GateId };

    ghost view = { λ gate.
        gate_id gate.table.shared.table_id (V.limit gate.table.shared.key) (V.setting gate.table.shared.key) };

    ghost invariant = { λ gate. (gate.table.shared.table_id.words ≡ 4) × (gate.table.shared.table_id.slots ≡ 1) };
}

impl<V: Held> Gate<V> {
    /// Makes a gate round a value whose journal is empty, and the gate's one seat, which has all
    /// 65,536 parts of it. Where memory is wanting, the value comes back as it was.
    pub fn make(alloc: Global, value: V) -> Result<(Gate<V>, Seat), (V, NoMemory)>
        requires { V.journal value ≡ [] }
        ensures limit { IfOk result (λ made. made.0.limit ≡ V.limit value) }
        ensures setting { IfOk result (λ made. made.0.setting ≡ V.setting value) }

        // The seat.
        ensures gate { IfOk result (λ made. made.1.gate ≡ made.0) }
        ensures seen { IfOk result (λ made. made.1.seen ≡ []) }
        ensures mine { IfOk result (λ made. made.1.mine ≡ []) }
        ensures part { IfOk result (λ made. made.1.part ≡ whole) }
        ensures err { IfErr result (λ refused. refused.0 ≡ value) }
    {
        let made = Table::vacant(alloc, &[1, 0, 0, 0], 1, &value);
        let Ok((table, mut seat)) = made else {
            return Err((value, NoMemory));
        };
        calls::open(&table.shared, &mut seat, value);
        let seat = Seat {
            badge: seat.into_badge(),
        };
        Ok((Gate { table }, seat))
    }

    /// Makes a further seat of the gate, say for another thread. It has seen what the old one has, has no
    /// events of its own, and gets one part of the old one's. This takes no memory.
    pub fn split(&self, seat: &mut Seat) -> Seat
        requires gate { seat.old.gate ≡ self.now }
        requires part { 1 < seat.old.part }
        ensures old { seat.new ≡ record seat.old { part = seat.old.part - 1 } }
        ensures new { result ≡ record {
          gate = seat.old.gate;
          turns = 0;
          last_turn = seat.old.last_turn;
          seen = seat.old.seen;
          mine = [];
          part = 1;
        } }
    {
        let badge = mem::replace(&mut seat.badge, Badge::blank());
        let mut table_seat: TableSeat<V> = badge.into_seat();
        let new = self.table.shared.split_seat::<SplitPart>(&mut table_seat);
        seat.badge = table_seat.into_badge();
        Seat {
            badge: new.into_badge(),
        }
    }

    /// Joins another seat of the gate into this one, which then has seen what either had seen, and has
    /// the own events and the parts of both. Its turns stay its own. This takes no memory.
    pub fn join(&self, seat: &mut Seat, other: Seat)
        requires gate { seat.old.gate ≡ self.now }
        requires other_gate { other.gate ≡ self.now }
        ensures seat { seat.new ≡ record seat.old {
          last_turn = max seat.old.last_turn other.last_turn;
          seen = longer_of seat.old.seen other.seen;
          mine = merge_of seat.old.mine other.mine;
          part = seat.old.part + other.part;
        } }

        // The two had seen beginnings of one history, and no event was an own one of both.
        ensures seen { StartsWith seat.new.seen seat.old.seen }
        ensures other_seen { StartsWith seat.new.seen other.seen }
        ensures mine { IncreasesWithin 0 (length seat.new.seen) seat.new.mine }

        // Who saw the later turn has seen no less.
        ensures later { seat.old.last_turn < other.last_turn → StartsWith other.seen seat.old.seen }
        ensures earlier { other.last_turn ≤ seat.old.last_turn → StartsWith seat.old.seen other.seen }
    {
        let badge = mem::replace(&mut seat.badge, Badge::blank());
        let mut table_seat: TableSeat<V> = badge.into_seat();
        let Seat { badge } = other;
        let table = &self.table.shared;
        table.join_seat::<JoinSeats>(&mut table_seat, badge.into_seat());
        table.load::<CompareSeen>(&mut table_seat, NEXT_TICKET);
        seat.badge = table_seat.into_badge();
    }

    /// Waits for a turn, in which the value takes the command as the next event of the history. It
    /// answers the event's number, counted from 1.
    ///
    /// `Full` comes where the history already held as many events as the value takes, and `NoMemory`
    /// where memory was wanting. Nothing was recorded then, and the seat has seen the history that was
    /// found.
    pub fn submit<R: Wait, L: Ledger>(
        &self,
        rt: &R,
        seat: &mut Seat,
        feed: u32,
        moment: i64,
        command: &Command,
        steps: &mut Steps<L>,
    ) -> Result<u32, FloorRefusal>
        requires gate { seat.old.gate ≡ self.now }
        requires takes { V.takes self.now.setting command.now ≡ true }

        // The seat stays one of this gate, and has passed one turn more.
        ensures gate { seat.new.gate ≡ seat.old.gate }
        ensures part { seat.new.part ≡ seat.old.part }
        ensures turns { seat.new.turns ≡ seat.old.turns + 1 }
        ensures last_turn { seat.old.last_turn < seat.new.last_turn }

        // The event stands once in the history, behind all that the seat had seen, and is its own.
        ensures event { IfOk result (λ number. Extends seat.old.seen seat.new.seen (event number feed moment command.now)) }
        ensures number { IfOk result (λ number. number ≡ length seat.new.seen) }
        ensures mine { IfOk result (λ number. seat.new.mine ≡ seat.old.mine ++ number ∷ []) }
        ensures room { IfOk result (λ number. number ≤ self.now.limit) }

        // A refusal records nothing; `Full` comes where the history holds its limit.
        ensures seen { OnErr result (StartsWith seat.new.seen seat.old.seen) }
        ensures none_mine { OnErr result (seat.new.mine ≡ seat.old.mine) }
        ensures full { IfErr result (IfFull (λ found. (found ≡ length seat.new.seen) × (found ≡ self.now.limit))) }

        // The steps, where it is said how many an event may take.
        ensures steps { IfOk result (λ number. CostsAtMost (V.step_limit self.now.setting) seat.new.seen
            (event number feed moment command.now) steps.old steps.new) }
        ensures idle { OnErr result (CostsNothing (V.step_limit self.now.setting) seat.new.seen
            (event (length seat.new.seen + 1) feed moment command.now) steps.old steps.new) }
    {
        let badge = mem::replace(&mut seat.badge, Badge::blank());
        let mut table_seat: TableSeat<V> = badge.into_seat();
        let table = &self.table.shared;
        let answer = calls::submit(rt, table, &mut table_seat, feed, moment, command, steps);
        seat.badge = table_seat.into_badge();
        answer
    }

    /// Waits for a turn, and answers the member's reports from a position on and how many reports there
    /// are in all, of the whole history at that turn. The seat has then seen this history, also where
    /// memory was wanting for the answer.
    pub fn look<R: Wait>(
        &self,
        rt: &R,
        seat: &mut Seat,
        member: u32,
        from: u32,
    ) -> Result<Look, NoMemory>
        requires { seat.old.gate ≡ self.now }
        ensures gate { seat.new.gate ≡ seat.old.gate }
        ensures part { seat.new.part ≡ seat.old.part }
        ensures turns { seat.new.turns ≡ seat.old.turns + 1 }
        ensures last_turn { seat.old.last_turn < seat.new.last_turn }
        ensures seen { StartsWith seat.new.seen seat.old.seen }
        ensures mine { seat.new.mine ≡ seat.old.mine }
        ensures reports { IfOk result (λ look. look.reports
            ≡ reports_of member from (V.reports self.now.setting seat.new.seen)) }
        ensures front { IfOk result (λ look. look.front ≡ length (V.reports self.now.setting seat.new.seen)) }
    {
        let badge = mem::replace(&mut seat.badge, Badge::blank());
        let mut table_seat: TableSeat<V> = badge.into_seat();
        let table = &self.table.shared;
        let found = calls::look(rt, table, &mut table_seat, member, from);
        seat.badge = table_seat.into_badge();
        found
    }

    /// Ends the gate and hands the value back. The seat has all parts, so every seat that was split off
    /// was joined back, and every event of the value's journal is one of its own. This takes no memory.
    pub fn close(self, seat: Seat) -> V
        requires gate { seat.gate ≡ self }
        requires part { seat.part ≡ whole }
        ensures limit { V.limit result ≡ self.limit }
        ensures setting { V.setting result ≡ self.setting }
        ensures seen { StartsWith (V.journal result) seat.seen }
        ensures mine { seat.mine ≡ range_with_len 1 (length (V.journal result)) }
    {
        let Seat { badge } = seat;
        let Gate { table } = self;
        calls::gather(table, badge.into_seat())
    }
}
