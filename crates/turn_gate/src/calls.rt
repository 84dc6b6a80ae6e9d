//! The calls of a gate, on its table.
ghost use Rattle.std.specs.Prelude.{◌≡◌, ◌+◌, ◌<◌, ℕ, true, false, [], length, List, IfOk, IfErr, None};
ghost use Rattle.venue_words.specs.Journals.{StartsWith, reports_of};
ghost use Rattle.venue_words.specs.declared.command.Event.{Event};
ghost use Rattle.turn_gate.specs.Rule.{whole, opening_seat};
ghost use Rattle.turn_gate.specs.Seats.{IsAtRest};
ghost use Rattle.turn_gate.specs.Steps.{after_turn};
ghost use Rattle.turn_gate.specs.Turns.{RecordsInTurn, RefusesInTurn, IsGathered};

use crate::rule::{OneHistory, TakeEmptySlot};
use crate::turn::{
    GateTable, SERVING, TableSeat, draw_ticket, lay, pass_turn, record_event, take_turn,
};
use crate::view::SeatView;
use atomic_table::Table;
use std::alloc::Global;
use std::sync::Wait;
use std::sync::ledger::Ledger;
use venue_words::{Command, FloorRefusal, Held, Look, NoMemory, Steps};

// The first seat lays the value into the slot, and passes the first turn.
pub(crate) fn open<V: Held>(table: &GateTable<V>, seat: &mut TableSeat<V>, value: V)
    requires table { (seat.old.table_id ≡ table.now.table_id) × (table.now.table_id.words ≡ 4) }
    requires first { seat.old.me ≡ (opening_seat (V.limit value) (V.setting value), []) }
    requires empty { V.journal value ≡ [] }
    ensures table { (seat.new.table_id ≡ seat.old.table_id) × (seat.new.id ≡ seat.old.id) }
    ensures passed { seat.new.me ≡
        (after_turn 1 [] (record (opening_seat (V.limit value) (V.setting value)) { opening = false }), []) }
{
    table.load::<TakeEmptySlot>(seat, SERVING);
    lay(table, seat, value);
    pass_turn(table, seat, 0);
}

// Takes a turn, in which the value takes the command.
pub(crate) fn submit<V: Held, R: Wait, L: Ledger>(
    rt: &R,
    table: &GateTable<V>,
    seat: &mut TableSeat<V>,
    feed: u32,
    moment: i64,
    command: &Command,
    steps: &mut Steps<L>,
) -> Result<u32, FloorRefusal>
    requires table { (seat.old.table_id ≡ table.now.table_id) × (table.now.table_id.words ≡ 4) }
    requires at_rest { IsAtRest seat.old.me.0 × (seat.old.me.1 ≡ []) }
    requires takes { V.takes seat.old.me.0.setting command.now ≡ true }
    ensures table { (seat.new.table_id ≡ seat.old.table_id) × (seat.new.id ≡ seat.old.id) }
    ensures ok { IfOk result (λ number.
        RecordsInTurn V.step_limit seat.old.me seat.new.me number feed moment command.now steps.old steps.new) }
    ensures err { IfErr result (λ refusal.
        RefusesInTurn V.step_limit seat.old.me seat.new.me refusal feed moment command.now steps.old steps.new) }
{
    let ticket = draw_ticket(rt, table, seat);
    let mut value = take_turn(rt, table, seat, ticket);
    let answer = value.submit(feed, moment, command, steps);
    lay(table, seat, value);
    if answer.is_ok() {
        record_event(table, seat);
    }
    pass_turn(table, seat, ticket);
    answer
}

// Takes a turn, in which the value shows its reports.
pub(crate) fn look<V: Held, R: Wait>(
    rt: &R,
    table: &GateTable<V>,
    seat: &mut TableSeat<V>,
    member: u32,
    from: u32,
) -> Result<Look, NoMemory>
    requires table { (seat.old.table_id ≡ table.now.table_id) × (table.now.table_id.words ≡ 4) }
    requires at_rest { IsAtRest seat.old.me.0 × (seat.old.me.1 ≡ []) }
    ensures table { (seat.new.table_id ≡ seat.old.table_id) × (seat.new.id ≡ seat.old.id) }
    ensures seen { (history : List Event) × (turn : ℕ) × StartsWith history seat.old.me.0.seen
        × (seat.new.me ≡ (after_turn turn history seat.old.me.0, [])) × (seat.old.me.0.last_turn < turn) }
    ensures reports { IfOk result (λ look. look.reports
        ≡ reports_of member from (V.reports seat.old.me.0.setting seat.new.me.0.seen)) }
    ensures front { IfOk result (λ look. look.front ≡ length (V.reports seat.old.me.0.setting seat.new.me.0.seen)) }
{
    let ticket = draw_ticket(rt, table, seat);
    let value = take_turn(rt, table, seat, ticket);
    let found = value.look(member, from);
    lay(table, seat, value);
    pass_turn(table, seat, ticket);
    found
}

// Ends the table, and takes the value out of its slot.
pub(crate) fn gather<V: Held>(
    table: Table<Option<V>, SeatView, V, OneHistory, Global>,
    seat: TableSeat<V>,
) -> V
    requires table { (seat.table_id ≡ table.shared.table_id) × (table.shared.table_id.slots ≡ 1) }
    requires part { seat.me.0.part ≡ whole }
    requires no_turn { seat.me.0.history ≡ None }
    ensures { IsGathered V.journal V.limit V.setting table.shared.key seat.me.0 result }
{
    let mut closed = table.close_with(seat);
    let slot = closed.take(0);
    closed.free();
    match slot {
        Some(value) => value,
        None => unreachable!(),
    }
}
