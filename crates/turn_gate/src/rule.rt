//! The rule of a gate's table, and the steps that keep it.
ghost use Rattle.turn_gate.specs.Rule.{KeepsOneHistory, opening_seat, spent_seat};
ghost use Rattle.turn_gate.specs.Steps.{TakesEmptySlot, DrawsTicket, TakesTurn, RecordsEvent, PassesTurn, MarksSleepers, ComparesSeen, without_part, split_off, joined_seat};

use crate::view::SeatView;
use atomic_table::{Join, Play, Split, TableRule};
use venue_words::Held;

// There is one history, and every seat has seen a beginning of it.
pub struct OneHistory;

impl<V: Held> TableRule<Option<V>, SeatView, V> for OneHistory {
    ghost holds = { λ value. KeepsOneHistory V.journal V.limit V.setting value };

    ghost first = { λ value. opening_seat (V.limit value) (V.setting value) };
}

pub struct TakeEmptySlot;

impl<V> Play<Option<V>, SeatView> for TakeEmptySlot {
    ghost then = { TakesEmptySlot };
}

pub struct DrawTicket;

impl<V> Play<Option<V>, SeatView> for DrawTicket {
    ghost then = { DrawsTicket };
}

pub struct TakeTurn;

impl<V: Held> Play<Option<V>, SeatView> for TakeTurn {
    ghost then = { TakesTurn V.journal V.limit V.setting };
}

pub struct RecordEvent;

impl<V: Held> Play<Option<V>, SeatView> for RecordEvent {
    ghost then = { RecordsEvent V.journal };
}

pub struct PassTurn;

impl<V: Held> Play<Option<V>, SeatView> for PassTurn {
    ghost then = { PassesTurn V.journal };
}

pub struct MarkSleepers;

impl<V> Play<Option<V>, SeatView> for MarkSleepers {
    ghost then = { MarksSleepers };
}

pub struct CompareSeen;

impl<V> Play<Option<V>, SeatView> for CompareSeen {
    ghost then = { ComparesSeen };
}

pub struct SplitPart;

impl Split<SeatView> for SplitPart {
    ghost left = { without_part };

    ghost right = { split_off };
}

pub struct JoinSeats;

impl Join<SeatView> for JoinSeats {
    ghost both = { joined_seat };

    ghost spent = { spent_seat };
}
