//! A seat of a gate.
use crate::view::SeatView;
use atomic_table::Badge;
use std::marker::Model;

/// What one caller has seen of a gate's history, and which events of it are its own. Only one thread
/// has it at a time, and it has no bytes. A seat that is dropped takes its part of the gate with it: the
/// gate then can't be closed any more, and is dropped with its value.
#[derive(Drop)]
pub struct Seat {
    pub(crate) badge: Badge<SeatView>,
}

impl Model for Seat {
    ghost use Rattle.turn_gate.specs.Seats.{SeatState, seat_state_in, IsOneSeat};

    ghost Value = { SeatState };

    ghost view = { λ seat. seat_state_in seat.badge.table_id seat.badge.views };

    ghost invariant = { λ seat. IsOneSeat seat.badge.views };
}
