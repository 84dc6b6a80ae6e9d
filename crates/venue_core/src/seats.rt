//! One seat for each symbol.
use std::marker::Model;
use turn_gate::Seat;

/// One seat for each symbol of a venue. Only one thread has it at a time. Seats that are dropped take their
/// parts of the gates with them: their venue then can't be closed any more.
#[derive(Drop)]
pub struct Seats {
    pub(crate) list: Vec<Seat>,
}

impl Model for Seats {
    ghost use Rattle.std.specs.Prelude.{List};
    ghost use Rattle.turn_gate.specs.Seats.{SeatState};

    ghost Value = { List SeatState };

    ghost view = { λ seats. seats.list.items };
}
