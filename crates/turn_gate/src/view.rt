//! What the rule of a gate knows of each seat.
use std::collections::LinkedList;
use venue_words::Event;

// No value of it is made: it stands in contracts and proofs alone.
pub struct SeatView {
    // The limit and the setting of the gate's value.
    pub limit: u32,
    pub setting: u64,
    // The turns that it passed, and those of the seats that were joined into it.
    pub turns: u64,
    pub joined_turns: u64,
    // The turn by whose end it had seen what it has seen: turns of the gate are counted from 1, and 0 stands before the first.
    pub last_turn: u64,
    // The beginning of the history that it has seen.
    pub seen: LinkedList<Event>,
    // The lesser of what two seats had seen that were joined last.
    pub told: LinkedList<Event>,
    // The numbers in the history of its own events, and of those of the seats that were joined into it.
    pub mine: LinkedList<u32>,
    // Its part of the gate, in 65,536ths.
    pub part: u32,
    // The ticket that it drew, until it passes that turn.
    pub ticket: Option<u64>,
    // The whole history, while it has the turn.
    pub history: Option<LinkedList<Event>>,
    // Whether it is the first seat, and the value was not laid into the slot yet.
    pub opening: bool,
}
