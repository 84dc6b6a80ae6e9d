//! The steps of a turn on a gate's table.
ghost use Rattle.std.specs.Prelude.{◌≡◌, ◌+◌, ◌<◌, ◌≤◌, ◌^◌, false, None, Some, [], ◌∷◌, length};
ghost use Rattle.venue_words.specs.Journals.{StartsWith};
ghost use Rattle.turn_gate.specs.Seats.{IsAtRest};
ghost use Rattle.turn_gate.specs.Steps.{after_turn, with_event, journal_held};
ghost use Rattle.turn_gate.specs.Turns.{HoldsNewEvent, HoldsHistory};

use crate::rule::{DrawTicket, MarkSleepers, OneHistory, PassTurn, RecordEvent, TakeTurn};
use crate::view::SeatView;
use atomic_table::Shared;
use crossbeam_utils::Backoff;
use std::sync::Wait;
use venue_words::Held;

// The words of the table: the next ticket, the ticket that is served, the length of the history, and 1 where somebody
// may sleep who has no ticket.
pub(crate) const NEXT_TICKET: usize = 0;

pub(crate) const SERVING: usize = 1;

const LENGTH: usize = 2;

const SLEEPERS: usize = 3;

// So often a thread spins before it sleeps.
const SPINS: u32 = 7;

// After so many waits it draws a ticket, though it has to wait for that one too: then no other thread goes ahead.
const PATIENCE: u32 = 40;

pub(crate) type GateTable<V> = Shared<Option<V>, SeatView, V, OneHistory>;

pub(crate) type TableSeat<V> = atomic_table::Seat<Option<V>, SeatView>;

// Says that somebody may sleep who has no ticket (1), or that nobody does (0).
fn mark_sleepers<V: Held>(table: &GateTable<V>, seat: &mut TableSeat<V>, mark: u64)
    requires table { (seat.old.table_id ≡ table.now.table_id) × (table.now.table_id.words ≡ 4) }
    requires part { 0 < seat.old.me.0.part }
    ensures table { (seat.new.table_id ≡ seat.old.table_id) × (seat.new.id ≡ seat.old.id) }
    ensures same { seat.new.me ≡ seat.old.me }
{
    table.store::<MarkSleepers>(seat, SLEEPERS, mark);
}

// Sleeps until another ticket is served than was.
fn sleep<V: Held, R: Wait>(rt: &R, table: &GateTable<V>, served: u64)
    requires { table.now.table_id.words ≡ 4 }
{
    table.park(rt, SERVING, (served & 0xffff_ffff) as u32);
}

// Sleeps with no ticket. Whoever passes a turn sees the mark, takes it away and wakes one thread, which lays it again, for there
// may be more of them.
fn sleep_marked<V: Held, R: Wait>(
    rt: &R,
    table: &GateTable<V>,
    seat: &mut TableSeat<V>,
    served: u64,
)
    requires table { (seat.old.table_id ≡ table.now.table_id) × (table.now.table_id.words ≡ 4) }
    requires part { 0 < seat.old.me.0.part }
    ensures table { (seat.new.table_id ≡ seat.old.table_id) × (seat.new.id ≡ seat.old.id) }
    ensures same { seat.new.me ≡ seat.old.me }
{
    mark_sleepers(table, seat, 1);
    sleep(rt, table, served);
    mark_sleepers(table, seat, 1);
}

// Takes the mark away, and answers whether there was one.
fn take_mark<V: Held>(table: &GateTable<V>, seat: &mut TableSeat<V>) -> bool
    requires table { (seat.old.table_id ≡ table.now.table_id) × (table.now.table_id.words ≡ 4) }
    requires part { 0 < seat.old.me.0.part }
    ensures table { (seat.new.table_id ≡ seat.old.table_id) × (seat.new.id ≡ seat.old.id) }
    ensures same { seat.new.me ≡ seat.old.me }
{
    let marked = table.peek(SLEEPERS) != 0;
    if marked {
        mark_sleepers(table, seat, 0);
    }
    marked
}

// Wakes who waits for the ticket that is served now: its owner, if it was drawn, and else one of those who have none.
fn wake<V: Held>(table: &GateTable<V>, served: u64, marked: bool)
    requires { table.now.table_id.words ≡ 4 }
{
    if table.peek(NEXT_TICKET) != served {
        table.wake_all(SERVING);
    } else if marked || table.peek(SLEEPERS) != 0 {
        table.wake_one(SERVING);
    }
}

// Draws the next ticket, once it is the one that is served, or after many waits. At the last ticket of all it waits for ever.
pub(crate) fn draw_ticket<V: Held, R: Wait>(
    rt: &R,
    table: &GateTable<V>,
    seat: &mut TableSeat<V>,
) -> u64
    requires table { (seat.old.table_id ≡ table.now.table_id) × (table.now.table_id.words ≡ 4) }
    requires at_rest { IsAtRest seat.old.me.0 }
    ensures table { (seat.new.table_id ≡ seat.old.table_id) × (seat.new.id ≡ seat.old.id) }
    ensures ticket { seat.new.me ≡ (record seat.old.me.0 { ticket = Some result }, seat.old.me.1) }
    ensures small { result + 1 < 2 ^ 64 }
{
    let backoff = Backoff::new();
    let mut waits = 0;
    for _ in rt.forever() {
        let served = table.peek(SERVING);
        let next = table.peek(NEXT_TICKET);
        if next == served || waits >= PATIENCE {
            if next < u64::MAX {
                let found = table.compare_exchange::<DrawTicket>(seat, NEXT_TICKET, next, next + 1);
                if found == next {
                    return next;
                }
            }
        } else {
            if waits < SPINS {
                backoff.spin();
            } else {
                sleep_marked(rt, table, seat, served);
            }
            waits += 1;
        }
    }
    unreachable!()
}

// Waits until the ticket is served, and takes the value out of its slot.
pub(crate) fn take_turn<V: Held, R: Wait>(
    rt: &R,
    table: &GateTable<V>,
    seat: &mut TableSeat<V>,
    ticket: u64,
) -> V
    requires table { (seat.old.table_id ≡ table.now.table_id) × (table.now.table_id.words ≡ 4) }
    requires ticket { seat.old.me.0.ticket ≡ Some ticket }
    requires no_turn { seat.old.me.0.history ≡ None }
    requires opened { seat.old.me.0.opening ≡ false }
    requires part { 0 < seat.old.me.0.part }
    requires no_slot { seat.old.me.1 ≡ [] }
    ensures table { (seat.new.table_id ≡ seat.old.table_id) × (seat.new.id ≡ seat.old.id) }
    ensures turn { seat.new.me ≡ (record seat.old.me.0 { history = Some (V.journal result) }, (0, None) ∷ []) }
    ensures value { (V.limit result ≡ seat.old.me.0.limit) × (V.setting result ≡ seat.old.me.0.setting) }
    ensures seen { StartsWith (V.journal result) seat.old.me.0.seen }
    ensures later { seat.old.me.0.last_turn ≤ ticket }
    ensures room { length (V.journal result) ≤ V.limit result }
{
    let backoff = Backoff::new();
    let mut spins = 0;
    for _ in rt.forever() {
        let served = table.load::<TakeTurn>(seat, SERVING);
        if served == ticket {
            return lift(table, seat);
        }
        if spins < SPINS {
            backoff.spin();
            spins += 1;
        } else {
            sleep(rt, table, served);
        }
    }
    unreachable!()
}

// Takes the value out of the slot that was taken.
fn lift<V: Held>(table: &GateTable<V>, seat: &mut TableSeat<V>) -> V
    requires table { seat.old.table_id ≡ table.now.table_id }
    requires full { (value : V) × (seat.old.me.1 ≡ (0, Some value) ∷ []) }
    ensures table { (seat.new.table_id ≡ seat.old.table_id) × (seat.new.id ≡ seat.old.id) }
    ensures value { seat.old.me.1 ≡ (0, Some result) ∷ [] }
    ensures empty { seat.new.me ≡ (seat.old.me.0, (0, None) ∷ []) }
{
    match table.exchange(seat, 0, None) {
        Some(value) => value,
        None => unreachable!(),
    }
}

// Lays the value into the slot that was taken.
pub(crate) fn lay<V: Held>(table: &GateTable<V>, seat: &mut TableSeat<V>, value: V)
    requires table { seat.old.table_id ≡ table.now.table_id }
    requires empty { seat.old.me.1 ≡ (0, None) ∷ [] }
    ensures table { (seat.new.table_id ≡ seat.old.table_id) × (seat.new.id ≡ seat.old.id) }
    ensures value { seat.new.me ≡ (seat.old.me.0, (0, Some value) ∷ []) }
{
    match table.exchange(seat, 0, Some(value)) {
        Some(_) => unreachable!(),
        None => {}
    }
}

// Records the last event of the value in the slot that was taken.
pub(crate) fn record_event<V: Held>(table: &GateTable<V>, seat: &mut TableSeat<V>)
    requires table { (seat.old.table_id ≡ table.now.table_id) × (table.now.table_id.words ≡ 4) }
    requires grown { HoldsNewEvent V.journal V.limit seat.old.me }
    ensures table { (seat.new.table_id ≡ seat.old.table_id) × (seat.new.id ≡ seat.old.id) }
    ensures recorded { seat.new.me ≡ (with_event (journal_held V.journal seat.old.me.1) seat.old.me.0, seat.old.me.1) }
{
    table.fetch_add::<RecordEvent>(seat, LENGTH, 1);
}

// Gives the slot back with the value in it, serves the next ticket, and wakes who waits for it.
pub(crate) fn pass_turn<V: Held>(table: &GateTable<V>, seat: &mut TableSeat<V>, ticket: u64)
    requires table { (seat.old.table_id ≡ table.now.table_id) × (table.now.table_id.words ≡ 4) }
    requires holds { HoldsHistory V.journal V.limit V.setting ticket seat.old.me }
    requires small { ticket + 1 < 2 ^ 64 }
    ensures table { (seat.new.table_id ≡ seat.old.table_id) × (seat.new.id ≡ seat.old.id) }
    ensures passed { seat.new.me ≡ (after_turn (ticket + 1) (journal_held V.journal seat.old.me.1) seat.old.me.0, []) }
{
    let marked = take_mark(table, seat);
    table.store::<PassTurn>(seat, SERVING, ticket + 1);
    wake(table, ticket + 1, marked);
}
