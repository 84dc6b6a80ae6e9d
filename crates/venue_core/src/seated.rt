//! The floor that one thread has over a venue.
ghost use Rattle.std.specs.Prelude.{◌≡◌, ◌<◌, true, length, IfOk};
ghost use Rattle.venue_words.specs.Conditions.{fits_limits};
ghost use Rattle.venue_words.specs.Floors.{is_configured};
ghost use Rattle.venue_words.specs.Journals.{reports_of};
ghost use Rattle.venue_core.specs.Turns.{Submits, Looks};
ghost use Rattle.venue_core.specs.Venues.{AreSeatsOf, setup_in};

use crate::seats::Seats;
use crate::venue::Venue;
use std::sync::Wait;
use std::sync::ledger::Ledger;
use venue_words::{Command, Floor, FloorRefusal, Held, Look, NoMemory, Steps};

/// What one thread has over a venue: a floor whose calls take turns at the gates. Each call waits for its
/// turn. It owns its seats, so that whoever gets it back can join them.
///
/// At each symbol it shows what its seat has seen and its own events there, and it tells its seat's turns.
/// Its mark has the venue's configured things, and for each seat its gate and its part.
#[derive(Drop)]
pub struct Seated<'a, R: Wait, V: Held> {
    pub rt: &'a R,
    pub venue: &'a Venue<V>,
    pub seats: Seats,
    ghost fit: { AreSeatsOf venue.now seats },
}

// Submits at the symbol's gate, through the symbol's seat.
fn submit_at<V: Held, R: Wait, L: Ledger>(
    rt: &R,
    venue: &Venue<V>,
    seats: &mut Seats,
    symbol: u32,
    feed: u32,
    moment: i64,
    command: &Command,
    steps: &mut Steps<L>,
) -> Result<u32, FloorRefusal>
    requires seats { AreSeatsOf venue.now seats.old }
    requires symbol { symbol < length venue.now.gates }
    requires configured { is_configured (setup_in venue.now) command.now ≡ true }
    requires limits { fits_limits command.now ≡ true }
    ensures { Submits V.step_limit seats.old seats.new symbol result feed moment command.now steps.old steps.new }
{
    let gate = &venue.gates[symbol as usize];
    let seat = &mut seats.list[symbol as usize];
    gate.submit(rt, seat, feed, moment, command, steps)
}

// Looks at the symbol's gate, through the symbol's seat.
fn look_at<V: Held, R: Wait>(
    rt: &R,
    venue: &Venue<V>,
    seats: &mut Seats,
    symbol: u32,
    member: u32,
    from: u32,
) -> Result<Look, NoMemory>
    requires seats { AreSeatsOf venue.now seats.old }
    requires symbol { symbol < length venue.now.gates }
    ensures { Looks V.reports seats.old seats.new symbol result member from }
{
    let gate = &venue.gates[symbol as usize];
    let seat = &mut seats.list[symbol as usize];
    gate.look(rt, seat, member, from)
}

impl<'a, R: Wait, V: Held> Floor for Seated<'a, R, V> {
    ghost use Rattle.std.specs.Prelude.{slice_get};
    ghost use Rattle.venue_core.specs.Marks.{mark_of, setting_in};
    ghost use Rattle.venue_core.specs.Shown.{shown_by_seat};
    ghost use Rattle.venue_core.specs.ShownLaws.{seat_shows_reports};

    ghost mark = { λ seated. mark_of seated.venue.now seated.seats };

    ghost at = { λ seated symbol. shown_by_seat V.reports (slice_get seated.seats symbol) };

    ghost reports_in = { λ mark symbol. V.reports (setting_in mark symbol) };

    ghost step_limit = { λ mark symbol. V.step_limit (setting_in mark symbol) };

    fn submit<L: Ledger>(
        &mut self,
        symbol: u32,
        feed: u32,
        moment: i64,
        command: &Command,
        steps: &mut Steps<L>,
    ) -> Result<u32, FloorRefusal> {
        submit_at(
            self.rt,
            self.venue,
            &mut self.seats,
            symbol,
            feed,
            moment,
            command,
            steps,
        )
    }

    fn reports_after(&mut self, symbol: u32, member: u32, from: u32) -> Result<Look, NoMemory> {
        look_at(self.rt, self.venue, &mut self.seats, symbol, member, from)
    }

    ghost of_journal = { λ seated symbol within.
        seat_shows_reports V.reports seated.venue.now seated.seats symbol seated.fit within };
}
