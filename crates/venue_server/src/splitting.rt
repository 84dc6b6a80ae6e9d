//! A floor for each connection, that of the drop session too.
ghost use Rattle.std.specs.Prelude.{◌≡◌, ◌+◌, ◌-◌, ◌≤◌, ◌++◌, ◌∷◌, [], length, map, IfOk, OnOk};
ghost use Rattle.std.specs.List.{All, range_with_len};
ghost use Rattle.turn_gate.specs.Rule.{whole};
ghost use Rattle.venue_server.specs.Seating.{HasSeats};

use crate::workers::Job;
use socket_edge::Inbox;
use std::alloc::Global;
use std::sync::Wait;
use venue_core::{Seated, Seats, Venue};
use venue_words::{Held, NoMemory};

/// A connection that is to be served for each inbox, under the inbox's number, over seats that are split off these.
pub fn jobs_of<'a, R: Wait, V: Held + Drop>(
    rt: &'a R,
    alloc: Global,
    venue: &'a Venue<V>,
    seats: &mut Seats,
    inboxes: Vec<Inbox>,
) -> Result<Vec<Job<Seated<'a, R, V>>>, NoMemory>
    requires seats { HasSeats venue.now whole seats.old }
    requires few { length inboxes.items ≤ 65 }
    ensures seats { OnOk result (HasSeats venue.now (whole - length inboxes.items) seats.new) }
    ensures count { IfOk result (λ jobs. length jobs.items ≡ length inboxes.items) }
    ensures numbers { IfOk result (λ jobs. map (λ job. job.number) jobs.items ≡ range_with_len 0 (length inboxes.items)) }
    ensures inboxes { IfOk result (λ jobs. map (λ job. job.inbox) jobs.items ≡ inboxes.items) }
    ensures floors { IfOk result (λ jobs. All (λ job. (job.floor.venue.now ≡ venue.now)
        × HasSeats venue.now 1 job.floor.seats) jobs.items) }
{
    let mut jobs = Vec::with_capacity(alloc, inboxes.len())?;
    for inbox in inboxes {
        let number = jobs.len();
        let seats = venue.split(alloc, seats)?;
        let floor = Seated { rt, venue, seats };
        jobs.push_reserved(Job {
            floor,
            inbox,
            number,
        });
    }
    Ok(jobs)
}

/// The same for all inboxes but the last, and for the last, which is the drop session's.
pub fn jobs_and_last<'a, R: Wait, V: Held + Drop>(
    rt: &'a R,
    alloc: Global,
    venue: &'a Venue<V>,
    seats: &mut Seats,
    inboxes: Vec<Inbox>,
) -> Result<(Vec<Job<Seated<'a, R, V>>>, Job<Seated<'a, R, V>>), NoMemory>
    requires seats { HasSeats venue.now whole seats.old }
    requires few { length inboxes.items ≤ 65 }
    ensures seats { OnOk result (HasSeats venue.now (whole - length inboxes.items) seats.new) }
    ensures count { IfOk result (λ made. length made.0.items + 1 ≡ length inboxes.items) }
    ensures numbers { IfOk result (λ made. map (λ job. job.number) made.0.items ++ made.1.number ∷ []
        ≡ range_with_len 0 (length inboxes.items)) }
    ensures inboxes { IfOk result (λ made. map (λ job. job.inbox) made.0.items ++ made.1.inbox ∷ [] ≡ inboxes.items) }
    ensures floors { IfOk result (λ made. All (λ job. (job.floor.venue.now ≡ venue.now)
        × HasSeats venue.now 1 job.floor.seats) made.0.items) }
    ensures last { IfOk result (λ made. (made.1.floor.venue.now ≡ venue.now)
        × HasSeats venue.now 1 made.1.floor.seats) }
{
    let mut jobs = jobs_of(rt, alloc, venue, seats, inboxes)?;
    match jobs.pop() {
        Some(last) => Ok((jobs, last)),
        None => Err(NoMemory),
    }
}
