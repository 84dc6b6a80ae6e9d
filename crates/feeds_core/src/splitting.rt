//! A floor for each feed.
ghost use Rattle.std.specs.Prelude.{◌≡◌, ◌-◌, ◌≤◌, length, map, IfOk, OnOk};
ghost use Rattle.std.specs.List.{All};
ghost use Rattle.venue_words.specs.declared.limits.TheConstants.{MAX_FEEDS};
ghost use Rattle.turn_gate.specs.Rule.{whole};
ghost use Rattle.feeds_core.specs.Joined.{AreIdleSeats};

use std::alloc::Global;
use std::sync::Wait;
use venue_core::{Seated, Seats, Venue};
use venue_words::{Command, Held, NoMemory};

/// A floor over the venue for each feed, with seats that are split off these.
pub fn shares_of<'a, R: Wait, V: Held + Drop>(
    rt: &'a R,
    alloc: Global,
    venue: &'a Venue<V>,
    seats: &mut Seats,
    feeds: Vec<Vec<(u32, i64, Command)>>,
) -> Result<Vec<(Seated<'a, R, V>, Vec<(u32, i64, Command)>)>, NoMemory>
    requires seats { AreIdleSeats venue.now whole seats.old }
    requires few { length feeds.items ≤ MAX_FEEDS }
    ensures seats { OnOk result (AreIdleSeats venue.now (whole - length feeds.items) seats.new) }
    ensures feeds { IfOk result (λ shares. map (λ share. share.1.items) shares.items
        ≡ map (λ commands. commands.items) feeds.items) }
    ensures floors { IfOk result (λ shares. All (λ share. (share.0.venue.now ≡ venue.now)
        × AreIdleSeats venue.now 1 share.0.seats) shares.items) }
{
    let mut shares = Vec::with_capacity(alloc, feeds.len())?;
    for commands in feeds {
        let seats = venue.split(alloc, seats)?;
        let floor = Seated { rt, venue, seats };
        shares.push((floor, commands))?;
    }
    Ok(shares)
}
