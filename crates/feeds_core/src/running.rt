//! Feeds worked on a venue of any books.
ghost use Rattle.std.specs.Prelude.{◌≡◌, ◌<◌, ◌≤◌, ℕ, length, map, slice_get, slice_index, Some, IfOk};
ghost use Rattle.std.specs.List.{All};
ghost use Rattle.venue_words.specs.declared.limits.TheConstants.{MAX_FEEDS};
ghost use Rattle.eager_meaning.specs.Interleaving.{Interleaves};
ghost use Rattle.turn_gate.specs.Rule.{whole};
ghost use Rattle.venue_core.specs.Venues.{setup_in};
ghost use Rattle.feed_work.specs.Feeds.{IsFor, commands_at};
ghost use Rattle.feeds_core.specs.Books.{count_at};
ghost use Rattle.feeds_core.specs.Joined.{AreIdleSeats};

use crate::joining::join_all;
use crate::splitting::shares_of;
use feed_work::{Pace, work_feeds};
use std::alloc::Global;
use std::sync::Wait;
use std::thread::Threads;
use venue_core::{Seats, Venue};
use venue_words::{Command, FloorRefusal, Held, NoMemory};

/// Works feeds on a venue in which nothing has happened, all at once, and hands its books back.
pub fn work_over<R: Threads + Wait + Sync, P: Pace + Sync, V: Held + Drop + Send>(
    rt: &R,
    alloc: Global,
    pace: &P,
    venue: Venue<V>,
    mut seats: Seats,
    feeds: Vec<Vec<(u32, i64, Command)>>,
) -> Result<Vec<V>, NoMemory>
    requires seats { AreIdleSeats venue whole seats }
    requires few { length feeds.items ≤ MAX_FEEDS }
    requires commands { All (λ commands. All (IsFor (setup_in venue)) commands.items) feeds.items }
    requires room { (symbol : ℕ) → symbol < length venue.gates
        → count_at symbol (map (λ commands. commands.items) feeds.items) ≤ slice_index (setup_in venue).limits symbol }
    ensures settings { IfOk result (λ books. map V.setting books.items ≡ map (λ gate. gate.setting) venue.gates) }
    ensures interleaves { IfOk result (λ books. (symbol : ℕ) (book : V) → slice_get books.items symbol ≡ Some book
        → Interleaves (V.journal book) (map (commands_at symbol) (map (λ commands. commands.items) feeds.items))) }
{
    let shares = shares_of(rt, alloc, &venue, &mut seats, feeds)?;
    let worked = work_feeds(rt, pace, shares)?;
    let refused = join_all(&venue, &mut seats, worked);
    let Ok(books) = venue.close(alloc, seats) else {
        return Err(NoMemory);
    };
    match refused {
        None => Ok(books),
        Some(FloorRefusal::NoMemory) => Err(NoMemory),
        // Its journal would hold the limit, and so more events than there were commands.
        Some(FloorRefusal::Full { .. }) => unreachable!(),
    }
}
