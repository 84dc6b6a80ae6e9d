//! The seats of all feeds together.
ghost use Rattle.std.specs.Prelude.{◌≡◌, ◌-◌, ◌≤◌, List, [], length, map};
ghost use Rattle.std.specs.List.{All};
ghost use Rattle.venue_words.specs.declared.limits.TheConstants.{MAX_FEEDS};
ghost use Rattle.turn_gate.specs.Rule.{whole};
ghost use Rattle.venue_core.specs.Joining.{HaveParts};
ghost use Rattle.venue_core.specs.Venues.{AreSeatsOf, setup_in};
ghost use Rattle.feed_work.specs.Feeds.{Asked};
ghost use Rattle.feeds_core.specs.Joined.{AreIdleSeats, AreOneParts, AllWorked, Collects, outcome_of};

use feed_work::Worked;
use std::sync::Wait;
use venue_core::{Seated, Seats, Venue};
use venue_words::{FloorRefusal, Held};

/// Joins the seats of all feeds into these, and tells the first refusal that there was.
pub fn join_all<'a, R: Wait, V: Held + Drop>(
    venue: &Venue<V>,
    seats: &mut Seats,
    worked: Vec<Worked<Seated<'a, R, V>>>,
) -> Option<FloorRefusal>
    requires few { length worked.items ≤ MAX_FEEDS }
    requires seats { AreIdleSeats venue.now (whole - length worked.items) seats.old }
    requires others { All (λ one. AreOneParts venue.now (outcome_of one.floor.seats one.refused)) worked.items }
    ensures seats { AreSeatsOf venue.now seats.new }
    ensures parts { HaveParts whole seats.new }
    ensures collects { (feeds : List (List Asked))
        → AllWorked (setup_in venue.now) 1 feeds (map (λ one. outcome_of one.floor.seats one.refused) worked.entry.items)
        → Collects (setup_in venue.now) feeds seats.new result }
{
    let mut refused = None;
    for one in worked {
        venue.join(seats, one.floor.seats);
        refused = refused.or(one.refused);
    }
    refused
}
