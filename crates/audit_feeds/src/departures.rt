//! Where a symbol's journal is not what its feeds ask.
ghost use Rattle.std.specs.Prelude.{◌≡◌, ◌<◌, ◌+◌, ◌∷◌, [], None, IfSome, length, option_map};
ghost use Rattle.feed_work.specs.Feeds.{commands_at};
ghost use Rattle.audit_feeds.specs.Departures.{events_of, first_outside, first_departure, is_outside};

use crate::alike::is_command;
use venue_words::{Command, Event};

/// Where the events of a feed are not its commands.
#[derive(Clone, Copy, Debug, PartialEq, Eq)]
pub struct Departure {
    /// The place in the feed, counted from 0 in each symbol.
    pub place: usize,
    /// The number of the event that stands there; none where a command is missing.
    pub event: Option<u32>,
}

/// The next event of a feed, and the events behind it.
fn next_event(journal: &[Event], feed: u32) -> Option<(&Event, &[Event])>
    ensures none { result ≡ None → events_of feed journal.now ≡ [] }
    ensures some { IfSome result (λ found. events_of feed journal.now ≡ found.0.now ∷ events_of feed found.1.now) }
    ensures less { IfSome result (λ found. length found.1.now < length journal.now) }
{
    let mut rest = journal;
    while let [event, later @ ..] = rest {
        if event.feed == feed {
            return Some((event, later));
        }
        rest = later;
    }
    None
}

/// The next command of a feed for a symbol, and the commands behind it.
fn next_command(
    commands: &[(u32, i64, Command)],
    symbol: u32,
) -> Option<(&(u32, i64, Command), &[(u32, i64, Command)])>
    ensures none { result ≡ None → commands_at symbol commands.now ≡ [] }
    ensures some { IfSome result (λ found. commands_at symbol commands.now
        ≡ (found.0.now.1, found.0.now.2) ∷ commands_at symbol found.1.now) }
{
    let mut rest = commands;
    while let [asked, later @ ..] = rest {
        if asked.0 == symbol {
            return Some((asked, later));
        }
        rest = later;
    }
    None
}

/// Where the events of a feed are not what it asks of a symbol.
#[tactic(auto, unfolding(crate::specs::Departures::first_departure))]
pub fn first_departure(
    journal: &[Event],
    feed: u32,
    commands: &[(u32, i64, Command)],
    symbol: u32,
) -> Option<Departure>
    ensures departure { result ≡ first_departure 0 (events_of feed journal.now) (commands_at symbol commands.now) }
    ensures within { IfSome result (λ departure. departure.place < length journal.now + 1) }
{
    let mut events = journal;
    let mut asked = commands;
    let mut place = 0;
    'places: loop {
        let command = next_command(asked, symbol);
        let Some((event, later)) = next_event(events, feed) else {
            return match command {
                None => None,
                Some(_) => Some(Departure { place, event: None }),
            };
        };
        let departure = Departure {
            place,
            event: Some(event.number),
        };
        let Some((command, more)) = command else {
            return Some(departure);
        };
        if !is_command(event, command) {
            return Some(departure);
        }
        events = later;
        asked = more;
        place += 1;
    }
}

/// Whether an event is of none of so many feeds.
fn is_outside(count: usize, event: &Event) -> bool
    ensures { result ≡ is_outside count event.now }
{
    !(1 <= event.feed && event.feed as usize <= count)
}

/// The number of the first event of none of so many feeds.
pub fn first_outside(count: usize, journal: &[Event]) -> Option<u32>
    ensures { result ≡ option_map (λ event. event.number) (first_outside count journal.now) }
{
    let mut rest = journal;
    while let [event, later @ ..] = rest {
        if is_outside(count, event) {
            return Some(event.number);
        }
        rest = later;
    }
    None
}
