//! What is told of departures. Each call appends its text; after a refusal a part of it may stand there.
ghost use Rattle.std.specs.Prelude.{◌≡◌, ◌<◌, ◌++◌, ◌+◌, length, OnOk, IfSome};
ghost use Rattle.feeds_core.specs.FeedLists.{asked_in};
ghost use Rattle.audit_feeds.specs.FeedsText.{outside_text, departure_line, departure_text, departures_from, departures_text, what_misses, what_departs};

use crate::departures::{Departure, first_departure, first_outside};
use feeds_core::feed_list::FeedList;
use fix_write::digits::push_number;
use listing::name_at;
use venue_words::{Config, Event, NoMemory};

fn push(out: &mut Vec<u8>, text: &[u8]) -> Result<(), NoMemory>
    ensures { OnOk result (out.new.items ≡ out.old.items ++ text.now) }
{
    out.extend_from_slice(text)?;
    Ok(())
}

fn push_what_departs(out: &mut Vec<u8>, event: Option<u32>) -> Result<(), NoMemory>
    ensures { OnOk result (out.new.items ≡ out.old.items ++ what_departs event) }
{
    match event {
        None => Ok(()),
        Some(number) => {
            push(out, b"event ")?;
            push_number(out, u64::from(number))?;
            push(out, b" is not ")
        }
    }
}

fn what_misses(event: Option<u32>) -> &'static [u8]
    ensures { result.now ≡ what_misses event }
{
    match event {
        None => b" is missing",
        Some(_) => b"",
    }
}

/// Appends the line of a departure, where there is one.
#[tactic(auto, unfolding(crate::specs::FeedsText::departure_text, crate::specs::FeedsText::departure_line))]
fn push_departure(
    out: &mut Vec<u8>,
    symbol: &[u8],
    feed: u32,
    departure: Option<Departure>,
) -> Result<(), NoMemory>
    requires { IfSome departure (λ departure. departure.place < 18446744073709551615) }
    ensures { OnOk result (out.new.items ≡ out.old.items ++ departure_text symbol.now feed departure) }
{
    let Some(departure) = departure else {
        return Ok(());
    };
    push(out, symbol)?;
    push(out, b": ")?;
    push_what_departs(out, departure.event)?;
    push(out, b"command ")?;
    push_number(out, departure.place as u64 + 1)?;
    push(out, b" of feed ")?;
    push_number(out, u64::from(feed))?;
    push(out, what_misses(departure.event))?;
    push(out, b"\n")
}

/// Appends the line of the first event of no feed, where there is one.
#[tactic(auto, unfolding(crate::specs::FeedsText::outside_text))]
fn push_outside(out: &mut Vec<u8>, symbol: &[u8], outside: Option<u32>) -> Result<(), NoMemory>
    ensures { OnOk result (out.new.items ≡ out.old.items ++ outside_text symbol.now outside) }
{
    let Some(number) = outside else {
        return Ok(());
    };
    push(out, symbol)?;
    push(out, b": event ")?;
    push_number(out, u64::from(number))?;
    push(out, b" is of no feed\n")
}

/// Appends the lines of feeds.
fn push_feeds(
    out: &mut Vec<u8>,
    name: &[u8],
    symbol: u32,
    journal: &[Event],
    lists: &[FeedList],
) -> Result<(), NoMemory>
    requires { length lists.now < 4294967295 }
    ensures { OnOk result (out.new.items ≡ out.old.items ++ departures_from name.now symbol journal.now 1 (asked_in lists.now)) }
{
    let mut feed = 0;
    let mut rest = lists;
    while let [list, later @ ..] = rest {
        feed += 1;
        let departure = first_departure(journal, feed, list.commands.as_slice(), symbol);
        push_departure(out, name, feed, departure)?;
        rest = later;
    }
    Ok(())
}

/// Appends what is told of a symbol's journal.
#[tactic(auto, unfolding(crate::specs::FeedsText::departures_text))]
pub fn push_departures(
    out: &mut Vec<u8>,
    config: &Config,
    symbol: u32,
    journal: &[Event],
    lists: &[FeedList],
) -> Result<(), NoMemory>
    requires { length lists.now < 4294967295 }
    ensures { OnOk result (out.new.items ≡ out.old.items ++ departures_text (asked_in lists.now) config.now symbol journal.now) }
{
    let name = name_at(config.symbols.as_slice(), symbol);
    push_outside(out, name, first_outside(lists.len(), journal))?;
    push_feeds(out, name, symbol, journal, lists)
}
