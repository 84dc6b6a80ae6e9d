//! Lines of symbols and of events.
ghost use Rattle.std.specs.Prelude.{◌≡◌, ◌&&◌, ℕ, true, Some, IfOk, IfSome};
ghost use Rattle.venue_words.specs.declared.command.Event.{Event};
ghost use Rattle.venue_words.specs.Conditions.{IsConfig};
ghost use Rattle.listing.specs.Commands.{name_at};
ghost use Rattle.listing.specs.Lines.{symbol_line, event_line};
ghost use Rattle.listing_reader.specs.Fitting.{has_word_names, fits_number, fits_event};
ghost use Rattle.listing_reader.specs.Told.{told_words, told_event, told_counts};

use crate::commands::told_command;
use crate::fitting::{fits_event, fits_number};
use crate::words::{split_word, told_moment, told_number};
use listing::{name_at, push_event_line, push_symbol_line};
use std::alloc::Global;
use venue_words::{Config, Event, NoMemory};

// ---- symbols

/// How many events a symbol has, and how many reports they made.
#[derive(Clone, Copy, Debug, PartialEq, Eq)]
pub struct Counts {
    pub events: u32,
    pub reports: u32,
}

/// The counts that the words of a symbol's line tell.
#[tactic(auto, unfolding(crate::specs::Told::told_counts))]
fn told_counts(text: &[u8]) -> Counts
    ensures { result ≡ told_counts text.now }
{
    let (_, text) = split_word(text);
    let (_, text) = split_word(text);
    let (events, reports) = split_word(text);
    Counts {
        events: told_number(events),
        reports: told_number(reports),
    }
}

fn fits_counts(counts: Counts) -> bool
    ensures { result ≡ (fits_number counts.events && fits_number counts.reports) }
{
    fits_number(counts.events) && fits_number(counts.reports)
}

/// The line of a symbol without its LF.
fn symbol_text(
    alloc: Global,
    config: &Config,
    symbol: u32,
    counts: Counts,
) -> Result<Vec<u8>, NoMemory>
    ensures { IfOk result (λ line. line.items ≡ symbol_line (name_at config.now.symbols symbol) counts.events counts.reports) }
{
    let mut line = Vec::new(alloc);
    let name = name_at(config.symbols.as_slice(), symbol);
    push_symbol_line(
        &mut line,
        name,
        counts.events as usize,
        counts.reports as usize,
    )?;
    line.truncate(line.len() - 1);
    Ok(line)
}

/// Reads the line of a symbol: the counts for which a listing writes just this text, each of at most nine digits, or none
/// where there are no such counts.
pub fn read_symbol(
    alloc: Global,
    text: &[u8],
    config: &Config,
    symbol: u32,
) -> Result<Option<Counts>, NoMemory>
    requires { has_word_names config.now ≡ true }

    // What is read is written so.
    ensures told { IfOk result (λ found. IfSome found (λ counts.
        (symbol_line (name_at config.now.symbols symbol) counts.events counts.reports ≡ text.now)
        × (fits_number counts.events ≡ true) × (fits_number counts.reports ≡ true))) }

    // What is written so is read.
    ensures only { IfOk result (λ found. (events reports : ℕ) → fits_number events ≡ true → fits_number reports ≡ true →
        symbol_line (name_at config.now.symbols symbol) events reports ≡ text.now →
        found ≡ Some (record { events = events; reports = reports })) }
{
    let counts = told_counts(text);
    if !fits_counts(counts) {
        return Ok(None);
    }
    let line = symbol_text(alloc, config, symbol, counts)?;
    if line.as_slice() == text {
        Ok(Some(counts))
    } else {
        Ok(None)
    }
}

// ---- events

/// The event of the words behind the symbol.
#[tactic(auto, unfolding(crate::specs::Told::told_words))]
fn told_words(alloc: Global, text: &[u8], config: &Config) -> Result<Event, NoMemory>
    requires { IsConfig config.now }
    ensures { IfOk result (λ event. event ≡ told_words config.now text.now) }
{
    let (number, text) = split_word(text);
    let (feed, text) = split_word(text);
    let (moment, text) = split_word(text);
    Ok(Event {
        number: told_number(number),
        feed: told_number(feed),
        moment: told_moment(moment),
        command: told_command(alloc, text, config)?,
    })
}

/// The event of a line. Of a text that is no line of an event it is some other event.
fn told_event(alloc: Global, text: &[u8], config: &Config) -> Result<Event, NoMemory>
    requires { IsConfig config.now }
    ensures { IfOk result (λ event. event ≡ told_event config.now text.now) }
{
    let (_, behind) = split_word(text);
    let (_, behind) = split_word(behind);
    told_words(alloc, behind, config)
}

/// The line of an event without its LF.
fn event_text(
    alloc: Global,
    config: &Config,
    symbol: u32,
    event: &Event,
) -> Result<Vec<u8>, NoMemory>
    ensures { IfOk result (λ line. line.items ≡ event_line config.now symbol event.now) }
{
    let mut line = Vec::new(alloc);
    let mut fields = Vec::new(alloc);
    push_event_line(&mut line, &mut fields, config, symbol, event)?;
    line.truncate(line.len() - 1);
    Ok(line)
}

/// Reads the line of an event of a symbol: the event for which a listing writes just this text, or none where there is no
/// such event that fits the config's listing. `fits_event` says which events fit.
pub fn read_event(
    alloc: Global,
    text: &[u8],
    config: &Config,
    symbol: u32,
) -> Result<Option<Event>, NoMemory>
    requires config { IsConfig config.now }
    requires names { has_word_names config.now ≡ true }

    // What is read is written so.
    ensures told { IfOk result (λ found. IfSome found (λ event.
        (event_line config.now symbol event ≡ text.now) × (fits_event config.now event ≡ true))) }

    // What is written so is read.
    ensures only { IfOk result (λ found. (event : Event) → fits_event config.now event ≡ true →
        event_line config.now symbol event ≡ text.now → found ≡ Some event) }
{
    let event = told_event(alloc, text, config)?;
    if !fits_event(config, &event) {
        return Ok(None);
    }
    let line = event_text(alloc, config, symbol, &event)?;
    if line.as_slice() == text {
        Ok(Some(event))
    } else {
        Ok(None)
    }
}
