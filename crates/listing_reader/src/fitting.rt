//! Which events a line can tell.
ghost use Rattle.std.specs.Prelude.{◌≡◌};
ghost use Rattle.std.specs.List.{list_any};
ghost use Rattle.venue_words.specs.Conditions.{fits_quote, fits_id, fits_limits};
ghost use Rattle.venue_words.specs.Floors.{setup_of, is_configured};
ghost use Rattle.listing_reader.specs.Fitting.{is_space, is_word, are_words, has_word_names, if_there, fits_number, fits_amount, fits_code, fits_text, fits_moment, fits_order_terms, fits_peg_terms, fits_terms, fits_fields, fits_command, fits_event};

use fix_fields::{FIRST_MOMENT, LAST_MOMENT};
use venue_words::limits::{MAX_CENTS, MAX_ID_BYTES, SOH};
use venue_words::{Bytes, Command, Config, Event, Id, Terms};

/// Numbers are below it: they have at most nine digits.
const NUMBER_END: u32 = 1_000_000_000;

/// Amounts without their sign are below it: they have at most 18 digits before the point.
const AMOUNT_END: u128 = 100_000_000_000_000_000_000_000_000;

fn has_space(text: &Bytes) -> bool
    ensures { result ≡ list_any is_space text.now }
{
    text.as_slice().iter().any(|byte| *byte == b' ')
}

fn is_word(text: &Bytes) -> bool
    ensures { result ≡ is_word text.now }
{
    !has_space(text)
}

/// Whether each name is one word.
fn are_words(names: &[Bytes]) -> bool
    ensures { result ≡ are_words names.now }
{
    names.iter().all(is_word)
}

/// Whether each name of a config is one word, so that the words of a listing's lines can be told apart.
#[tactic(auto, unfolding(crate::specs::Fitting::has_word_names))]
pub fn has_word_names(config: &Config) -> bool
    ensures { result ≡ has_word_names config.now }
{
    are_words(config.members.as_slice())
        && are_words(config.markets.as_slice())
        && are_words(config.symbols.as_slice())
}

/// Whether a number has at most nine digits.
pub fn fits_number(number: u32) -> bool
    ensures { result ≡ fits_number number }
{
    number < NUMBER_END
}

fn fits_amount(amount: i128) -> bool
    ensures { result ≡ fits_amount amount }
{
    amount.unsigned_abs() < AMOUNT_END
}

fn fits_code(code: u8) -> bool
    ensures { result ≡ fits_code code }
{
    code != SOH
}

fn fits_text(text: &Id) -> bool
    ensures { result ≡ fits_text text.now }
{
    text.as_slice().iter().all(|byte| fits_code(*byte))
}

fn fits_moment(moment: i64) -> bool
    ensures { result ≡ fits_moment moment }
{
    FIRST_MOMENT <= moment && moment <= LAST_MOMENT
}

fn number_if_there(number: Option<u32>) -> bool
    ensures { result ≡ if_there fits_number number }
{
    match number {
        Some(number) => fits_number(number),
        None => true,
    }
}

fn amount_if_there(amount: Option<i128>) -> bool
    ensures { result ≡ if_there fits_amount amount }
{
    match amount {
        Some(amount) => fits_amount(amount),
        None => true,
    }
}

fn code_if_there(code: Option<u8>) -> bool
    ensures { result ≡ if_there fits_code code }
{
    match code {
        Some(code) => fits_code(code),
        None => true,
    }
}

#[tactic(auto, unfolding(crate::specs::Fitting::fits_order_terms))]
fn fits_order_terms(terms: &Terms) -> bool
    ensures { result ≡ fits_order_terms terms.now }
{
    fits_code(terms.side)
        && fits_amount(terms.quantity)
        && fits_code(terms.kind)
        && amount_if_there(terms.price)
        && code_if_there(terms.force)
        && amount_if_there(terms.minimum)
        && number_if_there(terms.method)
}

#[tactic(auto, unfolding(crate::specs::Fitting::fits_peg_terms))]
fn fits_peg_terms(terms: &Terms) -> bool
    ensures { result ≡ fits_peg_terms terms.now }
{
    number_if_there(terms.peg)
        && amount_if_there(terms.offset)
        && number_if_there(terms.offset_kind)
        && number_if_there(terms.moves)
        && number_if_there(terms.round)
}

fn fits_terms(terms: &Terms) -> bool
    ensures { result ≡ fits_terms terms.now }
{
    fits_order_terms(terms) && fits_peg_terms(terms)
}

/// Whether the values of a command have the forms of fields.
#[tactic(auto, unfolding(crate::specs::Fitting::fits_fields))]
fn fits_fields(command: &Command) -> bool
    ensures { result ≡ fits_fields command.now }
{
    match command {
        Command::Quote { .. } => true,
        Command::New { id, terms, .. } => fits_text(id) && fits_terms(&terms.get()),
        Command::Cancel { id, orig, .. } => fits_text(id) && fits_text(orig.get()),
        Command::Replace {
            id,
            orig,
            terms,
            ..
        } => fits_text(id) && (fits_text(orig.get()) && fits_terms(&terms.get())),
        Command::Status { id, side, .. } => fits_text(id) && fits_code(*side),
    }
}

fn fits_quote(price: Option<u32>) -> bool
    ensures { result ≡ fits_quote price }
{
    match price {
        None => true,
        Some(cents) => 1 <= cents && cents <= MAX_CENTS,
    }
}

fn fits_id(id: &Id) -> bool
    ensures { result ≡ fits_id id.now }
{
    id.as_slice().len() <= MAX_ID_BYTES
}

/// Whether a command keeps to the limits on prices and identifiers.
fn fits_limits(command: &Command) -> bool
    ensures { result ≡ fits_limits command.now }
{
    match command {
        Command::Quote { bid, offer, .. } => fits_quote(*bid) && fits_quote(*offer),
        Command::New { id, .. } => fits_id(id),
        Command::Cancel { id, orig, .. } | Command::Replace { id, orig, .. } => {
            fits_id(id) && fits_id(orig.get())
        }
        Command::Status { id, .. } => fits_id(id),
    }
}

/// Whether what a command names is configured.
fn is_configured(config: &Config, command: &Command) -> bool
    ensures { result ≡ is_configured (setup_of config.now) command.now }
{
    match command {
        Command::Quote { market, .. } => (*market as usize) < config.markets.len(),
        Command::New { member, .. }
        | Command::Cancel { member, .. }
        | Command::Replace { member, .. }
        | Command::Status { member, .. } => (*member as usize) < config.members.len(),
    }
}

#[tactic(auto, unfolding(crate::specs::Fitting::fits_command))]
fn fits_command(config: &Config, command: &Command) -> bool
    ensures { result ≡ fits_command config.now command.now }
{
    is_configured(config, command) && fits_limits(command) && fits_fields(command)
}

/// Whether an event can be told by a line of the config's listing: what it names is configured, it keeps to the limits of
/// the venue, and its values have the forms in which lines write them.
#[tactic(auto, unfolding(crate::specs::Fitting::fits_event))]
pub fn fits_event(config: &Config, event: &Event) -> bool
    ensures { result ≡ fits_event config.now event.now }
{
    fits_number(event.number)
        && fits_number(event.feed)
        && fits_moment(event.moment)
        && fits_command(config, &event.command)
}
