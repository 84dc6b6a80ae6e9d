//! The words of a line, and what single words tell.
ghost use Rattle.std.specs.Prelude.{◌≡◌, ◌<◌, ◌≤◌, ◌^◌, ◌==◌, true, length};
ghost use Rattle.venue_words.specs.Conditions.{fits_quote};
ghost use Rattle.listing_reader.specs.Told.{first_word, behind_word, place_in, told_number, told_moment, told_side};

use fix_fields::{moment, number};
use quote_intake::{number_in, price, space_at};
use venue_words::Bytes;

/// The first word of a text, and what stands behind its space.
pub fn split_word(text: &[u8]) -> (&[u8], &[u8])
    ensures first { result.0.now ≡ first_word text.now }
    ensures rest { result.1.now ≡ behind_word text.now }
{
    match space_at(text) {
        Some(at) => (&text[..at], &text[at + 1..]),
        None => (text, &text[text.len()..]),
    }
}

/// The place of a name; where it is not there, the one behind the last.
pub fn place_in(names: &[Bytes], name: &[u8]) -> u32
    requires { length names.now < 2 ^ 32 }
    ensures { result ≡ place_in names.now name.now }
{
    match number_in(names, name) {
        Some(place) => place,
        None => names.len() as u32,
    }
}

/// The number that a word writes, or 0.
pub fn told_number(text: &[u8]) -> u32
    ensures { result ≡ told_number text.now }
{
    match number(text) {
        Some(number) => number,
        None => 0,
    }
}

/// The moment that a word writes, or 1970-01-01 00:00 UTC.
pub fn told_moment(text: &[u8]) -> i64
    ensures { result ≡ told_moment text.now }
{
    match moment(text) {
        Some(moment) => moment,
        None => 0,
    }
}

/// The side of a quote that a word writes, or no price.
pub fn told_side(text: &[u8]) -> Option<u32>
    ensures { result ≡ told_side text.now }
{
    match price(text) {
        Some(side) => side,
        None => None,
    }
}
