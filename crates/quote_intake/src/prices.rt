//! Prices as quotes write them.
ghost use Rattle.std.specs.Prelude.{◌≡◌, ◌≤◌, ◌<◌, ◌^◌, true, IfSome, length};
ghost use Rattle.std.specs.Bool.{OnTrue};
ghost use Rattle.venue_words.specs.Conditions.{fits_quote};
ghost use Rattle.quote_intake.specs.Price.{is_digit, digits_of, has_form, in_range, cents_of, price_of};

use venue_words::limits::MAX_CENTS;

fn is_digit(byte: u8) -> bool
    ensures { result ≡ is_digit byte }
{
    b'0' <= byte && byte <= b'9'
}

/// The number that at most nine digits write, or none where a byte is no digit. No digits write 0.
#[tactic(auto, unfolding(crate::specs::Price::digits_of))]
pub fn digits(text: &[u8]) -> Option<u32>
    requires { length text.now ≤ 9 }
    ensures value { result ≡ digits_of text.now }
    ensures bound { IfSome result (λ number. number < 10 ^ 9) }
{
    let mut value: u32 = 0;
    for byte in text {
        if !is_digit(*byte) {
            return None;
        }
        value = value * 10 + u32::from(*byte - b'0');
    }
    Some(value)
}

#[tactic(auto, unfolding(crate::specs::Price::has_form))]
fn has_form(text: &[u8]) -> bool
    ensures value { result ≡ has_form text.now }
    ensures length { OnTrue result ((4 ≤ length text.now) × (length text.now ≤ 8)) }
{
    4 <= text.len()
        && (text.len() <= 8
            && (text[text.len() - 3] == b'.' && (text.len() == 4 || text[0] != b'0')))
}

#[tactic(auto, unfolding(crate::specs::Price::in_range))]
fn in_range(cents: u64) -> Option<u32>
    ensures value { result ≡ in_range cents }
    ensures fits { fits_quote result ≡ true }
{
    if 1 <= cents && cents <= u64::from(MAX_CENTS) {
        Some(cents as u32)
    } else {
        None
    }
}

/// The cents of a price: digits without a needless 0 in front, a point and two digits, from 0.01 to 19999.99. Any
/// other text gives none.
#[tactic(auto, unfolding(crate::specs::Price::cents_of))]
pub fn cents(text: &[u8]) -> Option<u32>
    ensures value { result ≡ cents_of text.now }
    ensures fits { fits_quote result ≡ true }
{
    if !has_form(text) {
        return None;
    }
    let point = text.len() - 3;
    match (digits(&text[..point]), digits(&text[point + 1..])) {
        (Some(whole), Some(cents)) => in_range(u64::from(whole) * 100 + u64::from(cents)),
        _ => None,
    }
}

/// A side of a quote in cents: `-` is a side without a price. Any other text that is no price gives none.
#[tactic(auto, unfolding(crate::specs::Price::price_of))]
pub fn price(text: &[u8]) -> Option<Option<u32>>
    ensures value { result ≡ price_of text.now }
    ensures fits { IfSome result (λ price. fits_quote price ≡ true) }
{
    if text == b"-".as_slice() {
        return Some(None);
    }
    match cents(text) {
        Some(cents) => Some(Some(cents)),
        None => None,
    }
}
