//! Numbers and amounts.
ghost use Rattle.std.specs.Prelude.{◌≡◌, ℕ, ◌+◌, ◌*◌, ◌^◌, ◌<◌, ◌≤◌, ◌==◌, length, Option, IfSome};
ghost use Rattle.std.specs.List.{before_first, after_first, position};
ghost use Rattle.fix_fields.specs.Forms.{is_point, numeral, number_of, unsigned_amount, amount_of};

/// The value of digits, or none where a byte is no digit. No digits are worth 0.
#[tactic(auto, unfolding(crate::specs::Forms::numeral), using(crate::proofs::Numerals::digit_room))]
pub(crate) fn numeral(bytes: &[u8]) -> Option<u64>
    requires { length bytes.now ≤ 18 }
    ensures value { result ≡ numeral bytes.now }
    ensures bound { IfSome result (λ value. value < 10 ^ length bytes.now) }
{
    let mut value: u64 = 0;
    for byte in bytes {
        if !byte.is_ascii_digit() {
            return None;
        }
        value = value * 10 + (*byte - b'0') as u64;
    }
    Some(value)
}

/// A number: 1 to 9 digits, of which the first may be 0 (FIX type int without a sign, NumInGroup and Length).
/// Other bytes give `None`.
#[tactic(auto, unfolding(crate::specs::Forms::number_of))]
pub fn number(bytes: &[u8]) -> Option<u32>
    ensures value { result ≡ number_of bytes.now }
    ensures small { IfSome result (λ number. number < 1000000000) }
{
    if bytes.is_empty() || bytes.len() > 9 {
        return None;
    }
    match numeral(bytes) {
        Some(value) => Some(value as u32),
        None => None,
    }
}

/// The first place of a byte.
pub(crate) fn place_of(byte: u8, bytes: &[u8]) -> Option<usize>
    ensures { result ≡ position (λ other. other == byte) bytes.now }
{
    bytes.iter().position(|other| *other == byte)
}

/// What stands before the first point and behind it.
fn split_at_point(bytes: &[u8]) -> (&[u8], &[u8])
    ensures whole { result.0.now ≡ before_first is_point bytes.now }
    ensures fraction { result.1.now ≡ after_first is_point bytes.now }
{
    match place_of(b'.', bytes) {
        Some(at) => (&bytes[..at], &bytes[at + 1..]),
        None => (bytes, &bytes[bytes.len()..]),
    }
}

/// So many of the units that have so many places more.
fn scaled(parts: u64, places: u32) -> u128
    requires { places ≤ 8 }
    ensures value { result ≡ parts * 10 ^ places }
    ensures bound { result < 2 ^ 96 }
{
    let parts = parts as u128;
    match places {
        0 => parts,
        1 => parts * 10,
        2 => parts * 100,
        3 => parts * 1_000,
        4 => parts * 10_000,
        5 => parts * 100_000,
        6 => parts * 1_000_000,
        7 => parts * 10_000_000,
        _ => parts * 100_000_000,
    }
}

/// An amount without its sign, in units of 10^-8.
#[tactic(auto, unfolding(crate::specs::Forms::unsigned_amount))]
fn unsigned_amount(bytes: &[u8]) -> Option<u128>
    ensures value { result ≡ unsigned_amount bytes.now }
    ensures bound { IfSome result (λ units. units < 2 ^ 98) }
{
    let (whole, fraction) = split_at_point(bytes);
    if whole.len() > 18 || fraction.len() > 8 || whole.len() + fraction.len() == 0 {
        return None;
    }
    let units = numeral(whole)?;
    let parts = numeral(fraction)?;
    Some(units as u128 * 100_000_000 + scaled(parts, 8 - fraction.len() as u32))
}

/// An amount in units of 10^-8: an optional `-`, then digits with an optional point among or around them, at least
/// one digit, at most 18 before the point and 8 behind it (FIX types Qty, Price, PriceOffset and float). Other bytes
/// give `None`.
#[tactic(auto, unfolding(crate::specs::Forms::amount_of))]
pub fn amount(bytes: &[u8]) -> Option<i128>
    ensures { result ≡ amount_of bytes.now }
{
    if !bytes.is_empty() && bytes[0] == b'-' {
        let units = unsigned_amount(&bytes[1..])?;
        return Some(-(units as i128));
    }
    let units = unsigned_amount(bytes)?;
    Some(units as i128)
}
