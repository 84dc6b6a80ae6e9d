//! Moments: a date of the calendar and a time of its day.
ghost use Rattle.std.specs.Prelude.{◌≡◌, ◌<◌, ◌≤◌, length, IfSome, pos, neg_ℤ, ◌≤ℤ◌};
ghost use Rattle.fix_fields.specs.Forms.{civil_day, day_number, second_of_day, milliseconds, moment_of};

use crate::forms::numeral;
use jiff_core::civil::Date;

/// The first millisecond of the year 0000 and the last of the year 9999, counted from 1970-01-01 00:00 UTC.
pub const FIRST_MOMENT: i64 = -62_167_219_200_000;

pub const LAST_MOMENT: i64 = 253_402_300_799_999;

/// The day number of a date of the years 0 to 9999, counted from 1970-01-01, where the calendar has that date.
fn civil_day(year: u64, month: u64, day: u64) -> Option<i64>
    requires year { year < 10000 }
    requires month { month < 100 }
    requires day { day < 100 }
    ensures value { result ≡ civil_day year month day }
    ensures bound { IfSome result (λ number. (neg_ℤ (pos 719_528) ≤ℤ number) × (number ≤ℤ pos 2_932_896)) }
{
    match Date::new(year as i16, month as i8, day as i8) {
        Ok(date) => Some(date.to_unix_epoch_day() as i64),
        Err(_) => None,
    }
}

/// The day number of `YYYYMMDD`, where the calendar has that date.
#[tactic(auto, unfolding(crate::specs::Forms::day_number))]
fn day_number(text: &[u8]) -> Option<i64>
    requires { length text.now ≡ 8 }
    ensures value { result ≡ day_number text.now }
    ensures bound { IfSome result (λ day. (neg_ℤ (pos 719_528) ≤ℤ day) × (day ≤ℤ pos 2_932_896)) }
{
    let year = numeral(&text[..4])?;
    let month = numeral(&text[4..6])?;
    let day = numeral(&text[6..8])?;
    civil_day(year, month, day)
}

/// The second of the day of `HH:MM:SS`.
#[tactic(auto, unfolding(crate::specs::Forms::second_of_day))]
fn second_of_day(text: &[u8]) -> Option<u32>
    requires { length text.now ≡ 8 }
    ensures value { result ≡ second_of_day text.now }
    ensures bound { IfSome result (λ second. second < 86_400) }
{
    if text[2] != b':' || text[5] != b':' {
        return None;
    }
    let hour = numeral(&text[..2])?;
    let minute = numeral(&text[3..5])?;
    let second = numeral(&text[6..8])?;
    if hour > 23 || minute > 59 || second > 59 {
        return None;
    }
    Some((hour as u32 * 60 + minute as u32) * 60 + second as u32)
}

/// What stands behind the seconds, in milliseconds. What is behind the third place is dropped.
#[tactic(auto, unfolding(crate::specs::Forms::milliseconds))]
fn milliseconds(text: &[u8]) -> Option<u32>
    ensures value { result ≡ milliseconds text.now }
    ensures bound { IfSome result (λ counted. counted < 1000) }
{
    if text.is_empty() {
        return Some(0);
    }
    if text[0] != b'.' || (text.len() != 4 && text.len() != 7 && text.len() != 10) {
        return None;
    }
    let counted = numeral(&text[1..4])?;
    let _below = numeral(&text[4..])?;
    Some(counted as u32)
}

/// A moment `YYYYMMDD-HH:MM:SS`, with or without a point and 3, 6 or 9 digits behind it, in milliseconds since
/// 1970-01-01 00:00 UTC (FIX type UTCTimestamp, without a leap second). The date is one of the Gregorian calendar in
/// the years 0000 to 9999, and what is behind the millisecond is dropped. Other bytes give `None`.
#[tactic(auto, unfolding(crate::specs::Forms::moment_of))]
pub fn moment(bytes: &[u8]) -> Option<i64>
    ensures value { result ≡ moment_of bytes.now }
    ensures within { IfSome result (λ moment. (FIRST_MOMENT ≤ℤ moment) × (moment ≤ℤ LAST_MOMENT)) }
{
    if bytes.len() < 17 || bytes[8] != b'-' {
        return None;
    }
    let day = day_number(&bytes[..8])?;
    let second = second_of_day(&bytes[9..17])?;
    let behind = milliseconds(&bytes[17..])?;
    Some(day * 86_400_000 + (second * 1000 + behind) as i64)
}
