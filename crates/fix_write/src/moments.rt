//! Moments as FIX writes them.
ghost use Rattle.std.specs.Prelude.{◌≡◌, ◌<◌, ◌++◌, pos, ◌+ℤ◌, OnOk};
ghost use Rattle.fix_write.specs.Moments.{civil_of, date_text, clock_text, milliseconds_of, moment_text};

use crate::digits::digit;
use jiff_core::civil::Date;
use venue_words::NoMemory;

/// The milliseconds from 0000-01-01 to 1970-01-01.
const EPOCH: i64 = 62_167_219_200_000;

/// The last millisecond of the year 9999, from 1970-01-01 on.
const LAST: i64 = 253_402_300_799_999;

const DAY: u64 = 86_400_000;

/// The days from -9999-01-01, the calendar's first, to 0000-01-01.
const FIRST_DAY: u32 = 3_652_059;

/// The date of a day, which is counted from 0000-01-01.
fn date_of(day: u32) -> Date
    requires { day < 3_652_425 }
    ensures year { result.year ≡ pos (civil_of day).year }
    ensures month { result.month ≡ (civil_of day).month }
    ensures day_of_month { result.day ≡ (civil_of day).day }
{
    Date::from_days_since_min(FIRST_DAY + day)
}

/// `YYYYMMDD` of a day, which is counted from 0000-01-01.
#[tactic(auto, unfolding(crate::specs::Moments::date_text, crate::specs::Digits::two_digits, crate::specs::Digits::four_digits))]
fn date_digits(day: u32) -> [u8; 8]
    requires { day < 3_652_425 }
    ensures { result ≡ date_text day }
{
    let date = date_of(day);
    let year = u32::from(date.year.unsigned_abs());
    let month = u32::from(date.month);
    let day = u32::from(date.day);
    [
        digit(year / 1000),
        digit(year / 100),
        digit(year / 10),
        digit(year),
        digit(month / 10),
        digit(month),
        digit(day / 10),
        digit(day),
    ]
}

/// `HH:MM:SS.sss` of a millisecond of the day.
#[tactic(auto, unfolding(crate::specs::Moments::clock_text, crate::specs::Digits::two_digits, crate::specs::Digits::three_digits))]
fn clock_digits(millisecond: u32) -> [u8; 12]
    ensures { result ≡ clock_text millisecond }
{
    let second = millisecond / 1000;
    let hour = second / 3600;
    let minute = second / 60 % 60;
    let part = millisecond % 1000;
    [
        digit(hour / 10),
        digit(hour),
        b':',
        digit(minute / 10),
        digit(minute),
        b':',
        digit(second % 60 / 10),
        digit(second % 60),
        b'.',
        digit(part / 100),
        digit(part / 10),
        digit(part),
    ]
}

/// The milliseconds from 0000-01-01 00:00 to a moment, or to the nearest one of the years 0 to 9999.
#[tactic(auto, unfolding(crate::specs::Moments::milliseconds_of))]
fn since_year_zero(moment: i64) -> u64
    ensures value { result ≡ milliseconds_of moment }
    ensures bound { result < 315_569_520_000_000 }
{
    (moment.clamp(-EPOCH, LAST) + EPOCH) as u64
}

/// Appends `YYYYMMDD-HH:MM:SS.sss` of a moment, which counts milliseconds since 1970-01-01 00:00 UTC. A moment
/// outside the years 0 to 9999 is written as the nearest one inside. After a refusal the text may hold a part of it.
#[tactic(auto, unfolding(crate::specs::Moments::moment_text))]
pub fn push_moment(out: &mut Vec<u8>, moment: i64) -> Result<(), NoMemory>
    ensures { OnOk result (out.new.items ≡ out.old.items ++ moment_text moment) }
{
    let milliseconds = since_year_zero(moment);
    out.extend_from_slice(&date_digits((milliseconds / DAY) as u32))?;
    out.push(b'-')?;
    out.extend_from_slice(&clock_digits((milliseconds % DAY) as u32))?;
    Ok(())
}
