//! The axis of time, or of events where a day stands at one moment.
use crate::svg::{push, push_commas, push_two, push_with};
use fix_write::push_moment;
use std::alloc::Global;
use venue_words::NoMemory;

/// A chart has at most so many columns.
pub const MOST_COLUMNS: usize = 480;

/// So many milliseconds has a day.
const DAY: u64 = 86_400_000;

/// From the first day of year 0 to that of 1970, in milliseconds.
const BEFORE_1970: i64 = 62_167_219_200_000;

/// The widths of columns in milliseconds. Each is a multiple of the one before, so that columns are merged whole.
const TIMES: [u64; 19] = [
    1, 2, 10, 20, 100, 200, 1_000, 2_000, 10_000, 20_000, 60_000, 120_000, 600_000, 1_200_000,
    3_600_000, 7_200_000, 21_600_000, 43_200_000, 86_400_000,
];

/// The distances between ticks in milliseconds.
const GAPS: [u64; 26] = [
    1, 2, 5, 10, 20, 50, 100, 200, 500, 1_000, 2_000, 5_000, 10_000, 15_000, 30_000, 60_000,
    120_000, 300_000, 600_000, 900_000, 1_800_000, 3_600_000, 7_200_000, 21_600_000, 43_200_000,
    86_400_000,
];

/// What an axis counts.
#[derive(Clone, Copy, Debug, PartialEq, Eq)]
pub enum Axis {
    /// Milliseconds since the first day of year 0.
    Time,
    /// Events by their numbers.
    Events,
}

/// The place of a moment on an axis of time.
pub fn time_at(moment: i64) -> u64 {
    u64::try_from(moment.saturating_add(BEFORE_1970)).unwrap_or(0)
}

/// The moment of a place on an axis of time.
fn moment_of(at: u64) -> i64 {
    i64::try_from(at)
        .unwrap_or(i64::MAX)
        .saturating_sub(BEFORE_1970)
}

impl Axis {
    /// The width of columns at a step.
    pub fn width(self, step: usize) -> u64 {
        match self {
            Axis::Time => TIMES.get(step).copied().unwrap_or(DAY),
            Axis::Events => {
                let mut width = 1u64;
                for k in 0..step {
                    width = width.saturating_mul(if k % 2 == 0 { 2 } else { 5 });
                }
                width
            }
        }
    }

    /// The least step at which so much needs no more columns than a chart has.
    pub fn step_for(self, first: u64, last: u64) -> usize {
        for step in 0..40 {
            let width = self.width(step).max(1);
            let columns = (last / width).saturating_sub(first / width);
            if columns < MOST_COLUMNS as u64 {
                return step;
            }
        }
        40
    }

    /// The distance between ticks.
    fn gap(self, first: u64, last: u64) -> u64 {
        match self {
            Axis::Time => time_gap(first, last),
            Axis::Events => event_gap(first, last),
        }
    }
}

fn event_gap(first: u64, last: u64) -> u64 {
    let mut gap = 1u64;
    for k in 0..60 {
        if last.saturating_sub(first) / gap.max(1) <= 8 {
            return gap;
        }
        gap = match k % 3 {
            0 | 2 => gap.saturating_mul(2),
            _ => gap.saturating_mul(5) / 2,
        };
    }
    gap
}

fn time_gap(first: u64, last: u64) -> u64 {
    for gap in GAPS {
        let gap = gap.max(1);
        let most = if first / DAY != last / DAY {
            5
        } else if gap >= 60_000 {
            9
        } else if gap >= 1_000 {
            6
        } else {
            4
        };
        if (last / gap).saturating_sub(first / gap) <= most {
            return gap;
        }
    }
    DAY
}

const MONTHS: [&[u8]; 12] = [
    b"January",
    b"February",
    b"March",
    b"April",
    b"May",
    b"June",
    b"July",
    b"August",
    b"September",
    b"October",
    b"November",
    b"December",
];

const WEEKDAYS: [&[u8]; 7] = [
    b"Saturday",
    b"Sunday",
    b"Monday",
    b"Tuesday",
    b"Wednesday",
    b"Thursday",
    b"Friday",
];

/// The text of a place in time: `YYYYMMDD-HH:MM:SS.sss`.
fn moment_text(alloc: Global, at: u64) -> Result<Vec<u8>, NoMemory> {
    let mut text = Vec::new(alloc);
    push_moment(&mut text, moment_of(at))?;
    Ok(text)
}

/// The number of two digits of a text.
fn two_at(text: &[u8], place: usize) -> usize {
    let tens = text
        .get(place)
        .copied()
        .unwrap_or(b'0')
        .saturating_sub(b'0');
    let ones = text
        .get(place.saturating_add(1))
        .copied()
        .unwrap_or(b'0')
        .saturating_sub(b'0');
    usize::from(tens)
        .saturating_mul(10)
        .saturating_add(usize::from(ones))
}

/// The name of the month of a text.
fn month_of(text: &[u8]) -> &'static [u8] {
    MONTHS
        .get(two_at(text, 4).saturating_sub(1))
        .copied()
        .unwrap_or(b"")
}

/// Appends the day and the month of a place in time: `02 Jan`.
fn push_date(alloc: Global, out: &mut Vec<u8>, at: u64) -> Result<(), NoMemory> {
    let text = moment_text(alloc, at)?;
    push_two(out, two_at(&text, 6) as u64)?;
    push(out, b" ")?;
    push(out, month_of(&text).get(..3).unwrap_or(b""))
}

/// Appends the date of a place in time in words: `Tuesday 2 January 2024`.
pub fn push_date_words(alloc: Global, out: &mut Vec<u8>, at: u64) -> Result<(), NoMemory> {
    let text = moment_text(alloc, at)?;
    let weekday: &[u8] = WEEKDAYS
        .get((at / DAY % 7) as usize)
        .copied()
        .unwrap_or(b"");
    push(out, weekday)?;
    push_with(out, b" # ", &[two_at(&text, 6) as u64])?;
    push(out, month_of(&text))?;
    push(out, b" ")?;
    push(out, text.get(..4).unwrap_or(b""))
}

/// Appends the time of day of a place, as exact as the distance between ticks.
pub fn push_clock(out: &mut Vec<u8>, at: u64, gap: u64) -> Result<(), NoMemory> {
    let of_day = at % DAY;
    push_two(out, of_day / 3_600_000)?;
    push(out, b":")?;
    push_two(out, of_day / 60_000 % 60)?;
    if gap >= 60_000 {
        return Ok(());
    }
    push(out, b":")?;
    push_two(out, of_day / 1_000 % 60)?;
    if gap >= 1_000 {
        return Ok(());
    }
    push(out, b".")?;
    let rest = of_day % 1_000;
    push_with(out, b"###", &[rest / 100, rest / 10 % 10, rest % 10])
}

/// Appends in words how wide columns are: `minute`, `2 minutes`.
pub fn push_width(out: &mut Vec<u8>, axis: Axis, width: u64) -> Result<(), NoMemory> {
    let (unit, one): (u64, &[u8]) = match axis {
        Axis::Events => (1, b"event"),
        Axis::Time if width >= 3_600_000 => (3_600_000, b"hour"),
        Axis::Time if width >= 60_000 => (60_000, b"minute"),
        Axis::Time if width >= 1_000 => (1_000, b"second"),
        Axis::Time => (1, b"millisecond"),
    };
    let many = width / unit.max(1);
    if many == 1 {
        return push(out, one);
    }
    push_commas(out, many)?;
    push(out, b" ")?;
    push(out, one)?;
    push(out, b"s")
}

/// Where ticks stand: between these places, on columns that begin and end there.
#[derive(Clone, Copy)]
pub struct Stretch {
    pub axis: Axis,
    pub first: u64,
    pub last: u64,
    /// Where the first column begins, and how much all of them cover.
    pub start: u64,
    pub span: u64,
}

impl Stretch {
    /// How far across a place is, in hundredths of a percent.
    pub fn across(&self, at: u64) -> u64 {
        let far = u128::from(at.saturating_sub(self.start)) * 10_000;
        let part = far / u128::from(self.span.max(1));
        u64::try_from(part).unwrap_or(10_000).min(10_000)
    }
}

/// Appends the label of a tick.
fn push_label(
    alloc: Global,
    out: &mut Vec<u8>,
    stretch: &Stretch,
    at: u64,
    gap: u64,
) -> Result<(), NoMemory> {
    match stretch.axis {
        Axis::Events => push_commas(out, at),
        Axis::Time => {
            if stretch.first / DAY != stretch.last / DAY {
                push_date(alloc, out, at)?;
                push(out, b" ")?;
            }
            push_clock(out, at, gap)
        }
    }
}

/// Appends a tick: a line through each panel, of which the top and the bottom are given, and its label below.
fn push_tick(
    alloc: Global,
    out: &mut Vec<u8>,
    stretch: &Stretch,
    panels: &[(u64, u64)],
    tick: (u64, u64, bool),
    below: u64,
) -> Result<(), NoMemory> {
    let (at, gap, is_odd) = tick;
    let x = stretch.across(at);
    for (top, bottom) in panels {
        push_with(
            out,
            b"<line class=\"g\" x1=\"@\" x2=\"@\" y1=\"#\" y2=\"#\"/>",
            &[x, x, *top, *bottom],
        )?;
    }
    let anchor: &[u8] = if x <= 250 {
        b"a"
    } else if x > 9_700 {
        b"z"
    } else {
        b"c"
    };
    push(out, b"<text class=\"")?;
    push(out, anchor)?;
    push(out, if is_odd { b" odd" } else { b"" })?;
    push_with(out, b"\" x=\"@\" y=\"#\">", &[x, below])?;
    push_label(alloc, out, stretch, at, gap)?;
    push(out, b"</text>")
}

/// Appends all ticks, and what the axis counts.
pub fn push_ticks(
    alloc: Global,
    out: &mut Vec<u8>,
    stretch: &Stretch,
    panels: &[(u64, u64)],
    below: u64,
) -> Result<(), NoMemory> {
    let gap = stretch.axis.gap(stretch.first, stretch.last).max(1);
    let mut at = (stretch.first.saturating_add(gap.saturating_sub(1)) / gap).saturating_mul(gap);
    for k in 0..16 {
        if at > stretch.last {
            break;
        }
        push_tick(alloc, out, stretch, panels, (at, gap, k % 2 == 1), below)?;
        at = at.saturating_add(gap);
    }
    push_with(
        out,
        b"<text class=\"r\" x=\"100%\" dx=\"8\" y=\"#\">",
        &[below],
    )?;
    push(
        out,
        match stretch.axis {
            Axis::Time => b"UTC",
            Axis::Events => b"event",
        },
    )?;
    push(out, b"</text>")
}
