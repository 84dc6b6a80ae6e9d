//! Numbers as they are shown.
use std::fmt;

/// Milliseconds, as seconds with three decimals.
#[derive(Clone, Copy)]
pub(crate) struct Seconds(pub(crate) u64);

impl fmt::Display for Seconds {
    fn fmt<W: fmt::Write>(&self, f: &mut fmt::Formatter<W>) -> fmt::Result {
        write!(f, "{}.{:03}", self.0 / 1000, self.0 % 1000)
    }
}

/// A price in units of 0.005.
#[derive(Clone, Copy)]
pub(crate) struct Price(pub(crate) u32);

impl fmt::Display for Price {
    fn fmt<W: fmt::Write>(&self, f: &mut fmt::Formatter<W>) -> fmt::Result {
        write!(f, "{}.{:03}", self.0 / 200, self.0 % 200 * 5)
    }
}

/// A price in cents.
#[derive(Clone, Copy)]
pub(crate) struct Cents(pub(crate) u32);

impl fmt::Display for Cents {
    fn fmt<W: fmt::Write>(&self, f: &mut fmt::Formatter<W>) -> fmt::Result {
        write!(f, "{}.{:02}", self.0 / 100, self.0 % 100)
    }
}

/// A side of a quote; `-` where there is none.
#[derive(Clone, Copy)]
pub(crate) struct QuoteSide(pub(crate) Option<u32>);

impl fmt::Display for QuoteSide {
    fn fmt<W: fmt::Write>(&self, f: &mut fmt::Formatter<W>) -> fmt::Result {
        match self.0 {
            Some(cents) => write!(f, "{}", Cents(cents)),
            None => f.write_str("-"),
        }
    }
}

/// How long ago something was: to the tenth of a second below a minute, and then in minutes and hours.
#[derive(Clone, Copy)]
pub(crate) struct Age(pub(crate) u64);

impl fmt::Display for Age {
    fn fmt<W: fmt::Write>(&self, f: &mut fmt::Formatter<W>) -> fmt::Result {
        let seconds = self.0 / 1000;
        if seconds < 60 {
            return write!(f, "{seconds}.{} s", self.0 % 1000 / 100);
        }
        if seconds < 3600 {
            return write!(f, "{} min {:02} s", seconds / 60, seconds % 60);
        }
        write!(f, "{} h {:02} min", seconds / 3600, seconds % 3600 / 60)
    }
}

/// A count with a thin space before each three digits.
#[derive(Clone, Copy)]
pub(crate) struct Count(pub(crate) u64);

impl fmt::Display for Count {
    fn fmt<W: fmt::Write>(&self, f: &mut fmt::Formatter<W>) -> fmt::Result {
        let rest = self.0 % 1000;
        let thousands = self.0 / 1000 % 1000;
        let millions = self.0 / 1_000_000;
        if millions > 0 {
            return write!(f, "{millions},{thousands:03},{rest:03}");
        }
        if thousands > 0 {
            return write!(f, "{thousands},{rest:03}");
        }
        write!(f, "{rest}")
    }
}
