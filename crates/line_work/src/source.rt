//! Where a piece of a stream comes from.
use venue_words::Config;

/// Where a piece of a stream comes from.
#[derive(Clone, Copy, Debug)]
pub struct Source<'a> {
    pub config: &'a Config,
    /// The member's number.
    pub member: u32,
    /// The number of the feed or connection, from 1 on.
    pub feed: u32,
    /// In milliseconds since 1970-01-01 00:00 UTC.
    pub moment: i64,
}
