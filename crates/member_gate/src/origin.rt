//! Where a command comes from.
use std::alloc::Global;
use venue_words::Config;

/// Where the commands of a piece come from, and the allocator of what is made of them.
#[derive(Clone, Copy)]
pub struct Origin<'a> {
    pub alloc: Global,
    pub config: &'a Config,
    /// The member's number.
    pub member: u32,
    /// The number of the feed or connection, from 1 on.
    pub feed: u32,
    /// When the piece came, in milliseconds since 1970-01-01 00:00 UTC.
    pub moment: i64,
}
