//! What a venue is set up with.
use crate::bytes::Bytes;
use crate::items::Items;

/// What a venue is set up with. Members, markets and symbols are numbered from 0, in this order.
#[derive(Debug)]
pub struct Config {
    pub members: Items<Bytes>,
    pub markets: Items<Bytes>,
    pub symbols: Items<Bytes>,
    /// The greatest number of events of each symbol.
    pub limits: Items<u32>,
    /// Each symbol's tick in units of 0.005: 2 or 10.
    pub ticks: Items<u32>,
    /// The moment at which the venue begins, in milliseconds since 1970-01-01 00:00 UTC.
    pub begin: i64,
}

// Written out, so that crates above let go of one by this theorem, and not part by part.
impl Drop for Config {
    fn drop(self) {
        let Config {
            members: _,
            markets: _,
            symbols: _,
            limits: _,
            ticks: _,
            begin: _,
        } = self;
    }
}
