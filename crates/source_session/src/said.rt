//! What a piece of the source's bytes came to.
ghost use Rattle.std.specs.Prelude.{◌≡◌, []};

use quote_flow::MarketQuote;
use std::alloc::Global;

/// A snapshot that was refused.
#[derive(Clone, Copy, Debug, PartialEq, Eq)]
pub struct Refused {
    /// MsgSeqNum(34) of the snapshot.
    pub number: u32,
    /// RefTagID(371): the tag that fails a check.
    pub tag: u32,
    /// SessionRejectReason(373).
    pub reason: u8,
}

/// What came, and what is to be sent.
#[derive(Drop)]
pub struct Said {
    /// The quotes of the snapshots that were taken, in their order.
    pub quotes: Vec<MarketQuote>,
    /// The snapshots that were refused: each costs itself alone.
    pub refused: Vec<Refused>,
    /// The bytes that are to be sent to the source.
    pub replies: Vec<u8>,
    /// The source refused what we sent: by a Reject(35=3), a BusinessMessageReject(35=j) or a MarketDataRequestReject(35=Y).
    pub complains: bool,
}

impl Said {
    /// Nothing came yet. This takes no memory.
    pub fn new(alloc: Global) -> Said {
        Said {
            quotes: Vec::new(alloc),
            refused: Vec::new(alloc),
            replies: Vec::new(alloc),
            complains: false,
        }
    }

    /// Forgets what came.
    pub fn clear(&mut self)
        ensures { self.new.quotes.items ≡ [] }
    {
        self.quotes.clear();
        self.refused.clear();
        self.replies.clear();
        self.complains = false;
    }
}
