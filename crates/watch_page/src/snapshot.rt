//! The figures of a day at a moment.
use crate::label::Label;

/// The figures of a day. Moments count milliseconds since 1970-01-01 00:00 UTC.
#[derive(Debug, Drop)]
pub struct Snapshot {
    /// When it was taken.
    pub now: u64,
    /// After how many milliseconds a quote is stale.
    pub stale: u64,
    pub members: Vec<MemberRow>,
    pub symbols: Vec<SymbolRow>,
    pub journal: JournalRow,
    /// Whether the desk answers.
    pub desk: bool,
}

/// A member.
#[derive(Debug, Drop)]
pub struct MemberRow {
    pub name: Label,
    /// Whether his session is up.
    pub up: bool,
    /// MsgSeqNum(34) of the last message that came from him and of the last that was made for him; 0 before the first.
    pub last_in: u32,
    pub last_out: u32,
    /// When bytes of his last came.
    pub seen: Option<u64>,
    /// What the desk tells of his connection.
    pub waiting: Option<Waiting>,
}

/// What waits for a member.
#[derive(Clone, Copy, Debug, Drop)]
pub struct Waiting {
    /// Bytes that wait to be taken.
    pub bytes: u64,
    /// How often systems took his name from each other.
    pub turns: u64,
}

/// A symbol.
#[derive(Debug, Drop)]
pub struct SymbolRow {
    pub name: Label,
    pub events: u32,
    /// The most events that it takes.
    pub limit: u32,
    /// Whether an operator has halted it, where the desk tells.
    pub halted: Option<bool>,
    pub markets: Vec<MarketRow>,
    pub buys: Resting,
    pub sells: Resting,
    /// How many trades there were, of how many shares.
    pub trades: u64,
    pub traded: u64,
    pub last: Option<Trade>,
}

/// A market's quote of a symbol, in cents.
#[derive(Debug, Drop)]
pub struct MarketRow {
    pub name: Label,
    pub bid: Option<u32>,
    pub offer: Option<u32>,
    /// When it came.
    pub since: Option<u64>,
}

/// The orders that rest on a side, and their shares.
#[derive(Clone, Copy, Debug, Drop)]
pub struct Resting {
    pub orders: u64,
    pub shares: u64,
}

/// A trade, its price in units of 0.005.
#[derive(Clone, Copy, Debug, Drop)]
pub struct Trade {
    pub price: u32,
    pub quantity: u32,
    pub moment: u64,
}

/// What of a journal was read.
#[derive(Debug, Drop)]
pub struct JournalRow {
    pub bytes: u64,
    pub lines: u64,
    /// The moment of its last line.
    pub last: Option<u64>,
    pub following: Following,
}

/// How the journal is followed.
#[derive(Clone, Copy, Debug, PartialEq, Eq, Drop)]
pub enum Following {
    /// All its lines are worked.
    Whole,
    /// Lines that stand in it are not yet worked.
    Behind,
    /// The file can't be read at present.
    Unread,
    /// It is damaged at this byte.
    Damaged { at: u64 },
    /// The line of this number is of another program.
    Refused { line: u64 },
    /// It has grown too long, or memory ran out.
    Stopped,
}
