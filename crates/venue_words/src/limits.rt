//! The limits of the venue, and the names that it goes by: each stands here alone.

/// The most members of a config.
pub const MAX_MEMBERS: usize = 256;

/// The most markets of a config.
pub const MAX_MARKETS: usize = 32;

/// The most symbols of a config.
pub const MAX_SYMBOLS: usize = 256;

/// The longest name of a member, a market or a symbol, in bytes.
pub const MAX_NAME_BYTES: usize = 16;

/// The most events of a symbol's journal, and the most that all symbols of a config may have together.
pub const MAX_EVENTS: u32 = 2_097_152;

/// The longest ClOrdID(11) or OrigClOrdID(41), in bytes.
pub const MAX_ID_BYTES: usize = 64;

/// The greatest bid or offer, in cents.
pub const MAX_CENTS: u32 = 1_999_999;

/// The most feeds of one run.
pub const MAX_FEEDS: usize = 64;

/// The longest frame of FIX, in bytes, from BeginString(8) to the end of CheckSum(10).
pub const MAX_FRAME_BYTES: usize = 8_192;

/// The longest line of a script, a config or a feed, in bytes without its LF.
pub const MAX_LINE_BYTES: usize = 16_384;

/// The most bytes of a script, and of a file of quotes.
pub const MAX_SCRIPT_BYTES: u64 = 1_073_741_824;

/// The most bytes of a config and its feeds together, and of a config by itself.
pub const MAX_CONFIG_BYTES: u64 = 536_870_912;

/// The most bytes of a day's script whose lines are kept in a journal.
pub const MAX_DAY_BYTES: u64 = 268_435_456;

/// SOH, the byte that ends each field of FIX.
pub const SOH: u8 = 1;

/// The venue's CompID: SenderCompID(49) of what it sends, and TargetCompID(56) of what it takes.
pub const VENUE: &[u8; 4] = b"PEGV";
