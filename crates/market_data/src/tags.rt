//! The tags of the fields of a snapshot, under their FIX names.
pub use order_fields::tags::SYMBOL;

/// How many entries the snapshot has.
pub const NO_MD_ENTRIES: u32 = 268;

/// What an entry tells; with it each entry begins.
pub const MD_ENTRY_TYPE: u32 = 269;

/// The price of an entry.
pub const MD_ENTRY_PX: u32 = 270;

/// The market of an entry.
pub const MD_MKT: u32 = 275;
