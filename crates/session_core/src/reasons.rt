//! SessionRejectReason(373): why the session rejects a message.

/// A required tag is missing.
pub const TAG_MISSING: u8 = 1;

/// A tag has no value.
pub const VALUE_MISSING: u8 = 4;

/// A value is out of range for its tag.
pub const VALUE_OUT_OF_RANGE: u8 = 5;

/// A value is outside the form of its tag.
pub const VALUE_OUT_OF_FORM: u8 = 6;

/// SenderCompID or TargetCompID names somebody else.
pub const WRONG_NAME: u8 = 9;

/// The type of a message is not one for this moment.
pub const WRONG_TYPE: u8 = 11;

/// A tag stands more than once.
pub const TAG_REPEATED: u8 = 13;
