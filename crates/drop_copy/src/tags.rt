//! The tag of the field that a copy has beside its report's.

/// The member whose report is copied. The tag is this venue's own.
pub const COPIED_MEMBER: u32 = 9703;
