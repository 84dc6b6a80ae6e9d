//! What members are told, before it is numbered.
use venue_words::Kind;

/// What a member is told.
#[derive(Debug, Drop)]
pub struct Notice {
    pub member: u32,
    pub kind: Kind,
}
