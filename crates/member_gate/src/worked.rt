//! What the work on a piece has made so far.
use venue_words::Bytes;

/// What the work on a piece has made so far.
#[derive(Drop)]
pub struct Worked {
    /// The frames that are to be sent.
    pub replies: Vec<Bytes>,
    /// How many commands were submitted.
    pub submitted: u32,
}
