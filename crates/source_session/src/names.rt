//! Who speaks on a connection to a source.
use venue_words::Bytes;

/// The CompIDs of both sides.
#[derive(Debug, Drop)]
pub struct Names {
    /// SenderCompID(49) of what we send.
    pub own: Bytes,
    /// SenderCompID(49) of what the source sends.
    pub source: Bytes,
}
