//! What a stream gives.
use venue_words::{Bytes, Items};

/// The frames of a stream so far, and whether one behind them declares more bytes than `MAX_FRAME_BYTES`.
#[derive(Debug, Drop)]
pub struct Reading {
    pub frames: Items<Bytes>,
    pub too_long: bool,
}
