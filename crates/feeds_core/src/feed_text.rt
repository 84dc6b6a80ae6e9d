//! What is kept of a feed's file.
ghost use Rattle.std.specs.Prelude.{◌≤◌, ◌+◌, vec_len};

use venue_words::limits::MAX_CONFIG_BYTES;

/// What stands behind the whole lines that are kept of a file.
#[derive(Clone, Copy, Debug, PartialEq, Eq)]
pub enum FeedEnd {
    /// Nothing: the file is at its end.
    Whole,
    /// A line without an end.
    Unended,
    /// A line that is too long.
    TooLong,
    /// The last line that is kept holds the byte that passes the limit on all files.
    Over,
}

/// The whole lines of a feed's file, each with its LF, up to what makes the file a refused one.
#[derive(Drop)]
pub struct FeedText {
    /// The bytes of all files before.
    pub already: u64,
    pub lines: Vec<u8>,
    pub end: FeedEnd,
    ghost within: { already ≤ 536870912 },
    ghost few: { already + vec_len lines ≤ 536870912 + 16385 },
}

impl FeedText {
    ghost use Rattle.std.specs.Prelude.{◌≡◌, ◌≤◌};
    ghost use Rattle.venue_words.specs.declared.limits.TheConstants.{MAX_CONFIG_BYTES};
    ghost use Rattle.feeds_core.specs.FeedTexts.{bytes_behind};

    /// The bytes of all files up to the end of this one, where it is within the limit.
    pub fn bytes(&self) -> u64
        ensures bytes { result ≡ bytes_behind self.now }
        ensures within { result ≤ MAX_CONFIG_BYTES }
    {
        (self.already + self.lines.len() as u64).min(MAX_CONFIG_BYTES)
    }
}
