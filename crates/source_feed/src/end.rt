//! How a session between a source and a desk ended.
use source_session::SourceEnd;
use std::fmt;
use venue_words::NoMemory;

/// How a session between a source and a desk ended.
#[derive(Clone, Copy, Debug, PartialEq, Eq)]
pub enum FeedEnd {
    /// The session with the source ended, for this cause.
    Ended(SourceEnd),
    /// The source's side gives no more.
    SourceGone,
    /// The connection to the source failed.
    SourceFault,
    /// The desk could not be written to: a beginning of the last lines may be there.
    DeskFault,
    /// Out of memory.
    NoMemory,
}

impl From<NoMemory> for FeedEnd {
    ghost use Rattle.std.specs.Prelude.{◌≡◌};
    ghost use Rattle.source_feed.specs.declared.end.FeedEnd.TheVariants.{NoMemory as memory};

    ghost from_gives = { λ _ end. end ≡ memory };

    fn from(_error: NoMemory) -> FeedEnd {
        FeedEnd::NoMemory
    }
}

impl fmt::Display for FeedEnd {
    fn fmt<W: fmt::Write>(&self, f: &mut fmt::Formatter<W>) -> fmt::Result {
        match self {
            FeedEnd::Ended(end) => write!(f, "{end}"),
            FeedEnd::SourceGone => f.write_str("source-gone"),
            FeedEnd::SourceFault => f.write_str("source-fault"),
            FeedEnd::DeskFault => f.write_str("desk-fault"),
            FeedEnd::NoMemory => f.write_str("out-of-memory"),
        }
    }
}
