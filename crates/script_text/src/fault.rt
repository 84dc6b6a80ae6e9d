//! Why a line of a script, a config or a feed is refused.
ghost use Rattle.std.specs.Prelude.{◌≡◌, ◌≤◌, Some, length};
ghost use Rattle.script_text.specs.declared.fault.LineFault.TheVariants.{NoMemory as memory};

use std::alloc::{AllocError, AllocFailed};
use std::fmt;
use venue_words::NoMemory;

/// Why a line is outside the grammar. Causes are judged in this order, and within one cause the words of
/// the line from left to right.
#[derive(Clone, Copy, Debug, PartialEq, Eq)]
pub enum LineCause {
    /// The input ends inside this line, or before the header's BEGIN line.
    NoEnd,
    /// The first line is neither `PEGV 1` nor `PEGV 2`, or a config goes on behind its BEGIN line.
    BadHeader,
    /// The first word is not one allowed there, or the number of words is wrong.
    BadWord,
    /// A name of the header is not 1 to 16 letters, digits, points and underscores that begin with a letter.
    BadName,
    /// A name of the header stood there before for the same kind of thing.
    DoubleName,
    /// A name of the body is not one of the header's.
    UnknownName,
    /// A limit is not a number from 1 to 2,097,152 without leading zeros.
    BadNumber,
    /// A tick is neither `0.01` nor `0.05`.
    BadTick,
    /// A bid or an offer is neither `-` nor a price with two decimals from 0.01 to 19999.99.
    BadPrice,
    /// A moment is not `YYYYMMDD-HH:MM:SS.sss` of a real day.
    BadMoment,
    /// The text of a message has a byte or an escape that it may not have.
    BadText,
    /// A feed names a member that an earlier feed named.
    SharedMember,
}

/// Which limit a line would pass.
#[derive(Clone, Copy, Debug, PartialEq, Eq)]
pub enum LimitCause {
    /// 16,384 bytes before the line's LF. It is tested before all else.
    Line,
    /// The bytes of the whole input.
    Bytes,
    /// 256 members.
    Members,
    /// 32 markets.
    Markets,
    /// 256 symbols.
    Symbols,
    /// 2,097,152 for the sum of all symbols' limits.
    EventsSum,
    /// The events of one symbol: a command of the line came to a book that holds its limit.
    Events,
}

impl LineCause {
    ghost use Rattle.script_text.specs.Causes.{cause_name};

    /// Its name, as programs tell it.
    #[tactic(auto, unfolding(crate::specs::Causes::cause_name))]
    pub fn name(self) -> &'static str
        ensures name { result.now ≡ cause_name self }
        ensures short { length result.now ≤ 16 }
    {
        match self {
            LineCause::NoEnd => "NoEnd",
            LineCause::BadHeader => "BadHeader",
            LineCause::BadWord => "BadWord",
            LineCause::BadName => "BadName",
            LineCause::DoubleName => "DoubleName",
            LineCause::UnknownName => "UnknownName",
            LineCause::BadNumber => "BadNumber",
            LineCause::BadTick => "BadTick",
            LineCause::BadPrice => "BadPrice",
            LineCause::BadMoment => "BadMoment",
            LineCause::BadText => "BadText",
            LineCause::SharedMember => "SharedMember",
        }
    }
}

impl fmt::Display for LineCause {
    ghost use Rattle.script_text.specs.Causes.{cause_name};

    ghost output = { λ cause. Some (cause_name cause) };

    fn fmt<W: fmt::Write>(&self, f: &mut fmt::Formatter<W>) -> fmt::Result {
        f.write_str(self.name())
    }
}

impl LimitCause {
    ghost use Rattle.script_text.specs.Causes.{limit_name};

    /// Its name, as programs tell it.
    #[tactic(auto, unfolding(crate::specs::Causes::limit_name))]
    pub fn name(self) -> &'static str
        ensures name { result.now ≡ limit_name self }
        ensures short { length result.now ≤ 16 }
    {
        match self {
            LimitCause::Line => "Line",
            LimitCause::Bytes => "Bytes",
            LimitCause::Members => "Members",
            LimitCause::Markets => "Markets",
            LimitCause::Symbols => "Symbols",
            LimitCause::EventsSum => "EventsSum",
            LimitCause::Events => "Events",
        }
    }
}

impl fmt::Display for LimitCause {
    ghost use Rattle.script_text.specs.Causes.{limit_name};

    ghost output = { λ which. Some (limit_name which) };

    fn fmt<W: fmt::Write>(&self, f: &mut fmt::Formatter<W>) -> fmt::Result {
        f.write_str(self.name())
    }
}

/// Why a line was refused. Lines are counted from 1.
#[derive(Clone, Copy, Debug, PartialEq, Eq)]
pub enum LineFault {
    Bad { line: u32, cause: LineCause },
    Limit { line: u32, which: LimitCause },
    NoMemory,
}

impl From<NoMemory> for LineFault {
    ghost from_gives = { λ _ fault. fault ≡ memory };

    fn from(_error: NoMemory) -> LineFault {
        LineFault::NoMemory
    }
}

impl From<AllocError> for LineFault {
    ghost from_gives = { λ _ fault. fault ≡ memory };

    fn from(_error: AllocError) -> LineFault {
        LineFault::NoMemory
    }
}

impl<T: Drop> From<AllocFailed<T>> for LineFault {
    ghost from_gives = { λ _ fault. fault ≡ memory };

    fn from(_error: AllocFailed<T>) -> LineFault {
        LineFault::NoMemory
    }
}
