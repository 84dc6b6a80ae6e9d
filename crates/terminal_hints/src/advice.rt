//! What a refused line should be, in a sentence with an example.
ghost use Rattle.std.specs.Prelude.{◌<◌, length};

use script_text::{LimitCause, LineCause};

/// What a line should be that was refused for this cause.
pub fn line_advice(cause: LineCause) -> &'static str
    ensures told { 0 < length result.now }
{
    match cause {
        LineCause::NoEnd => {
            "the file ends inside this line or before a BEGIN line; end it with a line feed, behind a line as `BEGIN 20240102-14:30:00.000`"
        }
        LineCause::BadHeader => {
            "the first line is `PEGV 1`, or `PEGV 2` for ticks of 0.05; a config ends with its BEGIN line"
        }
        LineCause::BadWord => {
            "before BEGIN stand MEMBER, MARKET and SYMBOL lines; behind it Q, M, B, O and T lines, words apart by one space, as `Q ABC NYSE 20.00 20.02`"
        }
        LineCause::BadName => {
            "a name has 1 to 16 letters, digits, points and underscores, and begins with a letter, as `MEMBER FUND`"
        }
        LineCause::DoubleName => "this name stands in an earlier line of the same kind",
        LineCause::UnknownName =>
            "this name stands in no MEMBER, MARKET or SYMBOL line above BEGIN",
        LineCause::BadNumber => {
            "a symbol's limit is a whole number from 1 to 2097152, as `SYMBOL ABC 1000`"
        }
        LineCause::BadTick => "a tick is 0.01 or 0.05, as `SYMBOL ABC 1000 0.05`",
        LineCause::BadPrice => {
            "a bid or an offer is `-` or a price with two decimals from 0.01 to 19999.99, as `20.00`"
        }
        LineCause::BadMoment => {
            "a moment is a real day and time to the millisecond, as `20240102-14:30:00.000`"
        }
        LineCause::BadText => {
            "a message is printable characters, `|` at the end of each field, and `\\HH` with two hexadecimal digits for any other byte"
        }
        LineCause::SharedMember => {
            "an earlier feed names this member too: give all lines of a member to one feed"
        }
    }
}

/// Which limit a line would pass.
pub fn limit_advice(which: LimitCause) -> &'static str
    ensures told { 0 < length result.now }
{
    match which {
        LimitCause::Line => "a line has at most 16384 bytes",
        LimitCause::Bytes =>
            "the whole input has more bytes than this program reads; split the day or its symbols",
        LimitCause::Members => "at most 256 members",
        LimitCause::Markets => "at most 32 markets",
        LimitCause::Symbols =>
            "at most 256 symbols; split the config by symbol, since symbols are independent",
        LimitCause::EventsSum => {
            "the limits of all symbols together are at most 2097152; split the config by symbol"
        }
        LimitCause::Events => {
            "this line brings more events to its symbol than the limit of its SYMBOL line; raise it"
        }
    }
}
