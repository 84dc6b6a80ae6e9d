//! The lines of a body.
ghost use Rattle.std.specs.Prelude.{◌≡◌, ◌<◌, ◌≤◌, ◌^◌, ◌∷◌, [], map, length, option_map, IfOk, IfSome, OnOk};
ghost use Rattle.venue_words.specs.declared.limits.TheConstants.{MAX_MARKETS, MAX_MEMBERS, MAX_SYMBOLS};
ghost use Rattle.quote_intake.specs.Words.{words_of};
ghost use Rattle.script_text.specs.Meets.{Meets};
ghost use Rattle.script_text.specs.Escaping.{text_of};
ghost use Rattle.script_text.specs.Body.{moment_line, quote_line, quote_cause, piece_line, piece_read, message_of, open_line, at_line, line_of, read_of, keyed_body, IsLineOf, IsQuoteOf};

use crate::escaping::unescape;
use crate::fault::{LimitCause, LineCause, LineFault};
use crate::words::{cut_word, script_moment};
use fix_write::wrap;
use quote_intake::{QuoteFault, number_in, read_quote};
use std::alloc::Global;
use venue_words::limits::MAX_LINE_BYTES;
use venue_words::{Bytes, Command, Config, NoMemory};

/// What a line of a body says.
#[derive(Debug, Drop)]
pub enum Line {
    /// The moment from now on, in milliseconds since 1970-01-01 00:00 UTC.
    Moment(i64),
    /// A quote of a symbol.
    Quote { symbol: u32, command: Command },
    /// Bytes that go on a member's stream.
    Piece { member: u32, bytes: Bytes },
    /// A new connection of a member, with an empty stream.
    Open { member: u32 },
}

/// Reads what stands behind `T `.
#[tactic(auto, using(crate::proofs::Bodies::moment_more))]
fn moment_line(words: &[u8]) -> Result<Line, LineCause>
    ensures { result ≡ moment_line (words_of words.now) }
{
    if let Some(_) = cut_word(words) {
        return Err(LineCause::BadWord);
    }
    match script_moment(words) {
        Some(moment) => Ok(Line::Moment(moment)),
        None => Err(LineCause::BadMoment),
    }
}

fn quote_cause(fault: QuoteFault) -> LineCause
    ensures { result ≡ quote_cause fault }
{
    match fault {
        QuoteFault::BadWord => LineCause::BadWord,
        QuoteFault::UnknownName => LineCause::UnknownName,
        QuoteFault::BadPrice => LineCause::BadPrice,
    }
}

/// Reads what stands behind `Q `.
fn quote_line(words: &[u8], config: &Config) -> Result<Line, LineCause>
    requires symbols { length config.now.symbols ≤ MAX_SYMBOLS }
    requires markets { length config.now.markets ≤ MAX_MARKETS }
    ensures line { result ≡ quote_line config.now (words_of words.now) }
    ensures configured { IfOk result (IsLineOf config.now) }
{
    match read_quote(words, config) {
        Ok((symbol, command)) => Ok(Line::Quote { symbol, command }),
        Err(fault) => Err(quote_cause(fault)),
    }
}

/// Reads what stands behind `O `.
#[tactic(auto, using(crate::proofs::Bodies::open_more))]
fn open_line(words: &[u8], config: &Config) -> Result<Line, LineCause>
    requires { length config.now.members ≤ MAX_MEMBERS }
    ensures line { result ≡ open_line config.now (words_of words.now) }
    ensures configured { IfOk result (IsLineOf config.now) }
{
    if let Some(_) = cut_word(words) {
        return Err(LineCause::BadWord);
    }
    match number_in(config.members.as_slice(), words) {
        Some(member) => Ok(Line::Open { member }),
        None => Err(LineCause::UnknownName),
    }
}

/// The frame of a message, or none where its text is none or does not end with a bar.
#[tactic(auto, unfolding(crate::specs::Body::message_of))]
fn message(alloc: Global, text: &[u8]) -> Result<Option<Vec<u8>>, NoMemory>
    ensures { IfOk result (λ frame. option_map (λ frame. frame.items) frame ≡ message_of text.now) }
{
    if !text.ends_with(b"|") {
        return Ok(None);
    }
    match unescape(alloc, text)? {
        Some(fields) => Ok(Some(wrap(alloc, fields.as_slice())?)),
        None => Ok(None),
    }
}

/// Bytes for the stream of a member.
fn piece(member: u32, bytes: Option<Vec<u8>>) -> Result<Line, LineCause>
    ensures line { result ≡ piece_read (Some member) (option_map (λ bytes. bytes.items) bytes) }
{
    match bytes {
        Some(bytes) => Ok(Line::Piece {
            member,
            bytes: Bytes(bytes),
        }),
        None => Err(LineCause::BadText),
    }
}

/// A line as the first one.
fn at_first(read: Result<Line, LineCause>) -> Result<Line, LineFault>
    ensures { result ≡ at_line 1 read }
{
    match read {
        Ok(line) => Ok(line),
        Err(cause) => Err(LineFault::Bad { line: 1, cause }),
    }
}

/// A line that is refused.
fn refused(cause: LineCause) -> Result<Line, LineFault>
    ensures { result ≡ at_line 1 (Err cause) }
{
    Err(LineFault::Bad { line: 1, cause })
}

/// Reads what stands behind `M `. It stands apart, so that a line with a quote does not clear its locals.
#[inline(never)]
#[tactic(auto, using(crate::proofs::Bodies::piece_more))]
fn message_line(alloc: Global, words: &[u8], config: &Config) -> Result<Line, LineFault>
    requires { length config.now.members ≤ MAX_MEMBERS }
    ensures line { Meets (at_line 1 (piece_line message_of config.now (words_of words.now) words.now)) result }
    ensures configured { IfOk result (IsLineOf config.now) }
{
    let Some((name, text)) = cut_word(words) else {
        return refused(LineCause::BadWord);
    };
    let Some(member) = number_in(config.members.as_slice(), name) else {
        return refused(LineCause::UnknownName);
    };
    at_first(piece(member, message(alloc, text)?))
}

/// Reads what stands behind `B `. It stands apart, as `message_line` does.
#[inline(never)]
#[tactic(auto, using(crate::proofs::Bodies::piece_more))]
fn bytes_line(alloc: Global, words: &[u8], config: &Config) -> Result<Line, LineFault>
    requires { length config.now.members ≤ MAX_MEMBERS }
    ensures line { Meets (at_line 1 (piece_line text_of config.now (words_of words.now) words.now)) result }
    ensures configured { IfOk result (IsLineOf config.now) }
{
    let Some((name, text)) = cut_word(words) else {
        return refused(LineCause::BadWord);
    };
    let Some(member) = number_in(config.members.as_slice(), name) else {
        return refused(LineCause::UnknownName);
    };
    at_first(piece(member, unescape(alloc, text)?))
}

/// Reads a line by its first word and what stands behind that.
#[tactic(auto, unfolding(crate::specs::Body::keyed_body))]
fn keyed(alloc: Global, key: &[u8], words: &[u8], config: &Config) -> Result<Line, LineFault>
    requires members { length config.now.members ≤ MAX_MEMBERS }
    requires symbols { length config.now.symbols ≤ MAX_SYMBOLS }
    requires markets { length config.now.markets ≤ MAX_MARKETS }
    ensures line { Meets (at_line 1 (keyed_body config.now key.now (words_of words.now) words.now)) result }
    ensures configured { IfOk result (IsLineOf config.now) }
{
    if key == b"T".as_slice() {
        at_first(moment_line(words))
    } else if key == b"Q".as_slice() {
        at_first(quote_line(words, config))
    } else if key == b"M".as_slice() {
        message_line(alloc, words, config)
    } else if key == b"B".as_slice() {
        bytes_line(alloc, words, config)
    } else if key == b"O".as_slice() {
        at_first(open_line(words, config))
    } else {
        refused(LineCause::BadWord)
    }
}

/// Reads a line of a body, without its LF. It answers what the line says, or line 1 with the first cause why it is
/// refused: the limit on its length stands before all causes of the grammar. Lines `M` and `B` take memory for their
/// bytes, and no other line does. Whether a feed shares a member, and the limits on a whole input and on events, are
/// judged by the caller.
#[tactic(auto, unfolding(crate::specs::Body::read_of, crate::specs::Body::line_of), using(crate::proofs::Bodies::key_alone))]
pub fn read_line(alloc: Global, text: &[u8], config: &Config) -> Result<Line, LineFault>
    requires members { length config.now.members ≤ MAX_MEMBERS }
    requires symbols { length config.now.symbols ≤ MAX_SYMBOLS }
    requires markets { length config.now.markets ≤ MAX_MARKETS }
    ensures line { Meets (read_of config.now text.now) result }
    ensures configured { IfOk result (IsLineOf config.now) }
{
    if text.len() > MAX_LINE_BYTES {
        return Err(LineFault::Limit {
            line: 1,
            which: LimitCause::Line,
        });
    }
    match cut_word(text) {
        Some((key, words)) => keyed(alloc, key, words, config),
        None => refused(LineCause::BadWord),
    }
}
