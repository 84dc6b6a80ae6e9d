//! A member's reports past the cursors of his desk.
ghost use Rattle.std.specs.Prelude.{◌≡◌, ◌≢◌, ◌≤◌, ◌<◌, ◌++◌, ℕ, [], true, false, map, drop, length, IfOk, OnOk, OnErr};
ghost use Rattle.venue_words.specs.Conditions.{IsConfig};
ghost use Rattle.venue_words.specs.Floors.{IsSetUpFor, TurnsRose};
ghost use Rattle.exec_reports.specs.Bodies.{body_of};
ghost use Rattle.member_gate.specs.Answering.{name_at, message_of};
ghost use Rattle.member_gate.specs.Submitting.{Waited};
ghost use Rattle.member_gate.specs.Reporting.{cursor_at, asked_at, where_asked, asked_reports, messages_at, messages_past, AreFronts, ArePast, HasNoNews, MovedOn};

use crate::awaited::Awaited;
use crate::names::name_at;
use exec_reports::{kind, push_body};
use session_core::{Body, MessageList};
use venue_words::{Config, Floor, NoMemory, Report};

/// How many reports of a symbol were gone through.
fn cursor_at(cursors: &[u32], symbol: usize) -> u32
    ensures { result ≡ cursor_at cursors.now symbol }
{
    match cursors.get(symbol) {
        Some(cursor) => *cursor,
        None => 0,
    }
}

/// Whether a symbol is asked.
fn is_asked(asked: &[bool], symbol: usize) -> bool
    ensures { result ≡ asked_at asked.now symbol }
{
    match asked.get(symbol) {
        Some(is) => *is,
        None => false,
    }
}

/// Whether some symbol that is asked has more reports than were gone through.
pub fn are_past(awaited: Awaited<'_>, cursors: &[u32]) -> bool
    ensures past { result ≡ true → ArePast awaited.entry.fronts.now awaited.entry.asked.now cursors.now }
    ensures none { result ≡ false → ArePast awaited.entry.fronts.now awaited.entry.asked.now cursors.now → ⊥ }
{
    for symbol in 0..awaited.fronts.len() {
        if is_asked(awaited.asked, symbol) && cursor_at(cursors, symbol) < awaited.fronts[symbol] {
            return true;
        }
    }
    false
}

/// The cursors behind so many.
fn behind(cursors: &[u32], count: usize) -> &[u32]
    ensures { result.now ≡ drop count cursors.now }
{
    if count < cursors.len() {
        &cursors[count..]
    } else {
        &[]
    }
}

/// The body of a report of a symbol and a member, by their names.
#[derive(Clone, Copy)]
struct ReportBody<'a> {
    report: &'a Report,
    symbol: &'a [u8],
    member: &'a [u8],
}

impl<'a> Body for ReportBody<'a> {
    ghost bytes = { λ b. body_of b.report.now b.symbol.now b.member.now };

    fn push_to(&self, out: &mut Vec<u8>) -> Result<(), NoMemory> {
        push_body(out, self.report, self.symbol, self.member)
    }
}

/// Adds reports as messages.
fn push_messages(
    messages: &mut MessageList,
    member: &[u8],
    symbol: &[u8],
    reports: &[Report],
) -> Result<(), NoMemory>
    ensures { OnOk result (messages.new ≡ messages.old ++ map (message_of member.now symbol.now) reports.now) }
{
    for report in reports {
        let body = ReportBody {
            report,
            symbol,
            member,
        };
        messages.push_laid(kind(report), &body)?;
    }
    Ok(())
}

/// Who reads reports: a member of a config, and for each symbol how many of its reports were gone through.
#[derive(Clone, Copy)]
pub struct Reader<'a> {
    pub config: &'a Config,
    /// The member's number.
    pub member: u32,
    pub cursors: &'a [u32],
}

/// Adds the member's reports of a symbol from a position on, as messages, and answers how many reports there are.
#[tactic(auto, unfolding(crate::specs::Reporting::messages_at))]
fn look<F: Floor>(
    floor: &mut F,
    reader: Reader<'_>,
    symbol: u32,
    from: u32,
    messages: &mut MessageList,
) -> Result<u32, NoMemory>
    requires config { IsConfig reader.config.now }
    requires setup { IsSetUpFor reader.config.now (F.mark floor.old).setup }
    requires member { reader.member < length reader.config.now.members }
    requires symbol { symbol < length reader.config.now.symbols }
    ensures mark { F.mark floor.new ≡ F.mark floor.old }
    ensures others { (other : ℕ) → other ≢ symbol → F.at floor.new other ≡ F.at floor.old other }
    ensures waited { Waited (F.at floor.old symbol) (F.at floor.new symbol) }
    ensures turns { OnOk result (TurnsRose (F.at floor.old symbol).turns (F.at floor.new symbol).turns) }
    ensures messages { OnOk result (messages.new ≡ messages.old
        ++ messages_at reader.entry.config.now reader.entry.member (name_at reader.entry.config.now.symbols symbol) from
        (F.at floor.new symbol).reports) }
    ensures front { IfOk result (λ front. front ≡ length (F.at floor.new symbol).reports) }
{
    let look = floor.reports_after(symbol, reader.member, from)?;
    let name = name_at(reader.config.symbols.as_slice(), symbol);
    let own = name_at(reader.config.members.as_slice(), reader.member);
    push_messages(messages, own, name, look.reports.as_slice())?;
    Ok(look.front)
}

/// Adds all reports of the member past the cursors, as messages, and the cursors behind them. After a refusal some of
/// both may be added.
pub fn look_all<F: Floor>(
    floor: &mut F,
    reader: Reader<'_>,
    messages: &mut MessageList,
    fronts: &mut Vec<u32>,
) -> Result<(), NoMemory>
    requires config { IsConfig reader.config.now }
    requires setup { IsSetUpFor reader.config.now (F.mark floor.old).setup }
    requires member { reader.member < length reader.config.now.members }
    requires messages { messages.old ≡ [] }
    requires fronts { fronts.old.items ≡ [] }
    ensures mark { F.mark floor.new ≡ F.mark floor.old }
    ensures waited { (symbol : ℕ) → Waited (F.at floor.old symbol) (F.at floor.new symbol) }
    ensures others { (symbol : ℕ) → length reader.entry.config.now.symbols ≤ symbol
        → F.at floor.new symbol ≡ F.at floor.old symbol }
    ensures turns { OnOk result ((symbol : ℕ) → symbol < length reader.entry.config.now.symbols
        → TurnsRose (F.at floor.old symbol).turns (F.at floor.new symbol).turns) }
    ensures messages { OnOk result (messages.new
        ≡ messages_past reader.entry.config.now reader.entry.member reader.entry.cursors.now
        (λ symbol. (F.at floor.new symbol).reports)) }
    ensures fronts { OnOk result (MovedOn (length reader.entry.config.now.symbols) (λ symbol. (F.at floor.new symbol).reports)
        reader.entry.cursors.now fronts.new.items) }
{
    let count = reader.config.symbols.len();
    for symbol in 0..count {
        let from = cursor_at(reader.cursors, symbol);
        let front = look(floor, reader, symbol as u32, from, messages)?;
        fronts.push(from.max(front))?;
    }
    fronts.extend_from_slice(behind(reader.cursors, count))?;
    Ok(())
}

/// What is known of a symbol before it is asked.
#[derive(Clone, Copy)]
struct KnownSymbol {
    symbol: u32,
    /// How many of its reports were gone through.
    from: u32,
    /// How many it has.
    front: u32,
    asked: bool,
}

/// Adds the member's reports of a symbol past those that were gone through, as messages, where it is asked and has more, and
/// answers how many reports there are.
fn look_where_past<F: Floor>(
    floor: &mut F,
    reader: Reader<'_>,
    known: KnownSymbol,
    messages: &mut MessageList,
) -> Result<u32, NoMemory>
    requires config { IsConfig reader.config.now }
    requires setup { IsSetUpFor reader.config.now (F.mark floor.old).setup }
    requires member { reader.member < length reader.config.now.members }
    requires symbol { known.symbol < length reader.config.now.symbols }
    requires front { known.front ≡ length (F.at floor.old known.symbol).reports }
    ensures mark { F.mark floor.new ≡ F.mark floor.old }
    ensures others { (other : ℕ) → other ≢ known.symbol → F.at floor.new other ≡ F.at floor.old other }
    ensures waited { Waited (F.at floor.old known.symbol) (F.at floor.new known.symbol) }
    ensures unasked { HasNoNews known.asked known.from (F.at floor.old known.symbol)
        → F.at floor.new known.symbol ≡ F.at floor.old known.symbol }
    ensures turns { OnOk result (known.asked ≡ true → known.from < length (F.at floor.old known.symbol).reports
        → TurnsRose (F.at floor.old known.symbol).turns (F.at floor.new known.symbol).turns) }
    ensures messages { OnOk result (messages.new ≡ messages.old
        ++ messages_at reader.entry.config.now reader.entry.member (name_at reader.entry.config.now.symbols known.symbol)
        known.from (where_asked known.asked (F.at floor.new known.symbol).reports)) }
    ensures front { IfOk result (λ front. front ≡ length (F.at floor.new known.symbol).reports) }
{
    if known.asked && known.from < known.front {
        look(floor, reader, known.symbol, known.from, messages)
    } else {
        Ok(known.front)
    }
}

/// As `look_all`, where it is known how many reports each symbol has: only symbols that are asked, and have reports past the
/// cursor, are looked at.
pub fn look_past<F: Floor>(
    floor: &mut F,
    reader: Reader<'_>,
    awaited: Awaited<'_>,
    messages: &mut MessageList,
    fronts: &mut Vec<u32>,
) -> Result<(), NoMemory>
    requires config { IsConfig reader.config.now }
    requires setup { IsSetUpFor reader.config.now (F.mark floor.old).setup }
    requires member { reader.member < length reader.config.now.members }
    requires awaited { AreFronts (length reader.config.now.symbols) (λ symbol. (F.at floor.old symbol).reports)
        awaited.fronts.now }
    requires messages { messages.old ≡ [] }
    requires fronts { fronts.old.items ≡ [] }
    ensures mark { F.mark floor.new ≡ F.mark floor.old }
    ensures waited { (symbol : ℕ) → Waited (F.at floor.old symbol) (F.at floor.new symbol) }
    ensures others { (symbol : ℕ) → length reader.entry.config.now.symbols ≤ symbol
        → F.at floor.new symbol ≡ F.at floor.old symbol }
    ensures unasked { (symbol : ℕ)
        → HasNoNews (asked_at awaited.entry.asked.now symbol) (cursor_at reader.entry.cursors.now symbol)
        (F.at floor.old symbol)
        → F.at floor.new symbol ≡ F.at floor.old symbol }
    ensures turns { OnOk result ((symbol : ℕ) → symbol < length reader.entry.config.now.symbols
        → asked_at awaited.entry.asked.now symbol ≡ true
        → cursor_at reader.entry.cursors.now symbol < length (F.at floor.old symbol).reports
        → TurnsRose (F.at floor.old symbol).turns (F.at floor.new symbol).turns) }
    ensures messages { OnOk result (messages.new ≡ messages_past reader.entry.config.now reader.entry.member
        reader.entry.cursors.now (asked_reports awaited.entry.asked.now (λ symbol. (F.at floor.new symbol).reports))) }
    ensures fronts { OnOk result (MovedOn (length reader.entry.config.now.symbols) (λ symbol. (F.at floor.new symbol).reports)
        reader.entry.cursors.now fronts.new.items) }
{
    let count = reader.config.symbols.len();
    for symbol in 0..count {
        let from = cursor_at(reader.cursors, symbol);
        let asked = is_asked(awaited.asked, symbol);
        let known = KnownSymbol {
            symbol: symbol as u32,
            from,
            front: awaited.fronts[symbol],
            asked,
        };
        let front = look_where_past(floor, reader, known, messages)?;
        let moved = from.max(front);
        fronts.push(moved)?;
    }
    fronts.extend_from_slice(behind(reader.cursors, count))?;
    Ok(())
}
