//! Looks for the reports of listed members, and their copies.
ghost use Rattle.std.specs.Prelude.{◌≡◌, ◌≢◌, ◌≤◌, ◌<◌, ◌+◌, ◌*◌, ◌++◌, ℕ, List, [], max, map, drop, length, slice_index, IfOk, OnOk};
ghost use Rattle.std.specs.List.{flat_map, range_with_len};
ghost use Rattle.venue_words.specs.Conditions.{IsConfig};
ghost use Rattle.venue_words.specs.Floors.{IsSetUpFor, TurnsRose};
ghost use Rattle.venue_words.specs.Journals.{reports_of};
ghost use Rattle.member_gate.specs.Answering.{name_at};
ghost use Rattle.member_gate.specs.Reporting.{cursor_at};
ghost use Rattle.member_gate.specs.Submitting.{Waited};
ghost use Rattle.drop_copy.specs.Copies.{copy_of, copies_past};
ghost use Rattle.drop_copy.specs.Desks.{AreConfigured};
ghost use Rattle.drop_copy.specs.Looks.{AllWentOn, LookedRow, WentOn};

use crate::bodies::CopyBody;
use crate::names::name_at;
use exec_reports::kind;
use session_core::MessageList;
use venue_words::{Config, Floor, NoMemory, Report};

/// Whose reports are looked for, and from which positions on: by symbol, and then by listed member.
#[derive(Clone, Copy, Debug)]
pub struct Listed<'a> {
    pub config: &'a Config,
    pub members: &'a [u32],
    pub cursors: &'a [u32],
}

/// The cursor at a place, and 0 behind the last.
fn cursor_at(cursors: &[u32], place: usize) -> u32
    ensures { result ≡ cursor_at cursors.now place }
{
    cursors.get(place).copied().unwrap_or(0)
}

/// The cursors behind so many.
fn behind(cursors: &[u32], count: usize) -> &[u32]
    ensures { result.now ≡ drop count cursors.now }
{
    cursors.get(count..).unwrap_or(&[])
}

/// Adds the copies of reports.
fn push_copies(
    messages: &mut MessageList,
    member: &[u8],
    symbol: &[u8],
    reports: &[Report],
) -> Result<(), NoMemory>
    ensures { OnOk result (messages.new ≡ messages.old ++ map (copy_of member.now symbol.now) reports.now) }
{
    for report in reports {
        let body = CopyBody {
            report,
            symbol,
            member,
        };
        messages.push_laid(kind(report), &body)?;
    }
    Ok(())
}

/// A member's reports of a symbol, from a position on.
#[derive(Clone, Copy)]
struct ReportsFrom {
    symbol: u32,
    member: u32,
    from: u32,
}

/// Adds the copies of these reports, and answers how many reports the symbol has.
fn look<F: Floor>(
    floor: &mut F,
    config: &Config,
    wanted: ReportsFrom,
    messages: &mut MessageList,
) -> Result<u32, NoMemory>
    requires config { IsConfig config.now }
    requires setup { IsSetUpFor config.now (F.mark floor.old).setup }
    requires member { wanted.member < length config.now.members }
    requires symbol { wanted.symbol < length config.now.symbols }
    ensures mark { F.mark floor.new ≡ F.mark floor.old }
    ensures others { (other : ℕ) → other ≢ wanted.symbol → F.at floor.new other ≡ F.at floor.old other }
    ensures waited { Waited (F.at floor.old wanted.symbol) (F.at floor.new wanted.symbol) }
    ensures turns { OnOk result (TurnsRose (F.at floor.old wanted.symbol).turns (F.at floor.new wanted.symbol).turns) }
    ensures made { (F.at floor.new wanted.symbol).reports
        ≡ F.reports_in (F.mark floor.old) wanted.symbol (F.at floor.new wanted.symbol).journal }
    ensures messages { OnOk result (messages.new ≡ messages.old
        ++ map (copy_of (name_at config.now.members wanted.member) (name_at config.now.symbols wanted.symbol))
        (reports_of wanted.member wanted.from (F.at floor.new wanted.symbol).reports)) }
    ensures front { IfOk result (λ front. front ≡ length (F.at floor.new wanted.symbol).reports) }
{
    let look = floor.reports_after(wanted.symbol, wanted.member, wanted.from)?;
    let name = name_at(config.symbols.as_slice(), wanted.symbol);
    let own = name_at(config.members.as_slice(), wanted.member);
    push_copies(messages, own, name, look.reports.as_slice())?;
    Ok(look.front)
}

/// Adds the copies of a symbol, and the cursors behind them. Whatever was added before stands at the front.
fn look_at_symbol<F: Floor>(
    floor: &mut F,
    listed: Listed<'_>,
    symbol: u32,
    messages: &mut MessageList,
    moved: &mut Vec<u32>,
) -> Result<(), NoMemory>
    requires config { IsConfig listed.config.now }
    requires setup { IsSetUpFor listed.config.now (F.mark floor.old).setup }
    requires members { AreConfigured listed.members.now listed.config.now }
    requires symbol { symbol < length listed.config.now.symbols }
    ensures mark { F.mark floor.new ≡ F.mark floor.old }
    ensures others { (other : ℕ) → other ≢ symbol → F.at floor.new other ≡ F.at floor.old other }
    ensures waited { Waited (F.at floor.old symbol) (F.at floor.new symbol) }
    ensures looked { OnOk result (LookedRow (F.reports_in (F.mark floor.old) symbol) listed.entry.config.now
        symbol listed.entry.members.now listed.entry.cursors.now (F.at floor.old symbol) (F.at floor.new symbol)
        messages.old messages.new moved.old.items moved.new.items) }
{
    for member in listed.members {
        let from = cursor_at(listed.cursors, moved.len());
        let wanted = ReportsFrom {
            symbol,
            member: *member,
            from,
        };
        let front = look(floor, listed.config, wanted, messages)?;
        moved.push(from.max(front))?;
    }
    Ok(())
}

/// Adds the copies of all symbols, and the cursors behind them. After a refusal some of both may be added.
pub fn look_at_all<F: Floor>(
    floor: &mut F,
    listed: Listed<'_>,
    messages: &mut MessageList,
    moved: &mut Vec<u32>,
) -> Result<(), NoMemory>
    requires config { IsConfig listed.config.now }
    requires setup { IsSetUpFor listed.config.now (F.mark floor.old).setup }
    requires members { AreConfigured listed.members.now listed.config.now }
    requires messages { messages.old ≡ [] }
    requires moved { moved.old.items ≡ [] }
    ensures mark { F.mark floor.new ≡ F.mark floor.old }
    ensures waited { (symbol : ℕ) → Waited (F.at floor.old symbol) (F.at floor.new symbol) }
    ensures others { (symbol : ℕ) → length listed.entry.config.now.symbols ≤ symbol
        → F.at floor.new symbol ≡ F.at floor.old symbol }
    ensures turns { OnOk result (0 < length listed.entry.members.now → (symbol : ℕ)
        → symbol < length listed.entry.config.now.symbols
        → TurnsRose (F.at floor.old symbol).turns (F.at floor.new symbol).turns) }
    ensures messages { OnOk result (messages.new ≡ copies_past listed.entry.config.now listed.entry.members.now
        listed.entry.cursors.now moved.new.items (λ symbol. (F.at floor.new symbol).reports)) }
    ensures moved { OnOk result (AllWentOn F.at (F.reports_in (F.mark floor.old))
        (length listed.entry.config.now.symbols) listed.entry.members.now listed.entry.cursors.now moved.new.items
        floor.old floor.new) }
{
    for symbol in 0..listed.config.symbols.len() {
        look_at_symbol(floor, listed, symbol as u32, messages, moved)?;
    }
    moved.extend_from_slice(behind(listed.cursors, moved.len()))?;
    Ok(())
}
