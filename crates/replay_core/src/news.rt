//! Who is asked behind a line, and at which symbols.
ghost use Rattle.std.specs.Prelude.{◌≡◌, ◌≢◌, ◌⊎◌, ◌≤◌, ◌<◌, ◌==◌, ℕ, [], true, false, length, drop, replicate, slice_index, Some, IfOk};
ghost use Rattle.std.specs.List.{filter};
ghost use Rattle.venue_words.specs.Journals.{reports_of};
ghost use Rattle.venue_words.specs.declared.limits.TheConstants.{MAX_SYMBOLS};
ghost use Rattle.member_gate.specs.Reporting.{AreFronts};
ghost use Rattle.replay_core.specs.News.{row_at, asks, AreRows, AsksNone, AsksSome, HasNews};

use crate::asked::Asked;
use crate::plain_floor::PlainFloor;
use std::alloc::Global;
use venue_words::{Config, NoMemory, Report};

/// Knows how many reports each symbol had behind the last line, and so whose reports are new, and at which symbols. A member
/// is noted where he is to be asked at one.
#[derive(Drop)]
pub struct News {
    /// By symbol.
    fronts: Vec<u32>,
    /// By member.
    asked: Vec<Asked>,
}

/// Notes a symbol for a member.
fn note(asked: &mut [Asked], member: u32, symbol: u32)
    ensures each { (other : ℕ) → length (row_at asked.new other) ≡ length (row_at asked.old other) }
    ensures kept { (other at : ℕ) → asks asked.old other at ≡ true → asks asked.new other at ≡ true }
    ensures there { symbol < length (row_at asked.old member) → asks asked.new member symbol ≡ true }
    ensures only { (other at : ℕ) → asks asked.new other at ≡ true
        → (asks asked.old other at ≡ true) ⊎ ((other ≡ member) × (at ≡ symbol)) }
{
    if (member as usize) < asked.len() {
        let row = &mut asked[member as usize];
        row.note(symbol);
    }
}

/// Notes all symbols for a member.
fn note_all(asked: &mut [Asked], member: u32)
    ensures each { (other : ℕ) → length (row_at asked.new other) ≡ length (row_at asked.old other) }
    ensures there { (symbol : ℕ) → symbol < length (row_at asked.old member) → asks asked.new member symbol ≡ true }
    ensures others { (other : ℕ) → other ≢ member → row_at asked.new other ≡ row_at asked.old other }
{
    if (member as usize) < asked.len() {
        let row = &mut asked[member as usize];
        row.note_all();
    }
}

/// Notes a symbol for the members of reports.
fn note_members(asked: &mut [Asked], symbol: u32, reports: &[Report])
    ensures each { (member : ℕ) → length (row_at asked.new member) ≡ length (row_at asked.old member) }
    ensures kept { (member at : ℕ) → asks asked.old member at ≡ true → asks asked.new member at ≡ true }
    ensures none { (member : ℕ) → symbol < length (row_at asked.old member) → asks asked.new member symbol ≡ false
        → filter (λ report. report.member == member) reports.now ≡ [] }
    ensures only { (member at : ℕ) → asks asked.new member at ≡ true
        → (asks asked.old member at ≡ true)
        ⊎ ((at ≡ symbol) × (filter (λ report. report.member == member) reports.now ≢ [])) }
{
    for report in reports {
        note(asked, report.member, symbol);
    }
}

/// The reports behind so many.
fn behind(reports: &[Report], count: u32) -> &[Report]
    ensures { result.now ≡ drop count reports.now }
{
    if (count as usize) < reports.len() {
        &reports[count as usize..]
    } else {
        &[]
    }
}

/// Notes a symbol for the members of its reports behind so many, and answers how many there are.
fn note_symbol<F: PlainFloor>(floor: &F, symbol: u32, count: u32, asked: &mut [Asked]) -> u32
    requires { symbol < length (F.mark floor.now).setup.limits }
    ensures front { result ≡ length (F.at floor.now symbol).reports }
    ensures each { (member : ℕ) → length (row_at asked.new member) ≡ length (row_at asked.old member) }
    ensures kept { (member at : ℕ) → asks asked.old member at ≡ true → asks asked.new member at ≡ true }
    ensures none { (member : ℕ) → symbol < length (row_at asked.old member) → asks asked.new member symbol ≡ false
        → reports_of member count (F.at floor.now symbol).reports ≡ [] }
    ensures only { (member at : ℕ) → asks asked.new member at ≡ true
        → (asks asked.old member at ≡ true)
        ⊎ ((at ≡ symbol) × (reports_of member count (F.at floor.now symbol).reports ≢ [])) }
{
    let front = floor.front(symbol);
    if count < front {
        note_members(asked, symbol, behind(floor.reports(symbol), count));
    }
    front
}

/// Notes each symbol for the members of its reports behind the fronts, and moves these on.
fn note_symbols<F: PlainFloor>(floor: &F, fronts: &mut [u32], asked: &mut [Asked])
    requires each { length fronts.old ≡ length (F.mark floor.now).setup.limits }
    requires few { length fronts.old ≤ MAX_SYMBOLS }
    ensures fronts { AreFronts (length fronts.old) (λ symbol. (F.at floor.now symbol).reports) fronts.new }
    ensures each { (member : ℕ) → length (row_at asked.new member) ≡ length (row_at asked.old member) }
    ensures kept { (member symbol : ℕ) → asks asked.old member symbol ≡ true → asks asked.new member symbol ≡ true }
    ensures none { (member symbol : ℕ) → symbol < length (row_at asked.old member) → symbol < length fronts.old
        → asks asked.new member symbol ≡ false
        → reports_of member (slice_index fronts.old symbol) (F.at floor.now symbol).reports ≡ [] }
    ensures only { (member symbol : ℕ) → asks asked.new member symbol ≡ true
        → (asks asked.old member symbol ≡ true) ⊎ HasNews F.at floor.now (length fronts.old) fronts.old member symbol }
{
    for symbol in 0..fronts.len() {
        fronts[symbol] = note_symbol(floor, symbol as u32, fronts[symbol], asked);
    }
}

/// Nobody is noted.
fn clear(asked: &mut [Asked])
    ensures each { (member : ℕ) → length (row_at asked.new member) ≡ length (row_at asked.old member) }
    ensures none { (member : ℕ) → AsksNone (row_at asked.new member) }
{
    for member in 0..asked.len() {
        let row = &mut asked[member];
        row.clear();
    }
}

/// Notes all symbols for one member, and none for the others.
fn begin(asked: &mut [Asked], own: Option<u32>)
    ensures each { (member : ℕ) → length (row_at asked.new member) ≡ length (row_at asked.old member) }
    ensures own { (member symbol : ℕ) → own ≡ Some member → symbol < length (row_at asked.old member)
        → asks asked.new member symbol ≡ true }
    ensures only { (member symbol : ℕ) → asks asked.new member symbol ≡ true → own ≡ Some member }
{
    clear(asked);
    if let Some(member) = own {
        note_all(asked, member);
    }
}

/// A row for each of so many members.
fn rows(alloc: Global, members: usize, symbols: usize) -> Result<Vec<Asked>, NoMemory>
    ensures { IfOk result (λ asked. AreRows members symbols asked.items) }
{
    let mut asked = Vec::new(alloc);
    for _ in 0..members {
        asked.push(Asked::new(alloc, symbols)?)?;
    }
    Ok(asked)
}

impl News {
    /// Before the first line of a body, behind which no symbol has reports.
    pub fn new(alloc: Global, config: &Config) -> Result<News, NoMemory>
        ensures fronts { IfOk result (λ news. news.fronts.items ≡ replicate (length config.now.symbols) 0) }
        ensures rows { IfOk result (λ news. AreRows (length config.now.members) (length config.now.symbols) news.asked.items) }
    {
        Ok(News {
            fronts: vec![in alloc; 0; config.symbols.len()]?,
            asked: rows(alloc, config.members.len(), config.symbols.len())?,
        })
    }

    /// How many reports each symbol had at the last look.
    pub fn fronts(&self) -> &[u32]
        ensures { result.now ≡ self.now.fronts.items }
    {
        self.fronts.as_slice()
    }

    /// Whether a member is noted.
    pub fn is_noted(&self, member: u32) -> bool
        ensures none { result ≡ false → AsksNone (row_at self.now.asked.items member) }
        ensures some { result ≡ true → AsksSome (row_at self.now.asked.items member) }
    {
        match self.asked.get(member as usize) {
            Some(row) => row.is_noted(),
            None => false,
        }
    }

    /// At which symbols a member is asked.
    pub fn asked(&self, member: u32) -> &[bool]
        ensures { result.now ≡ row_at self.now.asked.items member }
    {
        match self.asked.get(member as usize) {
            Some(row) => row.symbols(),
            None => &[],
        }
    }

    /// Looks for reports that are new since the last look, and notes their symbols for their members, and all symbols for the
    /// member whose session may have come up, if there is one.
    pub fn look<F: PlainFloor>(&mut self, floor: &F, own: Option<u32>)
        requires each { length self.old.fronts.items ≡ length (F.mark floor.now).setup.limits }
        requires few { length self.old.fronts.items ≤ MAX_SYMBOLS }
        ensures fronts { AreFronts (length self.old.fronts.items) (λ symbol. (F.at floor.now symbol).reports) self.new.fronts.items }
        ensures each { (member : ℕ) → length (row_at self.new.asked.items member) ≡ length (row_at self.old.asked.items member) }
        ensures own { (member symbol : ℕ) → own ≡ Some member → symbol < length (row_at self.old.asked.items member)
            → asks self.new.asked.items member symbol ≡ true }
        ensures none { (member symbol : ℕ) → symbol < length (row_at self.old.asked.items member)
            → symbol < length self.old.fronts.items → asks self.new.asked.items member symbol ≡ false
            → reports_of member (slice_index self.old.fronts.items symbol) (F.at floor.now symbol).reports ≡ [] }

        // Nobody is asked anywhere else.
        ensures only { (member symbol : ℕ) → asks self.new.asked.items member symbol ≡ true
            → (own ≡ Some member)
            ⊎ HasNews F.at floor.now (length self.old.fronts.items) self.old.fronts.items member symbol }
    {
        begin(self.asked.as_mut_slice(), own);
        note_symbols(floor, self.fronts.as_mut_slice(), self.asked.as_mut_slice());
    }
}
