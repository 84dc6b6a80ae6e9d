//! A venue for one thread.
ghost use Rattle.std.specs.Prelude.{◌≡◌, ◌<◌, true, length, map, slice_get, Some, IfOk};
ghost use Rattle.std.specs.List.{All};
ghost use Rattle.venue_words.specs.Conditions.{fits_limits};
ghost use Rattle.venue_words.specs.Floors.{setup_of, is_configured};
ghost use Rattle.venue_core.specs.Plain.{SubmitsTo};
ghost use Rattle.venue_core.specs.Venues.{TakesConfigured, plain_setup};

use std::alloc::Global;
use std::marker::Model;
use std::sync::ledger::Ledger;
use venue_words::{Command, Config, Floor, FloorRefusal, Held, Look, NoMemory, Steps};

/// A venue of one book for each symbol, which one thread has for itself: a floor that never waits.
///
/// At each symbol it shows the book's journal, of which every event is its own. It tells no turns. A refusal
/// leaves all that it shows.
pub struct PlainVenue<V: Held> {
    members: usize,
    markets: usize,
    ticks: Vec<u32>,
    books: Vec<V>,
}

// Written out, so that crates above let go of one by this theorem, and not part by part.
impl<V: Held + Drop> Drop for PlainVenue<V> {
    fn drop(self) {
        let PlainVenue {
            members: _,
            markets: _,
            ticks: _,
            books: _,
        } = self;
    }
}

impl<V: Held> Model for PlainVenue<V> {
    ghost use Rattle.std.specs.List.{All};
    ghost use Rattle.venue_core.specs.Venues.{PlainState, plain_state, plain_setup, TakesConfigured};

    ghost Value = { PlainState V };

    ghost view = { λ venue. plain_state venue.members venue.markets venue.ticks.items venue.books.items };

    ghost invariant = { λ venue. All (λ book. TakesConfigured V.takes
        (plain_setup V.limit (plain_state venue.members venue.markets venue.ticks.items venue.books.items))
        (V.setting book))
        venue.books.items };
}

impl<V: Held + Drop> PlainVenue<V> {
    /// Makes a venue of books, one for each symbol of the config, in its order. Where memory is wanting, the
    /// books are dropped.
    pub fn from_books(
        alloc: Global,
        config: &Config,
        books: Vec<V>,
    ) -> Result<PlainVenue<V>, NoMemory>
        requires limits { map V.limit books.items ≡ config.now.limits }
        requires takes { All (λ book. TakesConfigured V.takes (setup_of config.now) (V.setting book)) books.items }
        ensures setup { IfOk result (λ venue. plain_setup V.limit venue ≡ setup_of config.now) }
        ensures books { IfOk result (λ venue. venue.books ≡ books.items) }
    {
        let ticks = Vec::from_slice(alloc, config.ticks.as_slice())?;
        Ok(PlainVenue {
            members: config.members.len(),
            markets: config.markets.len(),
            ticks,
            books,
        })
    }

    /// The book of a symbol.
    pub fn book(&self, symbol: u32) -> &V
        requires { symbol < length self.now.books }
        ensures { slice_get self.now.books symbol ≡ Some result.now }
    {
        &self.books[symbol as usize]
    }
}

// Submits to the symbol's book.
fn submit_to<V: Held, L: Ledger>(
    books: &mut Vec<V>,
    symbol: u32,
    feed: u32,
    moment: i64,
    command: &Command,
    steps: &mut Steps<L>,
) -> Result<u32, FloorRefusal>
    requires symbol { symbol < length books.old.items }
    requires takes { All (λ book. V.takes (V.setting book) command.now ≡ true) books.old.items }
    ensures { SubmitsTo V.journal V.limit V.setting V.step_limit books.old.items books.new.items symbol result
        feed moment command.now steps.old steps.new }
{
    let book = &mut books[symbol as usize];
    book.submit(feed, moment, command, steps)
}

impl<V: Held> Floor for PlainVenue<V> {
    ghost use Rattle.std.specs.Prelude.{◌≢◌, ℕ, ◌+◌, ◌≤◌, slice_index, IfErr, OnOk, OnErr};
    ghost use Rattle.venue_words.specs.Floors.{TurnsRose, TurnsKept, Records, AddsNone, CostsAtMost, CostsNothing};
    ghost use Rattle.venue_words.specs.Journals.{event, StartsWith, IfFull};
    ghost use Rattle.venue_core.specs.Marks.{plain_mark, setting_in};
    ghost use Rattle.venue_core.specs.Shown.{shown_by_book, shown_of};
    ghost use Rattle.venue_core.specs.ShownLaws.{book_shows_reports};

    ghost mark = { λ venue. plain_mark V.limit V.setting venue };

    ghost at = { λ venue symbol. shown_of V.journal V.setting V.reports venue symbol };

    ghost reports_in = { λ mark symbol. V.reports (setting_in mark symbol) };

    ghost step_limit = { λ mark symbol. V.step_limit (setting_in mark symbol) };

    /// As the trait says, and a refusal leaves all that is shown.
    fn submit<L: Ledger>(
        &mut self,
        symbol: u32,
        feed: u32,
        moment: i64,
        command: &Command,
        steps: &mut Steps<L>,
    ) -> Result<u32, FloorRefusal>
        requires symbol { symbol < length (plain_setup V.limit self.old).limits }
        requires configured { is_configured (plain_setup V.limit self.old) command.now ≡ true }
        requires limits { fits_limits command.now ≡ true }
        ensures kept { OnErr result ((other : ℕ) → shown_of V.journal V.setting V.reports self.new other
            ≡ shown_of V.journal V.setting V.reports self.old other) }

        // What the trait says.
        ensures mark { plain_mark V.limit V.setting self.new ≡ plain_mark V.limit V.setting self.old }
        ensures others { (other : ℕ) → other ≢ symbol → shown_of V.journal V.setting V.reports self.new other
            ≡ shown_of V.journal V.setting V.reports self.old other }
        ensures reports { StartsWith (shown_of V.journal V.setting V.reports self.new symbol).reports
            (shown_of V.journal V.setting V.reports self.old symbol).reports }
        ensures records { IfOk result (λ number. Records (shown_of V.journal V.setting V.reports self.old symbol)
            (shown_of V.journal V.setting V.reports self.new symbol) number feed moment command.now) }
        ensures room { IfOk result (λ number. number ≤ slice_index (plain_setup V.limit self.old).limits symbol) }
        ensures turns { OnOk result (TurnsRose (shown_of V.journal V.setting V.reports self.old symbol).turns
            (shown_of V.journal V.setting V.reports self.new symbol).turns) }
        ensures err { OnErr result (AddsNone (shown_of V.journal V.setting V.reports self.old symbol)
            (shown_of V.journal V.setting V.reports self.new symbol)) }
        ensures turns_kept { OnErr result (TurnsKept (shown_of V.journal V.setting V.reports self.old symbol).turns
            (shown_of V.journal V.setting V.reports self.new symbol).turns) }
        ensures full { IfErr result (IfFull (λ found.
            (found ≡ length (shown_of V.journal V.setting V.reports self.new symbol).journal)
            × (found ≡ slice_index (plain_setup V.limit self.old).limits symbol))) }
        ensures steps { IfOk result (λ number. CostsAtMost
            (V.step_limit (setting_in (plain_mark V.limit V.setting self.old) symbol))
            (shown_of V.journal V.setting V.reports self.new symbol).journal
            (event number feed moment command.now) steps.old steps.new) }
        ensures idle { OnErr result (CostsNothing
            (V.step_limit (setting_in (plain_mark V.limit V.setting self.old) symbol))
            (shown_of V.journal V.setting V.reports self.new symbol).journal
            (event (length (shown_of V.journal V.setting V.reports self.new symbol).journal + 1) feed moment command.now)
            steps.old steps.new) }
    {
        submit_to(&mut self.books, symbol, feed, moment, command, steps)
    }

    fn reports_after(&mut self, symbol: u32, member: u32, from: u32) -> Result<Look, NoMemory> {
        self.books[symbol as usize].look(member, from)
    }

    ghost of_journal = { λ venue symbol within.
        book_shows_reports V.journal V.limit V.setting V.reports venue symbol within };
}
