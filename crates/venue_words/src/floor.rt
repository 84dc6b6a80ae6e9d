//! What takes the commands of all symbols.
ghost use Rattle.std.specs.Prelude.{◌≡◌, ◌≢◌, ℕ, ◌+◌, ◌<◌, ◌≤◌, true, Option, List, length, slice_index, IfOk, IfErr, OnOk, OnErr};
ghost use Rattle.venue_words.specs.Conditions.{fits_limits};
ghost use Rattle.venue_words.specs.Journals.{event, StartsWith, reports_of, IfFull};
ghost use Rattle.venue_words.specs.Floors.{FloorMark, SymbolView, is_configured, TurnsRose, TurnsKept, Records, AddsNone, CostsAtMost, CostsNothing};
ghost use Rattle.venue_words.specs.declared.command.Event.{Event};
ghost use Rattle.venue_words.specs.declared.report.Report.{Report};

use crate::command::Command;
use crate::refusal::{FloorRefusal, NoMemory};
use crate::report::Look;
use crate::steps::Steps;
use std::sync::ledger::Ledger;

/// What takes the commands of all symbols and answers with their reports. A call on one symbol changes
/// nothing that is seen of another one.
pub trait Floor {
    /// Its configured things, and which gates it stands over. No call changes them.
    ghost mark: { Self → FloorMark };

    /// What it is seen as at each symbol.
    ghost at: { Self → ℕ → SymbolView };

    /// The reports that a journal of a symbol makes.
    ghost reports_in: { FloorMark → ℕ → List Event → List Report };

    /// How many steps an event may take over the journal of a symbol, where that is said.
    ghost step_limit: { FloorMark → ℕ → List Event → Event → Option ℕ };

    /// Submits a command to a symbol's book, and answers the number of its event.
    fn submit<L: Ledger>(
        &mut self,
        symbol: u32,
        feed: u32,
        moment: i64,
        command: &Command,
        steps: &mut Steps<L>,
    ) -> Result<u32, FloorRefusal>
        requires symbol { symbol < length (mark self.old).setup.limits }
        requires configured { is_configured (mark self.old).setup command.now ≡ true }
        requires limits { fits_limits command.now ≡ true }

        // What stays.
        ensures mark { mark self.new ≡ mark self.old }
        ensures others { (other : ℕ) → other ≢ symbol → at self.new other ≡ at self.old other }
        ensures reports { StartsWith (at self.new symbol).reports (at self.old symbol).reports }

        // The command was recorded once, within the limit, and a told number of turns rose.
        ensures records { IfOk result (λ number. Records (at self.old symbol) (at self.new symbol) number feed moment command.now) }
        ensures room { IfOk result (λ number. number ≤ slice_index (mark self.old).setup.limits symbol) }
        ensures turns { OnOk result (TurnsRose (at self.old symbol).turns (at self.new symbol).turns) }

        // A refusal adds no own call; `Full` comes where the journal that was found holds its limit.
        ensures err { OnErr result (AddsNone (at self.old symbol) (at self.new symbol)) }
        ensures turns_kept { OnErr result (TurnsKept (at self.old symbol).turns (at self.new symbol).turns) }
        ensures full { IfErr result (IfFull (λ found. (found ≡ length (at self.new symbol).journal)
            × (found ≡ slice_index (mark self.old).setup.limits symbol))) }

        // The steps, where it is said how many an event may take.
        ensures steps { IfOk result (λ number. CostsAtMost (step_limit (mark self.old) symbol) (at self.new symbol).journal
            (event number feed moment command.now) steps.old steps.new) }
        ensures idle { OnErr result (CostsNothing (step_limit (mark self.old) symbol) (at self.new symbol).journal
            (event (length (at self.new symbol).journal + 1) feed moment command.now) steps.old steps.new) };

    /// The member's reports of a symbol from a position on, and how many reports there are in all.
    fn reports_after(&mut self, symbol: u32, member: u32, from: u32) -> Result<Look, NoMemory>
        requires symbol { symbol < length (mark self.old).setup.limits }
        requires member { member < (mark self.old).setup.members }
        ensures mark { mark self.new ≡ mark self.old }
        ensures others { (other : ℕ) → other ≢ symbol → at self.new other ≡ at self.old other }
        ensures grown { StartsWith (at self.new symbol).reports (at self.old symbol).reports }
        ensures same { AddsNone (at self.old symbol) (at self.new symbol) }
        ensures turns { OnOk result (TurnsRose (at self.old symbol).turns (at self.new symbol).turns) }
        ensures turns_kept { OnErr result (TurnsKept (at self.old symbol).turns (at self.new symbol).turns) }
        ensures reports { IfOk result (λ look. look.reports ≡ reports_of member from (at self.new symbol).reports) }
        ensures front { IfOk result (λ look. look.front ≡ length (at self.new symbol).reports) };

    /// What it shows of a configured symbol are the reports that the journal makes which it shows.
    ghost of_journal: { (floor : Self) (symbol : ℕ) → symbol < length (mark floor).setup.limits
        → (at floor symbol).reports ≡ reports_in (mark floor) symbol (at floor symbol).journal };
}
