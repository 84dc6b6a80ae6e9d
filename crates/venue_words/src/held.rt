//! A value that takes the commands of one symbol.
ghost use Rattle.std.specs.Prelude.{◌≡◌, ℕ, ◌+◌, ◌<◌, ◌≤◌, Bool, true, Option, List, [], ◌∷◌, ◌++◌, length, Err, IfOk, IfErr, OnErr, IfSome};
ghost use Rattle.venue_words.specs.Floors.{CostsNothing};
ghost use Rattle.venue_words.specs.Journals.{event, StartsWith, reports_of, IfFull};
ghost use Rattle.venue_words.specs.declared.command.Command.{Command};
ghost use Rattle.venue_words.specs.declared.command.Event.{Event};
ghost use Rattle.venue_words.specs.declared.report.Report.{Report};

use crate::command::Command;
use crate::refusal::{FloorRefusal, NoMemory};
use crate::report::Look;
use crate::steps::Steps;
use std::sync::ledger::Ledger;

/// A value that takes the commands of one symbol into a journal and answers with reports.
/// It is seen as its journal, its limit, its setting and the reports that these make.
pub trait Held {
    /// The events that it took, in their order.
    ghost journal: { Self → List Event };

    /// The most events that it takes. It never changes.
    ghost limit: { Self → ℕ };

    /// A number for what else it was made with. It never changes.
    ghost setting: { Self → ℕ };

    /// Whether a value of this setting takes the command.
    ghost takes: { ℕ → Command → Bool };

    /// The reports that a journal makes at a setting.
    ghost reports: { ℕ → List Event → List Report };

    /// How many steps an event may take over a journal at a setting, where that is said.
    ghost step_limit: { ℕ → List Event → Event → Option ℕ };

    /// Takes the command into the journal as the next event, and answers the event's number.
    fn submit<L: Ledger>(
        &mut self,
        feed: u32,
        moment: i64,
        command: &Command,
        steps: &mut Steps<L>,
    ) -> Result<u32, FloorRefusal>
        requires { takes (setting self.old) command.now ≡ true }

        // What never changes.
        ensures limit { limit self.new ≡ limit self.old }
        ensures setting { setting self.new ≡ setting self.old }

        // The command stands behind the journal, within the limit.
        ensures number { IfOk result (λ number. number ≡ length (journal self.old) + 1) }
        ensures journal { IfOk result (λ number. journal self.new ≡ journal self.old ++ event number feed moment command.now ∷ []) }
        ensures room { IfOk result (λ number. number ≤ limit self.old) }

        // A refusal leaves the journal; `Full` comes exactly where it holds its limit.
        ensures err { OnErr result (journal self.new ≡ journal self.old) }
        ensures full { IfErr result (IfFull (λ found. (found ≡ length (journal self.old)) × (found ≡ limit self.old))) }
        ensures at_limit { limit self.old ≤ length (journal self.old) → result ≡ Err (FloorRefusal.Full (limit self.old)) }

        // The steps, where it is said how many an event may take.
        ensures steps { IfOk result (λ number. IfSome (step_limit (setting self.old) (journal self.old) (event number feed moment command.now))
            (λ most. steps.new ≤ steps.old + most)) }
        ensures idle { OnErr result (CostsNothing (step_limit (setting self.old)) (journal self.old)
            (event (length (journal self.old) + 1) feed moment command.now) steps.old steps.new) };

    /// The member's reports from a position on, and how many reports there are in all.
    fn look(&self, member: u32, from: u32) -> Result<Look, NoMemory>
        ensures reports { IfOk result (λ look. look.reports ≡ reports_of member from (reports (setting self.now) (journal self.now))) }
        ensures front { IfOk result (λ look. look.front ≡ length (reports (setting self.now) (journal self.now))) };

    /// The reports of a journal begin with those of each of its beginnings.
    ghost grows: { (setting : ℕ) (before after : List Event) → StartsWith (reports setting (before ++ after)) (reports setting before) };
}
