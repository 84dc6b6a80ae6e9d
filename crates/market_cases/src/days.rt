//! Days of a symbol with the markets N and P, on the plain program and on both books.
use crate::commands::command_of;
use crate::reports::tell_report;
use crate::ticks::Tick;
use case_text::{Told, Words};
use plain_rows::{Shown, over_groups, over_rows, plain_reports, text_of};
use std::alloc::Global;
use venue_words::{Command, Event, NoMemory};

/// A day so far.
#[derive(Drop)]
pub struct Day {
    tick: Tick,
    events: Vec<Event>,
    /// The reports that were told, and how many they are.
    reports: String,
    told: usize,
}

/// Tells where a book took other events than there are, or shows other reports than the plain program.
fn compare(name: &str, shown: &Shown, count: usize, wanted: &str, told: &mut Told) {
    if shown.taken as usize != count || shown.reports.as_str() != wanted {
        told.push("\n  differs over ");
        told.push(name);
    }
}

impl Day {
    /// A day without events, with the tick that a text is.
    pub fn new(alloc: Global, tick: &[u8]) -> Day {
        Day {
            tick: Tick::of(tick),
            events: Vec::new(alloc),
            reports: String::new(alloc),
            told: 0,
        }
    }

    /// Takes a command as the next event.
    fn push(&mut self, command: Command) -> Result<(), NoMemory> {
        let last = u32::try_from(self.events.len()).unwrap_or(u32::MAX);
        self.events.push(Event {
            number: last.saturating_add(1),
            feed: 1,
            moment: 0,
            command,
        })?;
        Ok(())
    }

    /// Tells the new reports of the plain program, and where those before them are others than they were.
    fn tell_new(&mut self, told: &mut Told) -> Result<(), NoMemory> {
        let units = self.tick.units();
        let reports = plain_reports(told.alloc, units, self.events.as_slice())?;
        for report in reports.iter().skip(self.told) {
            tell_report(report, told);
        }
        let text = text_of(told.alloc, reports.as_slice())?;
        if !text.as_str().starts_with(self.reports.as_str()) {
            told.push("\n  differs from before");
        }
        self.told = reports.len();
        self.reports = text;
        Ok(())
    }

    /// Tells where the books differ from the plain program.
    fn tell_books(&self, told: &mut Told) -> Result<(), NoMemory> {
        let units = self.tick.units();
        let events = self.events.as_slice();
        let wanted = self.reports.as_str();
        let shown = over_groups(told.alloc, units, events)?;
        compare("groups", &shown, events.len(), wanted, told);
        let shown = over_rows(told.alloc, units, events)?;
        compare("rows", &shown, events.len(), wanted, told);
        Ok(())
    }

    /// Tells how many orders rest, in how many groups, and where the books differ.
    fn tell_resting(&self, told: &mut Told) -> Result<(), NoMemory> {
        let units = self.tick.units();
        let events = self.events.as_slice();
        let resting = over_groups(told.alloc, units, events)?.resting;
        told.value(&resting.0);
        told.push(" in ");
        told.show(&resting.1);
        told.push(" groups");
        if over_rows(told.alloc, units, events)?.resting != resting {
            told.push("\n  differs over rows");
        }
        Ok(())
    }

    fn take(&mut self, word: &str, words: &Words<'_>, told: &mut Told) -> Result<(), NoMemory> {
        match command_of(word, words)? {
            Some(command) => {
                self.push(command)?;
                self.tell_new(told)?;
                self.tell_books(told)
            }
            None => {
                told.word("no command");
                Ok(())
            }
        }
    }

    /// `day TICK` begins a day, each command goes on with it, and `resting` tells how many orders rest in how many
    /// groups.
    pub fn play(
        &mut self,
        word: &str,
        words: &Words<'_>,
        told: &mut Told,
    ) -> Result<bool, NoMemory> {
        match word {
            "day" => *self = Day::new(told.alloc, words.at(0)),
            "resting" => self.tell_resting(told)?,
            "quote" | "new" | "replace" | "cancel" | "status" => self.take(word, words, told)?,
            _ => return Ok(false),
        }
        Ok(true)
    }
}
