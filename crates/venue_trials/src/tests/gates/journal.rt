//! A small value for a gate: a journal with one report of each event.
ghost use Rattle.std.specs.Prelude.{◌≡◌, [], map};
ghost use Rattle.venue_trials.specs.EventReports.{report_of};

use std::alloc::Global;
use std::marker::Model;
use std::sync::ledger::Ledger;
use venue_words::{
    Command, Event, FloorRefusal, Held, Id, Items, Kind, Look, NoMemory, Report, Steps,
};

// A journal of at most `limit` events.
#[derive(Drop)]
pub struct Journal {
    events: Vec<Event>,
    limit: u32,
    alloc: Global,
}

impl Model for Journal {
    ghost use Rattle.std.specs.Prelude.{ℕ, List, ◌<◌, ◌≤◌, ◌^◌, length};
    ghost use Rattle.venue_words.specs.declared.command.Event.{Event};

    ghost Value = { ℕ × List Event };

    ghost view = { λ journal. (journal.limit, journal.events.items) };

    ghost invariant = { λ journal. (length journal.events.items ≤ journal.limit) × (journal.limit < 2 ^ 32) };
}

impl Journal {
    pub fn new(alloc: Global, limit: u32) -> Journal
        ensures { result ≡ (limit, []) }
    {
        Journal {
            events: Vec::new(alloc),
            limit,
            alloc,
        }
    }

    pub fn events(&self) -> &[Event] {
        self.events.as_slice()
    }
}

// A report to the member whose number is the event's feed.
fn report(event: &Event) -> Report
    ensures { result ≡ report_of event.now }
{
    Report {
        event: event.number,
        place: 1,
        member: event.feed,
        moment: event.moment,
        kind: Kind::Unknown {
            id: Id::short(&[]),
            side: 0,
        },
    }
}

impl Held for Journal {
    ghost use Rattle.std.specs.Prelude.{true, Some, map, drop};
    ghost use Rattle.venue_trials.specs.EventReports.{reports_of_events, reports_grow};

    ghost journal = { λ journal. journal.1 };

    ghost limit = { λ journal. journal.0 };

    ghost setting = { λ journal. 0 };

    ghost takes = { λ setting command. true };

    ghost reports = { λ setting events. reports_of_events events };

    ghost step_limit = { λ setting events event. Some 1 };

    fn submit<L: Ledger>(
        &mut self,
        feed: u32,
        moment: i64,
        command: &Command,
        steps: &mut Steps<L>,
    ) -> Result<u32, FloorRefusal> {
        let found = self.events.len() as u32;
        if found == self.limit {
            return Err(FloorRefusal::Full { found });
        }
        if self.events.reserve(1).is_err() {
            return Err(FloorRefusal::NoMemory);
        }
        let Ok(command) = Command::copy_of(self.alloc, command) else {
            return Err(FloorRefusal::NoMemory);
        };
        let number = found + 1;
        self.events.push_reserved(Event {
            number,
            feed,
            moment,
            command,
        });
        steps.tick();
        Ok(number)
    }

    fn look(&self, member: u32, from: u32) -> Result<Look, NoMemory> {
        let front = self.events.len() as u32;
        let mut reports = Items::new(self.alloc);
        let start = self.events.len().min(from as usize);
        for event in &self.events[start..] {
            if event.feed == member {
                reports.push(report(event))?;
            }
        }
        Ok(Look { reports, front })
    }

    ghost grows = { λ setting before after. reports_grow before after };
}
