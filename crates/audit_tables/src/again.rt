//! A symbol's journal, worked once more for an answer.
ghost use Rattle.std.specs.Prelude.{◌≡◌, ◌++◌, [], OnOk};
ghost use Rattle.venue_words.specs.Conditions.{IsConfig};
ghost use Rattle.audit_core.specs.Telling.{IsBookOf, events_text};
ghost use Rattle.audit_tables.specs.Again.{IsFirst};
ghost use Rattle.audit_tables.specs.Asked.{telling_of};

use crate::answer::Answer;
use crate::counts::event_count;
use audit_core::OpenPart;
use listing_reader::Counts;
use std::alloc::Global;
use std::marker::Brand;
use std::sync::ledger::{Blank, Ledger};
use symbol_book::Book;
use venue_words::{Config, NoMemory, Steps};

/// A symbol of a config, and the book of its whole journal.
#[derive(Clone, Copy)]
pub struct SymbolDay<'a> {
    pub config: &'a Config,
    pub symbol: u32,
    pub book: &'a Book,
}

/// Works the journal in a part of its own, and tells of each event.
fn tell_events<T: Answer, L: Ledger>(
    alloc: Global,
    answer: &mut T,
    out: &mut Vec<u8>,
    day: SymbolDay<'_>,
    part: &mut OpenPart,
    steps: &mut Steps<L>,
) -> Result<(), NoMemory>
    requires of { IsBookOf day.config.now day.symbol day.book.now }
    requires first { IsFirst day.config.now day.symbol day.book.now part.old }
    requires heard { T.heard answer.old day.config.now day.symbol [] }
    ensures { OnOk result (out.new.items ≡ out.old.items
        ++ events_text (telling_of T.tells (T.asked answer.old)) day.entry.config.now day.entry.symbol [] day.entry.book.now.journal) }
{
    for event in day.book.journal() {
        part.work_again(alloc, day.config, day.symbol, event, steps)?;
        let made = &part.book.reports()[part.told as usize..];
        answer.push_event(out, day.config, day.symbol, &part.book, made)?;
        part.pass_reports();
    }
    Ok(())
}

fn tell_counted<T: Answer, L: Ledger>(
    alloc: Global,
    answer: &mut T,
    out: &mut Vec<u8>,
    day: SymbolDay<'_>,
    blank: Blank,
) -> Result<(), NoMemory>
    requires blank { (blank.name ≡ L.name) × (blank.parts ≡ L.parts) × (L.parts ≡ 1) }
    requires config { IsConfig day.config.now }
    requires of { IsBookOf day.config.now day.symbol day.book.now }
    requires heard { T.heard answer.old day.config.now day.symbol [] }
    ensures { OnOk result (out.new.items ≡ out.old.items
        ++ events_text (telling_of T.tells (T.asked answer.old)) day.entry.config.now day.entry.symbol [] day.entry.book.now.journal) }
{
    let mut steps: Steps<L> = Steps::start(blank);
    let counts = Counts {
        events: event_count(day.book.journal()),
        reports: 0,
    };
    let mut part = OpenPart::new(alloc, day.config, day.symbol, counts)?;
    let told = tell_events(alloc, answer, out, day, &mut part, &mut steps);
    drop(part);
    told
}

/// Works a symbol's journal once more, and tells of each of its events. Beside the book that there is it needs a second one.
pub fn tell_again<T: Answer>(
    alloc: Global,
    answer: &mut T,
    out: &mut Vec<u8>,
    day: SymbolDay<'_>,
) -> Result<(), NoMemory>
    requires config { IsConfig day.config.now }
    requires of { IsBookOf day.config.now day.symbol day.book.now }
    requires heard { T.heard answer.old day.config.now day.symbol [] }
    ensures { OnOk result (out.new.items ≡ out.old.items
        ++ events_text (telling_of T.tells (T.asked answer.old)) day.entry.config.now day.entry.symbol [] day.entry.book.now.journal) }
{
    tell_counted::<T, Brand>(alloc, answer, out, day, Blank::new(1))
}
