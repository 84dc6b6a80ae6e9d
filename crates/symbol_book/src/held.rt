//! The book as a value that takes the commands of one symbol.
ghost use Rattle.std.specs.Prelude.{◌≡◌, ◌+◌, ◌<◌, ◌≤◌, ◌++◌, ◌∷◌, [], true, length, Err, IfOk, IfErr, OnErr};
ghost use Rattle.venue_words.specs.Journals.{event, reports_of, IfFull};
ghost use Rattle.symbol_book.specs.Commands.{takes_command};
ghost use Rattle.symbol_book.specs.Setting.{book_setting, markets_in, reports_at, steps_at};

use crate::book::BookOver;
use crate::copying::reports_after;
use match_core::Engine;
use std::sync::ledger::Ledger;
use venue_words::{Command, Event, FloorRefusal, Held, Items, Look, NoMemory, Steps};

/// Records a command as the next event, and works it.
fn submit<E: Engine + Drop, L: Ledger>(
    book: &mut BookOver<E>,
    feed: u32,
    moment: i64,
    command: &Command,
    steps: &mut Steps<L>,
) -> Result<u32, FloorRefusal>
    requires takes { takes_command (markets_in (book_setting book.old)) command.now ≡ true }
    ensures same { (book.new.markets ≡ book.old.markets) × (book.new.tick ≡ book.old.tick) × (book.new.limit
        ≡ book.old.limit) }
    ensures number { IfOk result (λ number. number ≡ length book.old.journal + 1) }
    ensures journal { IfOk result (λ number. book.new.journal
        ≡ book.old.journal ++ event number feed moment command.now ∷ []) }
    ensures room { IfOk result (λ number. number ≤ book.old.limit) }
    ensures err { OnErr result (book.new.journal ≡ book.old.journal) }
    ensures full { IfErr result (IfFull (λ found. (found ≡ length book.old.journal) × (found ≡ book.old.limit))) }
    ensures at_limit { book.old.limit ≤ length book.old.journal → result ≡ Err (FloorRefusal.Full book.old.limit) }
    ensures most { IfOk result (λ number. steps.new ≤ steps.old + steps_at
        (book_setting book.old) book.old.journal (event number feed moment command.now)) }
    ensures idle { OnErr result (steps.new ≡ steps.old) }
{
    book.parts_of_setting();
    let room = book.prepare(command)?;
    let Ok(command) = Command::copy_of(book.alloc(), command) else {
        return Err(FloorRefusal::NoMemory);
    };
    let number = book.next_number();
    let event = Event {
        number,
        feed,
        moment,
        command,
    };
    book.apply(room, event, steps);
    Ok(number)
}

/// A member's reports from a position on, and how many reports there are.
fn look<E: Engine + Drop>(book: &BookOver<E>, member: u32, from: u32) -> Result<Look, NoMemory>
    ensures reports { IfOk result (λ look. look.reports
        ≡ reports_of member from (reports_at (book_setting book.now) book.now.journal)) }
    ensures front { IfOk result (λ look. look.front ≡ length (reports_at (book_setting book.now) book.now.journal)) }
{
    let reports = book.reports();
    let front = book.front();
    let copies = reports_after(book.alloc(), member, from, reports)?;
    Ok(Look {
        reports: Items(copies),
        front,
    })
}

impl<E: Engine + Drop> Held for BookOver<E> {
    ghost use Rattle.std.specs.Prelude.{Some};
    ghost use Rattle.symbol_book.specs.Commands.{takes_command};
    ghost use Rattle.symbol_book.specs.Growing.{reports_grow};
    ghost use Rattle.symbol_book.specs.Setting.{book_setting, markets_in, reports_at, steps_at};

    ghost journal = { λ book. book.journal };

    ghost limit = { λ book. book.limit };

    ghost setting = { book_setting };

    ghost takes = { λ setting command. takes_command (markets_in setting) command };

    ghost reports = { reports_at };

    ghost step_limit = { λ setting journal event. Some (steps_at setting journal event) };

    fn submit<L: Ledger>(
        &mut self,
        feed: u32,
        moment: i64,
        command: &Command,
        steps: &mut Steps<L>,
    ) -> Result<u32, FloorRefusal> {
        submit(self, feed, moment, command, steps)
    }

    fn look(&self, member: u32, from: u32) -> Result<Look, NoMemory> {
        look(self, member, from)
    }

    ghost grows = { reports_grow };
}
