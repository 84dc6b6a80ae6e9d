//! The book and an order's life as a command line asks for them: at an event, at a time of day, or by who named an order how.
ghost use Rattle.std.specs.Prelude.{◌≡◌};

use crate::day::Day;
use crate::tables::put_table;
use audit_book::BookAnswer;
use audit_order::LifeAnswer;
use audit_tables::RowTable;
use audit_tables::answer::{Answer, AskedRows};
use audit_tables::asked::{Asked, Found, Question};
use audit_tables::naming::{ByTime, EntryWithId, Identified, OrderName, Timed, WithId};
use audit_tables::sought::{Sought, SoughtRows};
use audit_telling::exit::Exit;
use audit_telling::telling::{Place, tell_bad_event, tell_found};
use io_edge::StreamSink;
use script_text::unescape;
use std::marker::Brand;
use std::sync::ledger::Ledger;
use venue_words::{NoMemory, Steps};

/// Audits the files, and puts the answer at the event that the type stands for.
fn put_asked<A: Asked, T: Answer + Drop, L: Ledger>(
    rt: &HostRuntime,
    day: &mut Day<'_>,
    name: &[u8],
    event: u32,
    steps: &mut Steps<L>,
) -> (Exit, Found)
    requires name { name.now ≡ A.name }
    requires event { event ≡ A.event }
{
    let question: Question<'_, A> = Question::new(name, event);
    let rows: Result<AskedRows<'_, A, T>, NoMemory> = AskedRows::new(rt.alloc(), question);
    let Ok(rows) = rows else {
        return (Exit::NoMemory, Found::All);
    };
    match RowTable::new(rt.alloc(), rows, StreamSink::new(rt.stdout())) {
        Ok(mut table) => {
            let exit = put_table(rt, day, &mut table, steps);
            (exit, table.rows().found())
        }
        Err(_) => (Exit::NoMemory, Found::All),
    }
}

/// Audits the files, and puts the answer at the event that is sought.
fn put_sought<S: Sought + Drop, T: Answer + Drop, L: Ledger>(
    rt: &HostRuntime,
    day: &mut Day<'_>,
    sought: S,
    steps: &mut Steps<L>,
) -> (Exit, Found) {
    let rows: SoughtRows<S, T> = SoughtRows::new(rt.alloc(), sought);
    match RowTable::new(rt.alloc(), rows, StreamSink::new(rt.stdout())) {
        Ok(mut table) => {
            let exit = put_table(rt, day, &mut table, steps);
            (exit, table.rows().found())
        }
        Err(_) => (Exit::NoMemory, Found::All),
    }
}

/// Audits the files, and puts the answer at the last event by a time of day.
fn put_by_time<A: Timed, T: Answer + Drop, L: Ledger>(
    rt: &HostRuntime,
    day: &mut Day<'_>,
    symbol: &[u8],
    time: u32,
    steps: &mut Steps<L>,
) -> (Exit, Found)
    requires symbol { symbol.now ≡ A.symbol }
    requires time { time ≡ A.time }
{
    let sought: ByTime<'_, A> = ByTime::new(symbol, time);
    put_sought::<ByTime<'_, A>, T, L>(rt, day, sought, steps)
}

/// Audits the files, and puts the book after the event from which on an order has an identifier.
fn put_book_with<A: Identified, L: Ledger>(
    rt: &HostRuntime,
    day: &mut Day<'_>,
    symbol: &[u8],
    member: &[u8],
    id: &[u8],
    steps: &mut Steps<L>,
) -> (Exit, Found)
    requires symbol { symbol.now ≡ A.symbol }
    requires member { member.now ≡ A.member }
    requires id { id.now ≡ A.id }
{
    let name: OrderName<'_, A> = OrderName::new(symbol, member, id);
    put_sought::<WithId<'_, A>, BookAnswer, L>(rt, day, WithId(name), steps)
}

/// Audits the files, and puts the life of the order that has an identifier.
fn put_order_with<A: Identified, L: Ledger>(
    rt: &HostRuntime,
    day: &mut Day<'_>,
    symbol: &[u8],
    member: &[u8],
    id: &[u8],
    steps: &mut Steps<L>,
) -> (Exit, Found)
    requires symbol { symbol.now ≡ A.symbol }
    requires member { member.now ≡ A.member }
    requires id { id.now ≡ A.id }
{
    let name: OrderName<'_, A> = OrderName::new(symbol, member, id);
    put_sought::<EntryWithId<'_, A>, LifeAnswer, L>(rt, day, EntryWithId(name), steps)
}

/// The bytes that a ClOrdID on the command line stands for, which is written as in a listing.
fn id_in(rt: &HostRuntime, word: &str) -> Result<Vec<u8>, Exit> {
    match unescape(rt.alloc(), word.as_bytes()) {
        Ok(Some(id)) => Ok(id),
        Ok(None) => Err(tell_bad_event(rt)),
        Err(_) => Err(Exit::NoMemory),
    }
}

/// Tells what was not found, where the table was put.
fn with_found(
    rt: &HostRuntime,
    day: &mut Day<'_>,
    symbol: &str,
    place: Place<'_>,
    put: (Exit, Found),
) -> Exit {
    match put {
        (Exit::Done, found) => tell_found(rt, day.files, symbol, place, found),
        (exit, _) => exit,
    }
}

/// Audits the files, and puts the book of a symbol after an event.
pub(crate) fn book<L: Ledger>(
    rt: &HostRuntime,
    day: &mut Day<'_>,
    symbol: &str,
    place: Place<'_>,
    steps: &mut Steps<L>,
) -> Exit {
    let name = symbol.as_bytes();
    let put = match place {
        Place::Event(event) => { put_asked::<Brand, BookAnswer, L>(rt, day, name, event, steps) }
        Place::Time(_, time) => { put_by_time::<Brand, BookAnswer, L>(rt, day, name, time, steps) }
        Place::Id(member, id) => match id_in(rt, id) {
            Ok(id) => { put_book_with::<Brand, L>(rt, day, name, member.as_bytes(), &id, steps) }
            Err(exit) => return exit,
        },
    };
    with_found(rt, day, symbol, place, put)
}

/// Audits the files, and puts the life of an order of a symbol.
pub(crate) fn order<L: Ledger>(
    rt: &HostRuntime,
    day: &mut Day<'_>,
    symbol: &str,
    place: Place<'_>,
    steps: &mut Steps<L>,
) -> Exit {
    let name = symbol.as_bytes();
    let put = match place {
        Place::Event(event) => { put_asked::<Brand, LifeAnswer, L>(rt, day, name, event, steps) }
        Place::Time(_, time) => { put_by_time::<Brand, LifeAnswer, L>(rt, day, name, time, steps) }
        Place::Id(member, id) => match id_in(rt, id) {
            Ok(id) => { put_order_with::<Brand, L>(rt, day, name, member.as_bytes(), &id, steps) }
            Err(exit) => return exit,
        },
    };
    with_found(rt, day, symbol, place, put)
}
