//! What is told of an audit.
ghost use Rattle.audit_telling.specs.Exits.{IsExit, exit_of_drawn, exit_of_feeds_verdict, exit_of_found, exit_of_verdict};

use crate::exit::{Exit, told};
use audit_chart::Drawn;
use audit_core::{AuditFiles, Verdict};
use audit_feeds::FeedsVerdict;
use audit_tables::asked::Found;
use std::io::{self, Write};
use venue_words::Bytes;

/// Puts the line that should stand there.
fn put_expected(rt: &HostRuntime, expected: &Bytes) -> io::Result<()> {
    let mut out = rt.stdout();
    out.write_all(b"expected: ")?;
    out.write_all(expected.as_slice())?;
    out.write_all(b"\n")
}

/// Tells a verdict.
pub fn tell_verdict(rt: &HostRuntime, files: AuditFiles<'_>, verdict: Verdict) -> Exit
    ensures { IsExit (exit_of_verdict verdict) result }
{
    let listing = files.listing;
    match verdict {
        Verdict::Same => told(println!(rt; "{listing}: same"), Exit::Done),
        Verdict::Differs { line, expected } => {
            let exit = told(
                println!(rt; "{listing}: line {line} differs"),
                Exit::Differs,
            );
            match expected {
                Some(text) if exit == Exit::Differs => told(put_expected(rt, &text), exit),
                _ => exit,
            }
        }
    }
}

/// Tells where journals are not what the feeds ask.
fn tell_departures(rt: &HostRuntime, departures: &Bytes) -> Exit
    ensures { IsExit Exit.Differs result }
{
    told(rt.stdout().write_all(departures.as_slice()), Exit::Differs)
}

/// Tells a verdict on a listing and its feeds.
pub fn tell_feeds_verdict(rt: &HostRuntime, files: AuditFiles<'_>, verdict: FeedsVerdict) -> Exit
    ensures { IsExit (exit_of_feeds_verdict verdict) result }
{
    match verdict {
        FeedsVerdict::Same => tell_verdict(rt, files, Verdict::Same),
        FeedsVerdict::Differs { line, expected } => {
            tell_verdict(rt, files, Verdict::Differs { line, expected })
        }
        FeedsVerdict::Departures(departures) => tell_departures(rt, &departures),
    }
}

/// Tells the verdict beside a table.
pub fn tell_tabled(rt: &HostRuntime, files: AuditFiles<'_>, verdict: Verdict) -> Exit
    ensures { IsExit (exit_of_verdict verdict) result }
{
    let listing = files.listing;
    match verdict {
        Verdict::Same => Exit::Done,
        Verdict::Differs { line, .. } => told(
            eprintln!(rt; "pegaudit: {listing}: line {line} differs"),
            Exit::Differs,
        ),
    }
}

/// Puts a picture, or tells why there is none.
pub fn tell_chart(rt: &HostRuntime, files: AuditFiles<'_>, symbol: &str, drawn: Drawn) -> Exit
    ensures { IsExit (exit_of_drawn drawn) result }
{
    match drawn {
        Drawn::Picture(picture) => told(rt.stdout().write_all(picture.as_slice()), Exit::Done),
        Drawn::Differs { line, .. } => told(
            eprintln!(rt; "pegaudit: {}: line {line} differs", files.listing),
            Exit::Differs,
        ),
        Drawn::NoSuchSymbol => told(
            eprintln!(rt; "pegaudit: {}: no symbol {symbol}", files.config),
            Exit::BadWords,
        ),
    }
}

/// Tells that no event is named.
pub fn tell_bad_event(rt: &HostRuntime) -> Exit
    ensures { IsExit Exit.BadWords result }
{
    told(
        eprintln!(rt;
            "pegaudit: EVENT is a number from 1 to 4294967295, a time of day as 14:30:00.123, or a member and a ClOrdID"
        ),
        Exit::BadWords,
    )
}

/// Tells that there are too many feeds.
pub fn tell_many_feeds(rt: &HostRuntime) -> Exit
    ensures { IsExit Exit.BadWords result }
{
    told(eprintln!(rt; "pegaudit: at most 64 feeds"), Exit::BadWords)
}

/// What names an event of a symbol on the command line.
#[derive(Clone, Copy, Debug)]
pub enum Place<'a> {
    /// Its number.
    Event(u32),
    /// A time of day, as it was written and in milliseconds since midnight: the last event that came no later.
    Time(&'a str, u32),
    /// A member and a ClOrdID(11) of an order of that member.
    Id(&'a str, &'a str),
}

/// Tells that a symbol has no such event.
fn tell_no_event(rt: &HostRuntime, listing: &str, symbol: &str, place: Place<'_>) -> Exit
    ensures { IsExit Exit.NotThere result }
{
    let put = match place {
        Place::Event(event) => {
            eprintln!(rt; "pegaudit: {listing}: {symbol} has no event {event}")
        }
        Place::Time(time, _) => {
            eprintln!(rt; "pegaudit: {listing}: {symbol} has no event by {time}")
        }
        Place::Id(member, id) => {
            eprintln!(rt;
                "pegaudit: {listing}: {symbol} has no order of {member} with ClOrdID {id}"
            )
        }
    };
    told(put, Exit::NotThere)
}

/// Tells that no order entered there.
fn tell_no_order(rt: &HostRuntime, listing: &str, symbol: &str, place: Place<'_>) -> Exit
    ensures { IsExit Exit.NotThere result }
{
    let put = match place {
        Place::Event(event) => eprintln!(rt;
            "pegaudit: {listing}: no order of {symbol} entered at event {event}"
        ),
        Place::Time(time, _) => eprintln!(rt;
            "pegaudit: {listing}: no order of {symbol} entered at the last event by {time}"
        ),
        Place::Id(member, id) => eprintln!(rt;
            "pegaudit: {listing}: no order of {symbol} entered for {member} with ClOrdID {id}"
        ),
    };
    told(put, Exit::NotThere)
}

/// Tells what the day does not have of that which was asked for.
pub fn tell_found(
    rt: &HostRuntime,
    files: AuditFiles<'_>,
    symbol: &str,
    place: Place<'_>,
    found: Found,
) -> Exit
    ensures { IsExit (exit_of_found found) result }
{
    match found {
        Found::All => Exit::Done,
        Found::NoSymbol => told(
            eprintln!(rt; "pegaudit: {}: no symbol {symbol}", files.config),
            Exit::BadWords,
        ),
        Found::NoEvent => tell_no_event(rt, files.listing, symbol, place),
        Found::NoOrder => tell_no_order(rt, files.listing, symbol, place),
    }
}
