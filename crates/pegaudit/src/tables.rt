//! Tables of a whole day, and the day as a page.
ghost use Rattle.std.specs.Prelude.{◌≤◌, length};
ghost use Rattle.venue_words.specs.declared.limits.TheConstants.{MAX_FEEDS};

use crate::day::Day;
use audit_feeds::{FeedsVerdict, audit_feeds};
use audit_report::{KeptShelf, ReportFiles, Reported, Source, report_day};
use audit_summary::{SummaryRows, SummaryTable};
use audit_tables::{Table, TradeRows, TradeTable, tabulate};
use audit_telling::exit::{Exit, told};
use audit_telling::refusals::{tell_feeds_refusal, tell_refusal};
use audit_telling::telling::{tell_many_feeds, tell_tabled};
use io_edge::StreamSink;
use std::io::Write;
use std::sync::ledger::Ledger;
use std::thread::Threads;
use venue_words::Steps;
use venue_words::limits::MAX_FEEDS;

/// Audits the files, and puts a table of the day.
pub(crate) fn put_table<T: Table, L: Ledger>(
    rt: &HostRuntime,
    day: &mut Day<'_>,
    table: &mut T,
    steps: &mut Steps<L>,
) -> Exit {
    match tabulate(rt.alloc(), day.files, &mut day.shelf, table, steps) {
        Ok(verdict) => tell_tabled(rt, day.files, verdict),
        Err(refusal) => tell_refusal(rt, day.files, refusal),
    }
}

/// Audits the files, and puts the table of its trades.
pub(crate) fn put_trades<L: Ledger>(
    rt: &HostRuntime,
    day: &mut Day<'_>,
    steps: &mut Steps<L>,
) -> Exit {
    let Ok(rows) = TradeRows::new(rt.alloc()) else {
        return Exit::NoMemory;
    };
    match TradeTable::new(rt.alloc(), rows, StreamSink::new(rt.stdout())) {
        Ok(mut table) => put_table(rt, day, &mut table, steps),
        Err(_) => Exit::NoMemory,
    }
}

/// Audits the files, and puts what each member did in each symbol.
pub(crate) fn put_summary<L: Ledger>(
    rt: &HostRuntime,
    day: &mut Day<'_>,
    steps: &mut Steps<L>,
) -> Exit {
    let rows = SummaryRows::new(rt.alloc());
    match SummaryTable::new(rt.alloc(), rows, StreamSink::new(rt.stdout())) {
        Ok(mut table) => put_table(rt, day, &mut table, steps),
        Err(_) => Exit::NoMemory,
    }
}

/// Audits the files, and puts the day as a page.
fn put_page<L: Ledger>(
    rt: &HostRuntime,
    day: Day<'_>,
    source: Source<'_>,
    steps: &mut Steps<L>,
) -> Exit {
    let Day { files, shelf } = day;
    let mut shelf = KeptShelf::new(rt.alloc(), shelf);
    match report_day(rt.alloc(), ReportFiles { files, source }, &mut shelf, steps) {
        Ok(reported) => {
            let Reported { page, verdict } = reported;
            match told(rt.stdout().write_all(page.as_slice()), Exit::Done) {
                Exit::Done => tell_tabled(rt, files, verdict),
                exit => exit,
            }
        }
        Err(refusal) => tell_refusal(rt, files, refusal),
    }
}

/// Puts the page of a day whose events are not what its feeds ask.
fn put_departing<L: Ledger>(
    rt: &HostRuntime,
    day: Day<'_>,
    departures: &[u8],
    steps: &mut Steps<L>,
) -> Exit {
    match put_page(rt, day, Source::Departs(departures), steps) {
        Exit::Done => told(rt.stderr().write_all(departures), Exit::Differs),
        exit => exit,
    }
}

/// Audits the files beside feeds, and puts the day as a page. The listing is read once for the feeds, and once for the page.
fn put_page_of_feeds<R: Threads + Sync, L: Ledger>(
    threads: &R,
    rt: &HostRuntime,
    day: Day<'_>,
    feeds: &[&str],
    steps: &mut Steps<L>,
) -> Exit
    requires { length feeds.now ≤ MAX_FEEDS }
{
    let mut day = day;
    match audit_feeds(threads, rt.alloc(), day.files, feeds, &mut day.shelf, steps) {
        Ok(FeedsVerdict::Same) => put_page(rt, day, Source::Feeds(feeds.len()), steps),
        Ok(FeedsVerdict::Differs { .. }) => put_page(rt, day, Source::Unknown, steps),
        Ok(FeedsVerdict::Departures(departures)) => {
            put_departing(rt, day, departures.as_slice(), steps)
        }
        Err(refusal) => tell_feeds_refusal(rt, day.files, feeds, refusal),
    }
}

/// Audits the files, and the feeds where some are named, and puts the day as a page.
pub(crate) fn put_report<R: Threads + Sync, L: Ledger>(
    threads: &R,
    rt: &HostRuntime,
    day: Day<'_>,
    feeds: &[&str],
    steps: &mut Steps<L>,
) -> Exit {
    if feeds.is_empty() {
        return put_page(rt, day, Source::Unknown, steps);
    }
    if MAX_FEEDS < feeds.len() {
        return tell_many_feeds(rt);
    }
    put_page_of_feeds(threads, rt, day, feeds, steps)
}
