//! Audits a venue's day from its listing: `pegaudit verify CONFIG LISTING` says whether the listing is what the market's rules make
//! of its own events, or the first line that differs, and with feeds behind it whether these events are what the feeds ask; `pegaudit trades CONFIG LISTING` puts its trades as a table,
//! `pegaudit summary CONFIG LISTING` what each member did in each symbol, and `pegaudit chart CONFIG LISTING
//! SYMBOL` a picture of the symbol's day. `pegaudit book CONFIG LISTING SYMBOL EVENT` puts both sides of a symbol's book after an event, and
//! `pegaudit order CONFIG LISTING SYMBOL EVENT` the life of the order that entered there. Each of them takes `--journal JOURNAL` in the place of
//! CONFIG and LISTING: the day of a live venue, which may be running. `pegaudit journal JOURNAL` puts a journal as a script.
#![tactic(auto)]

mod day;
mod lookups;
mod progress;
mod tables;
mod words;

ghost use Rattle.std.specs.Prelude.{◌≡◌, ◌≤◌, length};
ghost use Rattle.venue_words.specs.declared.limits.TheConstants.{MAX_FEEDS};

use crate::day::{Day, audit_shelf, journal_in, put_journal, words_of_day};
use crate::lookups::{book, order};
use crate::tables::{put_report, put_summary, put_trades};
use crate::words::{DayQuestion, Question, feeds_of, program, question_of};
use audit_chart::draw_day;
use audit_core::audit::audit;
use audit_feeds::audit_feeds;
use audit_telling::exit::Exit;
use audit_telling::refusals::{
    tell_explained, tell_feeds_refusal, tell_refusal, tell_unread_script,
};
use audit_telling::telling::{
    tell_bad_event, tell_chart, tell_feeds_verdict, tell_many_feeds, tell_verdict,
};
use clap::error::ErrorKind;
use io_edge::StreamSink;
use program_words::WordFault;
use program_words::arguments::arguments;
use script_explain::explain;
use std::marker::Brand;
use std::process::ExitCode;
use std::sync::Wait;
use std::sync::ledger::{Blank, Ledger};
use std::thread::Threads;
use venue_words::Steps;
use venue_words::limits::MAX_FEEDS;

/// Audits the files, and tells what came of it.
fn verify<L: Ledger>(rt: &HostRuntime, day: &mut Day<'_>, steps: &mut Steps<L>) -> Exit {
    match audit(rt.alloc(), day.files, &mut day.shelf, steps) {
        Ok(verdict) => tell_verdict(rt, day.files, verdict),
        Err(refusal) => tell_refusal(rt, day.files, refusal),
    }
}

/// Audits the files beside feeds, and tells what came of it.
fn verify_feeds<R: Threads + Sync, L: Ledger>(
    threads: &R,
    rt: &HostRuntime,
    day: &mut Day<'_>,
    feeds: &[&str],
    steps: &mut Steps<L>,
) -> Exit
    requires { length feeds.now ≤ MAX_FEEDS }
{
    match audit_feeds(threads, rt.alloc(), day.files, feeds, &mut day.shelf, steps) {
        Ok(verdict) => tell_feeds_verdict(rt, day.files, verdict),
        Err(refusal) => tell_feeds_refusal(rt, day.files, feeds, refusal),
    }
}

/// Audits the files, and the feeds where some are named, and tells what came of it.
fn verify_all<R: Threads + Sync, L: Ledger>(
    threads: &R,
    rt: &HostRuntime,
    day: &mut Day<'_>,
    feeds: &[&str],
    steps: &mut Steps<L>,
) -> Exit {
    if feeds.is_empty() {
        return verify(rt, day, steps);
    }
    if MAX_FEEDS < feeds.len() {
        return tell_many_feeds(rt);
    }
    verify_feeds(threads, rt, day, feeds, steps)
}

/// Audits the files, and puts the picture of a symbol's day.
fn draw<L: Ledger>(
    rt: &HostRuntime,
    day: &mut Day<'_>,
    symbol: &str,
    steps: &mut Steps<L>,
) -> Exit {
    match draw_day(rt.alloc(), day.files, symbol, &mut day.shelf, steps) {
        Ok(drawn) => tell_chart(rt, day.files, symbol, drawn),
        Err(refusal) => tell_refusal(rt, day.files, refusal),
    }
}

/// Reads a script, and tells what its lines do.
fn put_explained<L: Ledger>(rt: &HostRuntime, name: &str, steps: &mut Steps<L>) -> Exit {
    let mut out = StreamSink::new(rt.stdout());
    match std::fs::read(rt, name) {
        Ok(script) => {
            let status = explain(rt.alloc(), script.as_slice(), &mut out, steps);
            tell_explained(rt, name, status)
        }
        Err(_) => tell_unread_script(rt, name),
    }
}

/// Answers a question about a day.
fn answer_of_day<R: Threads + Sync, L: Ledger>(
    threads: &R,
    rt: &HostRuntime,
    question: DayQuestion<'_>,
    day: Day<'_>,
    feeds: &[&str],
    steps: &mut Steps<L>,
) -> Exit {
    let mut day = day;
    match question {
        DayQuestion::Verify => verify_all(threads, rt, &mut day, feeds, steps),
        DayQuestion::Trades => put_trades(rt, &mut day, steps),
        DayQuestion::Summary => put_summary(rt, &mut day, steps),
        DayQuestion::Chart(symbol) => draw(rt, &mut day, symbol, steps),
        DayQuestion::Report => put_report(threads, rt, day, feeds, steps),
        DayQuestion::Book(symbol, place) => book(rt, &mut day, symbol, place, steps),
        DayQuestion::Order(symbol, place) => order(rt, &mut day, symbol, place, steps),
    }
}

/// Answers a question.
fn run<R: Threads + Wait + Sync, L: Ledger>(
    threads: &R,
    rt: &HostRuntime,
    question: Question<'_>,
    feeds: &[&str],
    journal: Option<&str>,
    blank: Blank,
) -> Exit
    requires { (blank.name ≡ L.name) × (blank.parts ≡ L.parts) × (L.parts ≡ 1) }
{
    let mut steps: Steps<L> = Steps::start(blank);
    match question {
        Question::Day(files, question) => match audit_shelf(threads, rt, journal) {
            Ok(shelf) => {
                let day = Day { files, shelf };
                answer_of_day(threads, rt, question, day, feeds, &mut steps)
            }
            Err(exit) => exit,
        },
        Question::Journal(name, part) => put_journal(threads, rt, name, part),
        Question::Explain(name) => put_explained(rt, name, &mut steps),
    }
}

/// Reads the words, and does what they ask for, of the day of a journal where one is named.
fn answer<R: Threads + Wait + Sync>(
    threads: &R,
    rt: &HostRuntime,
    words: &[String],
    journal: Option<&str>,
) -> Exit {
    let Ok(command) = program(rt.alloc()) else {
        return Exit::NoMemory;
    };
    let matches = match command.try_get_matches_from(words) {
        Ok(matches) => matches,
        Err(error) if error.kind() == ErrorKind::OutOfMemory => return Exit::NoMemory,
        Err(error) => {
            let code = error.exit_code();
            return match error.print(rt) {
                Ok(()) if code == 0 => Exit::Done,
                Ok(()) => Exit::BadWords,
                Err(_) => Exit::WriteFault,
            };
        }
    };
    match question_of(&matches) {
        Some(question) => {
            let feeds = feeds_of(&matches).unwrap_or(&[]);
            run::<R, Brand>(threads, rt, question, feeds, journal, Blank::new(1))
        }
        None => tell_bad_event(rt),
    }
}

/// Does what the words of the command line ask for.
fn answer_words<R: Threads + Wait + Sync>(threads: &R, rt: &HostRuntime, words: &[String]) -> Exit {
    let Some(journal) = journal_in(words) else {
        return answer(threads, rt, words, None);
    };
    match words_of_day(rt.alloc(), words) {
        Ok(words) => answer(threads, rt, &words, Some(journal)),
        Err(_) => Exit::NoMemory,
    }
}

fn main(rt: HostRuntime) -> ExitCode {
    let exit = match arguments(&rt) {
        Ok(words) => answer_words(&rt, &rt, words.as_slice()),
        Err(WordFault::BadWords) => Exit::BadWords,
        Err(WordFault::NoMemory) => Exit::NoMemory,
    };
    exit.tell(&rt);
    ExitCode::from(exit.code())
}
