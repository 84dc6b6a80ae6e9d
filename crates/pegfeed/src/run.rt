//! Sessions, one after the other: after a break on either side both connections are made anew.
ghost use Rattle.venue_words.specs.Conditions.{IsConfig};

use crate::desk::Desk;
use crate::exit::Exit;
use crate::log::Log;
use crate::source::SourceLink;
use crate::words::Plan;
use source_feed::{FeedEnd, Setup, serve_source};
use source_session::{Names, SourceEnd, request_body};
use std::alloc::AllocError;
use std::thread;
use std::time::Duration;
use venue_words::{Bytes, Config};

/// The pause before the second try; each further one is twice as long, up to the longest.
const FIRST_PAUSE: u64 = 250;

/// The longest pause, in milliseconds.
const LONGEST_PAUSE: u64 = 5_000;

/// How long a pull waits, in milliseconds, where no quote is held.
const LONGEST_WAIT: u64 = 250;

/// How one try ended.
#[derive(Drop)]
enum Tried {
    /// There was a session, and it ended so.
    Served(FeedEnd),
    /// One side was not there.
    Unreached,
}

/// How long a pull waits: a tenth of the pace, so that a quote that is held passes soon after its time has come.
fn wait_of(pace: Option<u64>) -> Duration {
    match pace {
        Some(pace) => Duration::from_millis((pace / 10).max(1).min(LONGEST_WAIT)),
        None => Duration::from_millis(LONGEST_WAIT),
    }
}

/// By what a session is run.
fn setup_of(rt: &HostRuntime, plan: &Plan<'_>, symbols: &[&str]) -> Result<Setup, AllocError> {
    let alloc = rt.alloc();
    let names = Names {
        own: Bytes::copy_of(alloc, plan.sender.as_bytes())?,
        source: Bytes::copy_of(alloc, plan.target.as_bytes())?,
    };
    let Ok(request) = request_body(alloc, symbols) else {
        return Err(AllocError);
    };
    Ok(Setup {
        names,
        request,
        pace: plan.pace,
    })
}

/// Tells a text that is made with memory; one for which there is none is lost.
fn tell(log: &mut Log<'_>, text: Result<String, AllocError>) {
    if let Ok(text) = text {
        log.tell(text.as_str());
    }
}

/// One session, if both sides are there.
fn try_once(
    rt: &HostRuntime,
    config: &Config,
    plan: &Plan<'_>,
    setup: Setup,
    log: &mut Log<'_>,
) -> Tried
    requires { IsConfig config.now }
{
    let alloc = rt.alloc();
    let mut desk = match Desk::connect(rt, plan.desk) {
        Ok(desk) => desk,
        Err(error) => {
            tell(
                log,
                format!(in alloc; "desk-unreached desk={} cause=\"{error}\"", plan.desk),
            );
            return Tried::Unreached;
        }
    };
    let mut link = match SourceLink::connect(rt, plan.source, wait_of(plan.pace)) {
        Ok(link) => link,
        Err(error) => {
            tell(
                log,
                format!(in alloc; "source-unreached source={} cause=\"{error}\"", plan.source),
            );
            return Tried::Unreached;
        }
    };
    tell(
        log,
        format!(in alloc; "connected source={} desk={}", plan.source, plan.desk),
    );
    let end = serve_source(alloc, config, setup, &mut link, &mut desk, log);
    tell(log, format!(in alloc; "session-ended cause={end}"));
    Tried::Served(end)
}

/// How the program ends by the end of a session, where it does.
fn exit_by(plan: &Plan<'_>, tried: &Tried) -> Option<Exit> {
    match tried {
        Tried::Served(FeedEnd::NoMemory) => Some(Exit::NoMemory),
        Tried::Served(FeedEnd::DeskFault) if plan.desk == "-" => Some(Exit::Unwritten),
        Tried::Served(FeedEnd::SourceGone | FeedEnd::Ended(SourceEnd::Logout)) if plan.is_once => {
            Some(Exit::Done)
        }
        _ if plan.is_once => Some(Exit::Failed),
        _ => None,
    }
}

/// Takes market data until a signal ends it.
pub fn run(rt: &HostRuntime, config: &Config, plan: &Plan<'_>, symbols: &[&str]) -> Exit
    requires { IsConfig config.now }
{
    let mut log = Log::new(rt);
    let mut pause = FIRST_PAUSE;
    for _try in 0..u64::MAX {
        let Ok(setup) = setup_of(rt, plan, symbols) else {
            return Exit::NoMemory;
        };
        let tried = try_once(rt, config, plan, setup, &mut log);
        if let Some(exit) = exit_by(plan, &tried) {
            return exit;
        }
        if log.took_up() {
            pause = FIRST_PAUSE;
        }
        thread::sleep(rt, Duration::from_millis(pause));
        pause = pause.saturating_mul(2).min(LONGEST_PAUSE);
    }
    Exit::Done
}
