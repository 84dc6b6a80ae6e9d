//! The figures of a journal as it is.
ghost use Rattle.std.specs.Prelude.{◌≡◌};

use crate::exit::Exit;
use crate::watch::Watch;
use journal_follow::SystemJournal;
use std::sync::ledger::{Blank, Ledger};
use venue_words::Steps;
use watch_figures::Moment;
use watch_page::{Following, metrics};

/// The most pieces of a journal: each but the last has a line at least.
const MAX_PIECES: u64 = 1 << 32;

/// Prints Prometheus' text of a journal.
pub fn tell_once<L: Ledger>(rt: &HostRuntime, journal: &str, blank: Blank) -> Exit
    requires { (blank.name ≡ L.name) × (blank.parts ≡ L.parts) × (L.parts ≡ 1) }
{
    let Ok(mut file) = SystemJournal::open(rt, journal) else {
        return Exit::Unread;
    };
    let Ok(mut watch) = Watch::<L>::new(rt.alloc(), Steps::start(blank)) else {
        return Exit::NoMemory;
    };
    for _ in 0..MAX_PIECES {
        if !watch.look(&mut file) {
            break;
        }
    }
    match watch.following() {
        Following::Unread => return Exit::Unread,
        Following::Stopped => return Exit::NoMemory,
        Following::Damaged { .. } | Following::Refused { .. } => return Exit::Damaged,
        Following::Whole | Following::Behind => {}
    }
    let moment = Moment { now: 0, stale: 0 };
    let Ok(snapshot) = watch.snapshot(moment, None) else {
        return Exit::NoMemory;
    };
    let Ok(text) = metrics(rt.alloc(), &snapshot) else {
        return Exit::NoMemory;
    };
    match print!(rt; "{text}") {
        Ok(()) => Exit::Done,
        Err(_) => Exit::Unwritten,
    }
}
