//! The loop: the journal is followed, and who asks is answered.
ghost use Rattle.std.specs.Prelude.{◌≡◌};

use crate::desk::Desk;
use crate::exit::Exit;
use crate::guests::Guests;
use crate::watch::Watch;
use crate::words::Day;
use io_edge::{Clock as _, RealClock};
use journal_follow::SystemJournal;
use std::net::SocketAddr;
use std::sync::ledger::{Blank, Ledger};
use venue_words::Steps;
use watch_figures::Moment;

/// How many pieces of the journal are worked before those who ask are looked after.
const PIECES: usize = 16;

/// The longest wait, in milliseconds: so soon a line of the journal is shown.
const WAIT_MILLISECONDS: u64 = 100;

/// After how many milliseconds a quote is stale, where nothing else is said: as the venue has it.
const STALE_MILLISECONDS: u64 = 5_000;

/// The most rounds: those of some hundred million years.
const ROUNDS: u64 = u64::MAX;

/// The address of the page, where it may be looked at from there.
fn address_of(day: Day<'_>) -> Result<SocketAddr, Exit> {
    match day.address.parse::<SocketAddr>() {
        Ok(address) if day.public || address.ip().is_loopback() => Ok(address),
        Ok(_) => Err(Exit::OpenDoor),
        Err(_) => Err(Exit::NoDoor),
    }
}

/// After how many milliseconds a quote is stale.
fn stale_of(day: Day<'_>) -> Result<u64, Exit> {
    match day.stale {
        None => Ok(STALE_MILLISECONDS),
        Some(word) => match word.parse::<u32>() {
            Ok(seconds) => Ok(u64::from(seconds) * 1_000),
            Err(_) => Err(Exit::BadWords),
        },
    }
}

/// The journal, once it is there.
fn open(rt: &HostRuntime, file: &mut Option<SystemJournal>, day: Day<'_>) {
    if file.is_none() {
        if let Ok(opened) = SystemJournal::open(rt, day.journal) {
            *file = Some(opened);
        }
    }
}

/// Works what the journal has, and says whether there is more.
fn follow<L: Ledger>(watch: &mut Watch<L>, file: &mut Option<SystemJournal>) -> bool {
    let Some(file) = file else {
        return false;
    };
    for _ in 0..PIECES {
        if !watch.goes_on() || !watch.look(file) {
            return false;
        }
    }
    true
}

/// Looks after those who ask, and after the desk.
fn answer<L: Ledger>(
    rt: &HostRuntime,
    day: Day<'_>,
    moment: Moment,
    watch: &mut Watch<L>,
    guests: &mut Guests,
    desk: &mut Desk,
) -> Result<(), Exit> {
    let heard = guests
        .admit(moment.now)
        .and_then(|()| guests.hear(moment.now))
        .and_then(|()| desk.hear());
    if heard.is_err() {
        return Err(Exit::NoMemory);
    }
    desk.ask(rt, guests.poll.registry(), day.desk, moment.now);
    if guests.ask() {
        let Ok(snapshot) = watch.snapshot(moment, desk.told()) else {
            return Err(Exit::NoMemory);
        };
        if guests.answer(&snapshot, moment.now).is_err() {
            return Err(Exit::NoMemory);
        }
    }
    Ok(())
}

/// Waits for who asks, and not at all where the journal has more. It says whether that was possible.
fn wait(guests: &mut Guests, more: bool) -> bool {
    if more {
        let _ = guests.wait(0);
        return true;
    }
    guests.wait(WAIT_MILLISECONDS)
}

/// Follows a journal and answers who asks, until it is killed.
pub fn serve<L: Ledger>(rt: &HostRuntime, day: Day<'_>, blank: Blank) -> Exit
    requires { (blank.name ≡ L.name) × (blank.parts ≡ L.parts) × (L.parts ≡ 1) }
{
    let (address, stale) = match (address_of(day), stale_of(day)) {
        (Ok(address), Ok(stale)) => (address, stale),
        (Err(exit), _) | (_, Err(exit)) => return exit,
    };
    let Ok(mut guests) = Guests::new(rt, rt.alloc(), address) else {
        return Exit::NoDoor;
    };
    let Ok(mut watch) = Watch::<L>::new(rt.alloc(), Steps::start(blank)) else {
        return Exit::NoMemory;
    };
    let mut file = None;
    let mut desk = Desk::new(rt.alloc());
    let mut clock = RealClock::new(rt);
    for _ in 0..ROUNDS {
        let now = u64::try_from(clock.now()).unwrap_or(0);
        let moment = Moment { now, stale };
        open(rt, &mut file, day);
        let more = follow(&mut watch, &mut file);
        match answer(rt, day, moment, &mut watch, &mut guests, &mut desk) {
            Ok(()) if wait(&mut guests, more) => {}
            Ok(()) => return Exit::Sockets,
            Err(exit) => return exit,
        }
    }
    Exit::Done
}
