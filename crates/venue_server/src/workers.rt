//! What each thread does: it serves a connection, or submits the quotes.
ghost use Rattle.std.specs.Prelude.{◌≡◌, if◌then◌else◌, length};
ghost use Rattle.venue_words.specs.Conditions.{IsConfig};
ghost use Rattle.venue_words.specs.Floors.{setup_of};
ghost use Rattle.venue_server.specs.Outcomes.{went_wrong};

use io_edge::{FileShelf, RealClock};
use member_gate::{CellDesks, DeskCell};
use serve_core::QuoteEnd;
use serve_core::quotes::quote_over;
use serve_core::serving::serve_over;
use socket_edge::{Bells, Inbox, SocketLink, read_all};
use std::alloc::Global;
use std::net::{Shutdown, TcpListener, TcpStream};
use std::rt;
use std::sync::Wait;
use std::sync::atomic::{AtomicBool, Ordering};
use std::thread::{Threads, join};
use std::time::Duration;
use venue_words::{Config, Floor};

/// How long a write to a socket may wait.
const WRITE_SECONDS: u64 = 30;

/// What all threads share.
#[derive(Drop)]
pub struct Shared<'a, R> {
    pub rt: &'a R,
    pub alloc: Global,
    pub config: &'a Config,
    pub listener: &'a TcpListener,
    pub cell: &'a DeskCell,
    pub bells: &'a Bells,
    /// The number of the drop session's bell, behind those of all connections.
    pub last: usize,
    /// All connections of members have ended, and the quotes are through.
    pub done: &'a AtomicBool,
    /// Where files are read.
    pub system: &'a HostRuntime,
    /// The name of the file of quotes.
    pub quotes: Option<&'a str>,
}

/// A connection that is to be served over its floor, with its inbox, under its number.
#[derive(Drop)]
pub struct Job<F> {
    pub floor: F,
    pub inbox: Inbox,
    pub number: usize,
}

/// What came of a task.
#[derive(Clone, Copy, Debug)]
pub enum Outcome {
    Served,
    /// The connection could not be taken.
    NotTaken,
    Quoted(QuoteEnd),
}

impl Outcome {
    /// This one, or the other one where nothing went wrong here.
    pub fn or(self, other: Outcome) -> Outcome
        ensures { result ≡ (if went_wrong self then self else other) }
    {
        match self {
            Outcome::Served | Outcome::Quoted(QuoteEnd::Done) => other,
            _ => self,
        }
    }
}

/// A task that was done, with its floor.
#[derive(Drop)]
pub struct Finished<F> {
    pub floor: F,
    pub outcome: Outcome,
}

impl<'a, R: Wait> Shared<'a, R> {
    /// The venue is done: the drop session is told what it was not told yet, and ends, and its connection is waited for no more.
    pub fn finish(&self) {
        self.done.store(true, Ordering::SeqCst);
        self.bells.end(self.rt, self.last);
    }
}

/// Sets a socket up: what is written goes at once, and waits no longer than a peer may be slow.
pub fn prepare(stream: &TcpStream) {
    let _ = stream.set_nodelay(true).is_ok();
    let _ = stream
        .set_write_timeout(Some(Duration::from_secs(WRITE_SECONDS)))
        .is_ok();
}

/// Serves a connection over its socket, and shuts the socket down, which ends the thread that reads it.
fn serve_stream<R: Wait + rt::Clock, F: Floor>(
    shared: &Shared<'_, R>,
    job: Job<F>,
    stream: &TcpStream,
) -> F
    requires config { IsConfig shared.now.config.now }
    requires desks { shared.now.cell.now ≡ length shared.now.config.now.members }
    requires setup { (F.mark job.floor).setup ≡ setup_of shared.now.config.now }
    ensures { F.mark result ≡ F.mark job.floor }
{
    let Job {
        mut floor,
        inbox,
        number,
    } = job;
    let rt = shared.rt;
    let mut link = SocketLink::new(rt, shared.alloc, stream, inbox, shared.bells, number);
    let mut clock = RealClock::new(rt);
    let mut desks = CellDesks {
        rt,
        cell: shared.cell,
        refused: 0,
    };
    let _end = serve_over(
        rt,
        shared.alloc,
        shared.config,
        &mut floor,
        &mut desks,
        &mut link,
        &mut clock,
    );
    let _ = stream.shutdown(Shutdown::Both).is_ok();
    floor
}

/// Takes the next connection and serves it: one thread reads the socket, another one serves the member.
pub fn serve_next<R: Threads + Wait + Sync + rt::Clock, F: Floor + Send + Drop>(
    shared: &Shared<'_, R>,
    job: Job<F>,
) -> Finished<F>
    requires config { IsConfig shared.now.config.now }
    requires desks { shared.now.cell.now ≡ length shared.now.config.now.members }
    requires setup { (F.mark job.floor).setup ≡ setup_of shared.now.config.now }
    ensures { F.mark result.floor ≡ F.mark job.floor }
{
    let stream = match shared.listener.accept() {
        Ok((stream, _)) => stream,
        Err(_) => {
            return Finished {
                floor: job.floor,
                outcome: Outcome::NotTaken,
            };
        }
    };
    prepare(&stream);
    let socket = &stream;
    let number = job.number;
    let (_, floor) = join(
        shared.rt,
        move || read_all(shared.rt, shared.alloc, socket, shared.bells, number),
        move || -> F
            requires { IsConfig shared.now.config.now
                × (shared.now.cell.now ≡ length shared.now.config.now.members)
                × ((F.mark job.floor).setup ≡ setup_of shared.now.config.now) }
            ensures { F.mark result ≡ F.mark job.floor }
        { serve_stream(shared, job, socket) },
    );
    Finished {
        floor,
        outcome: Outcome::Served,
    }
}

/// Submits the quotes, if there are any.
pub fn submit_quotes<R: Wait + rt::Clock, F: Floor>(
    shared: &Shared<'_, R>,
    mut floor: F,
) -> Finished<F>
    requires config { IsConfig shared.now.config.now }
    requires setup { (F.mark floor).setup ≡ setup_of shared.now.config.now }
    ensures { F.mark result.floor ≡ F.mark floor }
{
    let Some(name) = shared.quotes else {
        return Finished {
            floor,
            outcome: Outcome::Quoted(QuoteEnd::Done),
        };
    };
    let mut shelf = FileShelf::new(shared.system);
    let mut clock = RealClock::new(shared.rt);
    let end = quote_over(
        shared.alloc,
        shared.config,
        &mut floor,
        &mut shelf,
        name,
        &mut clock,
    );
    Finished {
        floor,
        outcome: Outcome::Quoted(end),
    }
}
