//! The drop session's thread: it waits for the session's connection, and serves it.
ghost use Rattle.std.specs.Prelude.{◌≡◌, length, IfSome};
ghost use Rattle.venue_words.specs.Conditions.{IsConfig};
ghost use Rattle.venue_words.specs.Floors.{setup_of};
ghost use Rattle.drop_copy.specs.Desks.{AreConfigured};

use crate::workers::{Finished, Job, Outcome, Shared, prepare};
use drop_copy::{DropDesk, serve_drop_over};
use io_edge::RealClock;
use socket_edge::{SocketLink, read_all};
use std::io::{self, ErrorKind};
use std::net::{Shutdown, TcpListener, TcpStream};
use std::rt;
use std::sync::Wait;
use std::sync::atomic::Ordering;
use std::thread::{Threads, join, sleep};
use std::time::Duration;
use venue_words::Floor;

/// How long it takes until a connection is looked for again.
const PAUSE_MILLISECONDS: u64 = 50;

/// A drop session whose one connection is taken at an address of its own.
#[derive(Drop)]
pub struct CopySession {
    pub listener: TcpListener,
    pub desk: DropDesk,
}

/// Waits for a connection until the venue is done. Afterwards nobody listens at the address.
fn take_connection<R: Wait + rt::Clock>(
    shared: &Shared<'_, R>,
    listener: TcpListener,
) -> io::Result<Option<TcpStream>> {
    listener.set_nonblocking(true)?;
    for _ in shared.rt.forever() {
        // Asked before the look, so that a connection that came in time is taken.
        let is_done = shared.done.load(Ordering::SeqCst);
        match listener.accept() {
            Ok((stream, _)) => return Ok(Some(stream)),
            Err(error) if error.kind() != ErrorKind::WouldBlock => return Err(error),
            Err(_) if is_done => return Ok(None),
            Err(_) => sleep(shared.rt, Duration::from_millis(PAUSE_MILLISECONDS)),
        }
    }
    unreachable!()
}

/// Serves the session's connection over its socket, and shuts the socket down, which ends the thread that reads it.
fn serve_stream<R: Wait + rt::Clock, F: Floor>(
    shared: &Shared<'_, R>,
    mut desk: DropDesk,
    job: Job<F>,
    stream: &TcpStream,
) -> F
    requires config { IsConfig shared.now.config.now }
    requires setup { (F.mark job.floor).setup ≡ setup_of shared.now.config.now }
    requires members { AreConfigured desk.members shared.now.config.now }
    ensures { F.mark result ≡ F.mark job.floor }
{
    let Job {
        mut floor,
        inbox,
        number,
    } = job;
    let rt = shared.rt;
    let mut link = SocketLink::new(rt, shared.alloc, stream, inbox, shared.bells, number);
    let mut clock = RealClock::new(rt);
    let _end = serve_drop_over(
        rt,
        shared.alloc,
        shared.config,
        &mut floor,
        &mut desk,
        &mut link,
        &mut clock,
    );
    let _ = stream.shutdown(Shutdown::Both).is_ok();
    floor
}

/// Serves the session's connection: one thread reads the socket, another one serves the session.
fn serve_taken<R: Threads + Wait + Sync + rt::Clock, F: Floor + Send + Drop>(
    shared: &Shared<'_, R>,
    desk: DropDesk,
    job: Job<F>,
    stream: &TcpStream,
) -> F
    requires config { IsConfig shared.now.config.now }
    requires setup { (F.mark job.floor).setup ≡ setup_of shared.now.config.now }
    requires members { AreConfigured desk.members shared.now.config.now }
    ensures { F.mark result ≡ F.mark job.floor }
{
    prepare(stream);
    let number = job.number;
    let (_, floor) = join(
        shared.rt,
        move || read_all(shared.rt, shared.alloc, stream, shared.bells, number),
        move || -> F
            requires { IsConfig shared.now.config.now
                × ((F.mark job.floor).setup ≡ setup_of shared.now.config.now)
                × AreConfigured desk.members shared.now.config.now }
            ensures { F.mark result ≡ F.mark job.floor }
        { serve_stream(shared, desk, job, stream) },
    );
    floor
}

/// Serves the drop session, if there is one: its connection, from when it comes until its peer ends or the venue is done.
pub fn serve_copies<R: Threads + Wait + Sync + rt::Clock, F: Floor + Send + Drop>(
    shared: &Shared<'_, R>,
    session: Option<CopySession>,
    job: Job<F>,
) -> Finished<F>
    requires config { IsConfig shared.now.config.now }
    requires setup { (F.mark job.floor).setup ≡ setup_of shared.now.config.now }
    requires members { IfSome session (λ session. AreConfigured session.desk.members shared.now.config.now) }
    ensures { F.mark result.floor ≡ F.mark job.floor }
{
    let Some(CopySession { listener, desk }) = session else {
        return Finished {
            floor: job.floor,
            outcome: Outcome::Served,
        };
    };
    match take_connection(shared, listener) {
        Ok(Some(stream)) => Finished {
            floor: serve_taken(shared, desk, job, &stream),
            outcome: Outcome::Served,
        },
        Ok(None) => Finished {
            floor: job.floor,
            outcome: Outcome::Served,
        },
        Err(_) => Finished {
            floor: job.floor,
            outcome: Outcome::NotTaken,
        },
    }
}
