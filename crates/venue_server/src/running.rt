//! A run of the server.
ghost use Rattle.std.specs.Prelude.{◌≡◌, ◌≢◌, ◌⊎◌, ℕ, ◌≤◌, ◌<◌, None, length, vec_len, option_map, slice_index_or, IfOk, IfSome, OnErr, OnOk};
ghost use Rattle.std.specs.List.{All};
ghost use Rattle.program_words.specs.Words.{texts};
ghost use Rattle.venue_words.specs.Causes.{Rose};
ghost use Rattle.venue_words.specs.Conditions.{IsConfig};
ghost use Rattle.venue_words.specs.Floors.{setup_of};
ghost use Rattle.turn_gate.specs.Rule.{whole};
ghost use Rattle.serve_core.specs.Statuses.{exit_code};
ghost use Rattle.drop_copy.specs.Desks.{AreConfigured};
ghost use Rattle.venue_core.specs.Venues.{setup_in};
ghost use Rattle.venue_server.specs.Asking.{AreBadWords, asked_plan};
ghost use Rattle.venue_server.specs.Ending.{Ends, IsTold, status_of_words};
ghost use Rattle.venue_server.specs.Listed.{Lists};
ghost use Rattle.venue_server.specs.Seating.{HasSeats};

use crate::asking::{Copies, Setup, set_up};
use crate::closing::close_and_list;
use crate::copying::CopySession;
use crate::hints::{CONFIG, QUOTES, hint_of, show_listening, show_refused_addresses};
use crate::joining::join_all;
use crate::opening::open_venue;
use crate::splitting::jobs_and_last;
use crate::workers::{Outcome, Shared};
use crate::working::work_all;
use io_edge::{FileShelf, Sink};
use line_reader::tell;
use member_gate::{DeskCell, DeskTable, desks_of};
use program_words::WordFault;
use serve_core::status::{status_of_quotes, status_of_setup};
use serve_core::{QuoteEnd, ServePlan, ServeStatus, exit_code};
use socket_edge::{Inbox, bells_of};
use std::alloc::Global;
use std::net::{Net, TcpListener, TcpStream};
use std::rt;
use std::sync::Wait;
use std::sync::atomic::AtomicBool;
use std::thread::Threads;
use symbol_book::{Book, HashSeed};
use venue_core::{Seated, Seats, Venue};
use venue_words::{Config, Floor, Held, NoMemory};

/// The name under which a status is told.
const PROGRAM: &str = "pegserve";

/// What a server stands on.
#[derive(Drop)]
pub struct Server<'a, 'c> {
    pub alloc: Global,
    pub plan: &'a ServePlan,
    pub config: &'c Config,
    pub listener: &'a TcpListener,
    /// Where files are read.
    pub system: &'a HostRuntime,
}

/// The desks of all members, for all threads.
fn desk_cell(alloc: Global, config: &Config) -> Result<DeskCell, NoMemory>
    requires { IsConfig config.now }
    ensures { IfOk result (λ cell. cell ≡ length config.now.members) }
{
    let desks = desks_of(alloc, config)?;
    Ok(DeskCell::new(DeskTable::new(alloc, desks)?))
}

/// Serves a connection for each inbox but the last, which is the drop session's, and submits the quotes, through seats that are
/// split off these and joined again.
fn serve_inboxes<R: Threads + Wait + Sync + rt::Clock, V: Held + Drop + Send>(
    shared: &Shared<'_, R>,
    venue: &Venue<V>,
    seats: &mut Seats,
    inboxes: Vec<Inbox>,
    session: Option<CopySession>,
) -> Result<Outcome, NoMemory>
    requires config { IsConfig shared.now.config.now }
    requires desks { shared.now.cell.now ≡ length shared.now.config.now.members }
    requires few { length inboxes.items ≤ 65 }
    requires seats { HasSeats venue.now whole seats.old }
    requires setup { setup_in venue.now ≡ setup_of shared.now.config.now }
    requires members { IfSome session (λ session. AreConfigured session.desk.members shared.now.config.now) }
    ensures { OnOk result (HasSeats venue.now whole seats.new) }
{
    let rt = shared.rt;
    let (jobs, copying) = jobs_and_last(rt, shared.alloc, venue, seats, inboxes)?;
    let quoting = Seated {
        rt,
        venue,
        seats: venue.split(shared.alloc, seats)?,
    };
    let (links, quoted, copied) = work_all(shared, jobs, quoting, session, copying)?;
    Ok(join_all(venue, seats, links, quoted, copied))
}

/// Serves all connections of a venue and the drop session, and submits the quotes: see `serve_inboxes`.
fn serve_all<R: Threads + Wait + Sync + rt::Clock, V: Held + Drop + Send>(
    rt: &R,
    server: &Server<'_, '_>,
    venue: &Venue<V>,
    seats: &mut Seats,
    session: Option<CopySession>,
) -> Result<Outcome, NoMemory>
    requires config { IsConfig server.now.config.now }
    requires few { server.now.plan.now.connections ≤ 64 }
    requires seats { HasSeats venue.now whole seats.old }
    requires setup { setup_in venue.now ≡ setup_of server.now.config.now }
    requires members { IfSome session (λ session. AreConfigured session.desk.members server.now.config.now) }
    ensures { OnOk result (HasSeats venue.now whole seats.new) }
{
    let cell = desk_cell(server.alloc, server.config)?;
    // The drop session's inbox stands behind those of the connections.
    let connections = server.plan.connections as usize;
    let (bells, inboxes) = bells_of(server.alloc, connections + 1)?;
    let done = AtomicBool::new(false);
    let shared = Shared {
        rt,
        alloc: server.alloc,
        config: server.config,
        listener: server.listener,
        cell: &cell,
        bells: &bells,
        last: connections,
        done: &done,
        system: server.system,
        quotes: server.plan.quotes.as_ref().map(|name| name.as_str()),
    };
    serve_inboxes(&shared, venue, seats, inboxes, session)
}

/// Serves a venue of books: see `serve_all`.
fn serve_books<R: Threads + Wait + Sync + rt::Clock>(
    rt: &R,
    server: &Server<'_, '_>,
    venue: &Venue<Book>,
    seats: &mut Seats,
    session: Option<CopySession>,
) -> Result<Outcome, NoMemory>
    requires config { IsConfig server.now.config.now }
    requires few { server.now.plan.now.connections ≤ 64 }
    requires seats { HasSeats venue.now whole seats.old }
    requires setup { setup_in venue.now ≡ setup_of server.now.config.now }
    requires members { IfSome session (λ session. AreConfigured session.desk.members server.now.config.now) }
    ensures { OnOk result (HasSeats venue.now whole seats.new) }
{
    serve_all(rt, server, venue, seats, session)
}

/// The status of a run whose tasks came to this and whose listing ended so. What went wrong first is told.
fn status_of<'c>(
    outcome: Outcome,
    config: &'c Config,
    listed: ServeStatus<'static>,
) -> ServeStatus<'c>
    ensures done { result ≡ ServeStatus.Done → listed.entry ≡ ServeStatus.Done }
    ensures fault { result ≡ ServeStatus.WriteFault → listed.entry ≡ ServeStatus.WriteFault }
    ensures words { result ≡ ServeStatus.BadWords → listed.entry ≡ ServeStatus.BadWords }
{
    match outcome {
        Outcome::Served | Outcome::Quoted(QuoteEnd::Done) => listed,
        Outcome::NotTaken => ServeStatus::ListenFault,
        Outcome::Quoted(end) => status_of_quotes(end, config.symbols.as_slice()),
    }
}

/// Serves the venue at the listener's address, and the drop session at its own, if there is one, and lists the journals.
pub fn serve<'c, R: Threads + Wait + Sync + rt::Clock, K: Sink>(
    rt: &R,
    server: &Server<'_, 'c>,
    session: Option<CopySession>,
    out: &mut K,
) -> Result<ServeStatus<'c>, NoMemory>
    requires config { IsConfig server.now.config.now }
    requires few { server.now.plan.now.connections ≤ 64 }
    requires members { IfSome session (λ session. AreConfigured session.desk.members server.now.config.now) }
    ensures listed { IfOk result (λ status. Lists server.now.config.now status (K.told out.old) (K.told out.new)) }
    ensures err { OnErr result (K.told out.new ≡ K.told out.old) }
    ensures later { K.faults out.old ≤ K.faults out.new }
    ensures fault { IfOk result (λ status. status ≡ ServeStatus.WriteFault → Rose (K.faults out.old) (K.faults out.new)) }
    ensures words { IfOk result (λ status. status ≢ ServeStatus.BadWords) }
{
    let (venue, mut seats) = open_venue(
        server.alloc,
        HashSeed::random(server.system)?,
        server.config,
    )?;
    let outcome = serve_books(rt, server, &venue, &mut seats, session)?;
    let listed = close_and_list(server.alloc, server.config, venue, seats, out);
    Ok(status_of(outcome, server.config, listed))
}

/// Ends a run that did not begin: puts the text of the status to `err`, and gives the exit status.
fn end_with<E: Sink>(status: ServeStatus<'_>, err: &mut E) -> u8
    ensures exit { result ≡ exit_code status.entry }
    ensures told { IsTold status.entry (E.told err.old) (E.told err.new) (E.faults err.old) (E.faults err.new) }
{
    exit_code(tell(PROGRAM, status, err))
}

/// Ends a run whose words were not read: puts the text of the status to `err`, and gives the exit status.
pub fn refuse_words<E: Sink>(fault: WordFault, err: &mut E) -> u8
    ensures exit { result ≡ exit_code (status_of_words fault) }
    ensures told { IsTold (status_of_words fault) (E.told err.old) (E.told err.new) (E.faults err.old) (E.faults err.new) }
{
    match fault {
        WordFault::BadWords => end_with(ServeStatus::BadWords, err),
        WordFault::NoMemory => end_with(ServeStatus::NoMemory, err),
    }
}

/// Takes the drop session's connection at its address from now on, if there is one. Where it can't be taken there is none either.
fn listen_for_copies<R: Net<Listener = TcpListener, Stream = TcpStream>>(
    rt: &R,
    copies: Option<Copies>,
) -> Result<Option<CopySession>, ()>
    ensures { IfOk result (λ session. option_map (λ session. session.desk) session ≡ option_map (λ copies. copies.desk) copies) }
{
    let Some(Copies { address, desk }) = copies else {
        return Ok(None);
    };
    match TcpListener::bind(rt, address.as_str()) {
        Ok(listener) => Ok(Some(CopySession { listener, desk })),
        Err(_) => Err(()),
    }
}

/// Takes connections at the plan's address and the drop session's, serves the venue there, and lists its journals.
fn listen<
    'c,
    R: Threads + Wait + Sync + rt::Clock + Net<Listener = TcpListener, Stream = TcpStream>,
    K: Sink,
>(
    rt: &R,
    system: &HostRuntime,
    plan: &ServePlan,
    config: &'c Config,
    copies: Option<Copies>,
    out: &mut K,
) -> ServeStatus<'c>
    requires config { IsConfig config.now }
    requires few { plan.now.connections ≤ 64 }
    requires members { IfSome copies (λ copies. AreConfigured copies.desk.members config.now) }
    ensures listed { Lists config.now result (K.told out.old) (K.told out.new) }
    ensures later { K.faults out.old ≤ K.faults out.new }
    ensures fault { result ≡ ServeStatus.WriteFault → Rose (K.faults out.old) (K.faults out.new) }
    ensures words { result ≢ ServeStatus.BadWords }
{
    let listener = match TcpListener::bind(rt, plan.address.as_str()) {
        Ok(listener) => listener,
        Err(_) => return ServeStatus::ListenFault,
    };
    let Ok(session) = listen_for_copies(rt, copies) else {
        return ServeStatus::ListenFault;
    };
    show_listening(system, "members", &listener);
    if let Some(session) = &session {
        show_listening(system, "the drop session", &session.listener);
    }
    let server = Server {
        alloc: system.alloc(),
        plan,
        config,
        listener: &listener,
        system,
    };
    match serve(rt, &server, session, out) {
        Ok(status) => status,
        Err(_) => ServeStatus::NoMemory,
    }
}

/// Serves what the words ask for, puts the listing of the journals to `out` and the text of the status that ends the run to
/// `err`, and gives the exit status. The words are those behind the program's name. A person at a terminal is told more.
pub fn run<
    R: Threads + Wait + Sync + rt::Clock + Net<Listener = TcpListener, Stream = TcpStream>,
    K: Sink,
    E: Sink,
>(rt: &R, system: &HostRuntime, words: &[String], out: &mut K, err: &mut E) -> u8
    ensures ends { Ends result (K.told out.old) (K.told out.new) (E.told err.old) (E.told err.new)
        (E.faults err.old) (E.faults err.new) }
    ensures fault { result ≡ 6 → Rose (K.faults out.old) (K.faults out.new) }

    // The exit of bad words is that of words that are bad. Where they ask for no venue, it is that one, or that of want of memory.
    ensures bad_words { result ≡ 2 → AreBadWords (texts words.now) }
    ensures no_plan { asked_plan (texts words.now) ≡ None → (result ≡ 2) ⊎ (result ≡ 7) }
{
    match set_up(system.alloc(), words, &mut FileShelf::new(system)) {
        Ok(
            Setup {
                plan,
                config,
                copies,
            },
        ) => {
            let status = listen(rt, system, &plan, &config, copies, out);
            let exit = end_with(status, err);
            show_refused_addresses(system, status, words);
            hint_of(status, words, QUOTES).show(system);
            exit
        }
        Err(fault) => {
            let status = status_of_setup(fault);
            let exit = end_with(status, err);
            hint_of(status, words, CONFIG).show(system);
            exit
        }
    }
}
