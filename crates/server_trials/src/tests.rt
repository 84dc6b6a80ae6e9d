//! The server over loopback, with peers of its own.
ghost use Rattle.std.specs.Prelude.{◌<◌, ◌≤◌, length, IfOk};
ghost use Rattle.venue_words.specs.Conditions.{IsConfig};
ghost use Rattle.drop_copy.specs.Desks.{AreConfigured};

mod copies;
mod links;
mod sockets;

use drop_copy::{DropDesk, DropPlan};
use fix_write::wrap;
use io_edge::MemSink;
use script_text::read_header;
use serve_core::{ServePlan, exit_code};
use std::alloc::{AllocError, Global};
use std::io::{Read, Write};
use std::net::{Net, SocketAddr, TcpListener, TcpStream};
use std::sync::Wait;
use std::test::Fail;
use std::thread::{Threads, join};
use std::time::Duration;
use std::{fs, rt};
use venue_server::asking::copies_of;
use venue_server::copying::CopySession;
use venue_server::running::{Server, serve};
use venue_words::{Config, NoMemory};

const CONFIG: &[u8] =
    b"PEGV 1\nMEMBER A\nMEMBER B\nMARKET N\nSYMBOL X 100\nBEGIN 20240102-14:30:00.000\n";

const QUOTES: &[u8] = b"Q X N 150.10 150.14\n";

const A_LOGON: &[u8] =
    b"35=A\x0149=A\x0156=PEGV\x0134=1\x0152=20240102-14:30:00\x0198=0\x01108=30\x011137=9\x01";

const A_ORDER: &[u8] =
    b"35=D\x0149=A\x0156=PEGV\x0134=2\x0152=20240102-14:30:00.123456\x011=ACC7\x0111=20240102-000017\x0118=M\x0121=1\x0155=X\x0154=1\x0138=2500\x0140=P\x0144=150.25\x0159=0\x0160=20240102-14:30:00.123456\x01110=500\x01211=0\x01836=0\x011094=2\x011822=1\x01453=2\x01448=FIRM\x01447=D\x01452=1\x01448=DESK\x01447=D\x01452=11\x01";

const A_LOGOUT: &[u8] = b"35=5\x0149=A\x0156=PEGV\x0134=3\x0152=20240102-14:30:00\x01";

const B_LOGON: &[u8] =
    b"35=A\x0149=B\x0156=PEGV\x0134=1\x0152=20240102-14:30:00\x0198=0\x01108=30\x011137=9\x01";

/// An order without shares, which is rejected.
const B_NOTHING: &[u8] =
    b"35=D\x0149=B\x0156=PEGV\x0134=2\x0152=20240102-14:30:00\x0111=b0\x0155=X\x0154=2\x0138=0\x0140=P\x011094=2\x0160=20240102-14:30:00\x01";

const B_ORDER: &[u8] =
    b"35=D\x0149=B\x0156=PEGV\x0134=3\x0152=20240102-14:30:00\x0111=b1\x0155=X\x0154=2\x0138=2500\x0140=P\x011094=2\x0160=20240102-14:30:00\x01";

const C_LOGON: &[u8] =
    b"35=A\x0149=C\x0156=PEGV\x0134=1\x0152=20240102-14:30:00\x0198=0\x01108=30\x011137=9\x01";

/// The numbers of the copies that C gets behind the answer to its Logon, then what those of A's reports tell, and those of B's. Which member's
/// copies go out first is not promised: that hangs on when the file's quote comes.
const COPIES: &[u8] = b"34=2\n34=3\n34=4\n34=5\n34=6\n150=0\n150=F\n150=8\n150=0\n150=F\n";

/// How often a peer reads before he gives up.
const MOST_READS: u32 = 200;

/// A peer of the server, with all bytes that he read. What he does is nothing where it fails.
#[derive(Drop)]
struct Peer {
    stream: TcpStream,
    heard: Vec<u8>,
}

impl Peer {
    /// Sends a frame of this content.
    fn say(&mut self, alloc: Global, content: &[u8]) -> Option<()> {
        let frame = wrap(alloc, content).ok()?;
        self.stream.write_all(frame.as_slice()).ok()
    }

    /// Reads once more, and says whether the server gave something.
    fn read(&mut self) -> Option<bool> {
        let mut buffer = [0u8; 1_024];
        let count = self.stream.read(&mut buffer).ok()?;
        self.heard
            .extend_from_slice(&buffer[..count.min(1_024)])
            .ok()?;
        Some(count > 0)
    }

    /// Reads until the server ends the connection.
    fn hear_end(&mut self) -> Option<()> {
        for _ in 0..MOST_READS {
            if !self.read()? {
                return Some(());
            }
        }
        None
    }

    /// Reads until all that was read holds this text.
    fn hear(&mut self, text: &[u8]) -> Option<()>
        requires { 0 < length text.now }
    {
        for _ in 0..MOST_READS {
            if self
                .heard
                .as_slice()
                .windows(text.len())
                .any(|at| at == text)
            {
                return Some(());
            }
            if !self.read()? {
                return None;
            }
        }
        None
    }
}

/// A peer who is connected.
fn peer_of<R: Net<Stream = TcpStream>>(rt: &R, alloc: Global, address: SocketAddr) -> Option<Peer> {
    let stream = TcpStream::connect(rt, address).ok()?;
    stream.set_read_timeout(Some(Duration::from_secs(20))).ok()?;
    Some(Peer {
        stream,
        heard: Vec::new(alloc),
    })
}

/// B is rejected once and sells; A hears of his fill and logs out.
fn sell(alloc: Global, b: &mut Peer, a: &mut Peer, c: &mut Peer) -> Option<()> {
    b.say(alloc, B_LOGON)?;
    b.say(alloc, B_NOTHING)?;
    c.hear(b"\x019703=B\x01")?;
    b.say(alloc, B_ORDER)?;
    a.hear(b"\x01150=F\x01")?;
    b.hear(b"\x01150=F\x01")?;
    a.say(alloc, A_LOGOUT)?;
    a.hear(b"\x0135=5\x01")
}

/// A bids and waits. B connects later, and ends without a word, which ends C's connection.
fn bid<R: Net<Stream = TcpStream>>(
    rt: &R,
    alloc: Global,
    address: SocketAddr,
    a: &mut Peer,
    c: &mut Peer,
) -> Option<()> {
    a.say(alloc, A_LOGON)?;
    a.say(alloc, A_ORDER)?;
    a.hear(b"\x01150=0\x01")?;
    c.hear(b"\x019703=A\x01")?;
    let mut b = peer_of(rt, alloc, address)?;
    let sold = sell(alloc, &mut b, a, c);
    drop(b);
    sold?;
    c.hear_end()
}

/// C logs on before A connects.
fn copied<R: Net<Stream = TcpStream>>(
    rt: &R,
    alloc: Global,
    address: SocketAddr,
    c: &mut Peer,
) -> Option<()> {
    c.say(alloc, C_LOGON)?;
    c.hear(b"\x0135=A\x01")?;
    let mut a = peer_of(rt, alloc, address)?;
    let done = bid(rt, alloc, address, &mut a, c);
    drop(a);
    done
}

/// C gets copies of what A and B are told. All that C heard comes back.
fn trade<R: Net<Stream = TcpStream>>(
    rt: &R,
    alloc: Global,
    address: SocketAddr,
    drop_address: SocketAddr,
) -> Option<Vec<u8>> {
    let mut c = peer_of(rt, alloc, drop_address)?;
    match copied(rt, alloc, address, &mut c) {
        Some(()) => Some(c.heard),
        None => None,
    }
}

/// Appends the last field that begins so in front of each one that says a member so, as lines.
fn push_fields(
    fields: &mut Vec<u8>,
    heard: &[u8],
    begin: &[u8],
    member: &[u8],
) -> Result<(), AllocError> {
    let mut last = begin;
    for field in heard.split(|byte| *byte == 1) {
        if field.starts_with(begin) {
            last = field;
        }
        if field.starts_with(member) {
            fields.extend_from_slice(last)?;
            fields.push(b'\n')?;
        }
    }
    Ok(())
}

/// The number of each copy, and what each of A's and of B's tells.
fn copies_in(alloc: Global, heard: &[u8]) -> Result<Vec<u8>, AllocError> {
    let mut copies = Vec::new(alloc);
    push_fields(&mut copies, heard, b"34=", b"9703=")?;
    push_fields(&mut copies, heard, b"150=", b"9703=A")?;
    push_fields(&mut copies, heard, b"150=", b"9703=B")?;
    Ok(copies)
}

/// A peer who connects, and no more.
fn come_and_go<R: Net<Stream = TcpStream>>(
    rt: &R,
    alloc: Global,
    address: SocketAddr,
) -> Option<()> {
    let _peer = peer_of(rt, alloc, address)?;
    Some(())
}

fn config_of(alloc: Global) -> Result<Config, NoMemory>
    ensures { IfOk result IsConfig }
{
    match read_header(alloc, CONFIG) {
        Ok((config, _)) => Ok(config),
        Err(_) => Err(NoMemory),
    }
}

/// The server's plan, for so many connections and the quotes of a file.
fn plan_of(alloc: Global, connections: u32, quotes: &str) -> Result<ServePlan, NoMemory>
    requires { connections ≤ 64 }
    ensures { IfOk result (λ plan. plan.connections ≤ 64) }
{
    Ok(ServePlan {
        config: String::new(alloc),
        address: String::new(alloc),
        connections,
        quotes: Some(String::from_str(alloc, quotes)?),
    })
}

/// The names of both members.
fn members_of(alloc: Global) -> Result<Vec<String>, NoMemory> {
    let mut members = Vec::new(alloc);
    for name in ["B", "A"] {
        members.push(String::from_str(alloc, name)?)?;
    }
    Ok(members)
}

/// The desk of the drop session C, which gets copies of the reports of both members.
fn desk_of(alloc: Global, config: &Config) -> Result<DropDesk, NoMemory>
    requires { IsConfig config.now }
    ensures { IfOk result (λ desk. AreConfigured desk.members config.now) }
{
    let members = members_of(alloc)?;
    let plan = DropPlan {
        address: String::new(alloc),
        name: String::from_str(alloc, "C")?,
        members,
    };
    match copies_of(alloc, plan, config) {
        Ok(copies) => Ok(copies.desk),
        Err(_) => Err(NoMemory),
    }
}

/// The exit status of a server that puts its listing there, with the drop session C at its listener.
fn served_into<R: Threads + Wait + Sync + rt::Clock>(
    rt: &R,
    server: &Server<'_, '_>,
    drop_listener: TcpListener,
    out: &mut MemSink,
) -> Result<u8, NoMemory>
    requires config { IsConfig server.now.config.now }
    requires few { server.now.plan.now.connections ≤ 64 }
{
    let session = CopySession {
        listener: drop_listener,
        desk: desk_of(server.alloc, server.config)?,
    };
    let status = serve(rt, server, Some(session), out)?;
    Ok(exit_code(status))
}

/// The exit status of a server, and its listing.
fn served_by<R: Threads + Wait + Sync + rt::Clock>(
    rt: &R,
    server: &Server<'_, '_>,
    drop_listener: TcpListener,
) -> Result<(u8, Vec<u8>), NoMemory>
    requires config { IsConfig server.now.config.now }
    requires few { server.now.plan.now.connections ≤ 64 }
{
    let alloc = server.alloc;
    let mut out = MemSink::new(alloc, Vec::new(alloc));
    let exit = served_into(rt, server, drop_listener, &mut out);
    let listing = Vec::from_slice(alloc, out.bytes());
    drop(out);
    Ok((exit?, listing?))
}

/// The exit status of the server at the listeners, and its listing.
fn served<R: Threads + Wait + Sync + rt::Clock>(
    rt: &R,
    system: &HostRuntime,
    listener: &TcpListener,
    drop_listener: TcpListener,
    connections: u32,
    quotes: &str,
) -> Result<(u8, Vec<u8>), NoMemory>
    requires { connections ≤ 64 }
{
    let alloc = system.alloc();
    let config = config_of(alloc)?;
    let plan = plan_of(alloc, connections, quotes)?;
    let server = Server {
        alloc,
        plan: &plan,
        config: &config,
        listener,
        system,
    };
    let outcome = served_by(rt, &server, drop_listener);
    drop(plan);
    drop(config);
    outcome
}

/// How many lines begin with this byte.
fn lines_of(listing: &[u8], kind: u8) -> usize {
    listing
        .split(|byte| *byte == b'\n')
        .filter(|line| line.first() == Some(&kind))
        .count()
}

/// How many lines tell of a symbol, of an event and of a report.
fn line_counts(listing: &[u8]) -> (usize, usize, usize) {
    let symbols = lines_of(listing, b'S');
    let events = lines_of(listing, b'J');
    let reports = lines_of(listing, b'R');
    (symbols, events, reports)
}

#[test]
fn a_fill_reaches_the_member_who_waits_and_copies_go_out(rt: HostRuntime) -> Result<(), Fail> {
    let alloc = rt.alloc();
    let name = "quotes.tmp";
    fs::write(&rt, name, QUOTES)?;
    let listener = TcpListener::bind(&rt, "127.0.0.1:0")?;
    let drop_listener = TcpListener::bind(&rt, "127.0.0.1:0")?;
    let address = listener.local_addr()?;
    let drop_address = drop_listener.local_addr()?;
    let (server, client) = join(
        &rt,
        || served(&rt, &rt, &listener, drop_listener, 2, name),
        || trade(&rt, alloc, address, drop_address),
    );
    fs::remove_file(&rt, name)?;
    let Some(heard) = client else {
        return Err(Fail::from("a step did not come"));
    };
    let copies = copies_in(alloc, heard.as_slice());
    drop(heard);
    let (exit, listing) = server?;
    let lines = line_counts(listing.as_slice());
    drop(listing);
    assert_eq!(rt; copies?.as_slice(), COPIES);
    assert_eq!(rt; exit, 0);
    assert_eq!(rt; lines, (1, 4, 5));
    Ok(())
}

#[test]
fn nobody_is_waited_for_at_the_drop_address(rt: HostRuntime) -> Result<(), Fail> {
    let alloc = rt.alloc();
    let listener = TcpListener::bind(&rt, "127.0.0.1:0")?;
    let drop_listener = TcpListener::bind(&rt, "127.0.0.1:0")?;
    let address = listener.local_addr()?;
    let (server, client) = join(
        &rt,
        || served(&rt, &rt, &listener, drop_listener, 1, "no-quotes.tmp"),
        || come_and_go(&rt, alloc, address).is_some(),
    );
    let (exit, _) = server?;
    assert!(rt; client);
    assert_eq!(rt; exit, 5);
    Ok(())
}
