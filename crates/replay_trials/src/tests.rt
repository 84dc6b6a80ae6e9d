//! Runs over files and sinks in memory.
ghost use Rattle.std.specs.Prelude.{◌≡◌, ◌<◌};

mod certification;
mod days;
mod failing;
mod hostile;
mod in_pieces;
mod loads;
mod minimums;
mod prices;
mod requests;
mod sessions;

use io_edge::{MemShelf, MemSink, Shelf, Sink};
use replay_core::replay::replay;
use replay_core::status::{Status, exit_code};
use script_text::{LimitCause, LineCause};
use std::alloc::{AllocError, Global};
use std::marker::Brand;
use std::process::Abort;
use std::sync::ledger::{Blank, Ledger};
use std::test::Fail;
use venue_words::Steps;

const HEADER: &str = "PEGV 1\nMEMBER A\nMARKET N\nSYMBOL X 100\nBEGIN 20240102-14:30:00.000\n";

fn counted<H: Shelf, K: Sink, E: Sink, L: Ledger>(
    alloc: Global,
    words: &[String],
    shelf: &mut H,
    out: &mut K,
    err: &mut E,
    blank: Blank,
) -> Status
    requires { (blank.name ≡ L.name) × (blank.parts ≡ L.parts) × (L.parts ≡ 1) }
{
    let mut steps: Steps<L> = Steps::start(blank);
    replay(alloc, words, shelf, out, err, &mut steps)
}

/// Runs with these words.
fn run<H: Shelf, K: Sink, E: Sink>(
    alloc: Global,
    words: &[&str],
    shelf: &mut H,
    out: &mut K,
    err: &mut E,
) -> Result<Status, AllocError> {
    let mut texts = Vec::new(alloc);
    for word in words {
        texts.push(String::from_str(alloc, word)?)?;
    }
    Ok(counted::<H, K, E, Brand>(alloc, texts.as_slice(), shelf, out, err, Blank::new(1)))
}

/// A file with this name and text.
fn file(alloc: Global, name: &str, text: &str) -> Result<(String, Vec<u8>), AllocError> {
    let name = String::from_str(alloc, name)?;
    let bytes = Vec::from_slice(alloc, text.as_bytes())?;
    Ok((name, bytes))
}

fn shelf(alloc: Global, text: &str, piece: usize, fails: Vec<u64>) -> Result<MemShelf, AllocError>
    requires { 0 < piece }
{
    let mut files = Vec::new(alloc);
    files.push(file(alloc, "s", text)?)?;
    Ok(MemShelf::new(files, piece, fails))
}

/// Runs a script in pieces, with its output and what was told.
fn played(alloc: Global, text: &str, piece: usize) -> Result<(Status, MemSink, MemSink), AllocError>
    requires { 0 < piece }
{
    let mut shelf = shelf(alloc, text, piece, Vec::new(alloc))?;
    let mut out = MemSink::new(alloc, Vec::new(alloc));
    let mut err = MemSink::new(alloc, Vec::new(alloc));
    let status = run(alloc, &["s"], &mut shelf, &mut out, &mut err)?;
    Ok((status, out, err))
}

/// A script, what it makes, and what is told of how it ended.
pub struct Worked {
    pub name: &'static str,
    pub script: &'static str,
    pub transcript: &'static str,
    pub told: &'static str,
    /// The program's exit status.
    pub status: u8,
}

/// Plays a script in pieces of one byte and in large ones.
fn check_played(
    rt: &impl Abort,
    alloc: Global,
    name: &str,
    script: &str,
    transcript: &str,
    told: &str,
    code: u8,
) -> Result<(), Fail> {
    check_pieces(rt, alloc, name, script, 1, transcript, told, code)?;
    check_pieces(rt, alloc, name, script, 4096, transcript, told, code)
}

/// Plays a script in pieces.
fn check_pieces(
    rt: &impl Abort,
    alloc: Global,
    name: &str,
    script: &str,
    piece: usize,
    transcript: &str,
    told: &str,
    code: u8,
) -> Result<(), Fail>
    requires { 0 < piece }
{
    let (status, out, err) = played(alloc, script, piece)?;
    assert_eq!(rt; out.bytes(), transcript.as_bytes(), "{name}");
    assert_eq!(rt; err.bytes(), told.as_bytes(), "{name}");
    assert_eq!(rt; exit_code(status), code, "{name}");
    Ok(())
}

/// Plays each script.
fn check_all(rt: &impl Abort, alloc: Global, worked: &[Worked]) -> Result<(), Fail> {
    for one in worked {
        check_played(
            rt,
            alloc,
            one.name,
            one.script,
            one.transcript,
            one.told,
            one.status,
        )?;
    }
    Ok(())
}

/// A header, how its run ends, and what is told.
type HeaderCase = (&'static str, Status, &'static str);

const HEADERS: &[HeaderCase] = &[
    (HEADER, Status::Done, ""),
    ("PEGV 1\nBEGIN 20240102-14:30:00.000\n", Status::Done, ""),
    (
        "PEGV 2\nSYMBOL X 9 0.05\nBEGIN 20240102-14:30:00.000\n",
        Status::Done,
        "",
    ),
    (
        "",
        Status::BadLine {
            line: 1,
            cause: LineCause::NoEnd,
        },
        "pegreplay: line 1: NoEnd\n",
    ),
    (
        "PEGV 3\n",
        Status::BadLine {
            line: 1,
            cause: LineCause::BadHeader,
        },
        "pegreplay: line 1: BadHeader\n",
    ),
    (
        "PEGV 1\nMEMBER A\nMEMBER A\n",
        Status::BadLine {
            line: 3,
            cause: LineCause::DoubleName,
        },
        "pegreplay: line 3: DoubleName\n",
    ),
    (
        "PEGV 1\nSYMBOL X 0\n",
        Status::BadLine {
            line: 2,
            cause: LineCause::BadNumber,
        },
        "pegreplay: line 2: BadNumber\n",
    ),
    (
        "PEGV 1\nSYMBOL X 2097152\nSYMBOL Y 1\n",
        Status::LimitLine {
            line: 3,
            which: LimitCause::EventsSum,
        },
        "pegreplay: line 3: limit EventsSum\n",
    ),
];

/// Whether a header in pieces ends so, with no output and with this told.
fn ends_so(alloc: Global, case: &HeaderCase, piece: usize) -> Result<bool, AllocError>
    requires { 0 < piece }
{
    let (text, status, told) = case;
    let (got, out, err) = played(alloc, text, piece)?;
    Ok(got == *status && out.bytes().is_empty() && err.bytes() == told.as_bytes())
}

/// Plays a header in pieces.
fn check_header(rt: &impl Abort, alloc: Global, case: &HeaderCase, piece: usize) -> Result<(), Fail>
    requires { 0 < piece }
{
    let is_so = ends_so(alloc, case, piece)?;
    assert!(rt; is_so, "at {:?}", case.0);
    Ok(())
}

#[test]
fn headers_are_read_in_any_pieces(rt: HostRuntime) -> Result<(), Fail> {
    for case in HEADERS {
        check_header(&rt, rt.alloc(), case, 1)?;
        check_header(&rt, rt.alloc(), case, 7)?;
        check_header(&rt, rt.alloc(), case, 4096)?;
    }
    Ok(())
}

const LOGON: &str = "|56=PEGV|34=1|52=20240102-14:30:00|98=0|108=30|1137=9|\n";

/// The script of a trade between two cents, and its transcript.
fn first_trade(alloc: Global) -> Result<(String, &'static str), AllocError> {
    let script = format!(in alloc;
        "PEGV 1\nMEMBER A\nMEMBER B\nMARKET N\nSYMBOL X 100\nBEGIN 20240102-14:30:00.000\nM A 35=A|49=A{LOGON}M B 35=A|49=B{LOGON}Q X N 10.00 10.01\nM A 35=D|49=A|56=PEGV|34=2|52=20240102-14:30:00|11=a1|55=X|54=1|38=100|40=P|1094=2|60=20240102-14:30:00|\nM B 35=D|49=B|56=PEGV|34=2|52=20240102-14:30:00|11=b1|55=X|54=2|38=100|40=P|1094=2|60=20240102-14:30:00|\n"
    )?;
    Ok((script, TRADE))
}

const TRADE: &str =
    "A 8=FIXT.1.1|9=67|35=A|49=PEGV|56=A|34=1|52=20240102-14:30:00.000|98=0|108=30|1137=9|10=234|
B 8=FIXT.1.1|9=67|35=A|49=PEGV|56=B|34=1|52=20240102-14:30:00.000|98=0|108=30|1137=9|10=235|
A 8=FIXT.1.1|9=169|35=8|49=PEGV|56=A|34=2|52=20240102-14:30:00.000|37=X-2|11=a1|17=X-2-1|150=0|39=0|55=X|54=1|38=100|40=P|151=100|14=0|6=0.0000|60=20240102-14:30:00.000|839=10.0050|9701=2|10=223|
A 8=FIXT.1.1|9=169|35=8|49=PEGV|56=A|34=3|52=20240102-14:30:00.000|37=X-2|11=a1|17=X-3-3|150=F|39=2|55=X|54=1|38=100|40=P|32=100|31=10.0050|151=0|14=100|6=10.0050|60=20240102-14:30:00.000|10=228|
B 8=FIXT.1.1|9=169|35=8|49=PEGV|56=B|34=2|52=20240102-14:30:00.000|37=X-3|11=b1|17=X-3-1|150=0|39=0|55=X|54=2|38=100|40=P|151=100|14=0|6=0.0000|60=20240102-14:30:00.000|839=10.0050|9701=3|10=229|
B 8=FIXT.1.1|9=169|35=8|49=PEGV|56=B|34=3|52=20240102-14:30:00.000|37=X-3|11=b1|17=X-3-2|150=F|39=2|55=X|54=2|38=100|40=P|32=100|31=10.0050|151=0|14=100|6=10.0050|60=20240102-14:30:00.000|10=231|
";

#[test]
fn two_mid_price_orders_trade_between_two_cents(rt: HostRuntime) -> Result<(), Fail> {
    let alloc = rt.alloc();
    let (script, trade) = first_trade(alloc)?;
    check_pieces(&rt, alloc, "first trade", script.as_str(), 7, trade, "", 0)?;
    check_played(&rt, alloc, "first trade", script.as_str(), trade, "", 0)
}
