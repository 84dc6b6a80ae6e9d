//! Days over disks, files and sinks in memory.
ghost use Rattle.std.specs.Prelude.{◌≡◌, false, IfOk, None};
ghost use Rattle.day_journal.specs.MemDisks.{name_in};

use day_core::DayStatus;
use day_core::day::day;
use day_core::status::exit_code;
use day_journal::{Disk, MemDisk, open};
use io_edge::{MemShelf, MemSink, Shelf, Sink};
use script_text::{LimitCause, LineCause};
use std::alloc::{AllocError, Global};
use std::marker::Brand;
use std::process::Abort;
use std::sync::ledger::{Blank, Ledger};
use std::test::Fail;
use venue_words::{Bytes, Steps};

const HEADER: &str = "PEGV 1\nBEGIN 20240102-14:30:00.000\n";

const HEADER_JOURNAL: [u8; 44] =
    *b"\x01\x00\x00\x00\x06PEGV 1\x01\x00\x00\x00\x1bBEGIN 20240102-14:30:00.000\x00";

/// A script in which a trade is made between two cents.
const TRADE: &str = "PEGV 1
MEMBER A
MEMBER B
MARKET N
SYMBOL X 100
BEGIN 20240102-14:30:00.000
M A 35=A|49=A|56=PEGV|34=1|52=20240102-14:30:00|98=0|108=30|1137=9|
M B 35=A|49=B|56=PEGV|34=1|52=20240102-14:30:00|98=0|108=30|1137=9|
Q X N 10.00 10.01
M A 35=D|49=A|56=PEGV|34=2|52=20240102-14:30:00|11=a1|55=X|54=1|60=20240102-14:30:00|38=100|40=P|1094=2|
M B 35=D|49=B|56=PEGV|34=2|52=20240102-14:30:00|11=b1|55=X|54=2|60=20240102-14:30:00|38=100|40=P|1094=2|
";

/// How a day ended, and what it left.
#[derive(Drop)]
struct Outcome {
    status: DayStatus,
    journal: Vec<u8>,
    out: Vec<u8>,
    err: Vec<u8>,
}

impl Outcome {
    /// Whether the day ended so, with this exit and this text, and left this journal.
    fn ended(&self, status: DayStatus, exit: u8, told: &str, journal: &[u8]) -> bool {
        self.status == status
            && exit_code(self.status) == exit
            && self.err.as_slice() == told.as_bytes()
            && self.journal.as_slice() == journal
    }

    /// Whether the day ended well, and left this journal.
    fn is_done(&self, journal: &[u8]) -> bool {
        self.status == DayStatus::Done && self.journal.as_slice() == journal
    }
}

fn counted<H: Shelf, D: Disk, K: Sink, E: Sink, L: Ledger>(
    alloc: Global,
    words: &[String],
    shelf: &mut H,
    disk: D,
    out: &mut K,
    err: &mut E,
    blank: Blank,
) -> (DayStatus, D)
    requires begun { D.begun disk ≡ false }
    requires blank { (blank.name ≡ L.name) × (blank.parts ≡ L.parts) × (L.parts ≡ 1) }
{
    let mut steps: Steps<L> = Steps::start(blank);
    day(alloc, words, shelf, disk, out, err, &mut steps)
}

fn words(alloc: Global) -> Result<Vec<String>, AllocError> {
    let mut words = Vec::new(alloc);
    words.push(String::from_str(alloc, "s")?)?;
    words.push(String::from_str(alloc, "j")?)?;
    Ok(words)
}

/// A disk with a journal of these bytes, which fails at one call.
fn disk_of(alloc: Global, journal: &[u8], fail: u64) -> Result<MemDisk, AllocError>
    ensures { IfOk result (λ disk. name_in disk ≡ None) }
{
    let fails = vec![in alloc; fail]?;
    Ok(MemDisk::new(journal.to_vec(alloc)?, fails))
}

/// A shelf with a script.
fn shelf_of(alloc: Global, script: &[u8]) -> Result<MemShelf, AllocError> {
    let mut files = Vec::new(alloc);
    files.push((String::from_str(alloc, "s")?, script.to_vec(alloc)?))?;
    Ok(MemShelf::new(files, 7, Vec::new(alloc)))
}

/// How a day ended that left these.
fn outcome_of(
    alloc: Global,
    status: DayStatus,
    disk: &MemDisk,
    out: &MemSink,
    err: &MemSink,
) -> Result<Outcome, Fail> {
    Ok(Outcome {
        status,
        journal: disk.bytes().to_vec(alloc)?,
        out: out.bytes().to_vec(alloc)?,
        err: err.bytes().to_vec(alloc)?,
    })
}

/// Works a script over a journal of these bytes, on a disk that fails at one call.
fn run(alloc: Global, script: &[u8], journal: &[u8], fail: u64) -> Result<Outcome, Fail> {
    let words = words(alloc)?;
    let mut shelf = shelf_of(alloc, script)?;
    let disk = disk_of(alloc, journal, fail)?;
    let mut out = MemSink::new(alloc, Vec::new(alloc));
    let mut err = MemSink::new(alloc, Vec::new(alloc));
    let (status, disk) = counted::<MemShelf, MemDisk, MemSink, MemSink, Brand>(
        alloc,
        words.as_slice(),
        &mut shelf,
        disk,
        &mut out,
        &mut err,
        Blank::new(1),
    );
    let outcome = outcome_of(alloc, status, &disk, &out, &err);
    drop(disk);
    drop(err);
    drop(out);
    drop(shelf);
    drop(words);
    outcome
}

/// The lines of a journal of these bytes, each with an LF.
fn text_of(alloc: Global, journal: &[u8]) -> Result<Vec<u8>, Fail> {
    let mut disk = MemDisk::new(journal.to_vec(alloc)?, Vec::new(alloc));
    if disk.begin("j").is_err() {
        return Err("not begun".into());
    }
    match open(alloc, disk) {
        Ok((_, lines)) => joined(alloc, &lines),
        Err(_) => Err("not opened".into()),
    }
}

fn joined(alloc: Global, lines: &[Bytes]) -> Result<Vec<u8>, Fail> {
    let mut text = Vec::new(alloc);
    for line in lines {
        text.extend_from_slice(line.as_slice())?;
        text.push(b'\n')?;
    }
    Ok(text)
}

/// Whether the header, worked over this journal, leaves its own.
fn leaves_the_header(alloc: Global, journal: &[u8]) -> Result<bool, Fail> {
    Ok(run(alloc, HEADER.as_bytes(), journal, 0)?.is_done(&HEADER_JOURNAL))
}

/// Whether a day comes to the same over its own journal, which holds its lines.
fn is_the_same_again(alloc: Global) -> Result<bool, Fail> {
    let whole = run(alloc, TRADE.as_bytes(), &[], 0)?;
    let again = run(alloc, TRADE.as_bytes(), &whole.journal, 0)?;
    let text = text_of(alloc, &whole.journal)?;
    Ok(
        whole.is_done(&again.journal)
            && again.is_done(&whole.journal)
            && again.out.as_slice() == whole.out.as_slice()
            && text.as_slice() == TRADE.as_bytes(),
    )
}

#[test]
fn a_day_goes_on_from_its_journal(rt: HostRuntime) -> Result<(), Fail> {
    let alloc = rt.alloc();
    assert!(rt; leaves_the_header(alloc, &[])?);
    assert!(rt; leaves_the_header(alloc, &HEADER_JOURNAL)?);
    assert!(rt; is_the_same_again(alloc)?);
    Ok(())
}

/// Whether a day whose disk fails at this call has each line whose output it put in its journal, and comes from there to what
/// the whole day comes to.
fn goes_on(alloc: Global, whole: &Outcome, fail: u64) -> Result<bool, Fail> {
    let broken = run(alloc, TRADE.as_bytes(), &[], fail)?;
    let text = text_of(alloc, &broken.journal)?;
    let kept = run(alloc, &text, &[], 0)?;
    let after = run(alloc, TRADE.as_bytes(), &broken.journal, 0)?;
    let status = if fail < 50 {
        DayStatus::DiskFault
    } else {
        DayStatus::Done
    };
    Ok(
        broken.status == status
            && TRADE.as_bytes().starts_with(&text)
            && kept.out.as_slice().starts_with(&broken.out)
            && after.is_done(&whole.journal)
            && after.out.as_slice() == whole.out.as_slice(),
    )
}

#[test]
fn a_line_whose_output_was_put_is_in_the_journal(rt: HostRuntime) -> Result<(), Fail> {
    let alloc = rt.alloc();
    let whole = run(alloc, TRADE.as_bytes(), &[], 0)?;
    for fail in 1..52_u64 {
        assert!(rt; goes_on(alloc, &whole, fail)?, "{fail}");
    }
    Ok(())
}

/// A script over the two lines of a header's journal, how the day ends, and what is told of it.
#[derive(Drop)]
struct Case {
    script: &'static str,
    status: DayStatus,
    told: &'static str,
    exit: u8,
    kept: &'static str,
}

/// Whether a day of this script ends as the case says.
fn ends_so(alloc: Global, case: &Case) -> Result<bool, Fail> {
    let ended = run(alloc, case.script.as_bytes(), &HEADER_JOURNAL, 0)?;
    let kept = text_of(alloc, &ended.journal)?;
    Ok(
        ended.ended(case.status, case.exit, case.told, &ended.journal)
            && kept.as_slice() == case.kept.as_bytes(),
    )
}

fn check(rt: &impl Abort, alloc: Global, cases: &[Case]) -> Result<(), Fail> {
    for case in cases {
        assert!(rt; ends_so(alloc, case)?, "{}", case.script);
    }
    Ok(())
}

#[test]
fn a_day_ends_as_its_lines_say(rt: HostRuntime) -> Result<(), Fail> {
    let cases = [
        Case {
            script: "PEGV 1\nMEMBER A\n",
            status: DayStatus::Differs { line: 2 },
            told: "pegday: line 2 differs\n",
            exit: 12,
            kept: HEADER,
        },
        Case {
            // bad, but another line first
            script: "PEGV 1\nMEMBER \n",
            status: DayStatus::Differs { line: 2 },
            told: "pegday: line 2 differs\n",
            exit: 12,
            kept: HEADER,
        },
        Case {
            // no end, but a line of the journal first
            script: "PEGV 1\nBEGIN 20240102-14:30:00.000",
            status: DayStatus::Differs { line: 2 },
            told: "pegday: line 2 differs\n",
            exit: 12,
            kept: HEADER,
        },
        Case {
            script: "PEGV 1\nBEGIN 20240102-14:30:00.000\nT 2024\n",
            status: DayStatus::BadLine {
                line: 3,
                cause: LineCause::BadMoment,
            },
            told: "pegday: line 3: BadMoment\n",
            exit: 3,
            kept: HEADER,
        },
        Case {
            script: "PEGV 1\nBEGIN 20240102-14:30:00.000\nT 20240102-14:30:01.000\nT",
            status: DayStatus::BadLine {
                line: 4,
                cause: LineCause::NoEnd,
            },
            told: "pegday: line 4: NoEnd\n",
            exit: 3,
            kept: "PEGV 1\nBEGIN 20240102-14:30:00.000\nT 20240102-14:30:01.000\n",
        },
    ];
    check(&rt, rt.alloc(), &cases)
}

#[test]
fn a_line_that_passes_a_limit_is_not_kept(rt: HostRuntime) -> Result<(), Fail> {
    let alloc = rt.alloc();
    let mut script = HEADER.as_bytes().to_vec(alloc)?;
    script.extend_from_slice(&[b'T'; 16_385])?;
    let limit = DayStatus::LimitLine {
        line: 3,
        which: LimitCause::Line,
    };
    let told = "pegday: line 3: limit Line\n";
    let long = run(alloc, &script, &HEADER_JOURNAL, 0)?;
    assert!(rt; long.ended(limit, 4, told, &HEADER_JOURNAL));
    let cut = &HEADER_JOURNAL[..43];
    let told = "pegday: journal damaged at 11\n";
    let damaged = run(alloc, &script, cut, 0)?;
    assert!(rt; damaged.ended(DayStatus::Damaged { at: 11 }, 11, told, cut));
    let fault = run(alloc, &script, &[], 1)?;
    assert!(rt; fault.ended(DayStatus::DiskFault, 10, "pegday: disk fault\n", &[]));
    Ok(())
}
