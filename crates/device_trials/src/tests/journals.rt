//! A log on a disk in memory, and a disk over a real file.
ghost use Rattle.std.specs.Prelude.{◌≤◌, length};
ghost use Rattle.venue_words.specs.declared.limits.TheConstants.{MAX_LINE_BYTES};

use day_journal::{Disk, FileDisk, Log, MemDisk, OpenRefusal, open};
use std::alloc::Global;
use std::test::Fail;
use venue_words::Bytes;

const TWO_LINES: [u8; 44] =
    *b"\x01\x00\x00\x00\x06PEGV 1\x01\x00\x00\x00\x1bBEGIN 20240102-14:30:00.000\x00";

/// What was read and what is left.
#[derive(Drop)]
struct Outcome {
    lines: Vec<Bytes>,
    bytes: Vec<u8>,
    acknowledged: usize,
    damaged: Option<u64>,
    failed: bool,
}

impl Outcome {
    /// Whether there were so many lines, and these bytes are left.
    fn has(&self, lines: usize, bytes: &[u8]) -> bool {
        self.lines.len() == lines && self.bytes.as_slice() == bytes
    }
}

fn left(alloc: Global, disk: &MemDisk) -> Result<Vec<u8>, Fail> {
    Ok(disk.bytes().to_vec(alloc)?)
}

/// Opens these bytes, and appends two lines, if they are wanted, as far as the disk works.
fn run(alloc: Global, bytes: &[u8], fail: u64, wanted: bool) -> Result<Outcome, Fail> {
    let mut fails = Vec::new(alloc);
    fails.push(fail)?;
    let mut disk = MemDisk::new(bytes.to_vec(alloc)?, fails);
    if disk.begin("DAY").is_err() {
        return Ok(Outcome {
            lines: Vec::new(alloc),
            bytes: left(alloc, &disk)?,
            acknowledged: 0,
            damaged: None,
            failed: true,
        });
    }
    match open(alloc, disk) {
        Ok((mut log, lines)) => {
            let acknowledged = if wanted { add_both(&mut log) } else { 0 };
            let disk = log.close();
            Ok(Outcome {
                lines,
                bytes: left(alloc, &disk)?,
                acknowledged,
                damaged: None,
                failed: false,
            })
        }
        Err((disk, refusal)) => {
            let damaged = match refusal {
                OpenRefusal::Damaged { at } => Some(at),
                OpenRefusal::DiskFault => None,
                OpenRefusal::NoMemory => None,
            };
            Ok(Outcome {
                lines: Vec::new(alloc),
                bytes: left(alloc, &disk)?,
                acknowledged: 0,
                damaged,
                failed: damaged.is_none(),
            })
        }
    }
}

/// How many of the two lines were acknowledged.
fn add_both(log: &mut Log<MemDisk>) -> usize {
    if !add(log, b"PEGV 1") {
        return 0;
    }
    if !add(log, b"BEGIN 20240102-14:30:00.000") {
        return 1;
    }
    2
}

fn add(log: &mut Log<MemDisk>, line: &[u8]) -> bool
    requires { length line.now ≤ MAX_LINE_BYTES }
{
    if log.is_spent() || log.size() >= 1 << 62 {
        return false;
    }
    log.append(line).is_ok()
}

fn are_two(lines: &[Bytes]) -> bool {
    lines.len() == 2
        && lines[0].as_slice() == b"PEGV 1".as_slice()
        && lines[1].as_slice() == b"BEGIN 20240102-14:30:00.000".as_slice()
}

#[test]
fn two_lines_take_forty_four_bytes(rt: HostRuntime) -> Result<(), Fail> {
    let alloc = rt.alloc();
    let first = run(alloc, &[], 0, true)?;
    assert!(rt; first.acknowledged == 2 && first.has(0, &TWO_LINES));
    let second = run(alloc, &first.bytes, 0, false)?;
    assert!(rt; are_two(&second.lines) && second.has(2, &TWO_LINES));
    Ok(())
}

#[test]
fn a_gate_that_is_not_open_ends_the_lines(rt: HostRuntime) -> Result<(), Fail> {
    let alloc = rt.alloc();
    let mut bytes = TWO_LINES;
    bytes[43] = 0x37;
    let two = run(alloc, &bytes, 0, false)?;
    assert!(rt; are_two(&two.lines) && two.has(2, &bytes));
    bytes[11] = 0;
    let one = run(alloc, &bytes, 0, false)?;
    assert_eq!(rt; one.lines.len(), 1);
    Ok(())
}

#[test]
fn a_line_without_a_byte_behind_is_damage(rt: HostRuntime) -> Result<(), Fail> {
    let alloc = rt.alloc();
    let cut = run(alloc, &TWO_LINES[..43], 0, false)?;
    assert_eq!(rt; cut.damaged, Some(11));
    let alone = run(alloc, &[1], 0, false)?;
    assert!(rt; alone.has(0, &[0]));
    Ok(())
}

/// Whether what was acknowledged on a disk that fails at this call is found again, and no more than was given.
fn is_found_again(alloc: Global, fail: u64) -> Result<bool, Fail> {
    let broken = run(alloc, &[], fail, true)?;
    let again = run(alloc, &broken.bytes, 0, false)?;
    let count = again.lines.len();
    Ok(
        !again.failed
            && again.damaged.is_none()
            && count >= broken.acknowledged
            && (count < 2 || are_two(&again.lines))
            && (fail < 14 || broken.acknowledged == 2),
    )
}

#[test]
fn what_was_acknowledged_is_found_again(rt: HostRuntime) -> Result<(), Fail> {
    for fail in 1..16_u64 {
        assert!(rt; is_found_again(rt.alloc(), fail)?, "{fail}");
    }
    Ok(())
}

/// Opens a journal in a real file, says how many lines it had, and appends one.
fn grow(rt: &HostRuntime, name: &str) -> Result<usize, Fail> {
    let mut disk = FileDisk::new(rt);
    if disk.begin(name).is_err() {
        return Err("not begun".into());
    }
    match open(rt.alloc(), disk) {
        Ok((mut log, lines)) => {
            if log.size() >= 1 << 62 || log.append(b"PEGV 1").is_err() {
                return Err("not appended".into());
            }
            Ok(lines.len())
        }
        Err(_) => Err("not opened".into()),
    }
}

#[test]
fn a_real_file_keeps_its_lines(rt: HostRuntime) -> Result<(), Fail> {
    assert_eq!(rt; grow(&rt, "journal.tmp")?, 0);
    assert_eq!(rt; grow(&rt, "journal.tmp")?, 1);
    assert_eq!(rt; std::fs::read(&rt, "journal.tmp")?.len(), 23);
    std::fs::remove_file(&rt, "journal.tmp")?;
    Ok(())
}
