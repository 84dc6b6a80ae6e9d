//! Calls of the outside that fail in turn.
use super::{HEADER, first_trade, run, shelf};
use io_edge::{MemShelf, MemSink};
use replay_core::status::Status;
use std::alloc::{AllocError, Global};
use std::process::Abort;
use std::test::Fail;

/// How many lines of the first trade's transcript stand behind so many lines of its script.
const ANSWERED: [usize; 12] = [0, 0, 0, 0, 0, 0, 0, 1, 2, 2, 3, 6];

/// How many lines of that transcript stand before each put of it, and before the flush behind the last put.
const PUT_BEFORE: [usize; 5] = [0, 1, 2, 3, 6];

/// The most bytes of a pull.
const PIECE: usize = 7;

/// The bytes of the first lines of a text.
fn size_of_lines(text: &str, count: usize) -> usize {
    let mut size = 0usize;
    for line in text.split_inclusive('\n').take(count) {
        size = size.saturating_add(line.len());
    }
    size
}

/// How many whole lines some bytes have.
fn whole_lines(bytes: &[u8]) -> usize {
    let mut lines = 0usize;
    for byte in bytes {
        if *byte == b'\n' {
            lines = lines.saturating_add(1);
        }
    }
    lines
}

/// A sink whose call with this number fails.
fn failing_sink(alloc: Global, fails: u64) -> Result<MemSink, AllocError> {
    let fails = vec![in alloc; fails]?;
    Ok(MemSink::new(alloc, fails))
}

/// A shelf with a script that comes in small pieces, whose call with this number fails.
fn failing_shelf(alloc: Global, script: &str, fails: u64) -> Result<MemShelf, AllocError> {
    let fails = vec![in alloc; fails]?;
    shelf(alloc, script, PIECE, fails)
}

/// Plays a script in small pieces, with calls of the shelf, of the output and of the second sink that fail.
fn played(
    alloc: Global,
    script: &str,
    fails: (u64, u64, u64),
) -> Result<(Status, MemSink, MemSink), AllocError> {
    let mut shelf = failing_shelf(alloc, script, fails.0)?;
    let mut out = failing_sink(alloc, fails.1)?;
    let mut err = failing_sink(alloc, fails.2)?;
    let status = run(alloc, &["s"], &mut shelf, &mut out, &mut err)?;
    Ok((status, out, err))
}

/// How many bytes of the transcript stand behind so many whole lines of the script.
fn answered(trade: &str, lines: usize) -> Result<usize, Fail> {
    let count = *ANSWERED.get(lines).ok_or("too many lines")?;
    Ok(size_of_lines(trade, count).min(trade.len()))
}

/// The bytes of a text up to a place, or to its end.
fn front(text: &str, end: usize) -> &[u8] {
    &text.as_bytes()[..end.min(text.len())]
}

/// Whether a run ends so, with this output and with this told.
fn ends_so(
    alloc: Global,
    script: &str,
    fails: (u64, u64, u64),
    status: Status,
    output: &[u8],
    told: &str,
) -> Result<bool, AllocError> {
    let (got, out, err) = played(alloc, script, fails)?;
    Ok(got == status && out.bytes() == output && err.bytes() == told.as_bytes())
}

/// A run ends so, with this output and with what is told of it, where it can be told.
fn check_failed(
    rt: &impl Abort,
    alloc: Global,
    script: &str,
    fails: (u64, u64, u64),
    status: Status,
    output: &[u8],
) -> Result<(), Fail> {
    let text = match status {
        _ if fails.2 != 0 => "",
        Status::ReadFault => "pegreplay: read fault\n",
        Status::WriteFault => "pegreplay: write fault\n",
        _ => "",
    };
    let is_so = ends_so(alloc, script, fails, status, output, text)?;
    assert!(rt; is_so, "at {fails:?}");
    Ok(())
}

#[test]
fn each_failing_read_leaves_the_output_of_the_whole_lines_before(
    rt: HostRuntime,
) -> Result<(), Fail> {
    let alloc = rt.alloc();
    let (script, trade) = first_trade(alloc)?;
    let script = script.as_str();
    // The shelf is begun by its first call, and the last one finds the script's end.
    let pulls = script.len().div_ceil(PIECE);
    for pull in 0..pulls + 1 {
        let lines = whole_lines(front(script, PIECE.saturating_mul(pull)));
        let output = front(trade, answered(trade, lines)?);
        let call = pull as u64 + 2;
        check_failed(&rt, alloc, script, (call, 0, 0), Status::ReadFault, output)?;
        check_failed(&rt, alloc, script, (call, 0, 1), Status::ReadFault, output)?;
    }
    check_failed(&rt, alloc, script, (1, 0, 0), Status::ReadFault, b"")
}

#[test]
fn a_call_that_is_not_reached_fails_nothing(rt: HostRuntime) -> Result<(), Fail> {
    let alloc = rt.alloc();
    let (script, trade) = first_trade(alloc)?;
    let calls = script.len().div_ceil(PIECE) as u64 + 2;
    let fails = (calls + 1, 6, 1);
    check_failed(
        &rt,
        alloc,
        script.as_str(),
        fails,
        Status::Done,
        trade.as_bytes(),
    )
}

#[test]
fn each_failing_put_leaves_a_beginning_of_the_transcript(rt: HostRuntime) -> Result<(), Fail> {
    let alloc = rt.alloc();
    let (script, trade) = first_trade(alloc)?;
    let script = script.as_str();
    // The output of each line of the script that has some is put by itself. The last call flushes.
    for (place, count) in PUT_BEFORE.iter().enumerate() {
        let output = front(trade, size_of_lines(trade, *count));
        let call = place as u64 + 1;
        check_failed(&rt, alloc, script, (0, call, 0), Status::WriteFault, output)?;
        check_failed(&rt, alloc, script, (0, call, 1), Status::WriteFault, output)?;
    }
    Ok(())
}

#[test]
fn a_refused_line_whose_text_cannot_be_told_is_a_write_fault(rt: HostRuntime) -> Result<(), Fail> {
    let alloc = rt.alloc();
    let told = (0, 0, 1);
    check_failed(&rt, alloc, "PEGV 1\nX\n", told, Status::WriteFault, b"")?;
    check_failed(&rt, alloc, "", told, Status::WriteFault, b"")?;
    check_failed(&rt, alloc, HEADER, told, Status::Done, b"")?;
    let mut shelf = shelf(alloc, HEADER, PIECE, Vec::new(alloc))?;
    let mut out = MemSink::new(alloc, Vec::new(alloc));
    let mut err = MemSink::new(alloc, vec![in alloc; 1]?);
    let status = run(alloc, &[], &mut shelf, &mut out, &mut err)?;
    assert!(rt; status == Status::WriteFault);
    Ok(())
}
