//! Calls of the outside that fail in turn.
use super::{CONFIG, FEED, LOGON, SNAPSHOT, run, shelf_of, stream_of};
use market_data::MarketStatus;
use std::test::Fail;

/// The most bytes of a pull.
const PIECE: usize = 16;

#[test]
fn each_failing_read_leaves_the_feed_of_the_bytes_before(rt: HostRuntime) -> Result<(), Fail> {
    let alloc = rt.alloc();
    let input = stream_of(alloc, &[LOGON, SNAPSHOT])?;
    // Each file is begun by one call, read in pieces, and read once more for its end.
    let calls = CONFIG.len().div_ceil(PIECE) as u64 + input.len().div_ceil(PIECE) as u64 + 4;
    for call in 1..calls + 1 {
        let mut shelf = shelf_of(alloc, CONFIG, &input, PIECE, vec![in alloc; call]?)?;
        let (status, out, err) = run(alloc, &["c", "SIP", "i"], &mut shelf, (0, 0))?;
        assert!(rt; status == MarketStatus::ReadFault, "at call {call}");
        let feed = if call == calls { FEED } else { "" };
        assert_eq!(rt; out.bytes(), feed.as_bytes(), "at call {call}");
        assert_eq!(rt; err.bytes(), b"pegmarket: read fault\n".as_slice());
    }
    let mut shelf = shelf_of(alloc, CONFIG, &input, PIECE, vec![in alloc; calls + 1]?)?;
    let (status, _, _) = run(alloc, &["c", "SIP", "i"], &mut shelf, (0, 0))?;
    assert!(rt; status == MarketStatus::Done);
    Ok(())
}

#[test]
fn a_failing_write_is_told_and_so_is_a_failing_text(rt: HostRuntime) -> Result<(), Fail> {
    let alloc = rt.alloc();
    let input = stream_of(alloc, &[LOGON, SNAPSHOT])?;
    for told in [0u64, 1] {
        let mut shelf = shelf_of(alloc, CONFIG, &input, PIECE, Vec::new(alloc))?;
        let (status, out, err) = run(alloc, &["c", "SIP", "i"], &mut shelf, (1, told))?;
        assert!(rt; status == MarketStatus::WriteFault);
        assert_eq!(rt; out.bytes(), b"".as_slice());
        let text = if told == 0 {
            "pegmarket: write fault\n"
        } else {
            ""
        };
        assert_eq!(rt; err.bytes(), text.as_bytes());
    }
    // Bad words yield to a failed put of their text, and a missing file does not.
    let mut shelf = shelf_of(alloc, CONFIG, &input, PIECE, Vec::new(alloc))?;
    let (status, _, _) = run(alloc, &["c"], &mut shelf, (0, 1))?;
    assert!(rt; status == MarketStatus::WriteFault);
    let mut shelf = shelf_of(alloc, CONFIG, &input, PIECE, Vec::new(alloc))?;
    let (status, _, _) = run(alloc, &["c", "SIP", "x"], &mut shelf, (0, 1))?;
    assert!(rt; status == MarketStatus::ReadFault);
    Ok(())
}
