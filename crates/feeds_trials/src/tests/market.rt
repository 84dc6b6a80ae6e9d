//! A recorded market data session, and a run over its feed.
use super::run;
use feeds_core::FeedsStatus;
use io_edge::{MemShelf, MemSink};
use market_data::{MarketStatus, market_feed};
use std::alloc::{AllocError, Global};
use std::test::Fail;

const CONFIG: &str = "PEGV 1\nMARKET N\nMARKET P\nSYMBOL X 100\nBEGIN 20240102-14:30:00.000\n";

/// A Logon, four snapshots, of which the second is refused, and a Logout. `|` stands for the byte that ends a field.
const SESSION: &str =
    "8=FIXT.1.1|9=65|35=A|49=SIP|56=PEGV|34=1|52=20240102-14:30:00|98=0|108=30|1137=9|10=213|\
8=FIXT.1.1|9=138|35=W|49=SIP|56=PEGV|34=2|52=20240102-14:30:01|55=X|268=3|269=0|270=10.00|271=500|275=N|269=1|270=10.01|271=200|275=N|269=0|270=9.99|275=P|10=149|\
8=FIXT.1.1|9=80|35=W|49=SIP|56=PEGV|34=3|52=20240102-14:30:01|55=X|268=1|269=1|270=10.005|275=N|10=211|\
8=FIXT.1.1|9=69|35=W|49=SIP|56=PEGV|34=4|52=20240102-14:30:01|55=X|268=1|269=J|275=N|10=249|\
8=FIXT.1.1|9=146|35=W|49=SIP|56=PEGV|34=5|52=20240102-14:30:02.250|55=X|268=4|269=0|270=10.01|275=P|269=0|270=10|275=P|269=2|270=10.02|275=N|269=1|270=10.03|275=P|10=025|\
8=FIXT.1.1|9=46|35=5|49=SIP|56=PEGV|34=6|52=20240102-14:30:03|10=116|";

const FEED: &str = "T 20240102-14:30:01.000
Q X N 10.00 10.01
Q X P 9.99 -
Q X N - -
T 20240102-14:30:02.250
Q X P 10.01 10.03
";

const LISTING: &str = "S X 4 0
J X 1 1 20240102-14:30:01.000 Q N 10.00 10.01
J X 2 1 20240102-14:30:01.000 Q P 9.99 -
J X 3 1 20240102-14:30:01.000 Q N - -
J X 4 1 20240102-14:30:02.250 Q P 10.01 10.03
";

/// The bytes of the session.
fn session(alloc: Global) -> Result<Vec<u8>, AllocError> {
    let mut bytes = Vec::with_capacity(alloc, SESSION.len())?;
    for byte in SESSION.as_bytes() {
        bytes.push(if *byte == b'|' { 1 } else { *byte })?;
    }
    Ok(bytes)
}

/// A config and the session.
fn files_of_session(alloc: Global) -> Result<Vec<(String, Vec<u8>)>, AllocError> {
    let mut files = Vec::new(alloc);
    files.push((
        String::from_str(alloc, "config")?,
        Vec::from_slice(alloc, CONFIG.as_bytes())?,
    ))?;
    files.push((String::from_str(alloc, "session")?, session(alloc)?))?;
    Ok(files)
}

/// What the session comes to as a feed of quotes.
fn feed_of_session(alloc: Global) -> Result<(MarketStatus, MemSink), AllocError> {
    let mut words = Vec::new(alloc);
    for word in ["config", "SIP", "session"] {
        words.push(String::from_str(alloc, word)?)?;
    }
    let mut shelf = MemShelf::new(files_of_session(alloc)?, 64, Vec::new(alloc));
    let mut out = MemSink::new(alloc, Vec::new(alloc));
    let mut err = MemSink::new(alloc, Vec::new(alloc));
    let status = market_feed(alloc, words.as_slice(), &mut shelf, &mut out, &mut err);
    Ok((status, out))
}

/// Whether the session comes to that feed.
fn comes_to_the_feed(alloc: Global) -> Result<bool, AllocError> {
    let (status, feed) = feed_of_session(alloc)?;
    Ok(status == MarketStatus::Done && feed.bytes() == FEED.as_bytes())
}

#[test]
fn the_feed_of_a_recorded_session_is_run(rt: HostRuntime) -> Result<(), Fail> {
    let alloc = rt.alloc();
    assert!(rt; comes_to_the_feed(alloc)?);
    let ran = run(&rt, alloc, CONFIG, &[FEED])?;
    assert!(rt;
        ran.came_to(FeedsStatus::Done, LISTING, ""),
        "{:?}",
        ran.status
    );
    Ok(())
}
