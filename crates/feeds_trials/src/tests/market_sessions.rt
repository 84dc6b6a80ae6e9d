//! A recorded market data session: a config, frames, and a run over files and sinks in memory.
mod failing;

use fix_write::wrap;
use io_edge::{MemShelf, MemSink};
use market_data::{MarketStatus, market_feed};
use std::alloc::{AllocError, Global};
use venue_words::NoMemory;

/// Markets N and P, and symbol X.
const CONFIG: &str = "PEGV 1\nMARKET N\nMARKET P\nSYMBOL X 100\nBEGIN 20240102-14:30:00.000\n";

const LOGON: &[u8] = b"35=A|49=SIP|56=PEGV|34=1|52=20240102-14:30:00|98=0|108=30|1137=9|";

/// A snapshot with a bid and an offer of N and a bid of P.
const SNAPSHOT: &[u8] =
    b"35=W|49=SIP|56=PEGV|34=2|52=20240102-14:30:01|55=X|268=3|269=0|270=10.00|271=500|275=N|269=1|270=10.01|271=200|275=N|269=0|270=9.99|275=P|";

/// Its feed.
const FEED: &str = "T 20240102-14:30:01.000\nQ X N 10.00 10.01\nQ X P 9.99 -\n";

/// Fields, of which `|` ends each.
fn fields_of(alloc: Global, text: &[u8]) -> Result<Vec<u8>, AllocError> {
    let mut bytes = Vec::with_capacity(alloc, text.len())?;
    for byte in text {
        bytes.push(if *byte == b'|' { 1 } else { *byte })?;
    }
    Ok(bytes)
}

/// Appends the frame of a message.
fn push_frame(alloc: Global, stream: &mut Vec<u8>, text: &[u8]) -> Result<(), NoMemory> {
    let fields = fields_of(alloc, text)?;
    stream.extend_from_slice(&wrap(alloc, &fields)?)?;
    Ok(())
}

/// The frames of messages.
fn stream_of(alloc: Global, messages: &[&[u8]]) -> Result<Vec<u8>, NoMemory> {
    let mut stream = Vec::new(alloc);
    for message in messages {
        push_frame(alloc, &mut stream, message)?;
    }
    Ok(stream)
}

/// A config `c` and an input `i`.
fn shelf_of(
    alloc: Global,
    config: &str,
    input: &[u8],
    piece: usize,
    fails: Vec<u64>,
) -> Result<MemShelf, AllocError> {
    let mut files = Vec::new(alloc);
    files.push((
        String::from_str(alloc, "c")?,
        Vec::from_slice(alloc, config.as_bytes())?,
    ))?;
    files.push((
        String::from_str(alloc, "i")?,
        Vec::from_slice(alloc, input)?,
    ))?;
    Ok(MemShelf::new(files, piece.max(1), fails))
}

/// A run with these words, with calls of the shelf, of the output and of the second sink that fail.
fn run(
    alloc: Global,
    words: &[&str],
    shelf: &mut MemShelf,
    fails: (u64, u64),
) -> Result<(MarketStatus, MemSink, MemSink), AllocError> {
    let mut list = Vec::new(alloc);
    for word in words {
        list.push(String::from_str(alloc, word)?)?;
    }
    let mut out = MemSink::new(alloc, vec![in alloc; fails.0]?);
    let mut err = MemSink::new(alloc, vec![in alloc; fails.1]?);
    let status = market_feed(alloc, &list, shelf, &mut out, &mut err);
    Ok((status, out, err))
}
