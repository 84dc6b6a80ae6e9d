//! Many feeds over many symbols.
ghost use Rattle.std.specs.Prelude.{◌<◌};

use super::{Ran, run, word_of};
use feeds_core::FeedsStatus;
use std::alloc::{AllocError, Global};
use std::str::Lines;
use std::sync::Wait;
use std::test::Fail;
use std::thread::Threads;

const FEEDS: usize = 64;

/// More than those whose texts are made at once.
const SYMBOLS: usize = 20;

/// How many quotes a feed has for each symbol.
const QUOTES: usize = 5;

fn config_of(alloc: Global) -> Result<String, AllocError> {
    let mut text = String::from_str(alloc, "PEGV 1\nMARKET N\n")?;
    for symbol in 0..SYMBOLS {
        text.push_str(&format!(in alloc; "SYMBOL S{symbol} 320\n")?)?;
    }
    text.push_str("BEGIN 20240102-14:30:00.000\n")?;
    Ok(text)
}

/// The quotes of a feed: each tells the feed and its turn by its prices.
fn quotes_of(alloc: Global, feed: usize) -> Result<String, AllocError>
    requires { feed < 64 }
{
    let mut text = String::new(alloc);
    for turn in 0..QUOTES {
        for symbol in 0..SYMBOLS {
            let (bid, offer) = (10 + feed, 100 + turn);
            text.push_str(&format!(in alloc; "Q S{symbol} N {bid}.00 {offer}.00\n")?)?;
        }
    }
    Ok(text)
}

/// Runs feeds of these texts over that config.
fn run_texts<R: Threads + Wait + Sync>(
    rt: &R,
    alloc: Global,
    texts: &[String],
) -> Result<Ran, AllocError> {
    let mut feeds = Vec::new(alloc);
    for text in texts {
        feeds.push(text.as_str())?;
    }
    let config = config_of(alloc)?;
    run(rt, alloc, config.as_str(), feeds.as_slice())
}

/// Runs the quotes of all feeds.
fn run_all<R: Threads + Wait + Sync>(rt: &R, alloc: Global) -> Result<Ran, AllocError> {
    let mut texts = Vec::new(alloc);
    for feed in 0..FEEDS {
        texts.push(quotes_of(alloc, feed)?)?;
    }
    run_texts(rt, alloc, texts.as_slice())
}

/// Whether a line is this event of a symbol: the next quote of the feed that it names, of which the turn is counted.
fn is_next_quote(
    alloc: Global,
    line: &str,
    symbol: usize,
    number: usize,
    turns: &mut [usize; FEEDS],
) -> Result<bool, AllocError> {
    let Ok(feed) = word_of(line, 3).parse::<usize>() else {
        return Ok(false);
    };
    if feed == 0 || FEEDS < feed {
        return Ok(false);
    }
    let (bid, offer) = (9 + feed, 100 + turns[feed - 1].min(QUOTES));
    turns[feed - 1] = turns[feed - 1].saturating_add(1);
    let meant = format!(in alloc;
        "J S{symbol} {number} {feed} 20240102-14:30:00.000 Q N {bid}.00 {offer}.00"
    )?;
    Ok(line == meant.as_str())
}

/// Whether these lines begin with the journal of a symbol, each feed's quotes in their order.
fn holds_journal(alloc: Global, lines: &mut Lines<'_>, symbol: usize) -> Result<bool, AllocError> {
    let head = format!(in alloc; "S S{symbol} 320 0")?;
    if lines.next() != Some(head.as_str()) {
        return Ok(false);
    }
    let mut turns = [0usize; FEEDS];
    for number in 1..321usize {
        match lines.next() {
            Some(line) if is_next_quote(alloc, line, symbol, number, &mut turns)? => {}
            _ => return Ok(false),
        }
    }
    Ok(true)
}

/// The first symbol whose journal is another one; behind the last symbol, where more lines follow.
fn first_wrong(alloc: Global, listing: &str) -> Result<Option<usize>, AllocError> {
    let mut lines = listing.lines();
    for symbol in 0..SYMBOLS {
        if !holds_journal(alloc, &mut lines, symbol)? {
            return Ok(Some(symbol));
        }
    }
    Ok(lines.next().map(|_| SYMBOLS))
}

#[test]
fn each_journal_holds_each_feed_in_its_order(rt: HostRuntime) -> Result<(), Fail> {
    let ran = run_all(&rt, rt.alloc())?;
    let wrong = first_wrong(rt.alloc(), ran.text())?;
    let is_done = ran.status == FeedsStatus::Done;
    assert!(rt; is_done && wrong.is_none(), "{:?}, {wrong:?}", ran.status);
    Ok(())
}
