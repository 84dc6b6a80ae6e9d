//! Turns the recorded bytes of a market data session into a feed of quotes: `pegmarket CONFIG SOURCE INPUT` writes the feed to
//! standard output.
#![tactic(auto)]

use io_edge::{FileShelf, StreamSink};
use market_data::market::{market_feed, refuse_words};
use market_data::{MarketStatus, exit_code};
use program_words::arguments::arguments;
use std::process::ExitCode;
use terminal_hints::{Hint, word_at};

const USAGE: &str =
    "usage: pegmarket CONFIG SOURCE INPUT\nCONFIG is a script's header, SOURCE the CompID of the session, INPUT its recorded bytes.";

const TOO_MUCH: &str =
    "  INPUT has more than 536870912 bytes; the feed of the bytes up to there was written";

const ENDED: &str = "  the session ended there; the feed of the bytes before was written";

/// What a person is told of the status.
fn hint_of(status: MarketStatus, words: &[String]) -> Hint<'_> {
    let file = word_at(words, 0);
    match status {
        MarketStatus::Done | MarketStatus::NoMemory => Hint::Nothing,
        MarketStatus::BadWords => Hint::Text(USAGE),
        MarketStatus::BadConfig { line, cause } => Hint::BadLine { file, line, cause },
        MarketStatus::LimitConfig { line, which } => Hint::LimitLine { file, line, which },
        MarketStatus::LimitBytes => Hint::Text(TOO_MUCH),
        MarketStatus::Ended { .. } => Hint::Text(ENDED),
        MarketStatus::ReadFault => Hint::UnreadOf(file, word_at(words, 2)),
        MarketStatus::WriteFault => Hint::Unwritten,
    }
}

/// Runs over the files and streams of the system.
fn main(rt: HostRuntime) -> ExitCode {
    let mut err = StreamSink::new(rt.stderr());
    let status = match arguments(&rt) {
        Ok(words) => {
            let mut shelf = FileShelf::new(&rt);
            let mut out = StreamSink::new(rt.stdout());
            let status = market_feed(rt.alloc(), words.as_slice(), &mut shelf, &mut out, &mut err);
            hint_of(status, words.as_slice()).show(&rt);
            status
        }
        Err(fault) => refuse_words(fault, &mut err),
    };
    ExitCode::from(exit_code(status))
}
