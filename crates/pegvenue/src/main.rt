//! Runs feeds on threads: `pegvenue CONFIG FEED ..` works the commands of all feeds at once on a venue of the config, and writes
//! each symbol's journal with its reports to standard output.
#![tactic(auto)]

use feed_work::Unpaced;
use feeds_core::{FeedsStatus, exit_code, refuse_words, run_feeds};
use io_edge::{FileShelf, StreamSink};
use program_words::arguments::arguments;
use std::process::ExitCode;
use terminal_hints::{Hint, named, word_at};

const USAGE: &str =
    "usage: pegvenue CONFIG FEED ..\nCONFIG is a script's header, each FEED lines of a script's body; 1 to 64 feeds, and all lines of a member in one.";

const FULL: &str =
    "  the feeds have more commands for that symbol than the limit of its SYMBOL line: raise it";

/// What a person is told of the status.
fn hint_of(status: FeedsStatus, words: &[String]) -> Hint<'_> {
    match status {
        FeedsStatus::Done | FeedsStatus::NoMemory => Hint::Nothing,
        FeedsStatus::BadWords => Hint::Text(USAGE),
        FeedsStatus::BadFeed { file, line, cause } => Hint::BadLine {
            file: word_at(words, file as usize),
            line,
            cause,
        },
        FeedsStatus::LimitFeed { file, line, which } => Hint::LimitLine {
            file: word_at(words, file as usize),
            line,
            which,
        },
        FeedsStatus::Full { .. } => Hint::Text(FULL),
        FeedsStatus::ReadFault => Hint::Unread(named(words)),
        FeedsStatus::WriteFault => Hint::Unwritten,
    }
}

fn main(rt: HostRuntime) -> ExitCode {
    let mut shelf = FileShelf::new(&rt);
    let mut out = StreamSink::new(rt.stdout());
    let mut err = StreamSink::new(rt.stderr());
    let status = match arguments(&rt) {
        Ok(words) => {
            let words = words.as_slice();
            let status = run_feeds(
                &rt,
                rt.alloc(),
                words,
                &Unpaced,
                &mut shelf,
                &mut out,
                &mut err,
            );
            hint_of(status, words).show(&rt);
            status
        }
        Err(fault) => refuse_words(fault, &mut err),
    };
    ExitCode::from(exit_code(status))
}
