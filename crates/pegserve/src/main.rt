//! Serves a venue: `pegserve CONFIG ADDRESS CONNECTIONS [QUOTES [DROPADDRESS NAME MEMBER ..]]` takes so many connections of members
//! at the address, submits the quotes of the file, and at the end lists the journal and the reports of each symbol. At the drop
//! address it takes one connection of a session of this name, which gets copies of the members' reports.
#![tactic(auto)]

use io_edge::StreamSink;
use program_words::arguments::arguments;
use std::process::ExitCode;
use venue_server::running::{refuse_words, run};

fn main(rt: HostRuntime) -> ExitCode {
    let mut err = StreamSink::new(rt.stderr());
    ExitCode::from(match arguments(&rt) {
        Ok(words) => {
            let mut out = StreamSink::new(rt.stdout());
            run(&rt, &rt, words.as_slice(), &mut out, &mut err)
        }
        Err(fault) => refuse_words(fault, &mut err),
    })
}
