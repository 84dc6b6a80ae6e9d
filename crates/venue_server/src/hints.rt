//! What a person at a terminal is told: where the venue listens, and after a status' text what to do.

use serve_core::ServeStatus;
use std::io::{self, IsTerminal};
use std::net::TcpListener;
use std::slice::from_ref;
use terminal_hints::{Hint, named, word_at};

/// The place of the config's name among the words.
pub const CONFIG: usize = 0;

/// The place of the name of the file of quotes among the words.
pub const QUOTES: usize = 3;

/// The places of the addresses of members and of the drop session among the words.
const ADDRESSES: [usize; 2] = [1, 4];

const USAGE: &str =
    "usage: pegserve CONFIG ADDRESS CONNECTIONS [QUOTES [DROPADDRESS NAME MEMBER ..]]\nCONFIG is a script's header, CONNECTIONS 1 to 64, QUOTES a file of quotes; NAME, no member's name, gets copies of the reports of members of the config.";

const FULL: &str =
    "  a quote came to that symbol when its journal held the limit of its SYMBOL line: raise it";

const LISTEN: &str =
    "  an address is an IP address and a port that no other program listens at, as 127.0.0.1:7001";

/// The word at a place, if there is one, as a list of files.
fn file_at(words: &[String], place: usize) -> &[String] {
    match named(words).get(place) {
        Some(word) => from_ref(word),
        None => &[],
    }
}

/// What a person is told of a status that speaks of the file at this place among the words.
pub fn hint_of<'a>(status: ServeStatus<'_>, words: &'a [String], place: usize) -> Hint<'a> {
    let files = file_at(words, place);
    let file = match files.first() {
        Some(word) => word.as_str(),
        None => "",
    };
    match status {
        ServeStatus::Done | ServeStatus::NoMemory => Hint::Nothing,
        ServeStatus::BadWords => Hint::Text(USAGE),
        ServeStatus::BadLine { line, cause } => Hint::BadLine { file, line, cause },
        ServeStatus::LimitLine { line, which } => Hint::LimitLine { file, line, which },
        ServeStatus::Full { .. } => Hint::Text(FULL),
        ServeStatus::ReadFault => Hint::Unread(files),
        ServeStatus::WriteFault => Hint::Unwritten,
        ServeStatus::ListenFault => Hint::Text(LISTEN),
    }
}

/// Shows on standard error, where that is a terminal, for whom a listener listens, and where.
pub fn show_listening(system: &HostRuntime, whom: &str, listener: &TcpListener) {
    if system.stderr().is_terminal()
        && let Ok(address) = listener.local_addr()
    {
        let _shown = eprintln!(system; "pegserve: listening for {whom} at {address}");
    }
}

/// Shows why an address cannot be listened at, if it cannot.
fn write_reason(system: &HostRuntime, address: &str) -> io::Result<()> {
    match TcpListener::bind(system, address) {
        Ok(_) => Ok(()),
        Err(error) => eprintln!(system; "  {address}: {error}"),
    }
}

/// Where the run ended since an address could not be listened at, and standard error is a terminal: shows the system's reason.
pub fn show_refused_addresses(system: &HostRuntime, status: ServeStatus<'_>, words: &[String]) {
    if let ServeStatus::ListenFault = status
        && system.stderr().is_terminal()
    {
        for place in ADDRESSES {
            let address = word_at(words, place);
            if !address.is_empty() {
                let _shown = write_reason(system, address);
            }
        }
    }
}
