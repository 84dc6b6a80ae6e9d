//! Whether a config will do: all that is wrong with it, or what a day of it takes.
use crate::config::{head_of, tell_fault};
use crate::exit::Exit;
use line_reader::ConfigFault;
use script_text::{Header, LineCause, LineFault};
use std::{fs, io};
use terminal_hints::{limit_advice, line_advice};
use venue_words::Config;

/// The memory that an event of a full day takes, in bytes, with its reports and what may be sent again. Measured.
const EVENT_BYTES: u64 = 750;

/// What an order takes in the journal, in bytes, with its share of the clock's lines. Measured.
const JOURNAL_BYTES: u64 = 200;

/// Says why a line will not do.
fn tell_line(rt: &HostRuntime, name: &str, text: &[u8], fault: LineFault) -> io::Result<()> {
    match fault {
        LineFault::Bad { line, cause } => {
            eprintln!(rt; "{name}:{line}: {cause}: {}", line_advice(cause))?;
            if text.is_empty() || text.starts_with(b"#") {
                eprintln!(rt; "{name}:{line}: a config holds no comments and no empty lines")?;
            }
            Ok(())
        }
        LineFault::Limit { line, which } => eprintln!(rt; "{name}:{line}: {}", limit_advice(which)),
        LineFault::NoMemory => eprintln!(rt; "{name}: out of memory"),
    }
}

/// Whether the lines after this one can't be judged: the first line says how to read them.
fn is_last_word(fault: LineFault) -> bool {
    matches!(
        fault,
        LineFault::NoMemory
            | LineFault::Bad {
                cause: LineCause::BadHeader,
                ..
            }
    )
}

/// Says all that is wrong with the lines of a config.
fn tell_all(rt: &HostRuntime, name: &str, text: &[u8]) -> io::Result<()> {
    let mut header = Header::new(rt.alloc());
    let mut number = 0u32;
    for line in text.split(|byte| *byte == b'\n') {
        number = number.saturating_add(1);
        match header.line(rt.alloc(), number, line) {
            Ok(true) => return Ok(()),
            Ok(false) => {}
            Err(fault) => {
                tell_line(rt, name, line, fault)?;
                if is_last_word(fault) {
                    return Ok(());
                }
            }
        }
    }
    Ok(())
}

/// Says what a day of a config takes.
fn tell_size(rt: &HostRuntime, config: &Config) -> io::Result<()> {
    let mut events = 0u64;
    for limit in config.limits.as_slice() {
        events = events.saturating_add(u64::from(*limit));
    }
    println!(rt;
        "ok: members {}, markets {}, symbols {}, events at most {events}",
        config.members.len(),
        config.markets.len(),
        config.symbols.len()
    )?;
    println!(rt;
        "a day at these limits takes about {} MB of memory, and a journal of about {} MB",
        events.saturating_mul(EVENT_BYTES) / 1_000_000 + 1,
        events.saturating_mul(JOURNAL_BYTES) / 1_000_000 + 1
    )
}

/// What came of telling.
fn told(telling: io::Result<()>, exit: Exit) -> Exit {
    match telling {
        Ok(()) => exit,
        Err(_) => Exit::Unwritten,
    }
}

/// Says whether a config will do, and what it takes.
pub fn check(rt: &HostRuntime, name: &str) -> Exit {
    match head_of(rt, name) {
        Ok(head) => told(tell_size(rt, &head.config), Exit::Done),
        Err(fault) => match (fault, fs::read(rt, name)) {
            (ConfigFault::Bad { .. } | ConfigFault::Limit { .. }, Ok(text)) => {
                told(tell_all(rt, name, text.as_slice()), Exit::BadConfig)
            }
            (fault, _) => tell_fault(rt, name, fault),
        },
    }
}
