//! The config of a day.
ghost use Rattle.std.specs.Prelude.{All, IfOk};
ghost use Rattle.day_journal.specs.Log.{IsShortLine};
ghost use Rattle.venue_words.specs.Conditions.{IsConfig};

use crate::exit::Exit;
use io_edge::FileShelf;
use line_reader::{ConfigFault, read_config};
use std::io::ErrorKind;
use std::{fs, io};
use terminal_hints::{limit_advice, line_advice};
use venue_words::limits::{MAX_CONFIG_BYTES, MAX_LINE_BYTES};
use venue_words::{Bytes, Config};

/// A config, and its lines without their LFs.
#[derive(Drop)]
pub struct Head {
    pub config: Config,
    pub lines: Vec<Bytes>,
}

/// Says why a config will not do.
pub fn tell_fault(rt: &HostRuntime, name: &str, fault: ConfigFault) -> Exit {
    let told = match fault {
        ConfigFault::Bad { line, cause } => {
            eprintln!(rt; "peglive: {name}:{line}: {cause}: {}", line_advice(cause))
        }
        ConfigFault::Limit { line, which } => {
            eprintln!(rt; "peglive: {name}:{line}: {}", limit_advice(which))
        }
        ConfigFault::ReadFault => tell_unread(rt, name),
        ConfigFault::NoMemory => return Exit::NoMemory,
    };
    match (told, fault) {
        (Err(_), _) => Exit::Unwritten,
        (Ok(()), ConfigFault::ReadFault) => Exit::Unread,
        (Ok(()), _) => Exit::BadConfig,
    }
}

/// Says why a file can't be read.
pub fn tell_unread(rt: &HostRuntime, name: &str) -> io::Result<()> {
    match fs::open(rt, name) {
        Ok(_) => eprintln!(rt; "peglive: {name} could not be read"),
        Err(error) => eprintln!(rt; "peglive: {name}: {error}"),
    }
}

/// The lines of a text, without their LFs.
fn lines_of(rt: &HostRuntime, text: &[u8]) -> io::Result<Vec<Bytes>>
    ensures { IfOk result (λ lines. All IsShortLine lines.items) }
{
    let alloc = rt.alloc();
    let mut lines = Vec::new(alloc);
    for line in text.split(|byte| *byte == b'\n') {
        if line.len() > MAX_LINE_BYTES {
            return Err(io::Error::from(ErrorKind::InvalidData));
        }
        if !line.is_empty() {
            lines.push(Bytes::copy_of(alloc, line)?)?;
        }
    }
    Ok(lines)
}

/// The lines of a file, without their LFs.
pub fn lines_in(rt: &HostRuntime, name: &str) -> io::Result<Vec<Bytes>>
    ensures { IfOk result (λ lines. All IsShortLine lines.items) }
{
    let text = fs::read(rt, name)?;
    lines_of(rt, text.as_slice())
}

/// Reads the config of a day.
pub fn head_of(rt: &HostRuntime, name: &str) -> Result<Head, ConfigFault>
    ensures config { IfOk result (λ head. IsConfig head.config) }
    ensures short { IfOk result (λ head. All IsShortLine head.lines.items) }
{
    let mut shelf = FileShelf::new(rt);
    let config = match read_config(rt.alloc(), &mut shelf, name, MAX_CONFIG_BYTES) {
        Ok(file) => file.config,
        Err(fault) => return Err(fault),
    };
    match lines_in(rt, name) {
        Ok(lines) => Ok(Head { config, lines }),
        Err(_) => Err(ConfigFault::ReadFault),
    }
}

/// Reads the config of a day; where it will not do, says why.
pub fn read_head(rt: &HostRuntime, name: &str) -> Result<Head, Exit>
    ensures config { IfOk result (λ head. IsConfig head.config) }
    ensures short { IfOk result (λ head. All IsShortLine head.lines.items) }
{
    match head_of(rt, name) {
        Ok(head) => Ok(head),
        Err(fault) => Err(tell_fault(rt, name, fault)),
    }
}
