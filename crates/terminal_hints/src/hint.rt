//! What a person is told behind a status' text.

use crate::advice::{limit_advice, line_advice};
use crate::refused::refused_line;
use script_text::{LimitCause, LineCause};
use std::fmt::{self, Write};
use std::fs;
use std::io::{self, IsTerminal};

/// The most characters of a line that are shown.
const SHOWN: usize = 120;

/// What a person at a terminal is told of a status.
#[derive(Clone, Copy)]
pub enum Hint<'a> {
    /// Nothing more than the status' text.
    Nothing,
    /// How the program is used, or what else to do.
    Text(&'a str),
    /// A line of a file is outside the grammar.
    BadLine {
        file: &'a str,
        line: u32,
        cause: LineCause,
    },
    /// A line of a file would pass a limit.
    LimitLine {
        file: &'a str,
        line: u32,
        which: LimitCause,
    },
    /// One of these files could not be opened or read.
    Unread(&'a [String]),
    /// One of these two files could not be opened or read.
    UnreadOf(&'a str, &'a str),
    /// What came out could not be written.
    Unwritten,
}

/// The bytes of a line as a terminal can show them.
#[derive(Clone, Copy)]
struct Shown<'a>(&'a [u8]);

impl<'a> fmt::Display for Shown<'a> {
    fn fmt<W: fmt::Write>(&self, f: &mut fmt::Formatter<W>) -> fmt::Result {
        for byte in self.0.iter().take(SHOWN) {
            write!(f, "{}", byte.escape_ascii())?;
        }
        if SHOWN < self.0.len() {
            f.write_str(" ..")?;
        }
        Ok(())
    }
}

/// The words that name files: all but a first word `--`.
pub fn named(words: &[String]) -> &[String] {
    match words {
        [first, rest @ ..] if first.as_str() == "--" => rest,
        _ => words,
    }
}

/// The word at a place among those that name files, counted from 0, or no text.
pub fn word_at(words: &[String], place: usize) -> &str {
    match named(words).get(place) {
        Some(word) => word.as_str(),
        None => "",
    }
}

impl<'a> Hint<'a> {
    /// Shows the hint on standard error where that is a terminal. A hint that cannot be shown is dropped.
    pub fn show(&self, rt: &HostRuntime) {
        if rt.stderr().is_terminal() {
            let _shown = self.write(rt);
        }
    }

    fn write(&self, rt: &HostRuntime) -> io::Result<()> {
        match *self {
            Hint::Nothing => Ok(()),
            Hint::Text(text) => eprintln!(rt; "{text}"),
            Hint::BadLine { file, line, cause } => {
                write_line(rt, file, line)?;
                eprintln!(rt; "  {}", line_advice(cause))
            }
            Hint::LimitLine { file, line, which } => {
                write_line(rt, file, line)?;
                eprintln!(rt; "  {}", limit_advice(which))
            }
            Hint::Unread(files) => write_reasons(rt, files),
            Hint::UnreadOf(one, other) => {
                write_reason(rt, one)?;
                write_reason(rt, other)
            }
            Hint::Unwritten => eprintln!(rt;
                "  standard output or standard error took no more: a full disk, or a closed pipe"
            ),
        }
    }
}

/// Shows a line of a file, and what of it nobody sees.
fn write_line(rt: &HostRuntime, file: &str, number: u32) -> io::Result<()> {
    let text = fs::read(rt, file)?;
    let line = refused_line(text.as_slice(), number);
    eprintln!(rt; "  {file}:{number}: {}", Shown(line.text))?;
    if line.has_byte_order_mark {
        eprintln!(rt; "  the file begins with a byte-order mark: save it without one")?;
    }
    if line.has_carriage_return {
        eprintln!(rt;
            "  the line ends with a carriage return: save the file with line feeds alone"
        )?;
    }
    Ok(())
}

/// Shows why a file cannot be opened, if it cannot.
fn write_reason(rt: &HostRuntime, file: &str) -> io::Result<()> {
    match fs::open(rt, file) {
        Ok(_) => Ok(()),
        Err(error) => eprintln!(rt; "  {file}: {error}"),
    }
}

/// Shows why each of these files cannot be opened, where it cannot.
fn write_reasons(rt: &HostRuntime, files: &[String]) -> io::Result<()> {
    for file in files.iter() {
        write_reason(rt, file.as_str())?;
    }
    Ok(())
}
