//! What an operator is told of a day.
use fix_write::push_moment;
use std::alloc::Global;
use venue_words::NoMemory;

/// The counts of a day so far.
#[derive(Clone, Copy)]
pub struct Counts {
    pub rounds: u64,
    /// The lines that were brought, and their bytes.
    pub lines: u64,
    pub bytes: u64,
    /// The connections of members, and those without a name.
    pub connections: usize,
    pub unnamed: usize,
    /// The bytes that wait for members.
    pub waiting: usize,
    /// How often a member's name went from one connection to another.
    pub turns: u64,
    /// The markets whose quotes are taken away since nothing came from them.
    pub silent: usize,
}

/// How a member stands.
#[derive(Clone, Copy)]
pub struct Standing {
    /// The moment when his connection came, if he has one.
    pub since: Option<u64>,
    pub waiting: usize,
    pub turns: u64,
}

/// The counts as a line with its LF.
pub fn status_line(alloc: Global, counts: Counts) -> Result<Vec<u8>, NoMemory> {
    let text = format!(in alloc;
        "rounds={} lines={} bytes={} connections={} unnamed={} waiting={} turns={} silent={}\n",
        counts.rounds,
        counts.lines,
        counts.bytes,
        counts.connections,
        counts.unnamed,
        counts.waiting,
        counts.turns,
        counts.silent
    )?;
    Ok(text.into_bytes())
}

/// How a member stands, as a line with its LF.
pub fn member_line(alloc: Global, name: &[u8], standing: Standing) -> Result<Vec<u8>, NoMemory> {
    let mut text = Vec::from_slice(alloc, b"member=")?;
    text.extend_from_slice(name)?;
    match standing.since {
        Some(since) => {
            text.extend_from_slice(b" up=yes since=")?;
            push_moment(&mut text, i64::try_from(since).unwrap_or(i64::MAX))?;
        }
        None => text.extend_from_slice(b" up=no")?,
    }
    let rest = format!(in alloc; " waiting={} turns={}\n", standing.waiting, standing.turns)?;
    text.extend_from_slice(rest.as_bytes())?;
    Ok(text)
}

/// A symbol as a line with its LF.
pub fn symbol_line(alloc: Global, name: &[u8], halted: bool) -> Result<Vec<u8>, NoMemory> {
    let mut text = Vec::from_slice(alloc, b"symbol=")?;
    text.extend_from_slice(name)?;
    text.extend_from_slice(if halted {
        b" halted=yes\n".as_slice()
    } else {
        b" halted=no\n".as_slice()
    })?;
    Ok(text)
}

/// The end of a list of so many lines.
pub fn end_line(alloc: Global, count: usize) -> Result<Vec<u8>, NoMemory> {
    Ok(format!(in alloc; "end {count}\n")?.into_bytes())
}
