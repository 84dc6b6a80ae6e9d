//! What the operators' desk tells of members and symbols.
use std::alloc::{AllocError, Global};
use venue_words::Bytes;
use watch_page::Waiting;

/// What a desk answered to `MEMBERS` and `SYMBOLS`, word by word. A desk that does not know these words tells nothing.
#[derive(Drop)]
pub struct DeskTold {
    alloc: Global,
    members: Vec<(Bytes, Waiting)>,
    symbols: Vec<(Bytes, bool)>,
}

/// The value after a key in a line of words `key=value`.
fn value_of<'a>(line: &'a [u8], key: &[u8]) -> Option<&'a [u8]> {
    for word in line.split(|byte| *byte == b' ') {
        if let Some(rest) = word.strip_prefix(key) {
            if let Some(value) = rest.strip_prefix(b"=".as_slice()) {
                return Some(value);
            }
        }
    }
    None
}

/// A number after a key.
fn number_of(line: &[u8], key: &[u8]) -> Option<u64> {
    match std::str::from_utf8(value_of(line, key)?) {
        Ok(digits) => digits.parse::<u64>().ok(),
        Err(_) => None,
    }
}

impl DeskTold {
    /// A desk that has told nothing.
    pub fn new(alloc: Global) -> DeskTold {
        DeskTold {
            alloc,
            members: Vec::new(alloc),
            symbols: Vec::new(alloc),
        }
    }

    /// Forgets what was told.
    pub fn clear(&mut self) {
        self.members.clear();
        self.symbols.clear();
    }

    /// Notes a line of an answer.
    pub fn note(&mut self, line: &[u8]) -> Result<(), AllocError> {
        if let Some(name) = value_of(line, b"member") {
            if let (Some(bytes), Some(turns)) = (
                number_of(line, b"waiting"),
                number_of(line, b"turns"),
            ) {
                let name = Bytes::copy_of(self.alloc, name)?;
                self.members.push((name, Waiting { bytes, turns }))?;
            }
        } else if let Some(name) = value_of(line, b"symbol") {
            if let Some(halted) = value_of(line, b"halted") {
                let name = Bytes::copy_of(self.alloc, name)?;
                self.symbols.push((name, halted == b"yes".as_slice()))?;
            }
        }
        Ok(())
    }

    /// What waits for a member, where it was told.
    pub fn waiting(&self, name: &[u8]) -> Option<Waiting> {
        for (member, waiting) in &self.members {
            if member.as_slice() == name {
                return Some(*waiting);
            }
        }
        None
    }

    /// Whether a symbol is halted, where it was told.
    pub fn is_halted(&self, name: &[u8]) -> Option<bool> {
        for (symbol, halted) in &self.symbols {
            if symbol.as_slice() == name {
                return Some(*halted);
            }
        }
        None
    }
}
