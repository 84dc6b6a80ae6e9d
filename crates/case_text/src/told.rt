//! A line with what came of it.
use script_text::escape;
use std::alloc::{AllocError, Global};
use std::fmt::{Debug, Display};
use venue_words::{Bytes, NoMemory};

/// The most bytes that are shown whole.
const MAX_SHOWN: usize = 1000;

/// How many bytes of more than that are shown at each end.
const SHOWN_END: usize = 24;

/// A line of input and what was told of it so far.
#[derive(Drop)]
pub struct Told {
    pub alloc: Global,
    pub text: String,
    /// Something is missing in the text, since memory was wanted.
    pub is_short: bool,
}

impl Told {
    /// A line of which nothing was told.
    pub fn new(alloc: Global, line: &str) -> Result<Told, AllocError> {
        Ok(Told {
            alloc,
            text: String::from_str(alloc, line)?,
            is_short: false,
        })
    }

    fn note(&mut self, pushed: Result<(), AllocError>) {
        if pushed.is_err() {
            self.is_short = true;
        }
    }

    /// Tells a text where the last one ended.
    pub fn push(&mut self, text: &str) {
        let pushed = self.text.push_str(text);
        self.note(pushed);
    }

    /// Tells a value where the last text ended.
    pub fn show<V: Display>(&mut self, value: &V) {
        let pushed = write!(self.text, "{value}");
        self.note(pushed);
    }

    /// Tells a word as the answer.
    pub fn word(&mut self, word: &str) {
        self.push(" = ");
        self.push(word);
    }

    /// Tells a value as the answer.
    pub fn value<V: Display>(&mut self, value: &V) {
        self.push(" = ");
        self.show(value);
    }

    /// Tells a value as the answer, or that there is none.
    pub fn maybe<V: Display>(&mut self, value: &Option<V>) {
        match value {
            Some(value) => self.value(value),
            None => self.word("none"),
        }
    }

    /// Tells a value as the answer, as it is written in code.
    pub fn code<V: Debug>(&mut self, value: &V) {
        let pushed = write!(self.text, " = {value:?}");
        self.note(pushed);
    }

    fn escaped(&self, bytes: &[u8]) -> Result<String, NoMemory> {
        let text = escape(self.alloc, bytes)?;
        Ok(String::from_utf8_lossy(self.alloc, text.as_slice())?)
    }

    /// Tells bytes as text where the last one ended.
    pub fn bytes(&mut self, bytes: &[u8]) {
        match self.escaped(bytes) {
            Ok(text) => self.push(text.as_str()),
            Err(_) => self.is_short = true,
        }
    }

    /// Tells bytes as text on a line of their own, and of many only those at the ends, and how many there are.
    pub fn line(&mut self, bytes: &[u8]) {
        self.push("\n  ");
        let count = bytes.len();
        if count <= MAX_SHOWN {
            return self.bytes(bytes);
        }
        self.bytes(&bytes[..SHOWN_END]);
        self.push(" .. ");
        self.show(&count);
        self.push(" bytes .. ");
        self.bytes(&bytes[count - SHOWN_END..]);
    }

    /// Tells each of these on a line of its own.
    pub fn lines(&mut self, list: &[Bytes]) {
        for bytes in list {
            self.line(bytes.as_slice());
        }
    }
}
