//! The words of an input, and what stands in them.
use fix_fields::{moment, number};
use script_text::words::words_of;
use std::alloc::{AllocError, Global};
use venue_words::Id;

/// The words of an input, of which some are `NAME=VALUE`.
#[derive(Drop)]
pub struct Words<'a> {
    pub alloc: Global,
    pub list: Vec<&'a [u8]>,
}

impl<'a> Words<'a> {
    pub fn new(alloc: Global, input: &'a [u8]) -> Result<Words<'a>, AllocError> {
        let list = words_of(alloc, input)?;
        Ok(Words { alloc, list })
    }

    /// The word at a place, which is empty where there are fewer.
    pub fn at(&self, place: usize) -> &'a [u8] {
        match self.list.get(place) {
            Some(word) => *word,
            None => &[],
        }
    }

    /// Whether a word is there.
    pub fn has(&self, name: &[u8]) -> bool {
        self.list.iter().any(|word| *word == name)
    }

    /// The value of a name.
    pub fn value(&self, name: &[u8]) -> Option<&'a [u8]> {
        for word in self.list.as_slice() {
            if word.len() > name.len() && word[name.len()] == b'=' && word.starts_with(name) {
                return Some(&word[name.len() + 1..]);
            }
        }
        None
    }

    /// The number that a name has.
    pub fn number(&self, name: &[u8]) -> Option<u32> {
        number(self.value(name)?)
    }

    /// The one byte that a name has, and else 0.
    pub fn byte(&self, name: &[u8]) -> u8 {
        match self.value(name) {
            Some(value) if value.len() == 1 => value[0],
            _ => 0,
        }
    }

    /// The moment that a name has.
    pub fn moment(&self, name: &[u8]) -> Option<i64> {
        moment(self.value(name)?)
    }

    /// The id that a name has.
    pub fn id(&self, name: &[u8]) -> Result<Id, AllocError> {
        Id::copy_of(self.alloc, self.value(name).unwrap_or(&[]))
    }
}
