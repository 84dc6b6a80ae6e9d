//! Copies of ids that take no memory.
use std::alloc::{AllocError, Global};
use std::marker::Model;
use venue_words::limits::MAX_ID_BYTES;
use venue_words::{Id, SHORT_ID_BYTES};

/// So many copies of ids that take no memory. That of a short id lies in its value; for longer ones there are buffers, made
/// ahead, but only once longer ones are allowed. Contracts see how many copies, and of how many bytes.
#[derive(Drop)]
pub struct IdCopies {
    buffers: Vec<Box<Vec<u8>>>,
    count: usize,
    long: bool,
}

impl Model for IdCopies {
    ghost use Rattle.std.specs.Prelude.{◌≡◌, ◌≤◌, true, All};
    ghost use Rattle.std.specs.Vec.{vec_len};
    ghost use Rattle.symbol_book.specs.Buffers.{IdRoom, IsIdBuffer, longest_id};

    ghost Value = { IdRoom };

    ghost view = { λ b. record { count = b.count; longest = longest_id b.long } };

    ghost invariant = { λ b. All IsIdBuffer b.buffers.items × (b.long ≡ true → b.count ≤ vec_len b.buffers) };
}

impl IdCopies {
    ghost use Rattle.std.specs.Prelude.{◌≡◌, ◌+◌, ◌<◌, ◌≤◌, OnOk, length};
    ghost use Rattle.venue_words.specs.declared.id.TheConstants.{SHORT_ID_BYTES};
    ghost use Rattle.venue_words.specs.declared.limits.TheConstants.{MAX_ID_BYTES};

    /// No copies, and of short ids alone.
    pub fn new(alloc: Global) -> IdCopies
        ensures none { result.count ≡ 0 }
        ensures short { result.longest ≡ SHORT_ID_BYTES }
    {
        IdCopies {
            buffers: Vec::new(alloc),
            count: 0,
            long: false,
        }
    }

    /// Allows for ids of so many bytes, before any copy is counted.
    pub fn allow(&mut self, bytes: usize)
        requires { bytes ≤ MAX_ID_BYTES }
        ensures longest { bytes ≤ self.new.longest }
        ensures grown { self.old.longest ≤ self.new.longest }
    {
        if SHORT_ID_BYTES < bytes {
            self.long = true;
            self.count = 0;
        }
    }

    /// Makes buffers until so many copies can be made.
    pub fn fill(&mut self, alloc: Global, count: usize) -> Result<(), AllocError>
        ensures ok { OnOk result (count ≤ self.new.count) }
        ensures longest { self.new.longest ≡ self.old.longest }
    {
        if self.long {
            while self.buffers.len() < count {
                let buffer = Vec::with_capacity(alloc, MAX_ID_BYTES)?;
                let buffer = Box::new(alloc, buffer)?;
                self.buffers.push(buffer)?;
            }
        }
        self.count = count;
        Ok(())
    }

    /// A copy of an id.
    pub fn copy(&mut self, id: &Id) -> Id
        requires some { 0 < self.old.count }
        requires short { length id.now ≤ self.old.longest }
        ensures copy { result ≡ id.now }
        ensures one { self.new.count + 1 ≡ self.old.count }
        ensures longest { self.new.longest ≡ self.old.longest }
    {
        self.count -= 1;
        let bytes = id.as_slice();
        if !self.long || bytes.len() <= SHORT_ID_BYTES {
            return Id::short(bytes);
        }
        let Some(mut buffer) = self.buffers.pop() else {
            unreachable!()
        };
        match buffer.extend_from_slice(bytes) {
            Ok(()) => Id::on_heap(buffer),
            Err(_) => unreachable!(),
        }
    }
}
