//! Names, identifiers and other texts.
ghost use Rattle.std.specs.Prelude.{◌≡◌, IfOk};

use std::alloc::{AllocError, Global};
use std::marker::Model;

/// A text or a name. Contracts see it as the list of its bytes.
#[derive(Debug)]
pub struct Bytes(pub Vec<u8>);

// Written out, so that crates above let go of one by this theorem, and not part by part.
impl Drop for Bytes {
    fn drop(self) {
        let Bytes(_) = self;
    }
}

impl Model for Bytes {
    ghost use Rattle.std.specs.Prelude.{List, ℕ};

    ghost Value = { List ℕ };

    ghost view = { λ b. b.0.items };
}

impl Bytes {
    /// The bytes.
    pub fn as_slice(&self) -> &[u8]
        ensures { result.now ≡ self.now }
    {
        self.0.as_slice()
    }

    /// A copy of a slice.
    pub fn copy_of(alloc: Global, bytes: &[u8]) -> Result<Bytes, AllocError>
        ensures { IfOk result (λ copy. copy ≡ bytes.now) }
    {
        Ok(Bytes(Vec::from_slice(alloc, bytes)?))
    }
}
