//! Ids of orders.
ghost use Rattle.std.specs.Prelude.{◌≡◌, ◌≤◌, IfOk, length, nat_eq};
ghost use Rattle.std.specs.Cmp.{partial_equiv_from_equiv};
ghost use Rattle.std.specs.Cmp.Lexicographic.{pointwise, nat_list_eq_equiv};

use std::alloc::{AllocError, Global};
use std::fmt;
use std::marker::Model;
use std::mem::size_of;

/// The most bytes of an id that lie in its value.
pub const SHORT_ID_BYTES: usize = 22;

/// A ClOrdID(11), as its member wrote it. Contracts see it as the list of its bytes. One of at most 22 bytes lies in the value
/// itself, so that a copy of it takes no memory.
pub struct Id(Kept);

// Written out, so that crates above let go of one by this theorem, and not part by part.
impl Drop for Id {
    fn drop(self) {
        let Id(_) = self;
    }
}

/// Where the bytes of an id are.
#[derive(Drop)]
enum Kept {
    Short([u8; SHORT_ID_BYTES], u8),
    Long(Box<Vec<u8>>),
}

const _: () = prove!(size_of::<Id>() == 24);

impl Model for Id {
    ghost use Rattle.std.specs.Prelude.{List, ℕ};
    ghost use Rattle.venue_words.specs.Ids.{bytes_kept, IsKept};

    ghost Value = { List ℕ };

    ghost view = { λ id. bytes_kept id.0 };

    ghost invariant = { λ id. IsKept id.0 };
}

impl Id {
    ghost use Rattle.venue_words.specs.declared.id.TheConstants.{SHORT_ID_BYTES};

    /// An id of few bytes. It takes no memory.
    pub fn short(bytes: &[u8]) -> Id
        requires { length bytes.now ≤ SHORT_ID_BYTES }
        ensures { result ≡ bytes.now }
    {
        let mut kept = [0; SHORT_ID_BYTES];
        kept[..bytes.len()].copy_from_slice(bytes);
        Id(Kept::Short(kept, bytes.len() as u8))
    }

    /// An id whose bytes lie on the heap.
    pub fn on_heap(bytes: Box<Vec<u8>>) -> Id
        ensures { result ≡ bytes.value.items }
    {
        Id(Kept::Long(bytes))
    }

    /// A copy of a slice.
    pub fn copy_of(alloc: Global, bytes: &[u8]) -> Result<Id, AllocError>
        ensures { IfOk result (λ copy. copy ≡ bytes.now) }
    {
        if bytes.len() <= SHORT_ID_BYTES {
            Ok(Id::short(bytes))
        } else {
            let kept = Vec::from_slice(alloc, bytes)?;
            Ok(Id::on_heap(Box::new(alloc, kept)?))
        }
    }

    /// The same id once more.
    pub fn copy(&self, alloc: Global) -> Result<Id, AllocError>
        ensures { IfOk result (λ copy. copy ≡ self.now) }
    {
        match &self.0 {
            Kept::Short(bytes, len) => Ok(Id(Kept::Short(*bytes, *len))),
            Kept::Long(bytes) => {
                let kept = Vec::from_slice(alloc, bytes.as_slice())?;
                Ok(Id::on_heap(Box::new(alloc, kept)?))
            }
        }
    }

    /// The bytes.
    #[inline]
    pub fn as_slice(&self) -> &[u8]
        ensures { result.now ≡ self.now }
    {
        match &self.0 {
            Kept::Short(bytes, len) => &bytes[..usize::from(*len)],
            Kept::Long(bytes) => bytes.as_slice(),
        }
    }
}

/// An id on the heap, so that a command is small. Contracts see the id.
#[derive(Debug)]
pub struct BoxedId(Box<Id>);

// Written out, so that crates above let go of one by this theorem, and not part by part.
impl Drop for BoxedId {
    fn drop(self) {
        let BoxedId(_) = self;
    }
}

impl Model for BoxedId {
    ghost use Rattle.std.specs.Prelude.{List, ℕ};

    ghost Value = { List ℕ };

    ghost view = { λ b. b.0.value };
}

impl BoxedId {
    /// This id, on the heap.
    pub fn new(alloc: Global, id: Id) -> Result<BoxedId, AllocError>
        ensures { IfOk result (λ boxed. boxed ≡ id) }
    {
        Ok(BoxedId(Box::new(alloc, id)?))
    }

    /// The same id once more, on the heap too.
    pub fn copy(&self, alloc: Global) -> Result<BoxedId, AllocError>
        ensures { IfOk result (λ copy. copy ≡ self.now) }
    {
        BoxedId::new(alloc, self.0.copy(alloc)?)
    }

    /// The id.
    pub fn get(&self) -> &Id
        ensures { result.now ≡ self.now }
    {
        self.0.as_ref()
    }
}

impl PartialEq for Id {
    ghost eq = { pointwise nat_eq };

    ghost laws = { partial_equiv_from_equiv nat_list_eq_equiv };

    fn eq(&self, other: &Id) -> bool {
        self.as_slice() == other.as_slice()
    }
}

impl Eq for Id {
    ghost laws = { nat_list_eq_equiv };
}

impl fmt::Debug for Id {
    fn fmt<W: fmt::Write>(&self, f: &mut fmt::Formatter<W>) -> fmt::Result {
        f.debug_list().entries(self.as_slice()).finish()
    }
}
