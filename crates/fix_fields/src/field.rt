//! Fields, and why bytes are no list of them.
ghost use Rattle.std.specs.Prelude.{◌≡◌};

use std::alloc::{AllocError, AllocFailed};
use std::fmt;
use std::marker::Model;

/// A field of a message: its tag, from 1 to 99,999, and the bytes of its value, where they stand in the frame.
/// Contracts see it as the tag and the list of the bytes.
#[derive(Debug, Drop)]
pub struct Field<'a> {
    pub tag: u32,
    pub bytes: &'a [u8],
}

impl<'a> Model for Field<'a> {
    ghost use Rattle.fix_fields.specs.Field.{Field};

    ghost Value = { Field };

    ghost view = { λ f. record { tag = f.tag; bytes = f.bytes.now } };
}

/// Why bytes are no list of fields. The place `at` is that of the field's first byte, counted from 0.
#[derive(Clone, Copy, Debug, PartialEq, Eq, Drop)]
pub enum FieldFault {
    /// No `=` stands before the SOH that ends the field.
    NoEquals { at: u32 },
    /// What stands before `=` is no tag.
    BadTag { at: u32 },
    /// No SOH ends the field.
    NoEnd { at: u32 },
    /// The length in a field 95 or 354 is no number, and `at` is that field's place; or the field 96 or 355 with
    /// so many bytes does not stand behind it, and `at` is the place where it should begin.
    DataShort { at: u32 },
    NoMemory,
}

impl FieldFault {
    ghost use Rattle.fix_fields.specs.Faults.{fault_text};

    /// What is wrong with the bytes, in words.
    #[tactic(auto, unfolding(crate::specs::Faults::fault_text))]
    pub fn text(self) -> &'static str
        ensures { result.now ≡ fault_text self }
    {
        match self {
            FieldFault::NoEquals { .. } => "a field has no =",
            FieldFault::BadTag { .. } => "what stands before an = is no tag",
            FieldFault::NoEnd { .. } => "the last field does not end",
            FieldFault::DataShort { .. } => "a field of data is shorter than its length field says",
            FieldFault::NoMemory => "out of memory",
        }
    }
}

impl fmt::Display for FieldFault {
    ghost use Rattle.std.specs.Prelude.{Some};
    ghost use Rattle.fix_fields.specs.Faults.{fault_text};

    ghost output = { λ fault. Some (fault_text fault) };

    fn fmt<W: fmt::Write>(&self, f: &mut fmt::Formatter<W>) -> fmt::Result {
        f.write_str(self.text())
    }
}

impl From<AllocError> for FieldFault {
    ghost use Rattle.fix_fields.specs.declared.field.FieldFault.TheVariants.{NoMemory};

    ghost from_gives = { λ _ fault. fault ≡ NoMemory };

    fn from(_error: AllocError) -> FieldFault {
        FieldFault::NoMemory
    }
}

impl<T: Drop> From<AllocFailed<T>> for FieldFault {
    ghost use Rattle.fix_fields.specs.declared.field.FieldFault.TheVariants.{NoMemory};

    ghost from_gives = { λ _ fault. fault ≡ NoMemory };

    fn from(_error: AllocFailed<T>) -> FieldFault {
        FieldFault::NoMemory
    }
}
