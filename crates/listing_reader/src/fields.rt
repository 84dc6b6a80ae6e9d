//! The fields of what a member asked.
ghost use Rattle.std.specs.Prelude.{◌≡◌, IfOk};
ghost use Rattle.listing_reader.specs.Told.{fields_of, told_bytes};

use fix_fields::{Field, FieldFault, fields};
use script_text::unescape;
use std::alloc::Global;
use venue_words::NoMemory;
use venue_words::limits::MAX_FRAME_BYTES;

/// The fields that bytes spell, or none.
#[tactic(auto, unfolding(crate::specs::Told::fields_of))]
pub fn fields_of(alloc: Global, bytes: &[u8]) -> Result<Vec<Field<'_>>, NoMemory>
    ensures { IfOk result (λ found. found.items ≡ fields_of bytes.now) }
{
    if bytes.len() > MAX_FRAME_BYTES {
        return Ok(Vec::new(alloc));
    }
    match fields(alloc, bytes) {
        Ok(found) => Ok(found),
        Err(FieldFault::NoMemory) => Err(NoMemory),
        Err(_) => Ok(Vec::new(alloc)),
    }
}

/// The bytes that a text stands for, or none.
pub fn told_bytes(alloc: Global, text: &[u8]) -> Result<Vec<u8>, NoMemory>
    ensures { IfOk result (λ bytes. bytes.items ≡ told_bytes text.now) }
{
    match unescape(alloc, text)? {
        Some(bytes) => Ok(bytes),
        None => Ok(Vec::new(alloc)),
    }
}
