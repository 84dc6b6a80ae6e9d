//! The names of members and symbols.
ghost use Rattle.std.specs.Prelude.{◌≡◌};
ghost use Rattle.member_gate.specs.Answering.{name_at};

use venue_words::Bytes;

/// The name at a place, or nothing behind the last.
pub fn name_at(names: &[Bytes], place: u32) -> &[u8]
    ensures { result.now ≡ name_at names.now place }
{
    match names.get(place as usize) {
        Some(name) => name.as_slice(),
        None => &[],
    }
}
