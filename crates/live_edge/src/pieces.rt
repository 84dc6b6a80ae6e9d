//! The lines of members' bytes, laid into a batch.
ghost use Rattle.std.specs.Prelude.{OnOk, All};
ghost use Rattle.day_journal.specs.Log.{IsShortLine};
ghost use Rattle.ports.specs.Cuts.{IsPiece};

use live_words::{Setup, bytes_line};
use std::alloc::Global;
use venue_words::{Bytes, NoMemory};

/// Adds the `B` lines of a member's bytes.
pub(crate) fn push_pieces(
    alloc: Global,
    setup: &Setup,
    member: usize,
    pieces: &[Bytes],
    lines: &mut Vec<Bytes>,
) -> Result<(), NoMemory>
    requires pieces { All IsPiece pieces.now }
    requires short { All IsShortLine lines.old.items }
    ensures short { OnOk result (All IsShortLine lines.new.items) }
{
    if let Some(name) = setup.name(member) {
        for piece in pieces {
            lines.push(bytes_line(alloc, name, piece.as_slice())?)?;
        }
    }
    Ok(())
}
