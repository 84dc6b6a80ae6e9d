//! A piece comes on a member's stream.
ghost use Rattle.std.specs.Prelude.{◌≡◌, ◌<◌, ◌++◌, length, OnOk, IfErr};
ghost use Rattle.venue_words.specs.Conditions.{IsConfig};
ghost use Rattle.venue_words.specs.Floors.{IsSetUpFor};
ghost use Rattle.member_gate.specs.Submitting.{TookAll};
ghost use Rattle.line_work.specs.FeedState.{Connection};
ghost use Rattle.line_work.specs.LineWork.{fed, piece_lines, work_of_bytes};
ghost use Rattle.line_work.specs.Refusing.{TookPart};
ghost use Rattle.line_work.specs.Standing.{IsDeskOf};

use crate::output::{name_at, push_frames};
use crate::source::Source;
use member_gate::{Desk, DeskRefusal};
use std::sync::ledger::Ledger;
use venue_words::{Floor, Steps};

/// A member's desk takes a piece: its commands go to the floor, and what it sends is appended.
pub fn take_piece<F: Floor, L: Ledger>(
    source: Source<'_>,
    floor: &mut F,
    desk: &mut Desk,
    piece: &[u8],
    out: &mut Vec<u8>,
    steps: &mut Steps<L>,
) -> Result<(), DeskRefusal>
    requires config { IsConfig source.config.now }
    requires setup { IsSetUpFor source.config.now (F.mark floor.old).setup }
    requires own { desk.old.member ≡ source.member }
    requires member { source.member < length source.config.now.members }
    ensures desk { OnOk result ((connection : Connection) → IsDeskOf desk.old connection
        → IsDeskOf desk.new (fed source.entry.config.now source.entry.moment connection piece.now)) }
    ensures text { OnOk result ((connection : Connection) → IsDeskOf desk.old connection
        → out.new.items ≡ out.old.items ++ piece_lines source.entry.config.now source.entry.moment connection piece.now) }
    ensures took { OnOk result ((connection : Connection) → IsDeskOf desk.old connection
        → TookAll F.at F.step_limit (F.mark floor.old) source.entry.feed source.entry.moment
        (work_of_bytes source.entry.config.now source.entry.moment connection piece.now).submissions
        (floor.old, steps.old) (floor.new, steps.new)) }
    ensures stopped { IfErr result (λ refusal. (connection : Connection) → IsDeskOf desk.old connection
        → TookPart F.at F.step_limit (F.mark floor.old) source.entry.feed source.entry.moment refusal
        (work_of_bytes source.entry.config.now source.entry.moment connection piece.now).submissions
        (floor.old, steps.old) (floor.new, steps.new)) }
    ensures member { desk.new.member ≡ desk.old.member }
    ensures cursors { desk.new.cursors ≡ desk.old.cursors }
    ensures mark { F.mark floor.new ≡ F.mark floor.old }
{
    let turn = match desk.take(
        floor,
        source.config,
        source.feed,
        source.moment,
        piece,
        steps,
    ) {
        Ok(turn) => turn,
        Err(refusal) => return Err(refusal),
    };
    let name = name_at(source.config.members.as_slice(), source.member as usize);
    match push_frames(out, name, turn.replies.as_slice()) {
        Ok(()) => Ok(()),
        Err(_) => Err(DeskRefusal::NoMemory),
    }
}
