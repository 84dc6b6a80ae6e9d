//! A line's own work, and whose session may have come up at it.
ghost use Rattle.std.specs.Prelude.{◌≡◌, ◌++◌, ℕ, Some, None, map, slice_get, IfOk, IfErr, OnOk};
ghost use Rattle.std.specs.List.{AllZip};
ghost use Rattle.venue_words.specs.Floors.{IsSetUpFor};
ghost use Rattle.session_core.specs.Machine.{IsUp};
ghost use Rattle.member_gate.specs.Desks.{DeskView};
ghost use Rattle.member_gate.specs.Submitting.{TookAll};
ghost use Rattle.script_text.specs.Body.{IsLineOf};
ghost use Rattle.line_work.specs.FeedState.{FeedState};
ghost use Rattle.line_work.specs.LineWork.{work_of_line};
ghost use Rattle.line_work.specs.Refusing.{TookPart};
ghost use Rattle.line_work.specs.Standing.{AreDesks, StandsFor};
ghost use Rattle.replay_core.specs.News.{own_of, KeepsDown};

use line_work::LineWorker;
use member_gate::DeskRefusal;
use script_text::Line;
use std::sync::ledger::Ledger;
use venue_words::{Floor, Steps};

/// The number of a script's one feed.
const FEED: u32 = 1;

/// The member whose piece a line is, if his session is not up.
fn own_of(worker: &LineWorker, line: &Line) -> Option<u32>
    ensures some { (member : ℕ) → result ≡ Some member → own_of line.now ≡ Some member }
    ensures none { (member : ℕ) (desk : DeskView) → result ≡ None → own_of line.now ≡ Some member
        → slice_get worker.now.desks member ≡ Some desk → IsUp desk.session }
{
    match line {
        Line::Piece { member, .. } if !worker.is_up(*member) => Some(*member),
        _ => None,
    }
}

/// Works a line that was read for the worker's config. It answers the member whose piece the line is, if it is one and his
/// session was not up before it: no other session came up. After a refusal the floor took the first of the line's commands, and
/// the worker stands at no line any more.
pub fn work_read<F: Floor, L: Ledger>(
    worker: &mut LineWorker,
    floor: &mut F,
    line: Line,
    out: &mut Vec<u8>,
    steps: &mut Steps<L>,
) -> Result<Option<u32>, DeskRefusal>
    requires line { IsLineOf worker.old.config line }
    requires setup { IsSetUpFor worker.old.config (F.mark floor.old).setup }
    ensures stands { OnOk result ((state : FeedState) → StandsFor worker.old state
        → StandsFor worker.new (work_of_line state line).state) }
    ensures text { OnOk result ((state : FeedState) → StandsFor worker.old state
        → out.new.items ≡ out.old.items ++ (work_of_line state line).text) }
    ensures took { OnOk result ((state : FeedState) → StandsFor worker.old state
        → TookAll F.at F.step_limit (F.mark floor.old) FEED (work_of_line state line).state.moment
        (work_of_line state line).submissions (floor.old, steps.old) (floor.new, steps.new)) }
    ensures own { IfOk result (λ own. (state : FeedState) → StandsFor worker.old state
        → AllZip (KeepsDown own) state.connections (work_of_line state line).state.connections) }
    ensures stopped { IfErr result (λ refusal. (state : FeedState) → StandsFor worker.old state
        → TookPart F.at F.step_limit (F.mark floor.old) FEED (work_of_line state line).state.moment refusal
        (work_of_line state line).submissions (floor.old, steps.old) (floor.new, steps.new)) }

    // There is a desk for each member.
    ensures desks { AreDesks worker.old.config worker.old.desks }

    // What stays.
    ensures mark { F.mark floor.new ≡ F.mark floor.old }
    ensures config { worker.new.config ≡ worker.old.config }
    ensures cursors { map (λ desk. desk.cursors) worker.new.desks ≡ map (λ desk. desk.cursors) worker.old.desks }
{
    // Its contract says that there is a desk for each member.
    let _config = worker.config();
    let own = own_of(worker, &line);
    match worker.work(floor, FEED, line, out, steps) {
        Ok(()) => Ok(own),
        Err(refusal) => Err(refusal),
    }
}
