//! A member's reports go out.
ghost use Rattle.std.specs.Prelude.{◌≡◌, ◌<◌, ◌≤◌, ℕ, ◌++◌, length, OnOk};
ghost use Rattle.venue_words.specs.Conditions.{IsConfig};
ghost use Rattle.venue_words.specs.Floors.{IsSetUpFor};
ghost use Rattle.member_gate.specs.Answering.{name_at};
ghost use Rattle.member_gate.specs.Pulling.{reports_sent};
ghost use Rattle.member_gate.specs.Reporting.{asked_reports, AreFronts};
ghost use Rattle.member_gate.specs.Submitting.{Waited};
ghost use Rattle.line_work.specs.Output.{frame_lines};
ghost use Rattle.line_work.specs.Pulling.{IsPulled};

use crate::output::{name_at, push_frames};
use crate::source::Source;
use member_gate::{Awaited, Desk};
use venue_words::{Floor, NoMemory};

/// Pulls a member's reports that were not sent yet, of the symbols that are asked, and appends what is sent.
pub fn pull_desk<F: Floor>(
    source: Source<'_>,
    floor: &mut F,
    desk: &mut Desk,
    awaited: Awaited<'_>,
    out: &mut Vec<u8>,
) -> Result<(), NoMemory>
    requires config { IsConfig source.config.now }
    requires setup { IsSetUpFor source.config.now (F.mark floor.old).setup }
    requires own { desk.old.member ≡ source.member }
    requires member { source.member < length source.config.now.members }
    requires awaited { AreFronts (length source.config.now.symbols) (λ symbol. (F.at floor.old symbol).reports) awaited.fronts.now }
    ensures desk { OnOk result (IsPulled source.entry.config.now source.entry.moment awaited.entry.asked.now
        (λ symbol. (F.at floor.new symbol).reports) desk.old desk.new) }
    ensures text { OnOk result (out.new.items ≡ out.old.items ++ frame_lines
        (name_at source.entry.config.now.members source.entry.member)
        (reports_sent source.entry.config.now source.entry.moment
        (asked_reports awaited.entry.asked.now (λ symbol. (F.at floor.new symbol).reports)) desk.old).turn.replies) }
    ensures member { desk.new.member ≡ desk.old.member }
    ensures mark { F.mark floor.new ≡ F.mark floor.old }
    ensures waited { (symbol : ℕ) → Waited (F.at floor.old symbol) (F.at floor.new symbol) }
    ensures others { (symbol : ℕ) → length source.entry.config.now.symbols ≤ symbol
        → F.at floor.new symbol ≡ F.at floor.old symbol }
{
    let frames = desk.pull_news(floor, source.config, awaited, source.moment)?;
    let name = name_at(source.config.members.as_slice(), source.member as usize);
    push_frames(out, name, frames.as_slice())
}
