//! What goes out behind a line.
ghost use Rattle.std.specs.Prelude.{◌≡◌, ◌<◌, ◌++◌, ℕ, List, length, map, OnOk};
ghost use Rattle.std.specs.List.{AllZip, flat_map};
ghost use Rattle.venue_words.specs.declared.command.Event.{Event};
ghost use Rattle.venue_words.specs.Floors.{IsSetUpFor};
ghost use Rattle.member_gate.specs.Reporting.{AreFronts};
ghost use Rattle.member_gate.specs.Submitting.{Waited};
ghost use Rattle.replay_core.specs.News.{row_at, IsAsked, PulledIf};
ghost use Rattle.replay_core.specs.PlainFloor.{IsPlain, ShowsJournals};
ghost use Rattle.replay_core.specs.Playing.{Member};
ghost use Rattle.replay_core.specs.Pulling.{pulled, pull_lines, ShowsFronts};
ghost use Rattle.replay_core.specs.Stages.{IsDeskOfMember};

use crate::news::News;
use crate::plain_floor::PlainFloor;
use line_work::LineWorker;
use member_gate::Awaited;
use venue_words::{Floor, NoMemory};

/// Pulls a member's reports that were not sent yet, of the symbols at which he is asked, and appends what is sent.
fn pull_noted<F: Floor>(
    worker: &mut LineWorker,
    floor: &mut F,
    news: &News,
    member: u32,
    out: &mut Vec<u8>,
) -> Result<(), NoMemory>
    requires setup { IsSetUpFor worker.old.config (F.mark floor.old).setup }
    requires member { member < length worker.old.config.members }
    requires fronts { AreFronts (length worker.old.config.symbols) (λ symbol. (F.at floor.old symbol).reports) news.now.fronts.items }
    ensures pulled { OnOk result (PulledIf worker.old.config worker.old.moment (row_at news.now.asked.items member)
        (λ symbol. (F.at floor.new symbol).reports) member worker.old.desks worker.new.desks out.old.items out.new.items) }

    // What stays.
    ensures mark { F.mark floor.new ≡ F.mark floor.old }
    ensures waited { (symbol : ℕ) → Waited (F.at floor.old symbol) (F.at floor.new symbol) }
    ensures config { worker.new.config ≡ worker.old.config }
    ensures moment { worker.new.moment ≡ worker.old.moment }
{
    if !news.is_noted(member) {
        return Ok(());
    }
    let awaited = Awaited {
        fronts: news.fronts(),
        asked: news.asked(member),
    };
    worker.pull_news(floor, member, awaited, out)
}

/// Pulls the members' reports that were not sent yet, in the members' order, each of the symbols at which he is asked, and
/// appends what is sent. At the others nothing waits for him.
pub fn pull_all<F: PlainFloor>(
    worker: &mut LineWorker,
    floor: &mut F,
    news: &News,
    out: &mut Vec<u8>,
) -> Result<(), NoMemory>
    requires plain { IsPlain F.mark F.at F.step_limit F.state worker.old.config (F.mark floor.old) }
    requires fronts { ShowsFronts F.at worker.old.config floor.old news.now.fronts.items }
    ensures desks { OnOk result ((journals : List (List Event)) (members : List Member)
        → ShowsJournals F.at worker.old.config floor.old journals
        → AllZip (IsAsked news.now.asked.items worker.old.config journals) worker.old.desks members
        → AllZip (IsDeskOfMember worker.old.config journals) worker.new.desks
        (map (pulled worker.old.config worker.old.moment journals) members)) }
    ensures text { OnOk result ((journals : List (List Event)) (members : List Member)
        → ShowsJournals F.at worker.old.config floor.old journals
        → AllZip (IsAsked news.now.asked.items worker.old.config journals) worker.old.desks members
        → out.new.items ≡ out.old.items ++ flat_map (pull_lines worker.old.config worker.old.moment journals) members) }

    // What stays.
    ensures config { worker.new.config ≡ worker.old.config }
    ensures moment { worker.new.moment ≡ worker.old.moment }
    ensures mark { F.mark floor.new ≡ F.mark floor.old }
    ensures journals { (journals : List (List Event)) → ShowsJournals F.at worker.old.config floor.old journals
        → ShowsJournals F.at worker.old.config floor.new journals }
    ensures shown { OnOk result (ShowsFronts F.at worker.old.config floor.new news.now.fronts.items) }
{
    let count = worker.config().members.len() as u32;
    for member in 0..count {
        pull_noted(worker, floor, news, member, out)?;
    }
    Ok(())
}
