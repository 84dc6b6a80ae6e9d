//! The clock says a moment to each member.
ghost use Rattle.std.specs.Prelude.{◌≡◌, ◌<◌, ℕ, ◌++◌, List, length, map, OnOk};
ghost use Rattle.std.specs.List.{AllZip, flat_map};
ghost use Rattle.line_work.specs.FeedState.{Connection};
ghost use Rattle.line_work.specs.LineWork.{ticked, tick_lines};
ghost use Rattle.line_work.specs.Standing.{AreDesks, IsDeskOf};

use crate::output::{name_at, push_frames};
use member_gate::Desk;
use venue_words::{Config, NoMemory};

/// Ticks a desk, and appends what it sends.
fn tick_desk(
    config: &Config,
    number: usize,
    desk: &mut Desk,
    moment: i64,
    out: &mut Vec<u8>,
) -> Result<(), NoMemory>
    requires { desk.old.member ≡ number }
    ensures desk { OnOk result ((connection : Connection) → IsDeskOf desk.old connection
        → IsDeskOf desk.new (ticked moment connection)) }
    ensures text { OnOk result ((connection : Connection) → IsDeskOf desk.old connection
        → out.new.items ≡ out.old.items ++ tick_lines config.now moment connection) }
    ensures member { desk.new.member ≡ desk.old.member }
    ensures cursors { desk.new.cursors ≡ desk.old.cursors }
{
    let turn = desk.tick(moment)?;
    let name = name_at(config.members.as_slice(), number);
    push_frames(out, name, turn.replies.as_slice())
}

/// Ticks all desks in their order, and appends what they send.
pub fn tick_all(
    config: &Config,
    desks: &mut [Desk],
    moment: i64,
    out: &mut Vec<u8>,
) -> Result<(), NoMemory>
    requires { AreDesks config.now desks.old }
    ensures desks { OnOk result ((connections : List Connection) → AllZip IsDeskOf desks.old connections
        → AllZip IsDeskOf desks.new (map (ticked moment) connections)) }
    ensures text { OnOk result ((connections : List Connection) → AllZip IsDeskOf desks.old connections
        → out.new.items ≡ out.old.items ++ flat_map (tick_lines config.now moment) connections) }
    ensures numbers { map (λ desk. desk.member) desks.new ≡ map (λ desk. desk.member) desks.old }
    ensures cursors { map (λ desk. desk.cursors) desks.new ≡ map (λ desk. desk.cursors) desks.old }
{
    let count = desks.len();
    for number in 0..count {
        let desk = &mut desks[number];
        tick_desk(config, number, desk, moment, out)?;
    }
    Ok(())
}
