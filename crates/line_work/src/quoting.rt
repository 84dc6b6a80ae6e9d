//! A quote goes to a floor.
ghost use Rattle.std.specs.Prelude.{◌≡◌, ◌<◌, ◌∷◌, [], true, length, OnOk, IfErr};
ghost use Rattle.venue_words.specs.Conditions.{fits_limits};
ghost use Rattle.venue_words.specs.Floors.{is_configured};
ghost use Rattle.member_gate.specs.Submitting.{TookAll, TookNone};

use member_gate::DeskRefusal;
use std::sync::ledger::Ledger;
use venue_words::{Command, Floor, FloorRefusal, Steps};

/// Submits a command of a feed.
pub fn submit<F: Floor, L: Ledger>(
    floor: &mut F,
    feed: u32,
    moment: i64,
    symbol: u32,
    command: &Command,
    steps: &mut Steps<L>,
) -> Result<(), DeskRefusal>
    requires symbol { symbol < length (F.mark floor.old).setup.limits }
    requires configured { is_configured (F.mark floor.old).setup command.now ≡ true }
    requires limits { fits_limits command.now ≡ true }
    ensures mark { F.mark floor.new ≡ F.mark floor.old }
    ensures took { OnOk result (TookAll F.at F.step_limit (F.mark floor.old) feed moment
        (record { symbol = symbol; command = command.now } ∷ []) (floor.old, steps.old) (floor.new, steps.new)) }
    ensures none { IfErr result (λ refusal. TookNone F.at F.step_limit (F.mark floor.old) feed moment
        refusal (record { symbol = symbol; command = command.now } ∷ []) (floor.old, steps.old) (floor.new, steps.new)) }
{
    match floor.submit(symbol, feed, moment, command, steps) {
        Ok(_) => Ok(()),
        Err(FloorRefusal::Full { found }) => Err(DeskRefusal::Full { symbol, found }),
        Err(FloorRefusal::NoMemory) => Err(DeskRefusal::NoMemory),
    }
}
