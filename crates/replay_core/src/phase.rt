//! Header or body: which machine works the next line.
ghost use Rattle.std.specs.Prelude.{◌≡◌, ◌≤◌, ◌+◌, [], Err, IfErr, OnOk, length};
ghost use Rattle.venue_words.specs.Conditions.{IsConfig};
ghost use Rattle.venue_words.specs.declared.limits.TheConstants.{MAX_LINE_BYTES};
ghost use Rattle.script_text.specs.Header.{blank};
ghost use Rattle.script_text.specs.declared.fault.LineFault.{LineFault};
ghost use Rattle.replay_core.specs.Meets.{MeetsInPlace};
ghost use Rattle.replay_core.specs.Play.{Stage, Head, Body, turned};
ghost use Rattle.replay_core.specs.Phases.{IsAtFault, IsAtStage, IsReady};
ghost use Rattle.replay_core.specs.Playing.{before_body};

use crate::plain_floor::PlainFloor;
use crate::player::Player;
use script_text::{Header, LineFault};
use std::alloc::Global;
use std::mem::replace;
use std::sync::ledger::Ledger;
use venue_words::{Config, Steps};

/// Whether a script is in its header or behind it, or was refused in its header.
#[derive(Drop)]
pub enum Phase<F: PlainFloor> {
    Head(Header),
    Body(Player<F>),
    Refused(LineFault),
}

/// A script begins: its header is read from the first line on.
pub(crate) fn begin_anew<F: PlainFloor>(alloc: Global, phase: &mut Phase<F>)
    ensures stage { IsAtStage F.at phase.new (Head blank) }
    ensures ready { IsReady phase.new }
{
    drop(replace(phase, Phase::Head(Header::new(alloc))));
}

/// The body begins behind a header that says this config. It stands apart, so that a line of the body does not clear what is
/// kept here on the stack.
#[inline(never)]
fn begin_body<F: PlainFloor>(
    alloc: Global,
    phase: &mut Phase<F>,
    config: Config,
) -> Result<(), LineFault>
    requires { IsConfig config }
    ensures stage { OnOk result (IsAtStage F.at phase.new (Body (before_body config))) }
    ensures fault { IfErr result (IsAtFault phase.new) }
    ensures memory { IfErr result (λ fault. fault ≡ LineFault.NoMemory) }
    ensures ready { IsReady phase.new }
{
    match Player::new(alloc, config) {
        Ok(player) => {
            drop(replace(phase, Phase::Body(player)));
            Ok(())
        }
        Err(_) => {
            drop(replace(phase, Phase::Refused(LineFault::NoMemory)));
            Err(LineFault::NoMemory)
        }
    }
}

/// Works a line, of this number and without its LF, and gives its output. After a fault the phase stands at that fault, and
/// every later line is answered with it.
pub fn turn<F: PlainFloor, L: Ledger>(
    alloc: Global,
    phase: &mut Phase<F>,
    line: u32,
    text: &[u8],
    out: &mut Vec<u8>,
    steps: &mut Steps<L>,
) -> Result<(), LineFault>
    requires ready { IsReady phase.old }
    requires short { length text.now ≤ MAX_LINE_BYTES }
    requires empty { out.old.items ≡ [] }
    ensures answer { (stage : Stage) → IsAtStage F.at phase.old stage
        → MeetsInPlace (IsAtStage F.at) (turned line stage text.now).result result phase.new out.new.items }
    ensures steps { (stage : Stage) → IsAtStage F.at phase.old stage
        → steps.new ≤ steps.old + (turned line stage text.now).steps }
    ensures ready { IsReady phase.new }

    // A fault is not forgotten.
    ensures fault { IfErr result (IsAtFault phase.new) }
    ensures again { (fault : LineFault) → IsAtFault phase.old fault → result ≡ Err fault }
    ensures quiet { (fault : LineFault) → IsAtFault phase.old fault → (out.new.items ≡ []) × (steps.new ≡ steps.old) }
{
    match phase {
        Phase::Head(header) => match header.line(alloc, line, text) {
            Ok(false) => Ok(()),
            Ok(true) => {
                let whole = replace(header, Header::new(alloc));
                begin_body(alloc, phase, whole.config)
            }
            Err(fault) => {
                drop(replace(phase, Phase::Refused(fault)));
                Err(fault)
            }
        },
        Phase::Body(player) => player.line(line, text, out, steps),
        Phase::Refused(fault) => Err(*fault),
    }
}
