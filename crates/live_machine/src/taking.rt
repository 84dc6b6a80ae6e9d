//! A line is taken, or refused and nothing is changed.
ghost use Rattle.std.specs.Prelude.{◌≡◌, ◌≢◌, ◌≤◌, ◌+◌, [], false, Err, IfOk, length};
ghost use Rattle.venue_words.specs.declared.limits.TheConstants.{MAX_LINE_BYTES, MAX_SCRIPT_BYTES};
ghost use Rattle.script_text.specs.Lines.{has_end};
ghost use Rattle.script_text.specs.declared.fault.LineFault.{LineFault};
ghost use Rattle.replay_core.specs.Phases.{IsAtStage, IsReady};
ghost use Rattle.replay_core.specs.Play.{Stage, turned};
ghost use Rattle.replay_core.specs.PlayLine.{play_line};
ghost use Rattle.replay_core.specs.Playing.{Playing};
ghost use Rattle.replay_core.specs.Stages.{StandsFor};
ghost use Rattle.live_core.specs.declared.machine.Halt.TheVariants.{Halted};
ghost use Rattle.live_machine.specs.Taking.{fits, IsRefused, TakesLine};

use live_core::Halt;
use replay_core::phase::{Phase, turn};
use replay_core::{PlainFloor, Player};
use script_text::{LineFault, first_end};
use std::alloc::Global;
use std::sync::ledger::Ledger;
use venue_words::Steps;
use venue_words::limits::{MAX_LINE_BYTES, MAX_SCRIPT_BYTES};

/// Whether a line holds an LF.
fn has_end(text: &[u8]) -> bool
    ensures { result ≡ has_end text.now }
{
    match first_end(text) {
        Some(_) => true,
        None => false,
    }
}

/// How a machine halts at a line that it can't work to its end.
fn halt_of(fault: LineFault) -> Halt
    ensures { result ≡ Halted → fault ≢ LineFault.NoMemory }
{
    match fault {
        LineFault::NoMemory => Halt::NoMemory,
        _ => Halt::Halted,
    }
}

/// Whether a line may stand after so many bytes of a script: it is not too long, keeps to the limit on all bytes, and holds no LF.
pub(crate) fn fits(before: u64, text: &[u8]) -> bool
    requires { before ≤ MAX_SCRIPT_BYTES }
    ensures { result ≡ fits before text.now }
{
    text.len() <= MAX_LINE_BYTES
        && before + text.len() as u64 + 1 <= MAX_SCRIPT_BYTES
        && !has_end(text)
}

/// What comes of a line that can't be read: it is refused, unless memory ran out.
fn unread(fault: LineFault) -> Result<bool, Halt>
    ensures refused { IfOk result (λ taken. (taken ≡ false) × (fault ≢ LineFault.NoMemory)) }
    ensures no_halt { result ≢ Err Halted }
{
    match fault {
        LineFault::NoMemory => Err(Halt::NoMemory),
        _ => Ok(false),
    }
}

/// Takes a line of a body, of this number, and gives its output. It is read first, so that one outside the grammar changes
/// nothing; one that asks for an event too many has taken part by then, and halts.
fn take_in_body<F: PlainFloor, L: Ledger>(
    player: &mut Player<F>,
    line: u32,
    text: &[u8],
    out: &mut Vec<u8>,
    steps: &mut Steps<L>,
) -> Result<bool, Halt>
    requires { out.old.items ≡ [] }
    ensures taken { IfOk result (λ taken. (playing : Playing) → StandsFor F.at player.old playing
        → TakesLine (StandsFor F.at) (play_line line playing text.now).result playing player.new out.new.items taken) }
    ensures halted { result ≡ Err Halted → (playing : Playing) → StandsFor F.at player.old playing → IsRefused (play_line line playing text.now).result }
    ensures steps { (playing : Playing) → StandsFor F.at player.old playing
        → steps.new ≤ steps.old + (play_line line playing text.now).steps }
{
    let read = match player.read(text) {
        Ok(read) => read,
        Err(fault) => return unread(fault),
    };
    match player.work(line, read, out, steps) {
        Ok(()) => Ok(true),
        Err(stop) => Err(halt_of(stop)),
    }
}

/// Takes a line at a stage of a script, of this number, and gives its output. A refused line of the header halts.
pub(crate) fn take<F: PlainFloor, L: Ledger>(
    alloc: Global,
    phase: &mut Phase<F>,
    line: u32,
    text: &[u8],
    out: &mut Vec<u8>,
    steps: &mut Steps<L>,
) -> Result<bool, Halt>
    requires ready { IsReady phase.old }
    requires short { length text.now ≤ MAX_LINE_BYTES }
    requires empty { out.old.items ≡ [] }
    ensures taken { IfOk result (λ taken. (stage : Stage) → IsAtStage F.at phase.old stage
        → TakesLine (IsAtStage F.at) (turned line stage text.now).result stage phase.new out.new.items taken) }
    ensures halted { result ≡ Err Halted → (stage : Stage) → IsAtStage F.at phase.old stage → IsRefused (turned line stage text.now).result }
    ensures steps { (stage : Stage) → IsAtStage F.at phase.old stage
        → steps.new ≤ steps.old + (turned line stage text.now).steps }
    ensures ready { IsReady phase.new }
{
    if let Phase::Body(player) = phase {
        return take_in_body(player, line, text, out, steps);
    }
    match turn(alloc, phase, line, text, out, steps) {
        Ok(()) => Ok(true),
        Err(fault) => Err(halt_of(fault)),
    }
}
