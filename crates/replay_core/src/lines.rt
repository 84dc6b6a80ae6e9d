//! A line of a script, worked and put.
ghost use Rattle.std.specs.Prelude.{◌≡◌, ◌≤◌, ◌<◌, ◌+◌, ◌∷◌, ◌++◌, [], false, length, nat_lt, List, ℕ, IfOk, IfErr, OnOk, Err};
ghost use Rattle.venue_words.specs.Causes.{Rose};
ghost use Rattle.script_text.specs.Lines.{has_end};
ghost use Rattle.script_text.specs.declared.fault.LineFault.TheVariants.{Limit};
ghost use Rattle.script_text.specs.declared.fault.LimitCause.TheVariants.{Line};
ghost use Rattle.replay_core.specs.Meets.{MeetsInPlace};
ghost use Rattle.replay_core.specs.Phases.{IsReady};
ghost use Rattle.replay_core.specs.Play.{Place, played, step_at};
ghost use Rattle.replay_core.specs.Reading.{Goes, IsAtPlace, IsBehind, IsLineAt};
ghost use Rattle.replay_core.specs.Telling.{Halts, seen};

use crate::phase::{Phase, turn};
use crate::plain_floor::PlainFloor;
use crate::status::{Status, status_of};
use io_edge::Sink;
use line_reader::weigh;
use script_text::{LimitCause, LineFault};
use std::alloc::Global;
use std::sync::ledger::Ledger;
use venue_words::Steps;
use venue_words::limits::{MAX_LINE_BYTES, MAX_SCRIPT_BYTES};

/// A line of a script, without its LF. Lines are counted from 1.
#[derive(Clone, Copy, Debug)]
pub struct ScriptLine<'a> {
    pub number: u32,
    pub text: &'a [u8],
    /// It holds the byte that passes the limit on a script's bytes.
    pub is_over: bool,
}

/// The line of this number behind so many bytes of a script, unless it is too long.
pub fn script_line(number: u32, text: &[u8], before: u64) -> Result<ScriptLine<'_>, LineFault>
    requires { before ≤ MAX_SCRIPT_BYTES }
    ensures ok { IfOk result (λ line. (line.number ≡ number) × (line.text.now ≡ text.now) × (length text.now ≤ MAX_LINE_BYTES)
        × (line.is_over ≡ nat_lt MAX_SCRIPT_BYTES (before + length text.now + 1))) }
    ensures err { IfErr result (λ fault. (fault ≡ Limit number Line) × (MAX_LINE_BYTES < length text.now)) }
{
    if text.len() > MAX_LINE_BYTES {
        return Err(LineFault::Limit {
            line: number,
            which: LimitCause::Line,
        });
    }
    Ok(ScriptLine {
        number,
        text,
        is_over: MAX_SCRIPT_BYTES < before + text.len() as u64 + 1,
    })
}

/// Works a line, and gives its output.
pub fn work_line<F: PlainFloor, L: Ledger>(
    alloc: Global,
    phase: &mut Phase<F>,
    line: ScriptLine<'_>,
    out: &mut Vec<u8>,
    steps: &mut Steps<L>,
) -> Result<(), LineFault>
    requires ready { IsReady phase.old }
    requires short { length line.text.now ≤ MAX_LINE_BYTES }
    requires empty { out.old.items ≡ [] }
    ensures answer { (place : Place) → IsAtPlace F.at phase.old place
        → IsLineAt line.entry.number line.entry.text.now line.entry.is_over place
        → MeetsInPlace (IsBehind F.at place line.entry.text.now) (step_at place line.entry.text.now).result result phase.new out.new.items }
    ensures steps { (place : Place) → IsAtPlace F.at phase.old place
        → IsLineAt line.entry.number line.entry.text.now line.entry.is_over place
        → steps.new ≤ steps.old + (step_at place line.entry.text.now).steps }
    ensures within { OnOk result (line.entry.is_over ≡ false) }
    ensures ready { IsReady phase.new }
{
    let worked = turn(alloc, phase, line.number, line.text, out, steps);
    weigh(worked, line.number, line.is_over)
}

/// Works a line and puts its output. `text` is room for it.
pub fn play_line<F: PlainFloor, K: Sink, L: Ledger>(
    alloc: Global,
    phase: &mut Phase<F>,
    line: ScriptLine<'_>,
    text: &mut Vec<u8>,
    out: &mut K,
    steps: &mut Steps<L>,
) -> Result<(), Status>
    requires ready { IsReady phase.old }
    requires short { length line.text.now ≤ MAX_LINE_BYTES }
    requires clear { has_end line.text.now ≡ false }
    ensures ok { OnOk result ((place : Place) → IsAtPlace F.at phase.old place
        → IsLineAt line.entry.number line.entry.text.now line.entry.is_over place
        → Goes F.at (seen (K.told out.old) steps.old) (seen (K.told out.new) steps.new) place line.entry.text.now phase.new) }
    ensures err { IfErr result (λ status. (place : Place) → IsAtPlace F.at phase.old place
        → IsLineAt line.entry.number line.entry.text.now line.entry.is_over place
        → Halts (seen (K.told out.old) steps.old) (seen (K.told out.new) steps.new)
        (λ more. played place (line.entry.text.now ++ 10 ∷ more)) status) }
    ensures within { OnOk result (line.entry.is_over ≡ false) }
    ensures ready { IsReady phase.new }
    ensures later { K.faults out.old ≤ K.faults out.new }
    ensures write { result ≡ Err Status.WriteFault → Rose (K.faults out.old) (K.faults out.new) }
{
    text.clear();
    match work_line(alloc, phase, line, text, steps) {
        Ok(()) => {
            let output = text.as_slice();
            if output.is_empty() {
                // As for most quotes.
                return Ok(());
            }
            match out.put(output) {
                Ok(()) => Ok(()),
                Err(_) => Err(Status::WriteFault),
            }
        }
        Err(refused) => Err(status_of(refused)),
    }
}
