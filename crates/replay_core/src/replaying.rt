//! A script read line by line to its end.
ghost use Rattle.std.specs.Prelude.{◌≡◌, ◌≢◌, ◌≤◌, ◌+◌, length, IfSome, IsTrue};
ghost use Rattle.venue_words.specs.declared.limits.TheConstants.{MAX_LINE_BYTES, MAX_SCRIPT_BYTES};
ghost use Rattle.io_edge.specs.Faults.{IsCaused, faults};
ghost use Rattle.line_reader.specs.Reading.{before_lines};
ghost use Rattle.replay_core.specs.Play.{Place};
ghost use Rattle.replay_core.specs.Reading.{IsAtPlace, fault_in};
ghost use Rattle.replay_core.specs.Telling.{Ran, ending, seen};

use crate::lines::{ScriptLine, play_line};
use crate::phase::{Phase, begin_anew};
use crate::plain_floor::PlainFloor;
use crate::status::Status;
use io_edge::{Shelf, Sink};
use line_reader::{LineReader, NextLine};
use script_text::{LimitCause, LineCause};
use std::alloc::Global;
use std::sync::ledger::Ledger;
use venue_words::Steps;

/// The status at the end of a script, where these bytes stand behind its last line. `line` is the number of one more.
#[tactic(auto, unfolding(crate::specs::Play::end_at))]
fn ending<F: PlainFloor>(phase: &Phase<F>, line: u32, rest: &[u8]) -> Status
    requires { length rest.now ≤ MAX_LINE_BYTES }
    ensures status { (place : Place) → IsAtPlace F.at phase.now place → line ≡ place.lines + 1
        → result ≡ ending (fault_in place rest.now) }
    ensures words { result ≢ Status.BadWords }
    ensures read { result ≢ Status.ReadFault }
    ensures write { result ≢ Status.WriteFault }
{
    match phase {
        Phase::Body(_) if rest.is_empty() => Status::Done,
        _ => Status::BadLine {
            line,
            cause: LineCause::NoEnd,
        },
    }
}

/// Reads the file that was begun to its end, line by line, and puts the output of each line before the next is worked. The
/// phase starts anew, and stays as the last line left it.
pub fn play_file<F: PlainFloor, H: Shelf, K: Sink, L: Ledger>(
    alloc: Global,
    phase: &mut Phase<F>,
    reader: &mut LineReader,
    shelf: &mut H,
    out: &mut K,
    steps: &mut Steps<L>,
) -> Status
    requires begun { IsTrue (H.begun shelf.old) }
    requires start { reader.old ≡ before_lines 0 MAX_SCRIPT_BYTES }
    ensures ran { IfSome (H.left shelf.old) (λ bytes.
        Ran bytes (seen (K.told out.old) steps.old) (seen (K.told out.new) steps.new) (H.left shelf.new) result) }
    ensures caused { IsCaused Status.ReadFault Status.WriteFault (faults (H.faults shelf.old) (K.faults out.old))
        (faults (H.faults shelf.new) (K.faults out.new)) result }
    ensures sure { IsTrue (H.sure shelf.old) → result ≢ Status.ReadFault }
    ensures words { result ≢ Status.BadWords }
{
    begin_anew(alloc, phase);
    let mut text = Vec::new(alloc);
    loop {
        let number = reader.lines() + 1;
        match reader.next(shelf) {
            NextLine::Line {
                text: line,
                is_over,
            } => {
                let line = ScriptLine {
                    number,
                    text: line,
                    is_over,
                };
                match play_line(alloc, phase, line, &mut text, out, steps) {
                    Ok(()) => {}
                    Err(status) => return status,
                }
            }
            NextLine::End { rest } => return ending(phase, number, rest),
            NextLine::TooLong => {
                return Status::LimitLine {
                    line: number,
                    which: LimitCause::Line,
                };
            }
            NextLine::ReadFault => return Status::ReadFault,
        }
    }
}
