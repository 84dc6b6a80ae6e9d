//! A day's script, worked line by line over a journal.
ghost use Rattle.std.specs.Prelude.{◌≡◌, ◌≢◌, ◌≤◌, ◌+◌, true, false, length, IsTrue};
ghost use Rattle.venue_words.specs.Causes.{Rose};
ghost use Rattle.venue_words.specs.declared.limits.TheConstants.{MAX_DAY_BYTES, MAX_LINE_BYTES};
ghost use Rattle.day_journal.specs.Log.{size_of};
ghost use Rattle.line_reader.specs.Reading.{before_lines};
ghost use Rattle.replay_core.specs.Phases.{IsReady};
ghost use Rattle.replay_core.specs.Play.{Place, start};
ghost use Rattle.replay_core.specs.Reading.{IsAtPlace, fault_in};
ghost use Rattle.replay_core.specs.Telling.{seen};
ghost use Rattle.day_core.specs.Crashes.{Holds};
ghost use Rattle.day_core.specs.Faults.{IsCaused, faults};
ghost use Rattle.day_core.specs.Middle.{RanFile, ended_by};

use crate::journal::Journal;
use crate::lines::{Work, work_line};
use crate::status::DayStatus;
use day_journal::Disk;
use io_edge::{Shelf, Sink};
use line_reader::{LineReader, NextLine};
use replay_core::PlainFloor;
use replay_core::lines::ScriptLine;
use replay_core::phase::Phase;
use script_text::{LimitCause, LineCause};
use std::sync::ledger::Ledger;
use venue_words::Steps;

/// The status at the end of a script that has a line for each of the journal's, where these bytes stand behind its last
/// line. `line` is the number of one more.
#[tactic(auto, unfolding(replay_core::specs::Play::end_at))]
fn ending<F: PlainFloor>(phase: &Phase<F>, line: u32, rest: &[u8]) -> DayStatus
    requires { length rest.now ≤ MAX_LINE_BYTES }
    ensures status { (place : Place) → IsAtPlace F.at phase.now place → line ≡ place.lines + 1
        → result ≡ ended_by (fault_in place rest.now) }
    ensures read { result ≢ DayStatus.ReadFault }
    ensures write { result ≢ DayStatus.WriteFault }
    ensures disk { result ≢ DayStatus.DiskFault }
{
    match phase {
        Phase::Body(_) if rest.is_empty() => DayStatus::Done,
        _ => DayStatus::BadLine {
            line,
            cause: LineCause::NoEnd,
        },
    }
}

/// Works the script that was begun to its end, over the journal that was opened.
pub(crate) fn work_file<F: PlainFloor, H: Shelf, D: Disk, K: Sink, L: Ledger>(
    work: &mut Work<F>,
    reader: &mut LineReader,
    shelf: &mut H,
    journal: &mut Journal<D>,
    out: &mut K,
    steps: &mut Steps<L>,
) -> DayStatus
    requires begun { IsTrue (H.begun shelf.old) }
    requires start { reader.old ≡ before_lines 0 MAX_DAY_BYTES }
    requires place { IsAtPlace F.at work.old.phase start }
    requires ready { IsReady work.old.phase }
    requires unspent { journal.old.log.spent ≡ false }
    requires size { journal.old.log.size ≡ size_of journal.old.lines.items }
    requires holds { (D.told journal.old.log.disk).honest ≡ true → Holds journal.old.lines.items (D.told journal.old.log.disk) }
    ensures ran { RanFile (H.left shelf.old) (H.left shelf.new) journal.old.lines.items (D.told journal.old.log.disk) (D.told journal.new.log.disk)
        (seen (K.told out.old) steps.old) (seen (K.told out.new) steps.new) result }
    ensures named { D.file_name journal.new.log.disk ≡ D.file_name journal.old.log.disk }
    ensures caused { IsCaused (faults (H.faults shelf.old) (K.faults out.old) (D.faults journal.old.log.disk))
        (faults (H.faults shelf.new) (K.faults out.new) (D.faults journal.new.log.disk)) result }
    ensures sure { IsTrue (H.sure shelf.old) → result ≢ DayStatus.ReadFault }
{
    loop {
        let number = reader.lines() + 1;
        match reader.next(shelf) {
            NextLine::Line { text, is_over } => {
                let line = ScriptLine {
                    number,
                    text,
                    is_over,
                };
                match work_line(work, line, journal, out, steps) {
                    Ok(()) => {}
                    Err(status) => return status,
                }
            }
            NextLine::End { rest } => {
                if journal.had(number) {
                    return DayStatus::Differs { line: number };
                }
                return ending(&work.phase, number, rest);
            }
            NextLine::TooLong => {
                if journal.had(number) {
                    return DayStatus::Differs { line: number };
                }
                return DayStatus::LimitLine {
                    line: number,
                    which: LimitCause::Line,
                };
            }
            NextLine::ReadFault => return DayStatus::ReadFault,
        }
    }
}
