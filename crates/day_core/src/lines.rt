//! A line of a day's script: compared, worked, kept in the journal, and only then put.
ghost use Rattle.std.specs.Prelude.{◌≡◌, ◌≤◌, ◌<◌, ◌+◌, ◌^◌, ◌-◌, [], false, length, IfErr, OnOk, Err};
ghost use Rattle.venue_words.specs.Causes.{Rose};
ghost use Rattle.venue_words.specs.declared.limits.TheConstants.{MAX_LINE_BYTES};
ghost use Rattle.replay_core.specs.Meets.{MeetsInPlace};
ghost use Rattle.replay_core.specs.Phases.{IsReady};
ghost use Rattle.replay_core.specs.Play.{Place, step_at};
ghost use Rattle.replay_core.specs.Reading.{IsAtPlace, IsBehind};
ghost use Rattle.replay_core.specs.Telling.{seen};
ghost use Rattle.day_core.specs.Keeping.{IsKept, IsNotKept};
ghost use Rattle.day_core.specs.Middle.{EndsIn, IsDayLine, PutsLine};
ghost use Rattle.day_core.specs.Refusing.{day_step};

use crate::journal::Journal;
use crate::status::{DayStatus, refused};
use day_journal::Disk;
use io_edge::Sink;
use line_reader::weigh;
use replay_core::PlainFloor;
use replay_core::lines::ScriptLine;
use replay_core::phase::{Phase, turn};
use script_text::{Header, LineFault};
use std::alloc::Global;
use std::sync::ledger::Ledger;
use venue_words::Steps;

/// The state of a script between two lines, and room for a line's output.
#[derive(Drop)]
pub(crate) struct Work<F: PlainFloor> {
    pub(crate) alloc: Global,
    pub(crate) phase: Phase<F>,
    pub(crate) output: Vec<u8>,
}

impl<F: PlainFloor> Work<F> {
    ghost use Rattle.replay_core.specs.Play.{start};

    /// Before the first line.
    pub(crate) fn new(alloc: Global) -> Work<F>
        ensures start { IsAtPlace F.at result.phase start }
        ensures ready { IsReady result.phase }
    {
        Work {
            alloc,
            phase: Phase::Head(Header::new(alloc)),
            output: Vec::new(alloc),
        }
    }

    /// Works a line, and gives its output.
    fn line<L: Ledger>(
        &mut self,
        line: ScriptLine<'_>,
        steps: &mut Steps<L>,
    ) -> Result<(), LineFault>
        requires ready { IsReady self.old.phase }
        requires short { length line.text.now ≤ MAX_LINE_BYTES }
        ensures answer { (place : Place) → IsAtPlace F.at self.old.phase place
            → IsDayLine line.entry.number line.entry.text.now line.entry.is_over place
            → MeetsInPlace (IsBehind F.at place line.entry.text.now) (day_step place line.entry.text.now) result
            self.new.phase self.new.output.items }
        ensures steps { (place : Place) → IsAtPlace F.at self.old.phase place
            → IsDayLine line.entry.number line.entry.text.now line.entry.is_over place
            → steps.new ≤ steps.old + (step_at place line.entry.text.now).steps }
        ensures ready { IsReady self.new.phase }
    {
        self.output.clear();
        let worked = turn(
            self.alloc,
            &mut self.phase,
            line.number,
            line.text,
            &mut self.output,
            steps,
        );
        weigh(worked, line.number, line.is_over)
    }
}

/// Works a line: where the journal had it, it is compared; else it is appended. Then its output is put.
pub(crate) fn work_line<F: PlainFloor, D: Disk, K: Sink, L: Ledger>(
    work: &mut Work<F>,
    line: ScriptLine<'_>,
    journal: &mut Journal<D>,
    out: &mut K,
    steps: &mut Steps<L>,
) -> Result<(), DayStatus>
    requires ready { IsReady work.old.phase }
    requires short { length line.text.now ≤ MAX_LINE_BYTES }
    requires number { 0 < line.number }
    requires unspent { journal.old.log.spent ≡ false }
    requires room { length journal.old.lines.items < line.number → journal.old.log.size < 2 ^ 62 }
    ensures puts { OnOk result ((place : Place) → IsAtPlace F.at work.old.phase place
        → IsDayLine line.entry.number line.entry.text.now line.entry.is_over place
        → PutsLine F.at (seen (K.told out.old) steps.old) (seen (K.told out.new) steps.new) place line.entry.text.now work.new.phase) }
    ensures ends { IfErr result (λ status. (place : Place) → IsAtPlace F.at work.old.phase place
        → IsDayLine line.entry.number line.entry.text.now line.entry.is_over place
        → EndsIn F.at (seen (K.told out.old) steps.old) (seen (K.told out.new) steps.new) place line.entry.text.now work.new.phase status) }
    ensures kept { OnOk result (IsKept D.told journal.old.lines.items journal.old.log journal.new.log line.entry.number line.entry.text.now) }
    ensures not_kept { IfErr result (IsNotKept D.told journal.old.lines.items journal.old.log journal.new.log line.entry.number line.entry.text.now) }
    ensures had { journal.new.lines ≡ journal.old.lines }
    ensures named { D.file_name journal.new.log.disk ≡ D.file_name journal.old.log.disk }
    ensures ready { IsReady work.new.phase }
    ensures later { K.faults out.old ≤ K.faults out.new }
    ensures write { result ≡ Err DayStatus.WriteFault → Rose (K.faults out.old) (K.faults out.new) }
    ensures disk_later { D.faults journal.old.log.disk ≤ D.faults journal.new.log.disk }
    ensures disk { result ≡ Err DayStatus.DiskFault → Rose (D.faults journal.old.log.disk) (D.faults journal.new.log.disk) }
{
    let is_new = match journal.is_new(line.number, line.text) {
        Ok(is_new) => is_new,
        Err(status) => return Err(status),
    };
    match work.line(line, steps) {
        Ok(()) => {}
        Err(fault) => return Err(refused(fault)),
    }
    match journal.keep(is_new, line.text) {
        Ok(()) => {}
        Err(status) => return Err(status),
    }
    match out.put(work.output.as_slice()) {
        Ok(()) => Ok(()),
        Err(_) => Err(DayStatus::WriteFault),
    }
}
