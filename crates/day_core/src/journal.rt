//! The journal of a day: the lines that it had when it was opened, and the log to which further ones are appended.
ghost use Rattle.std.specs.Prelude.{◌≡◌, ◌≤◌, ◌<◌, ◌^◌, nat_le, true, false, Err, length, IfOk, IfErr, IfSome, OnOk, MatchResult};
ghost use Rattle.venue_words.specs.Causes.{Rose};
ghost use Rattle.venue_words.specs.declared.limits.TheConstants.{MAX_LINE_BYTES};
ghost use Rattle.day_journal.specs.Disk.{LeavesOnly};
ghost use Rattle.day_journal.specs.Refusals.{ReadsAsOne};
ghost use Rattle.day_core.specs.Keeping.{IsNew, IsOther, Keeps, KeepsNot};
ghost use Rattle.day_core.specs.Opening.{IsOpened, IsNotOpened};

use crate::status::{DayStatus, opening_refused};
use day_journal::{AppendRefusal, Disk, Log, open};
use std::alloc::Global;
use venue_words::Bytes;

/// A journal that was opened.
#[derive(Drop)]
pub(crate) struct Journal<D: Disk> {
    pub(crate) log: Log<D>,
    pub(crate) lines: Vec<Bytes>,
}

/// Begins the file of this name on the disk, and opens the journal in it.
pub(crate) fn open_journal<D: Disk>(
    alloc: Global,
    disk: D,
    name: &str,
) -> Result<Journal<D>, (DayStatus, D)>
    requires begun { D.begun disk ≡ false }
    ensures ok { IfOk result (λ journal. IsOpened D.told disk journal.log journal.lines.items) }
    ensures err { IfErr result (λ refused. IsNotOpened (D.told disk) (D.told refused.1) refused.0) }
    ensures named { MatchResult result
        (λ journal. IfSome (D.file_name journal.log.disk) (λ n. n ≡ name.now))
        (λ refused. D.begun refused.1 ≡ true → IfSome (D.file_name refused.1) (λ n. n ≡ name.now)) }
    ensures later { MatchResult result (λ journal. D.faults disk ≤ D.faults journal.log.disk) (λ refused. D.faults disk ≤ D.faults refused.1) }
    ensures fault { IfErr result (λ refused. refused.0 ≡ DayStatus.DiskFault → Rose (D.faults disk) (D.faults refused.1)) }
{
    let mut disk = disk;
    match disk.begin(name) {
        Ok(()) => {}
        Err(_) => return Err((DayStatus::DiskFault, disk)),
    }
    match open(alloc, disk) {
        Ok((log, lines)) => Ok(Journal { log, lines }),
        Err((disk, refusal)) => Err((opening_refused(refusal), disk)),
    }
}

impl<D: Disk> Journal<D> {
    /// Whether the journal had a line of this number when it was opened.
    pub(crate) fn had(&self, number: u32) -> bool
        ensures { result ≡ nat_le number (length self.now.lines.items) }
    {
        number as usize <= self.lines.len()
    }

    /// Whether the journal did not have the script's line of this number when it was opened; or the status where it had another
    /// line in its place.
    pub(crate) fn is_new(&self, number: u32, text: &[u8]) -> Result<bool, DayStatus>
        requires { 0 < number }
        ensures ok { IfOk result (IsNew self.now.lines.items number text.now) }
        ensures err { IfErr result (λ status. (status ≡ DayStatus.Differs number) × IsOther self.now.lines.items number text.now) }
    {
        match self.lines.get(number as usize - 1) {
            Some(line) => {
                if line.as_slice() == text {
                    Ok(false)
                } else {
                    Err(DayStatus::Differs { line: number })
                }
            }
            None => Ok(true),
        }
    }

    /// Appends a line, if it is new to the journal.
    pub(crate) fn keep(&mut self, is_new: bool, text: &[u8]) -> Result<(), DayStatus>
        requires unspent { self.old.log.spent ≡ false }
        requires room { is_new ≡ true → self.old.log.size < 2 ^ 62 }
        requires line { length text.now ≤ MAX_LINE_BYTES }
        ensures ok { OnOk result (Keeps D.told self.old.log self.new.log text.now is_new) }
        ensures err { IfErr result (λ status. (is_new ≡ true) × KeepsNot D.told self.old.log self.new.log text.now status) }
        ensures had { self.new.lines ≡ self.old.lines }
        ensures named { D.file_name self.new.log.disk ≡ D.file_name self.old.log.disk }
        ensures later { D.faults self.old.log.disk ≤ D.faults self.new.log.disk }
        ensures fault { result ≡ Err DayStatus.DiskFault → Rose (D.faults self.old.log.disk) (D.faults self.new.log.disk) }
    {
        if !is_new {
            return Ok(());
        }
        match self.log.append(text) {
            Ok(()) => Ok(()),
            Err(AppendRefusal::DiskFault) => Err(DayStatus::DiskFault),
            Err(AppendRefusal::NoMemory) => Err(DayStatus::NoMemory),
        }
    }
}
