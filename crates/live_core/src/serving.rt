//! A day: its journal is opened, its lines are worked again, and rounds go on after them.
ghost use Rattle.std.specs.Prelude.{◌≡◌, ◌≤◌, ◌⊎◌, ◌++◌, ℕ, [], true, false, List, All, IfOk, IfErr, OnOk, MatchResult};
ghost use Rattle.venue_words.specs.Causes.{Rose};
ghost use Rattle.day_journal.specs.Disk.{LeavesOnly};
ghost use Rattle.day_journal.specs.Log.{reading, intact, IsShortLine, IsAllOrNone};
ghost use Rattle.day_journal.specs.Refusals.{ReadsAsOne};
ghost use Rattle.live_core.specs.Lines.{kept, IsFrontOf};
ghost use Rattle.live_core.specs.Live.{Stands};
ghost use Rattle.live_core.specs.Serving.{started, unopened, IsUnopened, IsUnstarted, IsDiskFault, IsEdgeFault, IsStopped, LivesWhole, Served};

use crate::edge::Edge;
use crate::machine::{Halt, Machine, Resumed, resume, work_all};
use crate::running::{LiveEnd, keep, live};
use day_journal::{Disk, Log, OpenRefusal, open};
use std::alloc::Global;
use venue_words::Bytes;

/// How a day ended.
#[derive(Clone, Copy, Debug, PartialEq, Eq)]
pub enum DayEnd {
    /// Rounds were worked until this end.
    Lived(LiveEnd),
    /// The journal is damaged at this place, counted in bytes from 0.
    Damaged { at: u64 },
    /// The journal does not begin with the head.
    OtherHead,
    /// A line of the head is refused.
    BadHead,
    /// This line of the journal, counted from 1, is refused.
    Refused { line: usize },
    /// The head of a new journal was not kept.
    Unkept(LiveEnd),
    /// The journal could not be opened or read.
    DiskFault,
    /// Out of memory.
    NoMemory,
    /// The machine can't go on at a line of the journal, or of the head of a new one, which is refused.
    Halted,
}

/// Whether lines begin with these.
fn do_begin(lines: &[Bytes], head: &[Bytes]) -> bool
    ensures yes { result ≡ true → IsFrontOf head.now lines.now }
    ensures no { result ≡ false → IsFrontOf head.now lines.now → ⊥ }
{
    if head.len() > lines.len() {
        return false;
    }
    let mut index = 0;
    while index < head.len() {
        if lines[index].as_slice() == head[index].as_slice() {
            index += 1;
        } else {
            return false;
        }
    }
    true
}

/// Why a journal was not opened.
fn unopened(refusal: OpenRefusal) -> DayEnd
    ensures { result ≡ unopened refusal }
{
    match refusal {
        OpenRefusal::DiskFault => DayEnd::DiskFault,
        OpenRefusal::Damaged { at } => DayEnd::Damaged { at },
        OpenRefusal::NoMemory => DayEnd::NoMemory,
    }
}

/// Opens the journal in the file of this name.
fn open_day<D: Disk>(
    alloc: Global,
    disk: D,
    name: &str,
) -> Result<(Log<D>, Vec<Bytes>), (DayEnd, D)>
    requires begun { D.begun disk ≡ false }
    ensures unspent { IfOk result (λ r. r.0.spent ≡ false) }
    ensures found { (D.told disk).honest ≡ true → IfOk result (λ r. reading (D.told disk).seen ≡ intact r.1.items) }
    ensures stands { (D.told disk).honest ≡ true → IfOk result (λ r. Stands r.1.items (D.told r.0.disk)) }
    ensures any_moment { (D.told disk).honest ≡ true → MatchResult result
        (λ r. LeavesOnly (D.told disk) (D.told r.0.disk) (ReadsAsOne (D.told disk).may_leave))
        (λ e. LeavesOnly (D.told disk) (D.told e.1) (ReadsAsOne (D.told disk).may_leave)) }
    ensures later { MatchResult result (λ r. D.faults disk ≤ D.faults r.0.disk) (λ e. D.faults disk ≤ D.faults e.1) }
    ensures fault { IfErr result (λ e. IsDiskFault e.0 → Rose (D.faults disk) (D.faults e.1)) }
    ensures no_edge { IfErr result (λ e. IsEdgeFault e.0 → ⊥) }
    ensures cause { (D.told disk).honest ≡ true → IfErr result (λ e. IsUnopened (reading (D.told disk).seen) e.0) }
{
    let mut disk = disk;
    match disk.begin(name) {
        Ok(()) => {}
        Err(_) => return Err((DayEnd::DiskFault, disk)),
    }
    match open(alloc, disk) {
        Ok((log, lines)) => Ok((log, lines)),
        Err((disk, refusal)) => Err((unopened(refusal), disk)),
    }
}

/// Works the head of a new journal, and keeps it.
fn keep_head<M: Machine, D: Disk>(
    alloc: Global,
    machine: &mut M,
    log: &mut Log<D>,
    head: Vec<Bytes>,
) -> Result<(), DayEnd>
    requires unspent { log.old.spent ≡ false }
    requires start { M.has_taken machine.old [] }
    requires short { All IsShortLine head.items }
    ensures unspent { OnOk result (log.new.spent ≡ false) }
    ensures has_taken { OnOk result (M.has_taken machine.new head.items) }
    ensures taken { OnOk result (kept M.yields [] head.items ≡ head.items) }
    ensures stands { Stands [] (D.told log.old.disk) → OnOk result (Stands head.items (D.told log.new.disk)) }
    ensures any_moment { Stands [] (D.told log.old.disk) → LeavesOnly (D.told log.old.disk) (D.told log.new.disk) (IsAllOrNone [] head.items) }
    ensures later { D.faults log.old.disk ≤ D.faults log.new.disk }
    ensures fault { IfErr result (λ end. IsDiskFault end → Rose (D.faults log.old.disk) (D.faults log.new.disk)) }
    ensures no_edge { IfErr result (λ end. IsEdgeFault end → ⊥) }
    ensures cause { IfErr result (λ end. IsUnstarted M.yields head.items [] end) }
{
    let count = head.len();
    let mut out = Vec::new(alloc);
    let taken = match work_all(alloc, machine, head, &mut out) {
        Ok(taken) => taken,
        Err(Halt::NoMemory) => return Err(DayEnd::NoMemory),
        Err(Halt::Halted) => return Err(DayEnd::Halted),
    };
    if taken.len() != count {
        return Err(DayEnd::BadHead);
    }
    match keep(log, &taken) {
        Ok(()) => Ok(()),
        Err(end) => Err(DayEnd::Unkept(end)),
    }
}

/// Has a machine take the lines of a journal; a new journal's head is worked and kept.
fn start<M: Machine, D: Disk>(
    alloc: Global,
    machine: &mut M,
    log: &mut Log<D>,
    had: &[Bytes],
    head: Vec<Bytes>,
) -> Result<(), DayEnd>
    requires unspent { log.old.spent ≡ false }
    requires start { M.has_taken machine.old [] }
    requires short { All IsShortLine head.items }
    ensures unspent { OnOk result (log.new.spent ≡ false) }
    ensures has_taken { OnOk result (M.has_taken machine.new (started had.now head.items)) }
    ensures taken { OnOk result (kept M.yields [] (started had.now head.items) ≡ started had.now head.items) }
    ensures begins { OnOk result (IsFrontOf head.items (started had.now head.items)) }
    ensures stands { Stands had.now (D.told log.old.disk) → OnOk result (Stands (started had.now head.items) (D.told log.new.disk)) }
    ensures any_moment { Stands had.now (D.told log.old.disk) → LeavesOnly (D.told log.old.disk) (D.told log.new.disk)
        (λ c. (reading c ≡ intact had.now) ⊎ (reading c ≡ intact (started had.now head.items))) }
    ensures later { D.faults log.old.disk ≤ D.faults log.new.disk }
    ensures fault { IfErr result (λ end. IsDiskFault end → Rose (D.faults log.old.disk) (D.faults log.new.disk)) }
    ensures no_edge { IfErr result (λ end. IsEdgeFault end → ⊥) }
    ensures cause { IfErr result (λ end. IsUnstarted M.yields head.items had.now end) }
{
    if had.is_empty() {
        return keep_head(alloc, machine, log, head);
    }
    if !do_begin(had, &head) {
        return Err(DayEnd::OtherHead);
    }
    match resume(alloc, machine, had) {
        Ok(Resumed::Whole) => Ok(()),
        Ok(Resumed::Refused { line }) => Err(DayEnd::Refused { line }),
        Err(Halt::NoMemory) => Err(DayEnd::NoMemory),
        Err(Halt::Halted) => Err(DayEnd::Halted),
    }
}

/// Works a day over the journal of this name: opens it, works its lines again without putting what they yield, and goes on with
/// rounds. A new journal begins with the head, all of it or none. The disk is handed back.
pub fn serve_day<M: Machine, D: Disk, E: Edge>(
    alloc: Global,
    machine: &mut M,
    head: Vec<Bytes>,
    disk: D,
    name: &str,
    edge: &mut E,
) -> (DayEnd, D)
    requires begun { D.begun disk ≡ false }
    requires start { M.has_taken machine.old [] }
    requires short { All IsShortLine head.items }
    ensures day { (D.told disk).honest ≡ true → Served M.yields head.items (E.brought edge.old) (E.brought edge.new)
        (E.told edge.old) (E.told edge.new) (D.told disk) (D.told result.1) result.0 }

    // At an end that was asked for all that was brought is worked, kept and put.
    ensures whole { (D.told disk).honest ≡ true → IsStopped result.0 → LivesWhole M.yields head.items (E.brought edge.old) (E.brought edge.new)
        (E.told edge.old) (E.told edge.new) (D.told disk) (D.told result.1) }

    // Faults come only where a count rose.
    ensures disk { IsDiskFault result.0 → Rose (D.faults disk) (D.faults result.1) }
    ensures edge { IsEdgeFault result.0 → Rose (E.faults edge.old) (E.faults edge.new) }
{
    let (mut log, had) = match open_day(alloc, disk, name) {
        Ok(opened) => opened,
        Err(refused) => return refused,
    };
    match start(alloc, machine, &mut log, &had, head) {
        Ok(()) => {}
        Err(end) => return (end, log.close()),
    }
    edge.begin(&had);
    let end = live(alloc, machine, &mut log, edge);
    (DayEnd::Lived(end), log.close())
}
