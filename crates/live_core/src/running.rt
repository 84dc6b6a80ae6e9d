//! The loop.
ghost use Rattle.std.specs.Prelude.{◌≡◌, ◌≢◌, ◌≤◌, ◌++◌, ℕ, false, List, All, OnOk, OnErr, Err};
ghost use Rattle.venue_words.specs.Causes.{Rose};
ghost use Rattle.day_journal.specs.Disk.{LeavesOnly};
ghost use Rattle.day_journal.specs.Log.{IsShortLine, IsAllOrNone};
ghost use Rattle.live_core.specs.Lines.{kept, AreNotTaken};
ghost use Rattle.live_core.specs.Live.{Stands, Commits, CommitsNot, Halts, Ran, Whole};
ghost use Rattle.live_core.specs.declared.running.LiveEnd.TheVariants.{Stopped, DiskFault, PutFault, EdgeFault, Halted};

use crate::edge::{Edge, Going};
use crate::machine::{Halt, Machine, work_all};
use day_journal::{AppendRefusal, Disk, Log};
use std::alloc::Global;
use venue_words::Bytes;

/// How a live day ended.
#[derive(Clone, Copy, Debug, PartialEq, Eq)]
pub enum LiveEnd {
    /// The edge asked for it. All that was brought is worked and kept, and its output is put.
    Stopped,
    /// The edge brought nothing more.
    EdgeFault,
    /// The output of the last lines was not put whole. They are in the journal.
    PutFault,
    /// Whether the last lines are in the journal is seen when it is opened again. Nothing of their output was put.
    DiskFault,
    /// The journal has no room.
    Full,
    /// Out of memory. Nothing of the output of the last lines was put.
    NoMemory,
    /// The machine can't go on at one of the last lines, which is refused. Nothing of these lines was kept or put.
    Halted,
}

/// The most bytes of a journal.
const MAX_JOURNAL_BYTES: u64 = 1 << 40;

/// Keeps lines that were taken, all of them or none.
pub(crate) fn keep<D: Disk>(log: &mut Log<D>, taken: &[Bytes]) -> Result<(), LiveEnd>
    requires unspent { log.old.spent ≡ false }
    requires short { All IsShortLine taken.now }
    ensures ok { OnOk result (log.new.spent ≡ false) }
    ensures stands { (past : List (List ℕ)) → Stands past (D.told log.old.disk) → OnOk result (Stands (past ++ taken.now) (D.told log.new.disk)) }
    ensures any_moment { (past : List (List ℕ)) → Stands past (D.told log.old.disk) →
        LeavesOnly (D.told log.old.disk) (D.told log.new.disk) (IsAllOrNone past taken.now) }
    ensures left { (past : List (List ℕ)) → Stands past (D.told log.old.disk) → (c : List ℕ) → (D.told log.new.disk).may_leave c → IsAllOrNone past taken.now c }
    ensures later { D.faults log.old.disk ≤ D.faults log.new.disk }
    ensures fault { result ≡ Err DiskFault → Rose (D.faults log.old.disk) (D.faults log.new.disk) }
    ensures no_put { result ≢ Err PutFault }
    ensures no_edge { result ≢ Err EdgeFault }
    ensures no_end { result ≢ Err Stopped }
    ensures no_halt { result ≢ Err Halted }
{
    if taken.is_empty() {
        return Ok(());
    }
    if log.size() > MAX_JOURNAL_BYTES {
        return Err(LiveEnd::Full);
    }
    match log.append_all(taken) {
        Ok(()) => Ok(()),
        Err(AppendRefusal::DiskFault) => Err(LiveEnd::DiskFault),
        Err(AppendRefusal::NoMemory) => Err(LiveEnd::NoMemory),
    }
}

/// Works a batch of lines, keeps those that are taken, all of them or none, and only then puts what they yield.
fn commit<M: Machine, D: Disk, E: Edge>(
    alloc: Global,
    machine: &mut M,
    log: &mut Log<D>,
    edge: &mut E,
    lines: Vec<Bytes>,
) -> Result<(), LiveEnd>
    requires unspent { log.old.spent ≡ false }
    requires short { All IsShortLine lines.items }
    ensures unspent { OnOk result (log.new.spent ≡ false) }
    ensures ok { (past : List (List ℕ)) → M.has_taken machine.old past → OnOk result
        (Commits M.yields (M.has_taken machine.new) past lines.items (E.told edge.old) (E.told edge.new) (D.told log.old.disk) (D.told log.new.disk)) }
    ensures err { (past : List (List ℕ)) → M.has_taken machine.old past → OnErr result
        (CommitsNot M.yields past lines.items (E.told edge.old) (E.told edge.new) (D.told log.old.disk) (D.told log.new.disk)) }
    ensures any_moment { (past : List (List ℕ)) → M.has_taken machine.old past → Stands past (D.told log.old.disk) →
        LeavesOnly (D.told log.old.disk) (D.told log.new.disk) (IsAllOrNone past (kept M.yields past lines.items)) }
    ensures brought { E.brought edge.new ≡ E.brought edge.old }
    ensures rounds { E.rounds_left edge.new ≡ E.rounds_left edge.old }
    ensures halted { result ≡ Err Halted → (past : List (List ℕ)) → M.has_taken machine.old past → AreNotTaken M.yields past lines.items }
    ensures unchanged { result ≡ Err Halted → (log.new ≡ log.old) × (edge.new ≡ edge.old) }
    ensures disk_later { D.faults log.old.disk ≤ D.faults log.new.disk }
    ensures edge_later { E.faults edge.old ≤ E.faults edge.new }
    ensures disk { result ≡ Err DiskFault → Rose (D.faults log.old.disk) (D.faults log.new.disk) }
    ensures edge { result ≡ Err PutFault → Rose (E.faults edge.old) (E.faults edge.new) }
    ensures no_edge { result ≢ Err EdgeFault }
    ensures no_end { result ≢ Err Stopped }
{
    let mut out = Vec::new(alloc);
    let taken = match work_all(alloc, machine, lines, &mut out) {
        Ok(taken) => taken,
        Err(Halt::NoMemory) => return Err(LiveEnd::NoMemory),
        Err(Halt::Halted) => return Err(LiveEnd::Halted),
    };
    match keep(log, &taken) {
        Ok(()) => {}
        Err(end) => return Err(end),
    }
    match edge.put(&out) {
        Ok(()) => Ok(()),
        Err(_) => Err(LiveEnd::PutFault),
    }
}

/// Goes on, round by round, until the edge asks for the end or a fault comes. The machine has taken the lines of the journal.
pub fn live<M: Machine, D: Disk, E: Edge>(
    alloc: Global,
    machine: &mut M,
    log: &mut Log<D>,
    edge: &mut E,
) -> LiveEnd
    requires unspent { log.old.spent ≡ false }

    // Whatever the end: what was put, and what a crash leaves, at any moment and now.
    ensures ran { (past : List (List ℕ)) → M.has_taken machine.old past → Ran M.yields past (E.brought edge.old) (E.brought edge.new)
        (E.told edge.old) (E.told edge.new) (D.told log.old.disk) (D.told log.new.disk) }

    // At an end that was asked for all that was brought is worked, kept and put.
    ensures whole { (past : List (List ℕ)) → M.has_taken machine.old past → result ≡ Stopped → Whole M.yields (M.has_taken machine.new) past
        (E.brought edge.old) (E.brought edge.new) (E.told edge.old) (E.told edge.new) (D.told log.old.disk) (D.told log.new.disk) }

    // The machine halts only where not all that was brought is taken.
    ensures halted { result ≡ Halted → (past : List (List ℕ)) → M.has_taken machine.old past
        → Halts M.yields past (E.brought edge.old) (E.brought edge.new) }

    // Faults come only where a count rose.
    ensures disk_later { D.faults log.old.disk ≤ D.faults log.new.disk }
    ensures edge_later { E.faults edge.old ≤ E.faults edge.new }
    ensures disk { result ≡ DiskFault → Rose (D.faults log.old.disk) (D.faults log.new.disk) }
    ensures put { result ≡ PutFault → Rose (E.faults edge.old) (E.faults edge.new) }
    ensures edge { result ≡ EdgeFault → Rose (E.faults edge.old) (E.faults edge.new) }
{
    loop {
        let mut lines = Vec::new(alloc);
        let going = match edge.round(&mut lines) {
            Ok(going) => going,
            Err(_) => return LiveEnd::EdgeFault,
        };
        match commit(alloc, machine, log, edge, lines) {
            Ok(()) => {}
            Err(end) => return end,
        }
        match going {
            Going::On => {}
            Going::Stop => return LiveEnd::Stopped,
        }
    }
}
