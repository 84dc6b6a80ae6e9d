//! The top call.
ghost use Rattle.std.specs.Prelude.{◌≡◌, ◌≢◌, ◌≤◌, ◌⊎◌, ℕ, List, true, false, None, Some, IfSome, IsTrue};
ghost use Rattle.venue_words.specs.Causes.{Rose};
ghost use Rattle.day_journal.specs.Log.{size_of};
ghost use Rattle.io_edge.specs.Files.{HasFile, file_named};
ghost use Rattle.program_words.specs.Words.{texts};
ghost use Rattle.replay_core.specs.Telling.{seen};
ghost use Rattle.day_core.specs.Crashes.{Holds};
ghost use Rattle.day_core.specs.DayFiles.{IsNamed, files_of, journal_named, script_named};
ghost use Rattle.day_core.specs.Days.{Ends};
ghost use Rattle.day_core.specs.Faults.{IsCaused, faults};
ghost use Rattle.day_core.specs.Opening.{RanFiles, RanScript};
ghost use Rattle.day_core.specs.Statuses.{IsTold, words_refused};

use crate::files::{DayFiles, files_of};
use crate::journal::{Journal, open_journal};
use crate::lines::Work;
use crate::status::{DayStatus, words_refused};
use crate::working::work_file;
use day_journal::Disk;
use io_edge::{Shelf, Sink};
use line_reader::{LineReader, tell};
use program_words::{WordFault, read_words};
use replay_core::PlainFloor;
use std::alloc::Global;
use std::sync::ledger::Ledger;
use symbol_book::Book;
use venue_core::PlainVenue;
use venue_words::Steps;
use venue_words::limits::MAX_DAY_BYTES;

/// The name under which a status is told.
const PROGRAM: &str = "pegday";

/// Works the script of this name over a journal that was opened.
fn work_script<F: PlainFloor, H: Shelf, D: Disk, K: Sink, L: Ledger>(
    alloc: Global,
    name: &str,
    shelf: &mut H,
    journal: &mut Journal<D>,
    out: &mut K,
    steps: &mut Steps<L>,
) -> DayStatus
    requires unspent { journal.old.log.spent ≡ false }
    requires size { journal.old.log.size ≡ size_of journal.old.lines.items }
    requires holds { (D.told journal.old.log.disk).honest ≡ true → Holds journal.old.lines.items (D.told journal.old.log.disk) }
    ensures ran { RanScript (H.told shelf.old) name.now (H.left shelf.new) journal.old.lines.items (D.told journal.old.log.disk) (D.told journal.new.log.disk)
        (seen (K.told out.old) steps.old) (seen (K.told out.new) steps.new) result }
    ensures named { D.file_name journal.new.log.disk ≡ D.file_name journal.old.log.disk }
    ensures caused { IsCaused (faults (H.faults shelf.old) (K.faults out.old) (D.faults journal.old.log.disk))
        (faults (H.faults shelf.new) (K.faults out.new) (D.faults journal.new.log.disk)) result }
    ensures sure { IsTrue (H.sure shelf.old) → HasFile (H.told shelf.old) name.now → result ≢ DayStatus.ReadFault }
{
    let mut reader = match LineReader::new(alloc, 0, MAX_DAY_BYTES) {
        Ok(reader) => reader,
        Err(_) => return DayStatus::NoMemory,
    };
    let mut work = Work::<F>::new(alloc);
    match shelf.begin(name) {
        Ok(()) => work_file(&mut work, &mut reader, shelf, journal, out, steps),
        Err(_) => DayStatus::ReadFault,
    }
}

/// Opens the journal, and works the script over it.
fn work_files<F: PlainFloor, H: Shelf, D: Disk, K: Sink, L: Ledger>(
    alloc: Global,
    files: DayFiles<'_>,
    shelf: &mut H,
    disk: D,
    out: &mut K,
    steps: &mut Steps<L>,
) -> (DayStatus, D)
    requires begun { D.begun disk ≡ false }
    ensures ran { RanFiles (H.told shelf.old) files.entry.script.now (H.left shelf.new) (D.told disk) (D.told result.1)
        (seen (K.told out.old) steps.old) (seen (K.told out.new) steps.new) result.0 }
    ensures journal { D.begun result.1 ≡ true → IfSome (D.file_name result.1) (λ name. name ≡ files.entry.journal.now) }
    ensures caused { IsCaused (faults (H.faults shelf.old) (K.faults out.old) (D.faults disk))
        (faults (H.faults shelf.new) (K.faults out.new) (D.faults result.1)) result.0 }
    ensures sure { IsTrue (H.sure shelf.old) → HasFile (H.told shelf.old) files.entry.script.now → result.0 ≢ DayStatus.ReadFault }
{
    let mut journal = match open_journal(alloc, disk, files.journal) {
        Ok(journal) => journal,
        Err(refused) => return refused,
    };
    let status = work_script::<F, H, D, K, L>(alloc, files.script, shelf, &mut journal, out, steps);
    (status, journal.log.close())
}

/// Reads the words, and works what they name.
fn answer<F: PlainFloor, H: Shelf, D: Disk, K: Sink, L: Ledger>(
    alloc: Global,
    words: &[String],
    shelf: &mut H,
    disk: D,
    out: &mut K,
    steps: &mut Steps<L>,
) -> (DayStatus, D)
    requires begun { D.begun disk ≡ false }
    ensures ends { Ends (H.told shelf.old) (texts words.now) (H.left shelf.new) (D.told disk) (D.told result.1)
        (seen (K.told out.old) steps.old) (seen (K.told out.new) steps.new) result.0 }
    ensures other_words { files_of (texts words.now) ≡ None → result.1 ≡ disk }
    ensures journal { D.begun result.1 ≡ true → IsNamed (D.file_name result.1) (journal_named (texts words.now)) }
    ensures caused { IsCaused (faults (H.faults shelf.old) (K.faults out.old) (D.faults disk))
        (faults (H.faults shelf.new) (K.faults out.new) (D.faults result.1)) result.0 }
    ensures sure { IsTrue (H.sure shelf.old) → (name : List ℕ) → script_named (texts words.now) ≡ Some name →
        HasFile (H.told shelf.old) name → result.0 ≢ DayStatus.ReadFault }
{
    let read = match read_words(alloc, words) {
        Ok(read) => read,
        Err(fault) => return (words_refused(fault), disk),
    };
    match files_of(read.as_slice()) {
        Some(files) => work_files::<F, H, D, K, L>(alloc, files, shelf, disk, out, steps),
        None => (DayStatus::BadWords, disk),
    }
}

/// Works a script over its journal: the words name the two. The journal is opened first. Each line that it has is worked again,
/// and has to be the script's; each further line is worked, appended, and only then is its output put. So after a crash, or any
/// other end, the same call goes on from what is on the disk, and puts the whole output again from its beginning. The text of
/// the status that ends the day is put to `err`, once. The disk is handed back.
pub fn day<H: Shelf, D: Disk, K: Sink, E: Sink, L: Ledger>(
    alloc: Global,
    words: &[String],
    shelf: &mut H,
    disk: D,
    out: &mut K,
    err: &mut E,
    steps: &mut Steps<L>,
) -> (DayStatus, D)
    requires begun { D.begun disk ≡ false }

    // How the day ended, what was put, and what the disk holds; and the status once its text was put: a failed put makes a
    // write fault of a refused line and of bad words, and leaves every other status.
    ensures run { (ended : DayStatus) × Ends (H.told shelf.old) (texts words.now) (H.left shelf.new) (D.told disk) (D.told result.1)
        (seen (K.told out.old) steps.old) (seen (K.told out.new) steps.new) ended
        × IsTold ended result.0 (E.told err.old) (E.told err.new) (E.faults err.old) (E.faults err.new) }
    ensures quiet { result.0 ≡ DayStatus.Done → err.new ≡ err.old }

    // Words without the form leave the disk; else no file but the journal is begun on it.
    ensures bad_words { result.0 ≡ DayStatus.BadWords → files_of (texts words.now) ≡ None }
    ensures other_words { files_of (texts words.now) ≡ None → result.1 ≡ disk }
    ensures journal { D.begun result.1 ≡ true → IsNamed (D.file_name result.1) (journal_named (texts words.now)) }

    // Faults come only where a count rose.
    ensures read { result.0 ≡ DayStatus.ReadFault → Rose (H.faults shelf.old) (H.faults shelf.new) }
    ensures write { result.0 ≡ DayStatus.WriteFault →
        Rose (K.faults out.old) (K.faults out.new) ⊎ Rose (E.faults err.old) (E.faults err.new) }
    ensures disk { result.0 ≡ DayStatus.DiskFault → Rose (D.faults disk) (D.faults result.1) }
    ensures sure { IsTrue (H.sure shelf.old) → (name : List ℕ) → script_named (texts words.now) ≡ Some name →
        HasFile (H.told shelf.old) name → result.0 ≢ DayStatus.ReadFault }
    ensures read_later { H.faults shelf.old ≤ H.faults shelf.new }
    ensures write_later { K.faults out.old ≤ K.faults out.new }
    ensures tell_later { E.faults err.old ≤ E.faults err.new }
    ensures disk_later { D.faults disk ≤ D.faults result.1 }
{
    let (status, disk) = answer::<PlainVenue<Book>, H, D, K, L>(
        alloc, words, shelf, disk, out, steps,
    );
    (tell(PROGRAM, status, err), disk)
}

/// Ends a day whose words could not even be read: the text of the status that this makes is put to `err`, once.
pub fn refuse_words<E: Sink>(fault: WordFault, err: &mut E) -> DayStatus
    ensures told { IsTold (words_refused fault) result (E.told err.old) (E.told err.new) (E.faults err.old) (E.faults err.new) }
    ensures later { E.faults err.old ≤ E.faults err.new }
{
    tell(PROGRAM, words_refused(fault), err)
}
