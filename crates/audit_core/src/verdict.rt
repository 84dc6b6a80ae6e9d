//! Whether a file is the listing of journals.
ghost use Rattle.std.specs.Prelude.{◌≡◌, ◌≢◌, ◌≤◌, ◌<◌, ◌+◌, ◌++◌, ℕ, List, [], Option, None, Some, Ok, Err, length, false, IfErr, IsTrue};
ghost use Rattle.venue_words.specs.Causes.{Rose};
ghost use Rattle.script_text.specs.Lines.{has_end};
ghost use Rattle.line_reader.specs.Reading.{ahead};
ghost use Rattle.audit_core.specs.Ahead.{Awaits, EndsListing, IsAt, IsHeard, ReadsOn, Stops, TellsBefore, at};
ghost use Rattle.audit_core.specs.Differing.{AtLine, DiffersAt, IsLongLine};
ghost use Rattle.audit_core.specs.Progress.{HasRead};
ghost use Rattle.audit_core.specs.Telling.{Lists, Telling};

use crate::reading::{Auditor, Seen};
use crate::watch::{Watch, WatchFault};
use io_edge::Shelf;
use line_reader::{LineReader, NextLine};
use std::sync::ledger::Ledger;
use venue_words::{Bytes, Config, NoMemory, Steps};

/// The most bytes of a listing.
pub const MAX_LISTING_BYTES: u64 = 2_147_483_647;

/// What a listing is found to be.
#[derive(Debug, Drop)]
pub enum Verdict {
    /// It is the listing of journals of the config.
    Same,
    /// With this line, counted from 1, the lines are the beginning of no listing. What should stand there is given where the
    /// lines before it say so. A line behind the last stands for the end of the file.
    Differs { line: u32, expected: Option<Bytes> },
}

/// Why a listing was not read to its end.
#[derive(Clone, Copy, Debug, PartialEq, Eq, Drop)]
pub enum AuditFault {
    /// The file could not be opened or read.
    ReadFault,
    /// It has more bytes than `MAX_LISTING_BYTES`.
    TooLarge,
    /// This line, counted from 1, has more bytes than a line may have.
    LongLine { line: u32 },
    /// What a watch was to tell could not be put.
    WriteFault,
    /// Memory was wanted.
    NoMemory,
}

impl From<NoMemory> for AuditFault {
    ghost use Rattle.std.specs.Prelude.{◌≡◌};
    ghost use Rattle.audit_core.specs.declared.verdict.AuditFault.TheVariants.{NoMemory};

    ghost from_gives = { λ _ fault. fault ≡ NoMemory };

    fn from(_error: NoMemory) -> AuditFault {
        AuditFault::NoMemory
    }
}

/// The verdict at a line, if this is the last that is read.
fn verdict_at(seen: Seen, line: u32) -> Option<Verdict>
    ensures on { result ≡ None → seen ≡ Seen.Same }
    ensures same { result ≢ Some Verdict.Same }
    ensures differs { (number : ℕ) (expected : Option (List ℕ)) → result ≡ Some (Verdict.Differs number expected) →
        (number ≡ line) × (seen ≡ Seen.Differs expected) }
{
    match seen {
        Seen::Same => None,
        Seen::Differs { expected } => Some(Verdict::Differs { line, expected }),
    }
}

/// The verdict at the end of the file, behind whose last LF these bytes stand.
fn verdict_at_end(auditor: &Auditor, config: &Config, rest: &[u8], line: u32) -> Verdict
    requires at { IsAt config.now auditor.now }
    requires clear { has_end rest.now ≡ false }
    ensures same { result ≡ Verdict.Same → (telling : Telling) (read told : List ℕ) → HasRead telling (at config.now auditor.now) read told →
        Lists telling config.now (read ++ rest.now) told }
    ensures differs { (number : ℕ) (expected : Option (List ℕ)) → result ≡ Verdict.Differs number expected →
        (number ≡ line) × (expected ≡ None) × (Awaits (at config.now auditor.now) rest.now → ⊥) }
{
    if rest.is_empty() && auditor.is_whole(config) {
        Verdict::Same
    } else {
        Verdict::Differs {
            line,
            expected: None,
        }
    }
}

/// Reads the next line of the file that was begun, and gives the verdict where it is the last that is read.
fn read_line<H: Shelf, W: Watch, L: Ledger>(
    auditor: &mut Auditor,
    config: &Config,
    reader: &mut LineReader,
    shelf: &mut H,
    watch: &mut W,
    steps: &mut Steps<L>,
) -> Result<Option<Verdict>, AuditFault>
    requires stands { IsHeard (W.heard watch.old) config.now auditor.old }
    requires begun { IsTrue (H.begun shelf.old) }
    requires within { reader.old.bytes ≤ reader.old.most }
    ensures stands { result ≡ Ok None → IsHeard (W.heard watch.new) config.now auditor.new }
    ensures on { result ≡ Ok None → ReadsOn W.tells (at config.now auditor.old) (at config.now auditor.new) reader.old reader.new
        (ahead reader.old.held (H.left shelf.old)) (ahead reader.new.held (H.left shelf.new)) (W.output watch.old) (W.output watch.new) }
    ensures same { result ≡ Ok (Some Verdict.Same) → EndsListing W.tells (at config.now auditor.old)
        (ahead reader.old.held (H.left shelf.old)) (W.output watch.old) (W.output watch.new) }
    ensures differs { (line : ℕ) (expected : Option (List ℕ)) → result ≡ Ok (Some (Verdict.Differs line expected)) →
        AtLine reader.old.lines (ahead reader.old.held (H.left shelf.old)) line
        (λ text number. DiffersAt (Awaits (at config.now auditor.old)) text number expected) }
    ensures tells { (line : ℕ) (expected : Option (List ℕ)) → result ≡ Ok (Some (Verdict.Differs line expected)) →
        TellsBefore W.tells (at config.now auditor.old) reader.old.lines (ahead reader.old.held (H.left shelf.old)) line
        (W.output watch.old) (W.output watch.new) }
    ensures stops { IfErr result (λ _. Stops W.tells (at config.now auditor.old) (ahead reader.old.held (H.left shelf.old))
        (W.output watch.old) (W.output watch.new)) }
    ensures long { (line : ℕ) → result ≡ Err (AuditFault.LongLine line) →
        AtLine reader.old.lines (ahead reader.old.held (H.left shelf.old)) line IsLongLine }
    ensures large { result ≡ Err AuditFault.TooLarge → (text : List ℕ) → ahead reader.old.held (H.left shelf.old) ≡ Some text →
        reader.old.most < reader.old.bytes + length text }
    ensures most { reader.new.most ≡ reader.old.most }
    ensures within { result ≡ Ok None → (reader.old.bytes < reader.new.bytes) × (reader.new.bytes ≤ reader.old.most) }
    ensures told { H.told shelf.new ≡ H.told shelf.old }
    ensures begun { IsTrue (H.begun shelf.new) }
    ensures later { (H.faults shelf.old ≤ H.faults shelf.new) × (W.faults watch.old ≤ W.faults watch.new) }
    ensures fault { result ≡ Err AuditFault.ReadFault → Rose (H.faults shelf.old) (H.faults shelf.new) }
    ensures put_fault { result ≡ Err AuditFault.WriteFault → Rose (W.faults watch.old) (W.faults watch.new) }
    ensures sure { IsTrue (H.sure shelf.old) → IsTrue (H.sure shelf.new) × (result ≢ Err AuditFault.ReadFault) }
{
    let line = reader.lines() + 1;
    match reader.next(shelf) {
        NextLine::Line { text, is_over } => {
            if is_over {
                return Err(AuditFault::TooLarge);
            }
            match auditor.line(config, text, watch, steps) {
                Ok(seen) => Ok(verdict_at(seen, line)),
                Err(WatchFault::WriteFault) => Err(AuditFault::WriteFault),
                Err(WatchFault::NoMemory) => Err(AuditFault::NoMemory),
            }
        }
        NextLine::End { rest } => Ok(Some(verdict_at_end(auditor, config, rest, line))),
        NextLine::TooLong => Err(AuditFault::LongLine { line }),
        NextLine::ReadFault => Err(AuditFault::ReadFault),
    }
}

/// Reads the lines of the file that was begun.
pub(crate) fn read_lines<H: Shelf, W: Watch, L: Ledger>(
    auditor: &mut Auditor,
    config: &Config,
    reader: &mut LineReader,
    shelf: &mut H,
    watch: &mut W,
    steps: &mut Steps<L>,
) -> Result<Verdict, AuditFault>
    requires stands { IsHeard (W.heard watch.old) config.now auditor.old }
    requires begun { IsTrue (H.begun shelf.old) }
    requires within { reader.old.bytes ≤ reader.old.most }
    ensures same { result ≡ Ok Verdict.Same → EndsListing W.tells (at config.now auditor.old)
        (ahead reader.old.held (H.left shelf.old)) (W.output watch.old) (W.output watch.new) }
    ensures differs { (line : ℕ) (expected : Option (List ℕ)) → result ≡ Ok (Verdict.Differs line expected) →
        AtLine reader.old.lines (ahead reader.old.held (H.left shelf.old)) line
        (λ text number. DiffersAt (Awaits (at config.now auditor.old)) text number expected) }
    ensures tells { (line : ℕ) (expected : Option (List ℕ)) → result ≡ Ok (Verdict.Differs line expected) →
        TellsBefore W.tells (at config.now auditor.old) reader.old.lines (ahead reader.old.held (H.left shelf.old)) line
        (W.output watch.old) (W.output watch.new) }
    ensures stops { IfErr result (λ _. Stops W.tells (at config.now auditor.old) (ahead reader.old.held (H.left shelf.old))
        (W.output watch.old) (W.output watch.new)) }
    ensures long { (line : ℕ) → result ≡ Err (AuditFault.LongLine line) →
        AtLine reader.old.lines (ahead reader.old.held (H.left shelf.old)) line IsLongLine }
    ensures large { result ≡ Err AuditFault.TooLarge → (text : List ℕ) → ahead reader.old.held (H.left shelf.old) ≡ Some text →
        reader.old.most < reader.old.bytes + length text }
    ensures told { H.told shelf.new ≡ H.told shelf.old }
    ensures later { (H.faults shelf.old ≤ H.faults shelf.new) × (W.faults watch.old ≤ W.faults watch.new) }
    ensures fault { result ≡ Err AuditFault.ReadFault → Rose (H.faults shelf.old) (H.faults shelf.new) }
    ensures put_fault { result ≡ Err AuditFault.WriteFault → Rose (W.faults watch.old) (W.faults watch.new) }
    ensures sure { IsTrue (H.sure shelf.old) → IsTrue (H.sure shelf.new) × (result ≢ Err AuditFault.ReadFault) }
{
    'lines: loop {
        if let Some(verdict) = read_line(auditor, config, reader, shelf, watch, steps)? {
            return Ok(verdict);
        }
    }
}
