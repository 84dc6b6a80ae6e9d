//! A listing read to its end, and what is told of its events on the way.
ghost use Rattle.std.specs.Prelude.{◌≡◌, ◌≢◌, ◌≤◌, ◌<◌, ◌⊎◌, ℕ, List, [], Option, Ok, Err, length, true, IfErr, IfSome, IsNone, IsTrue};
ghost use Rattle.io_edge.specs.Files.{HasFile, file_named};
ghost use Rattle.venue_words.specs.Causes.{Rose};
ghost use Rattle.venue_words.specs.Conditions.{IsConfig};
ghost use Rattle.listing_reader.specs.Fitting.{has_word_names};
ghost use Rattle.audit_core.specs.declared.verdict.TheConstants.{MAX_LISTING_BYTES};
ghost use Rattle.audit_core.specs.Audited.{IsListing};
ghost use Rattle.audit_core.specs.Differing.{DiffersAt, IsLongLine};
ghost use Rattle.audit_core.specs.Fronts.{SaysBefore, SaysSome};
ghost use Rattle.audit_core.specs.Names.{has_line_names};
ghost use Rattle.audit_core.specs.Telling.{ListsAndSays};

use crate::reading::Auditor;
use crate::verdict::{AuditFault, MAX_LISTING_BYTES, Verdict, read_lines};
use crate::watch::{Silent, Watch};
use io_edge::Shelf;
use line_reader::LineReader;
use std::alloc::Global;
use std::sync::ledger::Ledger;
use venue_words::{Config, Steps};

/// Whether the file of this name is the listing of journals of the config, or the first line with which it is not. A watch is
/// told of each event when its line was read, and of each symbol's end. No more of the file is held than a line, and the book
/// of one symbol.
pub fn follow<H: Shelf, W: Watch, L: Ledger>(
    alloc: Global,
    config: &Config,
    shelf: &mut H,
    name: &str,
    watch: &mut W,
    steps: &mut Steps<L>,
) -> Result<Verdict, AuditFault>
    requires config { IsConfig config.now }
    requires words { has_word_names config.now ≡ true }
    requires lines { has_line_names config.now ≡ true }
    requires heard { W.heard watch.old config.now 0 [] }

    // With `Same` the file lists journals, and all was said that is told of these. With a line that differs it lists none, the
    // line is the first with which it can be none, and all was said that is told of the lines before it.
    ensures same { result ≡ Ok Verdict.Same → IfSome (H.told shelf.old) (λ files. IfSome (file_named files name.now) (λ text.
        ListsAndSays W.tells config.now text (W.output watch.old) (W.output watch.new))) }
    ensures differs { (line : ℕ) (expected : Option (List ℕ)) → result ≡ Ok (Verdict.Differs line expected) →
        IfSome (H.told shelf.old) (λ files. IfSome (file_named files name.now) (λ text.
        DiffersAt (IsListing config.now) text line expected)) }
    ensures exact { (line : ℕ) (expected : Option (List ℕ)) → result ≡ Ok (Verdict.Differs line expected) →
        IfSome (H.told shelf.old) (λ files. IfSome (file_named files name.now) (λ text. IsListing config.now text → ⊥)) }
    ensures tells { (line : ℕ) (expected : Option (List ℕ)) → result ≡ Ok (Verdict.Differs line expected) →
        IfSome (H.told shelf.old) (λ files. IfSome (file_named files name.now) (λ text.
        SaysBefore W.tells config.now text line (W.output watch.old) (W.output watch.new))) }

    // Every other answer has its cause, and a beginning was said of what is told of some first lines.
    ensures stops { IfErr result (λ _. IfSome (H.told shelf.old) (λ files. IfSome (file_named files name.now) (λ text.
        SaysSome W.tells config.now text (W.output watch.old) (W.output watch.new)))) }
    ensures long { (line : ℕ) → result ≡ Err (AuditFault.LongLine line) →
        IfSome (H.told shelf.old) (λ files. IfSome (file_named files name.now) (λ text. IsLongLine text line)) }
    ensures large { result ≡ Err AuditFault.TooLarge → IfSome (H.told shelf.old) (λ files.
        IfSome (file_named files name.now) (λ text. MAX_LISTING_BYTES < length text)) }
    ensures missing { IfSome (H.told shelf.old) (λ files. IsNone (file_named files name.now) →
        (result ≡ Err AuditFault.ReadFault) ⊎ (result ≡ Err AuditFault.NoMemory)) }
    ensures told { H.told shelf.new ≡ H.told shelf.old }
    ensures later { (H.faults shelf.old ≤ H.faults shelf.new) × (W.faults watch.old ≤ W.faults watch.new) }
    ensures fault { result ≡ Err AuditFault.ReadFault → Rose (H.faults shelf.old) (H.faults shelf.new) }
    ensures put_fault { result ≡ Err AuditFault.WriteFault → Rose (W.faults watch.old) (W.faults watch.new) }
    ensures sure { IsTrue (H.sure shelf.old) →
        IsTrue (H.sure shelf.new) × (HasFile (H.told shelf.old) name.now → result ≢ Err AuditFault.ReadFault) }
{
    let mut reader = LineReader::new(alloc, 0, MAX_LISTING_BYTES)?;
    match shelf.begin(name) {
        Ok(()) => {}
        Err(_) => {
            drop(reader);
            return Err(AuditFault::ReadFault);
        }
    }
    let mut auditor = Auditor::new(alloc, config);
    let verdict = read_lines(&mut auditor, config, &mut reader, shelf, watch, steps);
    drop(auditor);
    drop(reader);
    verdict
}

/// Whether the file of this name is the listing of journals of the config, with the reports that the market's rules make of
/// them, or the first line with which it is not. No more of it is held than a line, and the books of its events.
pub fn verify<H: Shelf, L: Ledger>(
    alloc: Global,
    config: &Config,
    shelf: &mut H,
    name: &str,
    steps: &mut Steps<L>,
) -> Result<Verdict, AuditFault>
    requires config { IsConfig config.now }
    requires words { has_word_names config.now ≡ true }
    requires lines { has_line_names config.now ≡ true }

    // With `Same` the file is a listing of the config. With a line that differs it is none, and the line is the first with which
    // it can be none.
    ensures same { result ≡ Ok Verdict.Same → IfSome (H.told shelf.old) (λ files.
        IfSome (file_named files name.now) (IsListing config.now)) }
    ensures differs { (line : ℕ) (expected : Option (List ℕ)) → result ≡ Ok (Verdict.Differs line expected) →
        IfSome (H.told shelf.old) (λ files. IfSome (file_named files name.now) (λ text.
        DiffersAt (IsListing config.now) text line expected)) }
    ensures exact { (line : ℕ) (expected : Option (List ℕ)) → result ≡ Ok (Verdict.Differs line expected) →
        IfSome (H.told shelf.old) (λ files. IfSome (file_named files name.now) (λ text. IsListing config.now text → ⊥)) }

    // Every other answer has its cause.
    ensures long { (line : ℕ) → result ≡ Err (AuditFault.LongLine line) →
        IfSome (H.told shelf.old) (λ files. IfSome (file_named files name.now) (λ text. IsLongLine text line)) }
    ensures large { result ≡ Err AuditFault.TooLarge → IfSome (H.told shelf.old) (λ files.
        IfSome (file_named files name.now) (λ text. MAX_LISTING_BYTES < length text)) }
    ensures missing { IfSome (H.told shelf.old) (λ files. IsNone (file_named files name.now) →
        (result ≡ Err AuditFault.ReadFault) ⊎ (result ≡ Err AuditFault.NoMemory)) }
    ensures told { H.told shelf.new ≡ H.told shelf.old }
    ensures later { H.faults shelf.old ≤ H.faults shelf.new }
    ensures fault { result ≡ Err AuditFault.ReadFault → Rose (H.faults shelf.old) (H.faults shelf.new) }
    ensures put_fault { result ≢ Err AuditFault.WriteFault }
    ensures sure { IsTrue (H.sure shelf.old) →
        IsTrue (H.sure shelf.new) × (HasFile (H.told shelf.old) name.now → result ≢ Err AuditFault.ReadFault) }
{
    follow(alloc, config, shelf, name, &mut Silent, steps)
}
