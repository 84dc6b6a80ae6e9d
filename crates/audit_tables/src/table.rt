//! A table of an audited day.
ghost use Rattle.std.specs.Prelude.{◌≡◌, ◌≢◌, ◌≤◌, ◌<◌, ◌⊎◌, ℕ, List, [], Option, Ok, Err, true, false, length, IfErr, IfSome, IsErr, IsNone, IsTrue, OnOk};
ghost use Rattle.io_edge.specs.Files.{HasFile, file_named};
ghost use Rattle.venue_words.specs.Causes.{HasCause, Rose};
ghost use Rattle.venue_words.specs.Conditions.{IsConfig};
ghost use Rattle.venue_words.specs.declared.config.Config.{Config};
ghost use Rattle.line_reader.specs.declared.config_file.ConfigFault.{ConfigFault};
ghost use Rattle.line_reader.specs.declared.config_file.ConfigFault.TheVariants as config_fault;
ghost use Rattle.listing_reader.specs.Fitting.{has_word_names};
ghost use Rattle.audit_core.specs.declared.verdict.TheConstants.{MAX_LISTING_BYTES};
ghost use Rattle.audit_core.specs.Audited.{HasConfig, IsConfigFault, IsListing, LacksConfig, OfText, SaysConfig};
ghost use Rattle.audit_core.specs.Differing.{DiffersAt, IsLongLine};
ghost use Rattle.audit_core.specs.Names.{has_line_names};
ghost use Rattle.audit_core.specs.Telling.{SaysOn};
ghost use Rattle.audit_tables.specs.Tables.{PutsBefore, PutsDay, PutsListing, PutsSome};

use audit_core::{AuditFault, AuditFiles, AuditRefusal, Verdict, Watch, follow, has_line_names};
use io_edge::{Failed, Shelf};
use line_reader::read_config;
use listing_reader::has_word_names;
use std::alloc::Global;
use std::sync::ledger::Ledger;
use venue_words::limits::MAX_CONFIG_BYTES;
use venue_words::{Config, NoMemory, Steps};

/// A table that is told of the events of a listing, and goes to a sink.
pub trait Table: Watch {
    /// Its first line.
    ghost header: { List ℕ };

    /// Begins the table of a day with its header.
    fn begin(&mut self, config: &Config) -> Result<(), NoMemory>
        requires { IsConfig config.now }
        ensures heard { OnOk result (Self.heard self.new config.now 0 []) }
        ensures text { SaysOn (Self.output self.old) (Self.output self.new) header result }
        ensures quiet { Self.faults self.new ≡ Self.faults self.old };

    /// Puts all that is held.
    fn finish(&mut self) -> Result<(), Failed>
        ensures text { SaysOn (Self.output self.old) (Self.output self.new) [] result }
        ensures none { OnOk result ((Self.output self.new).held ≡ []) }
        ensures cause { HasCause (Self.faults self.old) (Self.faults self.new) result };
}

/// Audits the listing of a config, and tells the table of it.
fn tell_listing<H: Shelf, T: Table, L: Ledger>(
    alloc: Global,
    config: &Config,
    shelf: &mut H,
    name: &str,
    table: &mut T,
    steps: &mut Steps<L>,
) -> Result<Verdict, AuditFault>
    requires config { IsConfig config.now }
    requires words { has_word_names config.now ≡ true }
    requires lines { has_line_names config.now ≡ true }
    ensures same { result ≡ Ok Verdict.Same → IfSome (H.told shelf.old) (λ files. IfSome (file_named files name.now) (λ text.
        PutsListing T.tells T.header config.now text (T.output table.old) (T.output table.new))) }
    ensures differs { (line : ℕ) (expected : Option (List ℕ)) → result ≡ Ok (Verdict.Differs line expected) →
        IfSome (H.told shelf.old) (λ files. IfSome (file_named files name.now) (λ text.
        DiffersAt (IsListing config.now) text line expected)) }
    ensures exact { (line : ℕ) (expected : Option (List ℕ)) → result ≡ Ok (Verdict.Differs line expected) →
        IfSome (H.told shelf.old) (λ files. IfSome (file_named files name.now) (λ text. IsListing config.now text → ⊥)) }
    ensures tells { (line : ℕ) (expected : Option (List ℕ)) → result ≡ Ok (Verdict.Differs line expected) →
        IfSome (H.told shelf.old) (λ files. IfSome (file_named files name.now) (λ text.
        PutsBefore T.tells T.header config.now text line (T.output table.old) (T.output table.new))) }
    ensures stops { IfErr result (λ _. IfSome (H.told shelf.old) (λ files. IfSome (file_named files name.now) (λ text.
        PutsSome T.tells T.header config.now text (T.output table.old) (T.output table.new)))) }
    ensures long { (line : ℕ) → result ≡ Err (AuditFault.LongLine line) →
        IfSome (H.told shelf.old) (λ files. IfSome (file_named files name.now) (λ text. IsLongLine text line)) }
    ensures large { result ≡ Err AuditFault.TooLarge → IfSome (H.told shelf.old) (λ files.
        IfSome (file_named files name.now) (λ text. MAX_LISTING_BYTES < length text)) }
    ensures missing { IfSome (H.told shelf.old) (λ files. IsNone (file_named files name.now) → IsErr result) }
    ensures told { H.told shelf.new ≡ H.told shelf.old }
    ensures later { (H.faults shelf.old ≤ H.faults shelf.new) × (T.faults table.old ≤ T.faults table.new) }
    ensures fault { result ≡ Err AuditFault.ReadFault → Rose (H.faults shelf.old) (H.faults shelf.new) }
    ensures put_fault { result ≡ Err AuditFault.WriteFault → Rose (T.faults table.old) (T.faults table.new) }
    ensures sure { IsTrue (H.sure shelf.old) →
        IsTrue (H.sure shelf.new) × (HasFile (H.told shelf.old) name.now → result ≢ Err AuditFault.ReadFault) }
{
    table.begin(config)?;
    let verdict = follow(alloc, config, shelf, name, table, steps)?;
    match table.finish() {
        Ok(()) => Ok(verdict),
        Err(_) => Err(AuditFault::WriteFault),
    }
}

/// Whether a file is the listing of journals of the config in another file, or the first line with which it is not, as `audit`
/// says; and the table of the events in its lines goes to the table's sink.
pub fn tabulate<H: Shelf, T: Table, L: Ledger>(
    alloc: Global,
    files: AuditFiles<'_>,
    shelf: &mut H,
    table: &mut T,
    steps: &mut Steps<L>,
) -> Result<Verdict, AuditRefusal>
    // On a shelf that tells its files: with `Same` the one file is the listing of the config in the other, and the table tells of
    // its journals. With a line that differs it is none, the line is the first with which it can be none, and the table tells of
    // the lines before it.
    ensures same { result ≡ Ok Verdict.Same → IfSome (H.told shelf.old) (λ all.
        PutsDay T.tells T.header all files.entry.config.now files.entry.listing.now (T.output table.old) (T.output table.new)) }
    ensures differs { (line : ℕ) (expected : Option (List ℕ)) → result ≡ Ok (Verdict.Differs line expected) →
        IfSome (H.told shelf.old) (λ all. (config : Config) → HasConfig all files.entry.config.now config →
        OfText all files.entry.listing.now (λ text. DiffersAt (IsListing config) text line expected)) }
    ensures tells { (line : ℕ) (expected : Option (List ℕ)) → result ≡ Ok (Verdict.Differs line expected) →
        IfSome (H.told shelf.old) (λ all. (config : Config) → HasConfig all files.entry.config.now config →
        OfText all files.entry.listing.now (λ text.
        PutsBefore T.tells T.header config text line (T.output table.old) (T.output table.new))) }

    // Unless the answer is that the config was not read, its file says one.
    ensures read { IfSome (H.told shelf.old) (λ all. LacksConfig result ⊎ SaysConfig all files.entry.config.now) }
    ensures early { LacksConfig result ⊎ (result ≡ Err AuditRefusal.SplitName) → table.new ≡ table.old }

    // Every other answer has its cause, and a beginning of the table was put.
    ensures stops { IfErr result (λ _. IfSome (H.told shelf.old) (λ all. (config : Config) → HasConfig all files.entry.config.now config →
        OfText all files.entry.listing.now (λ text. PutsSome T.tells T.header config text (T.output table.old) (T.output table.new)))) }
    ensures config { (fault : ConfigFault) → result ≡ Err (AuditRefusal.Config fault) → IfSome (H.told shelf.old) (λ all.
        IsConfigFault all files.entry.config.now fault) }
    ensures split { result ≡ Err AuditRefusal.SplitName → IfSome (H.told shelf.old) (λ all. (config : Config) →
        HasConfig all files.entry.config.now config → (has_word_names config ≡ false) ⊎ (has_line_names config ≡ false)) }
    ensures long { (line : ℕ) → result ≡ Err (AuditRefusal.Listing (AuditFault.LongLine line)) → IfSome (H.told shelf.old) (λ all.
        OfText all files.entry.listing.now (λ text. IsLongLine text line)) }
    ensures large { result ≡ Err (AuditRefusal.Listing AuditFault.TooLarge) → IfSome (H.told shelf.old) (λ all.
        OfText all files.entry.listing.now (λ text. MAX_LISTING_BYTES < length text)) }
    ensures missing { IfSome (H.told shelf.old) (λ all. IsNone (file_named all files.entry.config.now) →
        (result ≡ Err (AuditRefusal.Config config_fault.ReadFault)) ⊎ (result ≡ Err (AuditRefusal.Config config_fault.NoMemory))) }
    ensures missing_listing { IfSome (H.told shelf.old) (λ all. IsNone (file_named all files.entry.listing.now) → IsErr result) }
    ensures told { H.told shelf.new ≡ H.told shelf.old }
    ensures later { (H.faults shelf.old ≤ H.faults shelf.new) × (T.faults table.old ≤ T.faults table.new) }
    ensures config_fault { result ≡ Err (AuditRefusal.Config config_fault.ReadFault) → Rose (H.faults shelf.old) (H.faults shelf.new) }
    ensures listing_fault { result ≡ Err (AuditRefusal.Listing AuditFault.ReadFault) → Rose (H.faults shelf.old) (H.faults shelf.new) }
    ensures put_fault { result ≡ Err (AuditRefusal.Listing AuditFault.WriteFault) → Rose (T.faults table.old) (T.faults table.new) }
    ensures sure { IsTrue (H.sure shelf.old) → IsTrue (H.sure shelf.new) }
    ensures sure_config { IsTrue (H.sure shelf.old) → HasFile (H.told shelf.old) files.entry.config.now →
        result ≢ Err (AuditRefusal.Config config_fault.ReadFault) }
    ensures sure_listing { IsTrue (H.sure shelf.old) → HasFile (H.told shelf.old) files.entry.listing.now →
        result ≢ Err (AuditRefusal.Listing AuditFault.ReadFault) }
{
    let config = match read_config(alloc, shelf, files.config, MAX_CONFIG_BYTES) {
        Ok(file) => file.config,
        Err(fault) => return Err(AuditRefusal::Config(fault)),
    };
    if !has_word_names(&config) || !has_line_names(&config) {
        return Err(AuditRefusal::SplitName);
    }
    match tell_listing(alloc, &config, shelf, files.listing, table, steps) {
        Ok(verdict) => Ok(verdict),
        Err(fault) => Err(AuditRefusal::Listing(fault)),
    }
}
