//! An audit of a listing by its files.
ghost use Rattle.std.specs.Prelude.{◌≡◌, ◌≢◌, ◌≤◌, ◌<◌, ◌⊎◌, ℕ, List, Option, false, length, Ok, Err, IfSome, IsErr, IsNone, IsTrue};
ghost use Rattle.io_edge.specs.Files.{HasFile, file_named};
ghost use Rattle.venue_words.specs.Causes.{Rose};
ghost use Rattle.line_reader.specs.declared.config_file.ConfigFault.TheVariants as config_fault;
ghost use Rattle.line_reader.specs.declared.config_file.ConfigFault.{ConfigFault};
ghost use Rattle.listing_reader.specs.Fitting.{has_word_names};
ghost use Rattle.venue_words.specs.declared.config.Config.{Config};
ghost use Rattle.audit_core.specs.Audited.{HasConfig, HasListing, IsConfigFault, IsListing, LacksConfig, OfText, SaysConfig};
ghost use Rattle.audit_core.specs.Differing.{DiffersAt, IsLongLine};
ghost use Rattle.audit_core.specs.Names.{has_line_names};
ghost use Rattle.audit_core.specs.declared.verdict.TheConstants.{MAX_LISTING_BYTES};

use crate::following::verify;
use crate::names::has_line_names;
use crate::verdict::{AuditFault, Verdict};
use io_edge::Shelf;
use line_reader::{ConfigFault, read_config};
use listing_reader::has_word_names;
use std::alloc::Global;
use std::sync::ledger::Ledger;
use venue_words::Steps;
use venue_words::limits::MAX_CONFIG_BYTES;

/// The names of the files of an audit.
#[derive(Clone, Copy, Debug)]
pub struct AuditFiles<'a> {
    pub config: &'a str,
    pub listing: &'a str,
}

/// Why there is no verdict.
#[derive(Clone, Copy, Debug, PartialEq, Eq)]
pub enum AuditRefusal {
    /// The config was not read.
    Config(ConfigFault),
    /// A name of the config has a space, so that the words of a listing's lines can't be told apart.
    SplitName,
    /// The listing was not read to its end.
    Listing(AuditFault),
}

/// Whether a file is the listing of journals of the config in another file, or the first line with which it is not.
pub fn audit<H: Shelf, L: Ledger>(
    alloc: Global,
    files: AuditFiles<'_>,
    shelf: &mut H,
    steps: &mut Steps<L>,
) -> Result<Verdict, AuditRefusal>
    // On a shelf that tells its files: with `Same` the one file is the listing of the config in the other. With a line that
    // differs it is none, and the line is the first with which it can be none.
    ensures same { result ≡ Ok Verdict.Same → IfSome (H.told shelf.old) (λ all.
        HasListing all files.entry.config.now files.entry.listing.now) }
    ensures exact { (line : ℕ) (expected : Option (List ℕ)) → result ≡ Ok (Verdict.Differs line expected) →
        IfSome (H.told shelf.old) (λ all. HasListing all files.entry.config.now files.entry.listing.now → ⊥) }
    ensures differs { (line : ℕ) (expected : Option (List ℕ)) → result ≡ Ok (Verdict.Differs line expected) →
        IfSome (H.told shelf.old) (λ all. (config : Config) → HasConfig all files.entry.config.now config →
        OfText all files.entry.listing.now (λ text. DiffersAt (IsListing config) text line expected)) }

    // Unless the answer is that the config was not read, its file says one.
    ensures read { IfSome (H.told shelf.old) (λ all. LacksConfig result ⊎ SaysConfig all files.entry.config.now) }

    // Every other answer has its cause.
    ensures config { (fault : ConfigFault) → result ≡ Err (AuditRefusal.Config fault) → IfSome (H.told shelf.old) (λ all.
        IsConfigFault all files.entry.config.now fault) }
    ensures split { result ≡ Err AuditRefusal.SplitName → IfSome (H.told shelf.old) (λ all. (config : Config) →
        HasConfig all files.entry.config.now config → (has_word_names config ≡ false) ⊎ (has_line_names config ≡ false)) }
    ensures long { (line : ℕ) → result ≡ Err (AuditRefusal.Listing (AuditFault.LongLine line)) → IfSome (H.told shelf.old) (λ all.
        OfText all files.entry.listing.now (λ text. IsLongLine text line)) }
    ensures large { result ≡ Err (AuditRefusal.Listing AuditFault.TooLarge) → IfSome (H.told shelf.old) (λ all.
        OfText all files.entry.listing.now (λ text. MAX_LISTING_BYTES < length text)) }
    ensures missing { IfSome (H.told shelf.old) (λ all. IsNone (file_named all files.entry.config.now) →
        (result ≡ Err (AuditRefusal.Config config_fault.ReadFault)) ⊎ (result ≡ Err (AuditRefusal.Config config_fault.NoMemory))) }
    ensures missing_listing { IfSome (H.told shelf.old) (λ all. IsNone (file_named all files.entry.listing.now) → IsErr result) }
    ensures quiet { result ≢ Err (AuditRefusal.Listing AuditFault.WriteFault) }
    ensures told { H.told shelf.new ≡ H.told shelf.old }
    ensures later { H.faults shelf.old ≤ H.faults shelf.new }
    ensures config_fault { result ≡ Err (AuditRefusal.Config config_fault.ReadFault) → Rose (H.faults shelf.old) (H.faults shelf.new) }
    ensures listing_fault { result ≡ Err (AuditRefusal.Listing AuditFault.ReadFault) → Rose (H.faults shelf.old) (H.faults shelf.new) }
    ensures sure { IsTrue (H.sure shelf.old) → IsTrue (H.sure shelf.new) }
    ensures sure_config { IsTrue (H.sure shelf.old) → HasFile (H.told shelf.old) files.entry.config.now →
        result ≢ Err (AuditRefusal.Config config_fault.ReadFault) }
    ensures sure_listing { IsTrue (H.sure shelf.old) → HasFile (H.told shelf.old) files.entry.listing.now →
        result ≢ Err (AuditRefusal.Listing AuditFault.ReadFault) }
{
    let config = match read_config(alloc, shelf, files.config, MAX_CONFIG_BYTES) {
        Ok(file) => file.config,
        Err(fault) => return Err(AuditRefusal::Config(fault)),
    };
    if !has_word_names(&config) || !has_line_names(&config) {
        return Err(AuditRefusal::SplitName);
    }
    match verify(alloc, &config, shelf, files.listing, steps) {
        Ok(verdict) => Ok(verdict),
        Err(fault) => Err(AuditRefusal::Listing(fault)),
    }
}
