//! The picture of a symbol's day by the files of its audit.
ghost use Rattle.std.specs.Prelude.{◌≡◌, ◌≢◌, ◌≤◌, ◌<◌, ◌⊎◌, ℕ, List, Option, Ok, Err, true, false, IfOk, IfSome, IsNone, length};
ghost use Rattle.io_edge.specs.Files.{file_named};
ghost use Rattle.venue_words.specs.Causes.{Rose};
ghost use Rattle.venue_words.specs.Conditions.{IsConfig};
ghost use Rattle.venue_words.specs.declared.config.Config.{Config};
ghost use Rattle.line_reader.specs.declared.config_file.ConfigFault.{ConfigFault};
ghost use Rattle.line_reader.specs.declared.config_file.ConfigFault.TheVariants as config_fault;
ghost use Rattle.listing_reader.specs.Fitting.{has_word_names};
ghost use Rattle.audit_core.specs.Audited.{HasConfig, HasListing, IsConfigFault, IsListing, LacksConfig, OfText, SaysConfig};
ghost use Rattle.audit_core.specs.Differing.{DiffersAt, IsLongLine};
ghost use Rattle.audit_core.specs.declared.verdict.TheConstants.{MAX_LISTING_BYTES};
ghost use Rattle.audit_core.specs.Names.{has_line_names};
ghost use Rattle.audit_chart.specs.Drawing.{IfPicture, IsListed};

use crate::day::{Day, DayWatch};
use crate::picture::picture_of;
use audit_core::{AuditFault, AuditFiles, AuditRefusal, Verdict, follow, has_line_names};
use io_edge::Shelf;
use line_reader::read_config;
use listing_reader::has_word_names;
use std::alloc::Global;
use std::sync::ledger::Ledger;
use venue_words::limits::MAX_CONFIG_BYTES;
use venue_words::{Bytes, Config, Steps};

/// What comes of it.
#[derive(Drop)]
pub enum Drawn {
    /// The listing is one of the config, and this is the picture, as SVG.
    Picture(Vec<u8>),
    /// The line is the first with which it can be none.
    Differs { line: u32, expected: Option<Bytes> },
    /// The config has no symbol of that name.
    NoSuchSymbol,
}

/// The number of the symbol with a name.
fn symbol_named(config: &Config, name: &str) -> Option<u32> {
    let mut number = 0u32;
    for symbol in config.symbols.as_slice() {
        if symbol.as_slice() == name.as_bytes() {
            return Some(number);
        }
        number = number.saturating_add(1);
    }
    None
}

/// The day of a symbol of a config.
fn drawn_of<H: Shelf, L: Ledger>(
    alloc: Global,
    config: &Config,
    shelf: &mut H,
    listing: &str,
    symbol: &str,
    steps: &mut Steps<L>,
) -> Result<Drawn, AuditFault>
    requires config { IsConfig config.now }
    requires words { has_word_names config.now ≡ true }
    requires lines { has_line_names config.now ≡ true }
    ensures picture { IfOk result (λ drawn. IfPicture drawn (IfSome (H.told shelf.old) (λ files.
        IsListed files listing.now config.now))) }
    ensures differs { (line : ℕ) (expected : Option (List ℕ)) → result ≡ Ok (Drawn.Differs line expected) →
        IfSome (H.told shelf.old) (λ files. IfSome (file_named files listing.now) (λ text.
        DiffersAt (IsListing config.now) text line expected)) }
    ensures long { (line : ℕ) → result ≡ Err (AuditFault.LongLine line) →
        IfSome (H.told shelf.old) (λ files. IfSome (file_named files listing.now) (λ text. IsLongLine text line)) }
    ensures large { result ≡ Err AuditFault.TooLarge → IfSome (H.told shelf.old) (λ files.
        IfSome (file_named files listing.now) (λ text. MAX_LISTING_BYTES < length text)) }
    ensures told { H.told shelf.new ≡ H.told shelf.old }
    ensures later { H.faults shelf.old ≤ H.faults shelf.new }
    ensures fault { result ≡ Err AuditFault.ReadFault → Rose (H.faults shelf.old) (H.faults shelf.new) }
    ensures quiet { result ≢ Err AuditFault.WriteFault }
{
    let Some(number) = symbol_named(config, symbol) else {
        return Ok(Drawn::NoSuchSymbol);
    };
    let mut watch = DayWatch {
        symbol: number,
        day: Day::new(alloc, config.markets.len() as u32)?,
    };
    match follow(alloc, config, shelf, listing, &mut watch, steps)? {
        Verdict::Same => Ok(Drawn::Picture(picture_of(alloc, symbol.as_bytes(), &mut watch.day)?)),
        Verdict::Differs { line, expected } => Ok(Drawn::Differs { line, expected }),
    }
}

/// Audits the listing of a config, both of them files, and makes a picture of a symbol's day where it is one.
pub fn draw_day<H: Shelf, L: Ledger>(
    alloc: Global,
    files: AuditFiles<'_>,
    symbol: &str,
    shelf: &mut H,
    steps: &mut Steps<L>,
) -> Result<Drawn, AuditRefusal>
    // On a shelf that tells its files a picture is made only where the one file is the listing of the config in the other. With a line
    // that differs it is none, and the line is the first with which it can be none.
    ensures picture { IfOk result (λ drawn. IfPicture drawn (IfSome (H.told shelf.old) (λ all.
        HasListing all files.entry.config.now files.entry.listing.now))) }
    ensures differs { (line : ℕ) (expected : Option (List ℕ)) → result ≡ Ok (Drawn.Differs line expected) →
        IfSome (H.told shelf.old) (λ all. (config : Config) → HasConfig all files.entry.config.now config →
        OfText all files.entry.listing.now (λ text. DiffersAt (IsListing config) text line expected)) }

    // Unless the answer is that the config was not read, its file says one.
    ensures read { IfSome (H.told shelf.old) (λ all. LacksConfig result ⊎ SaysConfig all files.entry.config.now) }

    // Every other answer has its cause.
    ensures config { (fault : ConfigFault) → result ≡ Err (AuditRefusal.Config fault) → IfSome (H.told shelf.old) (λ all.
        IsConfigFault all files.entry.config.now fault) }
    ensures split { result ≡ Err AuditRefusal.SplitName → IfSome (H.told shelf.old) (λ all. (config : Config) →
        HasConfig all files.entry.config.now config → (has_word_names config ≡ false) ⊎ (has_line_names config ≡ false)) }
    ensures long { (line : ℕ) → result ≡ Err (AuditRefusal.Listing (AuditFault.LongLine line)) → IfSome (H.told shelf.old) (λ all.
        OfText all files.entry.listing.now (λ text. IsLongLine text line)) }
    ensures large { result ≡ Err (AuditRefusal.Listing AuditFault.TooLarge) → IfSome (H.told shelf.old) (λ all.
        OfText all files.entry.listing.now (λ text. MAX_LISTING_BYTES < length text)) }
    ensures missing { IfSome (H.told shelf.old) (λ all. IsNone (file_named all files.entry.config.now) →
        (result ≡ Err (AuditRefusal.Config config_fault.ReadFault)) ⊎ (result ≡ Err (AuditRefusal.Config config_fault.NoMemory))) }
    ensures quiet { result ≢ Err (AuditRefusal.Listing AuditFault.WriteFault) }
    ensures told { H.told shelf.new ≡ H.told shelf.old }
    ensures later { H.faults shelf.old ≤ H.faults shelf.new }
    ensures config_fault { result ≡ Err (AuditRefusal.Config config_fault.ReadFault) → Rose (H.faults shelf.old) (H.faults shelf.new) }
    ensures listing_fault { result ≡ Err (AuditRefusal.Listing AuditFault.ReadFault) → Rose (H.faults shelf.old) (H.faults shelf.new) }
{
    let config = match read_config(alloc, shelf, files.config, MAX_CONFIG_BYTES) {
        Ok(file) => file.config,
        Err(fault) => return Err(AuditRefusal::Config(fault)),
    };
    if !has_word_names(&config) || !has_line_names(&config) {
        return Err(AuditRefusal::SplitName);
    }
    match drawn_of(alloc, &config, shelf, files.listing, symbol, steps) {
        Ok(drawn) => Ok(drawn),
        Err(fault) => Err(AuditRefusal::Listing(fault)),
    }
}
