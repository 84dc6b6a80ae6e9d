//! A config that is read from a shelf.
ghost use Rattle.std.specs.Prelude.{◌≡◌, ◌≢◌, ◌≤◌, ◌<◌, ◌+◌, ◌^◌, ◌⊎◌, List, ℕ, Some, Ok, IfOk, IfErr, IfSome, IsNone, IsTrue, Err, OnOk, if◌then◌else◌};
ghost use Rattle.io_edge.specs.Files.{HasFile, file_named};
ghost use Rattle.script_text.specs.Header.{blank};
ghost use Rattle.venue_words.specs.Causes.{Rose};
ghost use Rattle.venue_words.specs.Conditions.{IsConfig};
ghost use Rattle.line_reader.specs.Reading.{ahead};
ghost use Rattle.line_reader.specs.ConfigFile.{config_file, header_text, behind_text, fault_of, MeetsConfig, IsMeant};
ghost use Rattle.venue_words.specs.declared.config.Config.{Config};

use crate::over::weigh;
use crate::reader::{LineReader, NextLine};
use io_edge::Shelf;
use script_text::{Header, LimitCause, LineCause, LineFault};
use std::alloc::Global;
use venue_words::{Config, NoMemory};

/// A config, and how many bytes its file has.
#[derive(Debug, Drop)]
pub struct ConfigFile {
    pub config: Config,
    pub bytes: u64,
}

/// Why a config was not read. Lines are counted from 1.
#[derive(Clone, Copy, Debug, PartialEq, Eq)]
pub enum ConfigFault {
    /// That line is the first one outside the grammar.
    Bad { line: u32, cause: LineCause },
    /// That line is the first one that would pass a limit.
    Limit { line: u32, which: LimitCause },
    /// The file could not be opened or read.
    ReadFault,
    /// Memory was wanted.
    NoMemory,
}

impl From<NoMemory> for ConfigFault {
    ghost use Rattle.line_reader.specs.declared.config_file.ConfigFault.TheVariants.{NoMemory as memory};

    ghost from_gives = { λ _ fault. fault ≡ memory };

    fn from(_error: NoMemory) -> ConfigFault {
        ConfigFault::NoMemory
    }
}

/// The fault of a refused line.
fn fault_of(fault: LineFault) -> ConfigFault
    ensures { result ≡ fault_of fault }
{
    match fault {
        LineFault::Bad { line, cause } => ConfigFault::Bad { line, cause },
        LineFault::Limit { line, which } => ConfigFault::Limit { line, which },
        LineFault::NoMemory => ConfigFault::NoMemory,
    }
}

/// Reads the lines of a header, up to its BEGIN line.
fn read_lines<H: Shelf>(
    alloc: Global,
    reader: &mut LineReader,
    shelf: &mut H,
) -> Result<Config, ConfigFault>
    requires begun { IsTrue (H.begun shelf.old) }
    requires within { reader.old.bytes ≤ reader.old.most }
    requires first { reader.old.lines ≡ 0 }
    ensures ok { IfOk result (λ config. (text : List ℕ) → ahead reader.old.held (H.left shelf.old) ≡ Some text →
        (more : List ℕ) × (ahead reader.new.held (H.left shelf.new) ≡ Some more)
        × (header_text reader.old.most 0 reader.old.bytes blank text ≡ behind_text reader.new.lines reader.new.bytes config more)) }
    ensures err { IfErr result (λ fault. (text : List ℕ) → ahead reader.old.held (H.left shelf.old) ≡ Some text →
        IsMeant (header_text reader.old.most 0 reader.old.bytes blank text) fault) }
    ensures config { IfOk result IsConfig }
    ensures within { OnOk result (reader.new.bytes ≤ reader.old.most) }
    ensures most { reader.new.most ≡ reader.old.most }
    ensures told { H.told shelf.new ≡ H.told shelf.old }
    ensures begun { IsTrue (H.begun shelf.new) }
    ensures later { H.faults shelf.old ≤ H.faults shelf.new }
    ensures fault { result ≡ Err ConfigFault.ReadFault → Rose (H.faults shelf.old) (H.faults shelf.new) }
    ensures sure { IsTrue (H.sure shelf.old) → IsTrue (H.sure shelf.new) × (result ≢ Err ConfigFault.ReadFault) }
{
    let mut header = Header::new(alloc);
    loop {
        let line = reader.lines() + 1;
        match reader.next(shelf) {
            NextLine::Line { text, is_over } => {
                match weigh(header.line(alloc, line, text), line, is_over) {
                    Ok(true) => return Ok(header.config),
                    Ok(false) => {}
                    Err(fault) => return Err(fault_of(fault)),
                }
            }
            NextLine::End { rest: _ } => {
                return Err(ConfigFault::Bad {
                    line,
                    cause: LineCause::NoEnd,
                });
            }
            NextLine::TooLong => {
                return Err(ConfigFault::Limit {
                    line,
                    which: LimitCause::Line,
                });
            }
            NextLine::ReadFault => return Err(ConfigFault::ReadFault),
        }
    }
}

/// Sees that nothing stands behind a header.
fn read_end<H: Shelf>(reader: &mut LineReader, shelf: &mut H) -> Result<(), ConfigFault>
    requires begun { IsTrue (H.begun shelf.old) }
    requires within { reader.old.bytes ≤ reader.old.most }
    ensures ok { OnOk result ((config : Config) (text : List ℕ) → ahead reader.old.held (H.left shelf.old) ≡ Some text →
        behind_text reader.old.lines reader.old.bytes config text ≡ Ok (config, reader.new.bytes)) }
    ensures err { IfErr result (λ fault. (config : Config) (text : List ℕ) → ahead reader.old.held (H.left shelf.old) ≡ Some text →
        IsMeant (behind_text reader.old.lines reader.old.bytes config text) fault) }
    ensures within { OnOk result (reader.new.bytes ≤ reader.old.most) }
    ensures most { reader.new.most ≡ reader.old.most }
    ensures told { H.told shelf.new ≡ H.told shelf.old }
    ensures later { H.faults shelf.old ≤ H.faults shelf.new }
    ensures fault { result ≡ Err ConfigFault.ReadFault → Rose (H.faults shelf.old) (H.faults shelf.new) }
    ensures sure { IsTrue (H.sure shelf.old) → IsTrue (H.sure shelf.new) × (result ≢ Err ConfigFault.ReadFault) }
{
    let line = reader.lines() + 1;
    match reader.next(shelf) {
        NextLine::Line { .. } => Err(ConfigFault::Bad {
            line,
            cause: LineCause::BadHeader,
        }),
        NextLine::End { rest } => {
            if rest.is_empty() {
                Ok(())
            } else {
                Err(ConfigFault::Bad {
                    line,
                    cause: LineCause::NoEnd,
                })
            }
        }
        NextLine::TooLong => Err(ConfigFault::Limit {
            line,
            which: LimitCause::Line,
        }),
        NextLine::ReadFault => Err(ConfigFault::ReadFault),
    }
}

/// Reads the config in the file of this name, which is a header alone, and counts its bytes, of which there may be at most
/// `most`. A refused config is known by its first line that is refused: the cause is the first of the line's causes, then
/// the limits, with that on the whole file first.
pub fn read_config<H: Shelf>(
    alloc: Global,
    shelf: &mut H,
    name: &str,
    most: u64,
) -> Result<ConfigFile, ConfigFault>
    requires { most < 2 ^ 31 }
    ensures read { IfSome (H.told shelf.old) (λ files. IfSome (file_named files name.now) (λ text.
        MeetsConfig (config_file most text) result)) }
    ensures missing { IfSome (H.told shelf.old) (λ files. IsNone (file_named files name.now) →
        (result ≡ Err ConfigFault.ReadFault) ⊎ (result ≡ Err ConfigFault.NoMemory)) }
    ensures config { IfOk result (λ file. IsConfig file.config) }
    ensures bytes { IfOk result (λ file. file.bytes ≤ most) }
    ensures told { H.told shelf.new ≡ H.told shelf.old }
    ensures later { H.faults shelf.old ≤ H.faults shelf.new }
    ensures fault { result ≡ Err ConfigFault.ReadFault → Rose (H.faults shelf.old) (H.faults shelf.new) }
    ensures sure { IsTrue (H.sure shelf.old) →
        IsTrue (H.sure shelf.new) × (HasFile (H.told shelf.old) name.now → result ≢ Err ConfigFault.ReadFault) }
{
    let mut reader = LineReader::new(alloc, 0, most)?;
    match shelf.begin(name) {
        Ok(()) => {}
        Err(_) => return Err(ConfigFault::ReadFault),
    }
    let config = match read_lines(alloc, &mut reader, shelf) {
        Ok(config) => config,
        Err(fault) => return Err(fault),
    };
    match read_end(&mut reader, shelf) {
        Ok(()) => Ok(ConfigFile {
            config,
            bytes: reader.bytes(),
        }),
        Err(fault) => Err(fault),
    }
}
