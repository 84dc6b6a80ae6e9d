//! What a run begins with: its plan and its config.
ghost use Rattle.std.specs.Prelude.{◌≡◌, ◌≢◌, ◌≤◌, IfOk, IfSome, IsNone, IsTrue, Err, Some, None};
ghost use Rattle.io_edge.specs.Files.{HasFile, file_named};
ghost use Rattle.line_reader.specs.ConfigFile.{config_file};
ghost use Rattle.program_words.specs.Words.{texts};
ghost use Rattle.venue_words.specs.declared.limits.TheConstants.{MAX_CONFIG_BYTES};
ghost use Rattle.serve_core.specs.Plans.{IsRefusedFor, MeetsSetup, Plan, plan_in, plan_of};
ghost use Rattle.venue_words.specs.Causes.{Rose};
ghost use Rattle.venue_words.specs.Conditions.{IsConfig};
ghost use Rattle.serve_core.specs.Setups.{of_words, of_config};

use crate::plan::{ServePlan, serve_words};
use io_edge::Shelf;
use line_reader::{ConfigFault, read_config};
use program_words::WordFault;
use script_text::{LimitCause, LineCause};
use std::alloc::Global;
use venue_words::Config;
use venue_words::limits::MAX_CONFIG_BYTES;

/// Why a run does not begin. Lines are counted from 1.
#[derive(Clone, Copy, Debug, PartialEq, Eq)]
pub enum SetupFault {
    /// The words have no form of a run.
    BadWords,
    /// That line of the config is the first one outside the grammar.
    BadLine { line: u32, cause: LineCause },
    /// That line of the config is the first one that would pass a limit.
    LimitLine { line: u32, which: LimitCause },
    /// The config could not be opened or read.
    ReadFault,
    /// Memory was wanted.
    NoMemory,
}

/// Why there is no plan.
fn of_words(fault: WordFault) -> SetupFault
    ensures { result ≡ of_words fault }
{
    match fault {
        WordFault::BadWords => SetupFault::BadWords,
        WordFault::NoMemory => SetupFault::NoMemory,
    }
}

/// Why there is no config.
fn of_config(fault: ConfigFault) -> SetupFault
    ensures { result ≡ of_config fault }
{
    match fault {
        ConfigFault::Bad { line, cause } => SetupFault::BadLine { line, cause },
        ConfigFault::Limit { line, which } => SetupFault::LimitLine { line, which },
        ConfigFault::ReadFault => SetupFault::ReadFault,
        ConfigFault::NoMemory => SetupFault::NoMemory,
    }
}

/// The plan of the words, and the config of the whole file that it names.
pub fn serve_setup<H: Shelf>(
    alloc: Global,
    words: &[String],
    shelf: &mut H,
) -> Result<(ServePlan, Config), SetupFault>
    ensures plan { IfOk result (λ setup. plan_of (texts words.now) ≡ Some (plan_in setup.0)) }
    ensures bad_words { result ≡ Err SetupFault.BadWords → plan_of (texts words.now) ≡ None }
    ensures no_plan { plan_of (texts words.now) ≡ None → IsRefusedFor SetupFault.BadWords result }

    // On a shelf that tells its files the config is that of the named file's bytes, or its first line that is refused is told; a
    // file that is not there is a read fault.
    ensures meant { (plan : Plan) → plan_of (texts words.now) ≡ Some plan → IfSome (H.told shelf.old) (λ files.
        IfSome (file_named files plan.config) (λ text. MeetsSetup (config_file MAX_CONFIG_BYTES text) result)) }
    ensures missing { (plan : Plan) → plan_of (texts words.now) ≡ Some plan → IfSome (H.told shelf.old) (λ files.
        IsNone (file_named files plan.config) → IsRefusedFor SetupFault.ReadFault result) }
    ensures sure { IsTrue (H.sure shelf.old) → (plan : Plan) → plan_of (texts words.now) ≡ Some plan →
        HasFile (H.told shelf.old) plan.config → result ≢ Err SetupFault.ReadFault }

    ensures config { IfOk result (λ setup. IsConfig setup.1) }
    ensures connections { IfOk result (λ setup. (1 ≤ setup.0.connections) × (setup.0.connections ≤ 64)) }
    ensures later { H.faults shelf.old ≤ H.faults shelf.new }
    ensures read { result ≡ Err SetupFault.ReadFault → Rose (H.faults shelf.old) (H.faults shelf.new) }
{
    let plan = match serve_words(alloc, words) {
        Ok(plan) => plan,
        Err(fault) => return Err(of_words(fault)),
    };
    match read_config(alloc, shelf, plan.config.as_str(), MAX_CONFIG_BYTES) {
        Ok(file) => Ok((plan, file.config)),
        Err(fault) => Err(of_config(fault)),
    }
}
