//! The files of a run.
ghost use Rattle.std.specs.Prelude.{◌≡◌, ◌≢◌, ◌≤◌, None, Err, IfOk, IfSome, IsErr, IsTrue, length};
ghost use Rattle.venue_words.specs.Causes.{Rose};
ghost use Rattle.venue_words.specs.Conditions.{IsConfig};
ghost use Rattle.feeds_core.specs.FeedPlan.{plan_in};
ghost use Rattle.feeds_core.specs.FeedRuns.{HasNamed, named_texts};
ghost use Rattle.feeds_core.specs.RunFiles.{Holds, IsReady, already_in, is_of};

use crate::feed_text::FeedText;
use crate::plan::FeedPlan;
use crate::reading::{ReadRefusal, read_feeds};
use io_edge::Shelf;
use line_reader::{ConfigFault, ConfigFile, read_config};
use script_text::LineFault;
use std::alloc::Global;
use venue_words::limits::MAX_CONFIG_BYTES;

/// What was read of a run's files.
#[derive(Drop)]
pub struct RunFiles {
    /// The config, or its first refused line.
    pub config: Result<ConfigFile, LineFault>,
    /// What is kept of the feeds.
    pub feeds: Vec<FeedText>,
}

/// What was read of a config's file, where it could be read.
fn config_of(
    read: Result<ConfigFile, ConfigFault>,
) -> Result<Result<ConfigFile, LineFault>, ReadRefusal>
    ensures config { IfOk result (λ config. is_of read config) }
    ensures ready { IfOk read (λ file. IsConfig file.config × (file.bytes ≤ MAX_CONFIG_BYTES)) → IfOk result IsReady }
    ensures fault { result ≡ Err ReadRefusal.ReadFault → read ≡ Err ConfigFault.ReadFault }
{
    match read {
        Ok(file) => Ok(Ok(file)),
        Err(ConfigFault::Bad { line, cause }) => Ok(Err(LineFault::Bad { line, cause })),
        Err(ConfigFault::Limit { line, which }) => Ok(Err(LineFault::Limit { line, which })),
        Err(ConfigFault::ReadFault) => Err(ReadRefusal::ReadFault),
        Err(ConfigFault::NoMemory) => Err(ReadRefusal::NoMemory),
    }
}

/// The bytes of a config that was read.
fn already_in(config: &Result<ConfigFile, LineFault>) -> u64
    requires { IsReady config.now }
    ensures already { result ≡ already_in config.now }
    ensures within { result ≤ MAX_CONFIG_BYTES }
{
    match config {
        Ok(file) => file.bytes,
        Err(_) => 0,
    }
}

/// Reads the files that are named: the config first, and then the feeds in their order, also behind one that is refused.
pub fn read_files<H: Shelf>(
    alloc: Global,
    plan: FeedPlan<'_>,
    shelf: &mut H,
) -> Result<RunFiles, ReadRefusal>
    ensures holds { IfSome (H.told shelf.old) (λ files. IfSome (named_texts files (plan_in plan.entry)) (λ texts.
        IfOk result (Holds texts))) }
    ensures missing { IfSome (H.told shelf.old) (λ files. named_texts files (plan_in plan.entry) ≡ None → IsErr result) }
    ensures ready { IfOk result (λ files. IsReady files.config) }
    ensures count { IfOk result (λ files. length files.feeds.items ≡ length plan.entry.feeds.now) }
    ensures told { H.told shelf.new ≡ H.told shelf.old }
    ensures later { H.faults shelf.old ≤ H.faults shelf.new }
    ensures fault { result ≡ Err ReadRefusal.ReadFault → Rose (H.faults shelf.old) (H.faults shelf.new) }
    ensures sure { IsTrue (H.sure shelf.old) → HasNamed (H.told shelf.old) (plan_in plan.entry) → result ≢ Err ReadRefusal.ReadFault }
{
    let config = config_of(read_config(alloc, shelf, plan.config, MAX_CONFIG_BYTES))?;
    let already = already_in(&config);
    match read_feeds(alloc, shelf, plan.feeds, already) {
        Ok(feeds) => Ok(RunFiles { config, feeds }),
        Err(refusal) => {
            drop(config);
            Err(refusal)
        }
    }
}
