//! What a run begins with: the venue and the drop session that its words ask for.
ghost use Rattle.std.specs.Prelude.{◌≡◌, ◌≢◌, ◌≤◌, ◌⊎◌, ◌++◌, ◌∷◌, [], Err, Some, None, IsNone, IsTrue, IfErr, IfOk, IfSome, OnOk, codes, length, map, string_bytes};
ghost use Rattle.io_edge.specs.Files.{HasFile, file_named};
ghost use Rattle.line_reader.specs.ConfigFile.{config_file};
ghost use Rattle.program_words.specs.Words.{remaining, texts};
ghost use Rattle.venue_words.specs.Causes.{Rose};
ghost use Rattle.venue_words.specs.Conditions.{IsConfig};
ghost use Rattle.venue_words.specs.declared.config.Config.{Config};
ghost use Rattle.venue_words.specs.declared.limits.TheConstants.{MAX_CONFIG_BYTES};
ghost use Rattle.serve_core.specs.Plans.{Plan, plan_in, plan_of};
ghost use Rattle.drop_copy.specs.Desks.{AreConfigured, AreRising, fresh_drop};
ghost use Rattle.venue_server.specs.Asking.{ArePlanned, AreBadWords, AsksFor, AsksUnlawfully, HasNoDesk, IsDeskOf, IsRefusedAs, IsSplit, IsUnlawful, MeetsFile, Splits, asked_plan, plan_words};

use drop_copy::{DropDesk, DropPlan, drop_members};
use io_edge::Shelf;
use program_words::{WordFault, read_words};
use serve_core::{ServePlan, SetupFault, serve_setup};
use std::alloc::Global;
use venue_words::{Bytes, Config, NoMemory};

/// How many words ask for the venue where a drop session is asked for.
const VENUE_WORDS: usize = 4;

/// How many words there are at least then.
const FEWEST_WORDS: usize = 7;

/// A drop session that is asked for: the address at which its connection is taken, and its desk.
#[derive(Drop)]
pub struct Copies {
    pub address: String,
    pub desk: DropDesk,
}

/// What a run begins with.
#[derive(Drop)]
pub struct Setup {
    pub plan: ServePlan,
    pub config: Config,
    pub copies: Option<Copies>,
}

/// The words of a run with a drop session: those that ask for the venue, in a form of their own, and the session's plan.
#[derive(Drop)]
pub struct Split {
    pub venue: Vec<String>,
    pub plan: DropPlan,
}

/// Adds these words.
fn push_words(alloc: Global, list: &mut Vec<String>, words: &[&str]) -> Result<(), NoMemory>
    ensures { OnOk result (texts list.new.items ≡ texts list.old.items ++ map (λ word. word.now) words.now) }
{
    for word in words {
        list.push(String::from_str(alloc, word)?)?;
    }
    Ok(())
}

/// The same words behind a `--`, which keeps each as it is.
fn kept_words(alloc: Global, words: &[&str]) -> Result<Vec<String>, NoMemory>
    ensures { IfOk result (λ list. texts list.items ≡ codes "--" ∷ map (λ word. word.now) words.now) }
{
    let mut list = Vec::new(alloc);
    push_words(alloc, &mut list, &["--"])?;
    push_words(alloc, &mut list, words)?;
    Ok(list)
}

/// The plan that an address, a name and names of members make.
fn plan_of(alloc: Global, words: &[&str]) -> Result<DropPlan, NoMemory>
    requires { 2 ≤ length words.now }
    ensures { IfOk result (λ plan. plan_words plan ≡ map (λ word. word.now) words.now) }
{
    let mut members = Vec::new(alloc);
    push_words(alloc, &mut members, &words[2..])?;
    Ok(DropPlan {
        address: String::from_str(alloc, words[0])?,
        name: String::from_str(alloc, words[1])?,
        members,
    })
}

/// The same, of words that remain.
fn split_read(alloc: Global, words: &[&str]) -> Result<Split, NoMemory>
    requires { 7 ≤ length words.now }
    ensures { IfOk result (λ split. IsSplit (map (λ word. word.now) words.now) split) }
{
    let (venue, copies) = words.split_at(VENUE_WORDS);
    Ok(Split {
        venue: kept_words(alloc, venue)?,
        plan: plan_of(alloc, copies)?,
    })
}

/// The words of a run with a drop session, and nothing where fewer than seven remain.
fn split_words(alloc: Global, words: &[String]) -> Result<Option<Split>, WordFault>
    ensures split { IfOk result (Splits (remaining (texts words.now))) }
    ensures bad_words { result ≡ Err WordFault.BadWords → remaining (texts words.now) ≡ None }
{
    let read = match read_words(alloc, words) {
        Ok(read) => read,
        Err(fault) => return Err(fault),
    };
    if read.len() < FEWEST_WORDS {
        return Ok(None);
    }
    match split_read(alloc, read.as_slice()) {
        Ok(split) => Ok(Some(split)),
        Err(_) => Err(WordFault::NoMemory),
    }
}

/// The desk of a session that gets copies of the reports of these members.
fn desk_of(
    alloc: Global,
    name: &str,
    members: Vec<u32>,
    config: &Config,
) -> Result<DropDesk, NoMemory>
    requires configured { AreConfigured members.items config.now }
    requires rising { AreRising members.items }
    ensures { IfOk result (λ desk. desk ≡ fresh_drop name.now members.items) }
{
    let name = Bytes::copy_of(alloc, name.as_bytes())?;
    DropDesk::new(alloc, name, members, config)
}

/// The drop session of a plan, where that is lawful for the config.
pub fn copies_of(alloc: Global, plan: DropPlan, config: &Config) -> Result<Copies, SetupFault>
    requires { IsConfig config.now }
    ensures address { IfOk result (λ copies. copies.address ≡ plan.address) }
    ensures desk { IfOk result (λ copies. IsDeskOf config.now (string_bytes plan.name) (texts plan.members.items) copies.desk) }
    ensures members { IfOk result (λ copies. AreConfigured copies.desk.members config.now) }

    // It is refused for want of memory, or because the name may not list these members.
    ensures refused { IfErr result (λ fault. (fault ≡ SetupFault.NoMemory) ⊎ ((fault ≡ SetupFault.BadWords)
        × HasNoDesk config.now (string_bytes plan.name) (texts plan.members.items))) }
    ensures read { result ≢ Err SetupFault.ReadFault }
{
    let members = match drop_members(alloc, &plan, config) {
        Ok(Some(members)) => members,
        Ok(None) => return Err(SetupFault::BadWords),
        Err(_) => return Err(SetupFault::NoMemory),
    };
    match desk_of(alloc, plan.name.as_str(), members, config) {
        Ok(desk) => Ok(Copies {
            address: plan.address,
            desk,
        }),
        Err(_) => Err(SetupFault::NoMemory),
    }
}

/// The same, where there is a plan.
fn copies_if_planned(
    alloc: Global,
    plan: Option<DropPlan>,
    config: &Config,
) -> Result<Option<Copies>, SetupFault>
    requires { IsConfig config.now }
    ensures copies { IfOk result (ArePlanned config.now plan) }
    ensures members { IfOk result (λ copies. IfSome copies (λ copies. AreConfigured copies.desk.members config.now)) }
    ensures refused { IfErr result (λ fault. (fault ≡ SetupFault.NoMemory)
        ⊎ ((fault ≡ SetupFault.BadWords) × IsUnlawful config.now plan)) }
{
    match plan {
        Some(plan) => match copies_of(alloc, plan, config) {
            Ok(copies) => Ok(Some(copies)),
            Err(fault) => Err(fault),
        },
        None => Ok(None),
    }
}

/// The venue that these words ask for, and the drop session of the plan, if there is one.
fn set_up_with<H: Shelf>(
    alloc: Global,
    words: &[String],
    session: Option<DropPlan>,
    shelf: &mut H,
) -> Result<Setup, SetupFault>
    ensures plan { IfOk result (λ setup. plan_of (texts words.now) ≡ Some (plan_in setup.plan)) }
    ensures no_plan { plan_of (texts words.now) ≡ None → IsRefusedAs SetupFault.BadWords result }
    ensures bad_words { result ≡ Err SetupFault.BadWords → (plan_of (texts words.now) ≡ None)
        ⊎ ((config : Config) × IsConfig config × IsUnlawful config session) }
    ensures meant { (plan : Plan) → plan_of (texts words.now) ≡ Some plan → IfSome (H.told shelf.old) (λ files.
        IfSome (file_named files plan.config) (λ text.
        MeetsFile (λ config. IsUnlawful config session) (config_file MAX_CONFIG_BYTES text) result)) }
    ensures missing { (plan : Plan) → plan_of (texts words.now) ≡ Some plan → IfSome (H.told shelf.old) (λ files.
        IsNone (file_named files plan.config) → IsRefusedAs SetupFault.ReadFault result) }
    ensures sure { IsTrue (H.sure shelf.old) → (plan : Plan) → plan_of (texts words.now) ≡ Some plan →
        HasFile (H.told shelf.old) plan.config → result ≢ Err SetupFault.ReadFault }
    ensures config { IfOk result (λ setup. IsConfig setup.config) }
    ensures connections { IfOk result (λ setup. setup.plan.connections ≤ 64) }
    ensures copies { IfOk result (λ setup. ArePlanned setup.config session setup.copies) }
    ensures members { IfOk result (λ setup. IfSome setup.copies (λ copies. AreConfigured copies.desk.members setup.config)) }
    ensures later { H.faults shelf.old ≤ H.faults shelf.new }
    ensures read { result ≡ Err SetupFault.ReadFault → Rose (H.faults shelf.old) (H.faults shelf.new) }
{
    let (plan, config) = match serve_setup(alloc, words, shelf) {
        Ok(setup) => setup,
        Err(fault) => return Err(fault),
    };
    match copies_if_planned(alloc, session, &config) {
        Ok(copies) => Ok(Setup {
            plan,
            config,
            copies,
        }),
        Err(fault) => Err(fault),
    }
}

/// The venue that the words ask for, with the config of the whole file that they name, and the drop session, if they ask for one.
/// Words whose session has no lawful name or whose members are not the config's, each once, are bad words.
pub fn set_up<H: Shelf>(alloc: Global, words: &[String], shelf: &mut H) -> Result<Setup, SetupFault>
    // The plan is the one that the words ask for. Where they ask for none, that alone is told, or want of memory.
    ensures plan { IfOk result (λ setup. asked_plan (texts words.now) ≡ Some (plan_in setup.plan)) }
    ensures no_plan { asked_plan (texts words.now) ≡ None → IsRefusedAs SetupFault.BadWords result }
    ensures bad_words { result ≡ Err SetupFault.BadWords → AreBadWords (texts words.now) }

    // On a shelf that tells its files the config is that of the named file's bytes, or its first line that is refused is told; a
    // file that is not there is a read fault.
    ensures meant { (plan : Plan) → asked_plan (texts words.now) ≡ Some plan → IfSome (H.told shelf.old) (λ files.
        IfSome (file_named files plan.config) (λ text. MeetsFile (λ config. AsksUnlawfully config (remaining (texts words.now)))
        (config_file MAX_CONFIG_BYTES text) result)) }
    ensures missing { (plan : Plan) → asked_plan (texts words.now) ≡ Some plan → IfSome (H.told shelf.old) (λ files.
        IsNone (file_named files plan.config) → IsRefusedAs SetupFault.ReadFault result) }
    ensures sure { IsTrue (H.sure shelf.old) → (plan : Plan) → asked_plan (texts words.now) ≡ Some plan →
        HasFile (H.told shelf.old) plan.config → result ≢ Err SetupFault.ReadFault }

    ensures config { IfOk result (λ setup. IsConfig setup.config) }
    ensures connections { IfOk result (λ setup. setup.plan.connections ≤ 64) }

    // The session is the one that the words ask for, and its members are configured.
    ensures copies { IfOk result (λ setup. AsksFor setup.config (remaining (texts words.now)) setup.copies) }
    ensures members { IfOk result (λ setup. IfSome setup.copies (λ copies. AreConfigured copies.desk.members setup.config)) }

    ensures later { H.faults shelf.old ≤ H.faults shelf.new }
    ensures read { result ≡ Err SetupFault.ReadFault → Rose (H.faults shelf.old) (H.faults shelf.new) }
{
    match split_words(alloc, words) {
        Ok(Some(split)) => {
            let Split { venue, plan } = split;
            set_up_with(alloc, venue.as_slice(), Some(plan), shelf)
        }
        Ok(None) => set_up_with(alloc, words, None, shelf),
        Err(WordFault::BadWords) => Err(SetupFault::BadWords),
        Err(WordFault::NoMemory) => Err(SetupFault::NoMemory),
    }
}
