//! Floors of a config, of whatever kind: each shows the reports that the market's rules make of the journal that it shows.
ghost use Rattle.std.specs.Prelude.{◌≡◌, ◌<◌, true, length, IfOk};
ghost use Rattle.venue_words.specs.Conditions.{IsConfig, fits_limits};
ghost use Rattle.venue_words.specs.Floors.{is_configured, setup_of};
ghost use Rattle.venue_words.specs.Journals.{reports_of};
ghost use Rattle.venue_core.specs.ConfigVenues.{IsFloorOf};
ghost use Rattle.venue_core.specs.Runs.{run_in};

use super::checks::check;
use super::configs::config_of;
use super::venues::command;
use std::alloc::{AllocError, Global};
use std::marker::Brand;
use std::process::Abort;
use std::sync::Wait;
use std::sync::ledger::{Blank, Ledger};
use std::test::Fail;
use symbol_book::HashSeed;
use venue_core::{Seated, make, plain};
use venue_words::{Command, Config, Floor, Look, NoMemory, Steps};

// Submits a command to a symbol, and looks at the reports to a member.
fn submit_and_look<F: Floor, L: Ledger>(
    floor: &mut F,
    config: &Config,
    symbol: u32,
    command: &Command,
    member: u32,
    steps: &mut Steps<L>,
) -> Result<Look, NoMemory>
    requires floor { IsFloorOf F.reports_in F.step_limit config.now (F.mark floor.old) }
    requires symbol { symbol < length config.now.symbols }
    requires configured { is_configured (setup_of config.now) command.now ≡ true }
    requires limits { fits_limits command.now ≡ true }
    requires member { member < length config.now.members }
    ensures { IfOk result (λ look.
        look.reports ≡ reports_of member 0 (run_in config.now symbol (F.at floor.new symbol).journal).reports) }
{
    let _ = floor.submit(symbol, 1, 7, command, steps);
    floor.reports_after(symbol, member, 0)
}

// On a venue for one thread.
fn look_plain<L: Ledger>(
    alloc: Global,
    config: &Config,
    command: &Command,
    blank: Blank,
) -> Result<Look, NoMemory>
    requires config { IsConfig config.now }
    requires symbols { 1 < length config.now.symbols }
    requires members { 1 < length config.now.members }
    requires configured { is_configured (setup_of config.now) command.now ≡ true }
    requires limits { fits_limits command.now ≡ true }
    requires blank { (blank.name ≡ L.name) × (blank.parts ≡ L.parts) × (L.parts ≡ 1) }
{
    let mut steps: Steps<L> = Steps::start(blank);
    let mut venue = plain(alloc, HashSeed::fixed(), config)?;
    submit_and_look(&mut venue, config, 1, command, 1, &mut steps)
}

// On a venue for many threads.
fn look_seated<R: Wait, L: Ledger>(
    rt: &R,
    alloc: Global,
    config: &Config,
    command: &Command,
    blank: Blank,
) -> Result<Look, NoMemory>
    requires config { IsConfig config.now }
    requires symbols { 1 < length config.now.symbols }
    requires members { 1 < length config.now.members }
    requires configured { is_configured (setup_of config.now) command.now ≡ true }
    requires limits { fits_limits command.now ≡ true }
    requires blank { (blank.name ≡ L.name) × (blank.parts ≡ L.parts) × (L.parts ≡ 1) }
{
    let mut steps: Steps<L> = Steps::start(blank);
    let (venue, seats) = make(alloc, HashSeed::fixed(), config)?;
    let mut floor = Seated {
        rt,
        venue: &venue,
        seats,
    };
    submit_and_look(&mut floor, config, 1, command, 1, &mut steps)
}

// The same on both, with a counter for each.
fn look_on_both<R: Wait>(
    rt: &R,
    alloc: Global,
    config: &Config,
    command: &Command,
) -> (Result<Look, NoMemory>, Result<Look, NoMemory>)
    requires config { IsConfig config.now }
    requires symbols { 1 < length config.now.symbols }
    requires members { 1 < length config.now.members }
    requires configured { is_configured (setup_of config.now) command.now ≡ true }
    requires limits { fits_limits command.now ≡ true }
{
    (
        look_plain::<Brand>(alloc, config, command, Blank::new(1)),
        look_seated::<R, Brand>(rt, alloc, config, command, Blank::new(1)),
    )
}

fn check_look<R: Abort>(rt: &R, look: &Look) {
    check(
        rt,
        look.front == 1 && look.reports.len() == 1,
        "a look",
        look.front,
    );
}

#[test]
fn both_kinds_of_floor_acknowledge_an_order(rt: HostRuntime) -> Result<(), Fail> {
    let alloc = rt.alloc();
    let config = config_of(alloc, 10)?;
    let command = command(alloc, 1, 3)?;
    let (plain, seated) = look_on_both(&rt, alloc, &config, &command);
    check_look(&rt, &plain.map_err(|_| AllocError)?);
    check_look(&rt, &seated.map_err(|_| AllocError)?);
    Ok(())
}
