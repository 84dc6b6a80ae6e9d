//! Both books against the plain program.
ghost use Rattle.venue_words.specs.Conditions.{IsTick};

use super::random::random_events;
use plain_rows::{Shown, over_groups, over_rows, plain_reports, text_of};
use std::alloc::Global;
use std::process::Abort;
use std::test::Fail;
use venue_words::Event;

/// A book took each of so many events, and reported what was wanted.
fn is_as_wanted(rt: &impl Abort, name: &str, shown: &Shown, count: usize, wanted: &str) {
    assert_eq!(rt; shown.taken as usize, count, "over {name}");
    assert_eq!(rt; shown.reports.as_str(), wanted, "over {name}");
}

/// Compares both books with the plain program, and answers how many trades were reported.
pub fn compare(rt: &impl Abort, alloc: Global, tick: u32, events: &[Event]) -> Result<usize, Fail>
    requires { IsTick tick }
{
    let reports = plain_reports(alloc, tick, events)?;
    let wanted = text_of(alloc, reports.as_slice())?;
    let shown = over_groups(alloc, tick, events)?;
    is_as_wanted(rt, "groups", &shown, events.len(), wanted.as_str());
    let shown = over_rows(alloc, tick, events)?;
    is_as_wanted(rt, "rows", &shown, events.len(), wanted.as_str());
    Ok(wanted.as_str().split("Traded").skip(1).count())
}

/// One of the two ticks.
fn tick_of(seed: u64) -> u32
    ensures { IsTick result }
{
    if seed % 3 == 0 { 10 } else { 2 }
}

/// 500 histories of 300 events.
#[test]
fn random_histories_are_reported_as_the_rules_say(rt: HostRuntime) -> Result<(), Fail> {
    let mut trades = 0usize;
    for seed in 0..500 {
        let events = random_events(rt.alloc(), seed, 300)?;
        let told = compare(&rt, rt.alloc(), tick_of(seed), events.as_slice())?;
        trades = trades.saturating_add(told);
    }
    assert!(rt; trades > 20_000, "only {trades} reports of trades");
    Ok(())
}
