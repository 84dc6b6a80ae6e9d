//! One share of the work, and all of them at once.
ghost use Rattle.std.specs.Prelude.{◌≡◌, ◌≢◌, ℕ, ◌+◌, ◌<◌, ◌≤◌, true, List, length, vec_len, slice_index, slice_index_or, IfOk, IfErr, OnErr, None};
ghost use Rattle.std.specs.List.{All};
ghost use Rattle.venue_words.specs.Floors.{Records, AddsNone};
ghost use Rattle.venue_words.specs.Journals.{IfFull};
ghost use Rattle.venue_words.specs.declared.limits.TheConstants.{MAX_FEEDS};
ghost use Rattle.feed_work.specs.Feeds.{Asked, IsFor};
ghost use Rattle.feed_work.specs.Working.{IsWorked, AreNumbered, AreWorked};

use crate::pace::Pace;
use std::marker::Brand;
use std::sync::Wait;
use std::sync::ledger::{Blank, Ledger};
use std::thread::{Threads, map_vec};
use venue_words::{Command, Floor, FloorRefusal, NoMemory, Steps};

/// A feed's share of the work: its commands, each for a symbol and with its moment, and the floor that they go through.
#[derive(Drop)]
struct Share<F> {
    floor: F,
    feed: u32,
    commands: Vec<(u32, i64, Command)>,
}

/// What came of a share.
#[derive(Drop)]
pub struct Worked<F> {
    pub floor: F,
    /// Why a command was refused; none where all were taken. No command behind a refused one is submitted.
    pub refused: Option<FloorRefusal>,
}

fn submit<F: Floor, P: Pace, L: Ledger>(
    floor: &mut F,
    pace: &P,
    feed: u32,
    asked: (u32, i64, Command),
    steps: &mut Steps<L>,
) -> Result<u32, FloorRefusal>
    requires { IsFor (F.mark floor.old).setup asked }
    ensures mark { F.mark floor.new ≡ F.mark floor.old }
    ensures others { (other : ℕ) → other ≢ asked.0 → F.at floor.new other ≡ F.at floor.old other }
    ensures ok { IfOk result (λ number. Records (F.at floor.old asked.0) (F.at floor.new asked.0) number feed asked.1 asked.2) }
    ensures err { OnErr result (AddsNone (F.at floor.old asked.0) (F.at floor.new asked.0)) }
    ensures full { IfErr result (IfFull (λ found. (found ≡ length (F.at floor.new asked.0).journal)
        × (found ≡ slice_index (F.mark floor.old).setup.limits asked.0))) }
{
    let (symbol, moment, command) = asked;
    pace.before(feed);
    floor.submit(symbol, feed, moment, &command, steps)
}

fn work_share<F: Floor, P: Pace, L: Ledger>(
    pace: &P,
    share: Share<F>,
    steps: &mut Steps<L>,
) -> Worked<F>
    requires { All (IsFor (F.mark share.floor).setup) share.commands.items }
    ensures { IsWorked F.mark F.at share.feed share.floor share.commands.items result }
{
    let Share {
        mut floor,
        feed,
        commands,
    } = share;
    for asked in commands {
        match submit(&mut floor, pace, feed, asked, steps) {
            Ok(_) => {}
            Err(why) => {
                return Worked {
                    floor,
                    refused: Some(why),
                };
            }
        }
    }
    Worked {
        floor,
        refused: None,
    }
}

fn work_counted<F: Floor, P: Pace, L: Ledger>(pace: &P, share: Share<F>, blank: Blank) -> Worked<F>
    requires blank { (blank.name ≡ L.name) × (blank.parts ≡ L.parts) × (L.parts ≡ 1) }
    requires commands { All (IsFor (F.mark share.floor).setup) share.commands.items }
    ensures { IsWorked F.mark F.at share.feed share.floor share.commands.items result }
{
    let mut steps: Steps<L> = Steps::start(blank);
    work_share(pace, share, &mut steps)
}

fn work_one<F: Floor, P: Pace>(pace: &P, share: Share<F>) -> Worked<F>
    requires { All (IsFor (F.mark share.floor).setup) share.commands.items }
    ensures { IsWorked F.mark F.at share.feed share.floor share.commands.items result }
{
    work_counted::<F, P, Brand>(pace, share, Blank::new(1))
}

/// The shares with the numbers of their feeds.
fn numbered<F: Drop>(shares: Vec<(F, Vec<(u32, i64, Command)>)>) -> Result<Vec<Share<F>>, NoMemory>
    requires { length shares.items ≤ MAX_FEEDS }
    ensures { IfOk result (λ numbered. AreNumbered 1 shares.items numbered.items) }
{
    let mut numbered = Vec::with_capacity(shares.allocator().clone()?, shares.len())?;
    for share in shares {
        let (floor, commands) = share;
        let feed = numbered.len() as u32 + 1;
        numbered.push(Share {
            floor,
            feed,
            commands,
        })?;
    }
    Ok(numbered)
}

/// Works numbered shares. Each answer is that of the share at its place.
fn work_all<R: Threads + Wait + Sync, P: Pace + Sync, F: Floor + Send + Drop>(
    rt: &R,
    pace: &P,
    shares: Vec<Share<F>>,
) -> Result<Vec<Worked<F>>, NoMemory>
    requires commands { All (λ share. All (IsFor (F.mark share.floor).setup) share.commands.items) shares.items }
    ensures count { IfOk result (λ worked. vec_len worked ≡ vec_len shares) }
    ensures each { IfOk result (λ worked. (k : ℕ) (share one : _) → k < vec_len shares
        → share ≡ slice_index_or shares.items k share → one ≡ slice_index_or worked.items k one
        → IsWorked F.mark F.at share.feed share.floor share.commands.items one) }
{
    let worked = map_vec(
        rt,
        shares,
        &|share: Share<F>| -> Worked<F>
            requires { All (IsFor (F.mark share.floor).setup) share.commands.items }
            ensures { IsWorked F.mark F.at share.feed share.floor share.commands.items result }
        { work_one(pace, share) },
    );
    match worked {
        Ok(worked) => Ok(worked),
        Err(_) => Err(NoMemory),
    }
}

/// Works the shares, each in a thread of its own where one can be started. A share is a floor and the commands that go
/// through it in their order, each with its symbol and its moment; the first share is feed 1. A share stops at its first
/// refusal. Where memory is wanting the floors are dropped.
pub fn work_feeds<R: Threads + Wait + Sync, P: Pace + Sync, F: Floor + Send + Drop>(
    rt: &R,
    pace: &P,
    shares: Vec<(F, Vec<(u32, i64, Command)>)>,
) -> Result<Vec<Worked<F>>, NoMemory>
    requires few { length shares.items ≤ MAX_FEEDS }
    requires commands { All (λ share. All (IsFor (F.mark share.0).setup) share.1.items) shares.items }
    ensures { IfOk result (λ worked. AreWorked F.mark F.at 1 shares.items worked.items) }
{
    let numbered = numbered(shares)?;
    let worked = work_all(rt, pace, numbered)?;
    Ok(worked)
}
