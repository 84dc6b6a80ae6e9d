//! The first refused line of all feeds.
ghost use Rattle.std.specs.Prelude.{◌≡◌, ◌≤◌, ◌||◌, ℕ, List, [], true, None, length, option_map, IfOk, OnOk};
ghost use Rattle.std.specs.List.{All};
ghost use Rattle.venue_words.specs.declared.config.Config.{Config};
ghost use Rattle.feeds_core.specs.FeedFaults.{feeds_fault};
ghost use Rattle.feeds_core.specs.FeedLists.{ListsAll};
ghost use Rattle.feeds_core.specs.Judging.{is_among, refused_line};
ghost use Rattle.feeds_core.specs.Naming.{first_shared, has_name, refused_by};

use crate::feed_list::FeedList;
use crate::naming::Naming;
use script_text::{LineCause, LineFault};
use std::alloc::Global;
use venue_words::NoMemory;
use venue_words::limits::MAX_FEEDS;

/// A line that is refused.
#[derive(Clone, Copy, Debug)]
pub struct RefusedLine {
    /// The config is file 0, and the feeds are files 1, 2 and so on.
    pub file: u32,
    pub fault: LineFault,
}

/// Whether a member is among these.
fn is_among(members: &[u32], member: u32) -> bool
    ensures { result ≡ is_among members.now member }
{
    members.iter().any(|one| *one == member)
}

/// The first naming of a member that is taken.
fn first_shared(taken: &[u32], named: &[Naming]) -> Option<Naming>
    ensures { result ≡ first_shared (is_among taken.now) named.now }
{
    named
        .iter()
        .copied()
        .find(|one| is_among(taken, one.member))
}

/// The first refused line of a feed, where these members are taken.
fn refused_in(taken: &[u32], list: &FeedList) -> Option<LineFault>
    ensures { result ≡ refused_by (is_among taken.now) list.now.named.items list.now.fault }
{
    match first_shared(taken, list.named.as_slice()) {
        Some(one) => Some(LineFault::Bad {
            line: one.line,
            cause: LineCause::SharedMember,
        }),
        None => list.fault,
    }
}

/// Takes the members of a feed.
fn take_all(taken: &mut Vec<u32>, named: &[Naming]) -> Result<(), NoMemory>
    ensures { OnOk result ((member : ℕ) → is_among taken.new.items member
        ≡ (is_among taken.old.items member || has_name named.now member)) }
{
    for one in named {
        taken.push(one.member)?;
    }
    Ok(())
}

/// The first refused line of the first feed that has one, by the lists of all feeds of a config in their order.
pub fn first_refused(alloc: Global, lists: &[FeedList]) -> Result<Option<RefusedLine>, NoMemory>
    requires { length lists.now ≤ MAX_FEEDS }
    ensures first { IfOk result (λ line. (config : Config) (already : ℕ) (texts : List (List ℕ))
        → ListsAll config true already texts lists.now
        → feeds_fault config [] already texts ≡ option_map refused_line line) }
    ensures clear { IfOk result (λ line. line ≡ None → All (λ list. list.fault ≡ None) lists.now) }
{
    let mut taken = Vec::new(alloc);
    for (place, list) in lists.iter().enumerate() {
        if let Some(fault) = refused_in(taken.as_slice(), list) {
            return Ok(Some(RefusedLine {
                file: place as u32 + 1,
                fault,
            }));
        }
        take_all(&mut taken, list.named.as_slice())?;
    }
    Ok(None)
}
