//! The commands of a feed, and its first refused line.
ghost use Rattle.std.specs.Prelude.{◌≡◌, ◌⊎◌, ◌++◌, ◌||◌, ℕ, Bool, Option, [], Some, map, IfOk, IfErr, IsOkAnd, OnOk};
ghost use Rattle.venue_words.specs.Conditions.{IsConfig};
ghost use Rattle.venue_words.specs.Floors.{IsSetUpFor};
ghost use Rattle.script_text.specs.Body.{read_of};
ghost use Rattle.script_text.specs.declared.fault.LineFault.{LineFault};
ghost use Rattle.script_text.specs.declared.fault.LineFault.TheVariants.{NoMemory as memory};
ghost use Rattle.line_work.specs.Commands.{at_moment, commands_for};
ghost use Rattle.line_work.specs.FeedState.{FeedState, before_lines};
ghost use Rattle.line_work.specs.LineWork.{work_of_text};
ghost use Rattle.line_work.specs.Standing.{StandsFor};
ghost use Rattle.feeds_core.specs.FeedLines.{fault_of, is_member, named_in, or_else};
ghost use Rattle.feeds_core.specs.FeedLists.{ComesTo, IsCounted, ListsKept};
ghost use Rattle.feeds_core.specs.Listings.{asked_of, listing_mark, timed_at};
ghost use Rattle.feeds_core.specs.Naming.{has_name, refused_by};

use crate::config_copy::copy_of;
use crate::feed_end::end_fault;
use crate::feed_text::FeedText;
use crate::listing_floor::{Listed, ListingFloor};
use crate::looking::{LinePlace, look_at};
use crate::naming::Naming;
use line_work::LineWorker;
use script_text::{LineFault, first_end, read_line};
use std::alloc::{AllocError, Global};
use std::marker::Brand;
use std::sync::ledger::{Blank, Ledger};
use venue_words::{Command, Config, NoMemory, Steps};

/// What the lines of a feed come to.
#[derive(Drop)]
pub struct FeedList {
    /// The commands up to the first line that is refused on its own account: the symbol, the moment in milliseconds since
    /// 1970-01-01 00:00 UTC, and the command.
    pub commands: Vec<(u32, i64, Command)>,
    /// How many of them are for each symbol.
    pub counts: Vec<u32>,
    /// Who is named up to there.
    pub named: Vec<Naming>,
    /// The first line that is refused on its own account.
    pub fault: Option<LineFault>,
}

/// The lines of a feed, worked one after the other over a floor that lists.
#[derive(Drop)]
struct Lister {
    alloc: Global,
    worker: LineWorker,
    floor: ListingFloor,
    named: Vec<Naming>,
    /// Where replies go, which nobody is sent.
    replies: Vec<u8>,
}

impl Lister {
    /// Works a line, or says why it is refused.
    fn line<L: Ledger>(
        &mut self,
        text: &[u8],
        place: LinePlace,
        steps: &mut Steps<L>,
    ) -> Result<(), LineFault>
        requires { IsSetUpFor self.old.worker.config (listing_mark self.old.floor).setup }
        ensures stands { OnOk result ((state : FeedState) → StandsFor self.old.worker state
            → IsOkAnd (work_of_text state text.now) (λ work. StandsFor self.new.worker work.state)) }
        ensures listed { OnOk result ((state : FeedState) → StandsFor self.old.worker state
            → IsOkAnd (work_of_text state text.now) (λ work. (symbol : ℕ) → timed_at symbol self.new.floor.listed
            ≡ timed_at symbol self.old.floor.listed ++ commands_for symbol (at_moment work.state.moment work.submissions))) }

        // Who is named, and whether the line is refused on its own account.
        ensures goes { OnOk result ((taken : ℕ → Bool) (next : Option LineFault) → refused_by taken self.old.named.items
            (or_else (fault_of taken place.number place.bytes (read_of self.old.worker.config text.now)) next)
            ≡ refused_by taken self.new.named.items next) }
        ensures names { OnOk result ((member : ℕ) → has_name self.new.named.items member
            ≡ (has_name self.old.named.items member || is_member member (named_in (read_of self.old.worker.config text.now)))) }
        ensures stops { IfErr result (λ fault. (fault ≡ memory) ⊎ ((taken : ℕ → Bool) (next : Option LineFault) →
            refused_by taken self.old.named.items
            (or_else (fault_of taken place.number place.bytes (read_of self.old.worker.config text.now)) next)
            ≡ refused_by taken self.new.named.items (Some fault))) }

        // What stays.
        ensures config { self.new.worker.config ≡ self.old.worker.config }
        ensures setup { listing_mark self.new.floor ≡ listing_mark self.old.floor }
    {
        let read = read_line(self.alloc, text, self.worker.config());
        let line = match look_at(&mut self.named, read, place) {
            Ok(line) => line,
            Err(fault) => return Err(fault),
        };
        self.replies.clear();
        match self
            .worker
            .work(&mut self.floor, 1, line, &mut self.replies, steps)
        {
            Ok(()) => Ok(()),
            Err(_) => Err(LineFault::NoMemory),
        }
    }

    /// Works all lines, up to the first that is refused.
    fn lines<L: Ledger>(
        &mut self,
        text: &FeedText,
        steps: &mut Steps<L>,
    ) -> Result<Option<LineFault>, NoMemory>
        requires setup { IsSetUpFor self.old.worker.config (listing_mark self.old.floor).setup }
        requires stands { StandsFor self.old.worker (before_lines self.old.worker.config) }
        requires none { (self.old.floor.listed ≡ []) × (self.old.named.items ≡ []) }
        ensures comes { IfOk result (λ fault. ComesTo self.old.worker.config text.now self.new.named.items fault
            (λ symbol. timed_at symbol self.new.floor.listed)) }
        ensures setup { listing_mark self.new.floor ≡ listing_mark self.old.floor }
    {
        let mut rest = text.lines.as_slice();
        let mut place = LinePlace {
            number: 0,
            bytes: text.already,
        };
        while let Some(at) = first_end(rest) {
            place = LinePlace {
                number: place.number + 1,
                bytes: place.bytes + at as u64 + 1,
            };
            match self.line(&rest[..at], place, steps) {
                Ok(()) => {}
                Err(fault) if fault == LineFault::NoMemory => return Err(NoMemory),
                Err(fault) => return Ok(Some(fault)),
            }
            rest = &rest[at + 1..];
        }
        Ok(end_fault(text.end, place.number))
    }
}

/// What was listed, as what a feed asks.
fn asked(alloc: Global, listed: Vec<Listed>) -> Result<Vec<(u32, i64, Command)>, AllocError>
    ensures { IfOk result (λ commands. commands.items ≡ map asked_of listed.items) }
{
    listed
        .into_iter()
        .map(|one| (one.symbol, one.moment, one.command))
        .collect(alloc)
}

fn list_counted<L: Ledger>(
    alloc: Global,
    config: &Config,
    text: &FeedText,
    blank: Blank,
) -> Result<FeedList, NoMemory>
    requires config { IsConfig config.now }
    requires blank { (blank.name ≡ L.name) × (blank.parts ≡ L.parts) × (L.parts ≡ 1) }
    ensures lists { IfOk result (ListsKept config.now text.now) }
    ensures counted { IfOk result (IsCounted config.now) }
{
    let mut steps: Steps<L> = Steps::start(blank);
    let floor = ListingFloor::new(alloc, config)?;
    let worker = LineWorker::new(alloc, copy_of(alloc, config)?)?;
    let mut lister = Lister {
        alloc,
        worker,
        floor,
        named: Vec::new(alloc),
        replies: Vec::new(alloc),
    };
    // The worker is let go by a call: one that ends by itself is proved field by field at each end.
    let fault = match lister.lines(text, &mut steps) {
        Ok(fault) => fault,
        Err(_) => {
            drop(lister);
            return Err(NoMemory);
        }
    };
    let Lister {
        worker,
        floor,
        named,
        replies,
        ..
    } = lister;
    drop(worker);
    drop(replies);
    let (listed, counts) = floor.into_lists();
    Ok(FeedList {
        commands: asked(alloc, listed)?,
        counts,
        named,
        fault,
    })
}

/// Lists what the lines of a feed of this config come to.
pub fn list_feed(alloc: Global, config: &Config, text: &FeedText) -> Result<FeedList, NoMemory>
    requires { IsConfig config.now }
    ensures lists { IfOk result (ListsKept config.now text.now) }
    ensures counted { IfOk result (IsCounted config.now) }
{
    list_counted::<Brand>(alloc, config, text, Blank::new(1))
}
