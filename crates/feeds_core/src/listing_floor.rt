//! A floor that lists what is submitted.
use std::alloc::Global;
use std::marker::Model;
use std::sync::ledger::Ledger;
use venue_words::{Command, Config, Floor, FloorRefusal, Items, Look, NoMemory, Steps};

/// A command that was listed.
#[derive(Drop)]
pub struct Listed {
    pub symbol: u32,
    /// The number of the feed that submitted it.
    pub feed: u32,
    /// In milliseconds since 1970-01-01 00:00 UTC.
    pub moment: i64,
    pub command: Command,
}

/// Lists the commands that are submitted to the symbols of a config, in their order. It takes every command, but for want of
/// memory, and makes no reports.
#[derive(Drop)]
pub struct ListingFloor {
    alloc: Global,
    members: usize,
    markets: usize,
    listed: Vec<Listed>,
    /// How many commands were listed of each symbol.
    counts: Vec<u32>,
}

impl Model for ListingFloor {
    ghost use Rattle.feeds_core.specs.Listings.{Listing, IsListing, listing_of};

    ghost Value = { Listing };

    ghost view = { λ f. listing_of f.members f.markets f.listed.items f.counts.items };

    ghost invariant = { λ f. IsListing (listing_of f.members f.markets f.listed.items f.counts.items) };
}

impl ListingFloor {
    ghost use Rattle.std.specs.Prelude.{◌≡◌, ◌<◌, ℕ, [], length, slice_index, IfOk};
    ghost use Rattle.std.specs.List.{All};
    ghost use Rattle.venue_words.specs.Floors.{IsSetUpFor};
    ghost use Rattle.feed_work.specs.Feeds.{IsFor};
    ghost use Rattle.feeds_core.specs.Listings.{asked_of, listed_of, listing_mark};

    /// Without a command.
    pub fn new(alloc: Global, config: &Config) -> Result<ListingFloor, NoMemory>
        ensures setup { IfOk result (λ floor. IsSetUpFor config.now (listing_mark floor).setup) }
        ensures none { IfOk result (λ floor. floor.listed ≡ []) }
        ensures each { IfOk result (λ floor. length floor.counts ≡ length config.now.symbols) }
    {
        Ok(ListingFloor {
            alloc,
            members: config.members.len(),
            markets: config.markets.len(),
            listed: Vec::new(alloc),
            counts: vec![in alloc; 0; config.symbols.len()]?,
        })
    }

    /// What was listed, and how much of each symbol.
    pub fn into_lists(self) -> (Vec<Listed>, Vec<u32>)
        ensures listed { result.0.items ≡ self.listed }
        ensures counts { result.1.items ≡ self.counts }
        ensures counted { (symbol : ℕ) → symbol < length self.counts
            → slice_index self.counts symbol ≡ length (listed_of symbol self.listed) }
        ensures asked { All (λ one. IsFor (listing_mark self).setup (asked_of one)) self.listed }
    {
        (self.listed, self.counts)
    }
}

impl Floor for ListingFloor {
    ghost use Rattle.std.specs.Prelude.{[], None, refl};
    ghost use Rattle.feeds_core.specs.Listings.{listing_mark, listing_view};

    ghost mark = { λ floor. listing_mark floor };

    ghost at = { λ floor symbol. listing_view floor symbol };

    ghost reports_in = { λ mark symbol journal. [] };

    ghost step_limit = { λ mark symbol journal event. None };

    fn submit<L: Ledger>(
        &mut self,
        symbol: u32,
        feed: u32,
        moment: i64,
        command: &Command,
        _steps: &mut Steps<L>,
    ) -> Result<u32, FloorRefusal> {
        let count = self.counts[symbol as usize];
        if count == u32::MAX {
            return Err(FloorRefusal::NoMemory);
        }
        let number = count + 1;
        let Ok(command) = Command::copy_of(self.alloc, command) else {
            return Err(FloorRefusal::NoMemory);
        };
        if self.listed.reserve(1).is_err() {
            drop(command);
            return Err(FloorRefusal::NoMemory);
        }
        self.counts[symbol as usize] = number;
        self.listed.push_reserved(Listed {
            symbol,
            feed,
            moment,
            command,
        });
        Ok(number)
    }

    fn reports_after(&mut self, _symbol: u32, _member: u32, _from: u32) -> Result<Look, NoMemory> {
        Ok(Look {
            reports: Items(Vec::new(self.alloc)),
            front: 0,
        })
    }

    ghost of_journal = { λ floor symbol _. refl };
}
