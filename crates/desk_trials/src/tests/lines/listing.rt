//! A floor of one symbol that lists what is submitted.
use std::alloc::Global;
use std::sync::ledger::Ledger;
use venue_words::{Command, Config, Event, Floor, FloorRefusal, Items, Look, NoMemory, Steps};

/// A floor of one symbol. It makes no reports.
#[derive(Drop)]
pub struct Listing {
    alloc: Global,
    members: usize,
    markets: usize,
    pub journal: Vec<Event>,
}

impl Listing {
    ghost use Rattle.std.specs.Prelude.{◌≡◌, length};
    ghost use Rattle.venue_words.specs.Floors.{IsSetUpFor};

    pub fn new(alloc: Global, config: &Config) -> Listing
        requires { length config.now.symbols ≡ 1 }
        ensures { IsSetUpFor config.now (⟦<Listing as Floor>⟧.mark result).setup }
    {
        Listing {
            alloc,
            members: config.members.len(),
            markets: config.markets.len(),
            journal: Vec::new(alloc),
        }
    }
}

impl Floor for Listing {
    ghost use Rattle.desk_trials.specs.Listings.{listing_mark, listing_view, lists_no_reports};
    ghost use Rattle.std.specs.Prelude.{[], None};

    ghost mark = { λ floor. listing_mark floor.members floor.markets };

    ghost at = { λ floor symbol. listing_view floor.journal.items symbol };

    ghost reports_in = { λ mark symbol journal. [] };

    ghost step_limit = { λ mark symbol journal event. None };

    fn submit<L: Ledger>(
        &mut self,
        symbol: u32,
        feed: u32,
        moment: i64,
        command: &Command,
        _steps: &mut Steps<L>,
    ) -> Result<u32, FloorRefusal> {
        let found = self.journal.len();
        if symbol != 0 || u32::MAX as usize <= found {
            return Err(FloorRefusal::NoMemory);
        }
        let Ok(command) = Command::copy_of(self.alloc, command) else {
            return Err(FloorRefusal::NoMemory);
        };
        if self.journal.reserve(1).is_err() {
            return Err(FloorRefusal::NoMemory);
        }
        let number = found as u32 + 1;
        self.journal.push_reserved(Event {
            number,
            feed,
            moment,
            command,
        });
        Ok(number)
    }

    fn reports_after(&mut self, _symbol: u32, _member: u32, _from: u32) -> Result<Look, NoMemory> {
        Ok(Look {
            reports: Items(Vec::new(self.alloc)),
            front: 0,
        })
    }

    ghost of_journal = { λ floor symbol _. lists_no_reports floor.journal.items symbol };
}
