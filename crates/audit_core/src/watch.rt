//! Who is told of the events of a listing while its lines go by.
ghost use Rattle.std.specs.Prelude.{◌≡◌, ℕ, ◌+◌, List, [], OnOk};
ghost use Rattle.venue_words.specs.declared.command.Event.{Event};
ghost use Rattle.venue_words.specs.declared.config.Config.{Config};
ghost use Rattle.audit_core.specs.Telling.{HasPutCause, IsBookOf, IsNext, Output, SaysOn, Telling, reports_of_last};

use symbol_book::Book;
use venue_words::{Config, NoMemory, Report};

/// Why a watch does not go on. A beginning of what it was to tell was told.
#[derive(Clone, Copy, Debug, PartialEq, Eq, Drop)]
pub enum WatchFault {
    /// A put failed.
    WriteFault,
    NoMemory,
}

impl From<NoMemory> for WatchFault {
    ghost use Rattle.std.specs.Prelude.{◌≡◌};
    ghost use Rattle.audit_core.specs.declared.watch.WatchFault.TheVariants.{NoMemory};

    ghost from_gives = { λ _ fault. fault ≡ NoMemory };

    fn from(_error: NoMemory) -> WatchFault {
        WatchFault::NoMemory
    }
}

/// Who is told of each event of a listing, once its line was read and worked, and of each symbol's end. It tells texts of them.
pub trait Watch {
    /// The texts.
    ghost tells: { Telling };

    /// What was told, and what is held to be told next.
    ghost output: { Self → Output };

    /// How often a put has failed.
    ghost faults: { Self → ℕ };

    /// It was told of these events of a symbol, and of the ends of all symbols before.
    ghost heard: { Self → Config → ℕ → List Event → Type 0 };

    /// Tells of the last event of a symbol's book, which made these reports.
    fn on_event(
        &mut self,
        config: &Config,
        symbol: u32,
        book: &Book,
        made: &[Report],
    ) -> Result<(), WatchFault>
        requires next { IsNext (heard self.old) config.now symbol book.now }
        requires made { made.now ≡ reports_of_last config.now symbol book.now.journal }
        ensures heard { OnOk result (heard self.new config.now symbol book.now.journal) }
        ensures text { SaysOn (output self.old) (output self.new) (tells.event config.now symbol book.now.journal) result }
        ensures cause { HasPutCause (faults self.old) (faults self.new) result };

    /// Tells of the whole journal of a symbol.
    fn on_end(&mut self, config: &Config, symbol: u32, book: &Book) -> Result<(), WatchFault>
        requires of { IsBookOf config.now symbol book.now }
        requires heard { heard self.old config.now symbol book.now.journal }
        ensures heard { OnOk result (heard self.new config.now (symbol + 1) []) }
        ensures text { SaysOn (output self.old) (output self.new) (tells.end config.now symbol book.now.journal) result }
        ensures cause { HasPutCause (faults self.old) (faults self.new) result };
}

/// A watch that tells nothing.
#[derive(Clone, Copy, Debug, Drop)]
pub struct Silent;

impl Watch for Silent {
    ghost use Rattle.std.specs.Prelude.{[], None};

    ghost tells = { record { event = λ _ _ _. []; end = λ _ _ _. [] } };

    ghost output = { λ _. record { told = None; held = [] } };

    ghost faults = { λ _. 0 };

    ghost heard = { λ _ _ _ _. Unit {0} };

    fn on_event(
        &mut self,
        _config: &Config,
        _symbol: u32,
        _book: &Book,
        _made: &[Report],
    ) -> Result<(), WatchFault> {
        Ok(())
    }

    fn on_end(&mut self, _config: &Config, _symbol: u32, _book: &Book) -> Result<(), WatchFault> {
        Ok(())
    }
}
