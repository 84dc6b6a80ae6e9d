//! Answers for which the event is sought: by a time of day, or by the identifier of an order.
ghost use Rattle.std.specs.Prelude.{◌≡◌, ◌++◌, ℕ, List, [], Option, OnOk};
ghost use Rattle.venue_words.specs.Conditions.{IsConfig};
ghost use Rattle.venue_words.specs.declared.command.Event.{Event};
ghost use Rattle.venue_words.specs.declared.config.Config.{Config};
ghost use Rattle.audit_core.specs.Telling.{IsBookOf, events_text};
ghost use Rattle.audit_tables.specs.Asked.{telling_of};

use crate::again::{SymbolDay, tell_again};
use crate::answer::Answer;
use crate::asked::{Found, found_in, is_named};
use crate::rows::{RowTable, Rows};
use std::alloc::Global;
use std::marker::PhantomData;
use symbol_book::Book;
use venue_words::{Config, NoMemory, Report};

/// What names an event of a symbol. A type stands for it, so that the type of a table says what it tells.
pub trait Sought {
    /// The symbol's name.
    ghost name: { List ℕ };

    /// The number of the event in a journal, where it has one.
    ghost finds: { Config → ℕ → List Event → Option ℕ };

    /// The symbol's name.
    fn name(&self) -> &[u8]
        ensures { result.now ≡ name };

    /// The number of the event in a symbol's journal, where it has one.
    fn find(&self, config: &Config, symbol: u32, book: &Book) -> Option<u32>
        requires { IsBookOf config.now symbol book.now }
        ensures { result ≡ finds config.now symbol book.now.journal };
}

/// Tells an answer at the symbol's end, where its event is found.
#[derive(Drop)]
pub struct SoughtRows<S: Sought + Drop, T: Answer + Drop> {
    alloc: Global,
    sought: S,
    found: Found,
    of: PhantomData<T>,
}

/// Such an answer on its way to a sink.
pub type SoughtTable<S, T, K> = RowTable<SoughtRows<S, T>, K>;

impl<S: Sought + Drop, T: Answer + Drop> SoughtRows<S, T> {
    /// Nothing is told yet.
    pub fn new(alloc: Global, sought: S) -> SoughtRows<S, T> {
        SoughtRows {
            alloc,
            sought,
            found: Found::NoSymbol,
            of: PhantomData,
        }
    }

    /// What was found of that which is asked for.
    pub fn found(&self) -> Found {
        self.found
    }
}

impl<S: Sought + Drop, T: Answer + Drop> Rows for SoughtRows<S, T> {
    ghost use Rattle.std.specs.Prelude.{[]};
    ghost use Rattle.audit_tables.specs.Asked.{sought_telling};

    ghost tells = { sought_telling T.tells S.name S.finds };

    ghost header = { [] };

    ghost heard = { λ _ config _ _. IsConfig config };

    fn begin(&mut self, _out: &mut Vec<u8>, config: &Config) -> Result<(), NoMemory> {
        self.found = found_in(self.sought.name(), config);
        Ok(())
    }

    fn push_event(
        &mut self,
        _out: &mut Vec<u8>,
        _config: &Config,
        _symbol: u32,
        _book: &Book,
        _made: &[Report],
    ) -> Result<(), NoMemory> {
        Ok(())
    }

    #[tactic(auto, unfolding(crate::specs::Asked::if_named))]
    fn push_end(
        &mut self,
        out: &mut Vec<u8>,
        config: &Config,
        symbol: u32,
        book: &Book,
    ) -> Result<(), NoMemory> {
        if !is_named(self.sought.name(), config, symbol) {
            return Ok(());
        }
        let day = SymbolDay {
            config,
            symbol,
            book,
        };
        if let Some(event) = self.sought.find(config, symbol, book) {
            self.found = answer_at::<T>(self.alloc, out, day, event)?;
        }
        Ok(())
    }
}

/// Works a symbol's journal once more, and tells the answer at an event.
fn answer_at<T: Answer + Drop>(
    alloc: Global,
    out: &mut Vec<u8>,
    day: SymbolDay<'_>,
    event: u32,
) -> Result<Found, NoMemory>
    requires config { IsConfig day.config.now }
    requires of { IsBookOf day.config.now day.symbol day.book.now }
    ensures { OnOk result (out.new.items ≡ out.old.items
        ++ events_text (telling_of T.tells event) day.entry.config.now day.entry.symbol [] day.entry.book.now.journal) }
{
    let mut answer = T::new(alloc, event)?;
    answer.begin(day.config)?;
    tell_again(alloc, &mut answer, out, day)?;
    Ok(answer.found())
}
