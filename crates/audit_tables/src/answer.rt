//! Answers to what is asked of a symbol and an event.
ghost use Rattle.std.specs.Prelude.{◌≡◌, ◌++◌, ℕ, List, [], IfOk, OnOk};
ghost use Rattle.venue_words.specs.Conditions.{IsConfig};
ghost use Rattle.venue_words.specs.declared.command.Event.{Event};
ghost use Rattle.venue_words.specs.declared.config.Config.{Config};
ghost use Rattle.audit_core.specs.Telling.{IsNext, reports_of_last};
ghost use Rattle.audit_tables.specs.Asked.{AnswerText};

use crate::asked::{Asked, Found, Question, found_in, is_named};
use crate::rows::{RowTable, Rows};
use std::alloc::Global;
use symbol_book::Book;
use venue_words::{Config, NoMemory, Report};

/// An answer, which is told event by event of the symbol that is asked for. A refusal may leave a part of a text.
pub trait Answer {
    /// Its texts, by the number of the event that is asked for.
    ghost tells: { AnswerText };

    /// The number of the event that is asked for.
    ghost asked: { Self → ℕ };

    /// It heard of these events of a symbol.
    ghost heard: { Self → Config → ℕ → List Event → Type 0 };

    /// An answer of which nothing is told yet.
    fn new(alloc: Global, event: u32) -> Result<Self, NoMemory>
        ensures { IfOk result (λ answer. asked answer ≡ event) };

    /// Stands before the first event of a symbol.
    fn begin(&mut self, config: &Config) -> Result<(), NoMemory>
        requires { IsConfig config.now }
        ensures asked { asked self.new ≡ asked self.old }
        ensures heard { OnOk result ((symbol : ℕ) → heard self.new config.now symbol []) };

    /// Tells of the last event of a symbol's book, which made these reports.
    fn push_event(
        &mut self,
        out: &mut Vec<u8>,
        config: &Config,
        symbol: u32,
        book: &Book,
        made: &[Report],
    ) -> Result<(), NoMemory>
        requires next { IsNext (heard self.old) config.now symbol book.now }
        requires made { made.now ≡ reports_of_last config.now symbol book.now.journal }
        ensures asked { asked self.new ≡ asked self.old }
        ensures heard { OnOk result (heard self.new config.now symbol book.now.journal) }
        ensures text { OnOk result (out.new.items ≡ out.old.items ++ tells (asked self.old) config.now symbol book.now.journal) };

    /// What was found of that which is asked for.
    fn found(&self) -> Found;
}

/// Tells an answer on the way, since the number of the event is known.
#[derive(Drop)]
pub struct AskedRows<'a, A: Asked, T: Answer + Drop> {
    question: Question<'a, A>,
    answer: T,
    found: Found,
    ghost is_asked: { T.asked answer ≡ A.event },
}

/// An answer on its way to a sink.
pub type AskedTable<'a, A, T, K> = RowTable<AskedRows<'a, A, T>, K>;

impl<'a, A: Asked, T: Answer + Drop> AskedRows<'a, A, T> {
    /// Nothing is told yet.
    pub fn new(alloc: Global, question: Question<'a, A>) -> Result<AskedRows<'a, A, T>, NoMemory> {
        let answer = T::new(alloc, question.event)?;
        Ok(AskedRows {
            question,
            answer,
            found: Found::NoSymbol,
        })
    }

    /// What was found of that which is asked for.
    pub fn found(&self) -> Found {
        self.found
    }
}

impl<'a, A: Asked, T: Answer + Drop> Rows for AskedRows<'a, A, T> {
    ghost use Rattle.std.specs.Prelude.{true, []};
    ghost use Rattle.audit_tables.specs.Asked.{asked_telling, is_named};

    ghost tells = { asked_telling T.tells A.name A.event };

    ghost header = { [] };

    ghost heard = { λ rows config symbol journal. IsConfig config × (is_named A.name config symbol ≡ true → T.heard rows.answer config symbol journal) };

    fn begin(&mut self, _out: &mut Vec<u8>, config: &Config) -> Result<(), NoMemory> {
        self.found = found_in(self.question.name, config);
        self.answer.begin(config)
    }

    #[tactic(auto, unfolding(crate::specs::Asked::if_named))]
    fn push_event(
        &mut self,
        out: &mut Vec<u8>,
        config: &Config,
        symbol: u32,
        book: &Book,
        made: &[Report],
    ) -> Result<(), NoMemory> {
        if !is_named(self.question.name, config, symbol) {
            return Ok(());
        }
        self.answer.push_event(out, config, symbol, book, made)?;
        if book.journal().len() == self.question.event as usize {
            self.found = self.answer.found();
        }
        Ok(())
    }

    fn push_end(
        &mut self,
        _out: &mut Vec<u8>,
        config: &Config,
        _symbol: u32,
        _book: &Book,
    ) -> Result<(), NoMemory> {
        self.answer.begin(config)
    }
}
