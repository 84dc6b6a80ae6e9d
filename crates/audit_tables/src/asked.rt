//! What is asked of a day.
ghost use Rattle.std.specs.Prelude.{◌≡◌};
ghost use Rattle.audit_tables.specs.Asked.{is_named};

use listing::name_at;
use std::marker::{Brand, PhantomData};
use venue_words::Config;

/// What a day has of that which is asked for.
#[derive(Clone, Copy, Debug, PartialEq, Eq, Drop)]
pub enum Found {
    /// The config has no symbol of that name.
    NoSymbol,
    /// The symbol's journal has no such event.
    NoEvent,
    /// No order entered at the event.
    NoOrder,
    /// All of it.
    All,
}

/// Which symbol is asked for, and which event. A type stands for the question, so that the type of a table says what it tells.
pub trait Asked {
    ghost use Rattle.std.specs.Prelude.{ℕ, List};

    ghost name: { List ℕ };

    ghost event: { ℕ };
}

impl Asked for Brand {
    ghost use Rattle.std.specs.Prelude.{[]};

    ghost name = { [] };

    ghost event = { 0 };
}

/// Whether a symbol has the name that is asked for.
#[tactic(auto, unfolding(crate::specs::Asked::is_named))]
pub fn is_named(name: &[u8], config: &Config, symbol: u32) -> bool
    ensures { result ≡ is_named name.now config.now symbol }
{
    name_at(config.symbols.as_slice(), symbol) == name
}

/// What is found of a symbol's event in a config, before any event.
pub fn found_in(name: &[u8], config: &Config) -> Found {
    if config
        .symbols
        .as_slice()
        .iter()
        .any(|symbol| symbol.as_slice() == name)
    {
        Found::NoEvent
    } else {
        Found::NoSymbol
    }
}

/// The question that a type stands for.
#[derive(Drop)]
pub struct Question<'a, A: Asked> {
    pub name: &'a [u8],
    pub event: u32,
    of: PhantomData<A>,
    ghost is_name: { name.now ≡ A.name },
    ghost is_event: { event ≡ A.event },
}

impl<'a, A: Asked> Question<'a, A> {
    /// The question.
    pub fn new(name: &'a [u8], event: u32) -> Question<'a, A>
        requires name { name.now ≡ A.name }
        requires event { event ≡ A.event }
    {
        Question {
            name,
            event,
            of: PhantomData,
        }
    }
}
