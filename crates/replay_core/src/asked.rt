//! At which symbols a member is asked.
ghost use Rattle.std.specs.Prelude.{◌≡◌, ◌⊎◌, ◌<◌, ℕ, List, Bool, true, false, length, IfOk};
ghost use Rattle.member_gate.specs.Reporting.{asked_at};
ghost use Rattle.replay_core.specs.News.{AsksNone, AsksSome};

use std::alloc::Global;
use std::marker::Model;
use venue_words::NoMemory;

/// At which symbols a member is asked.
#[derive(Drop)]
pub struct Asked {
    /// By symbol.
    symbols: Vec<bool>,
    /// Whether there is one: nothing is to be cleared where there is none.
    noted: bool,
}

impl Model for Asked {
    ghost use Rattle.std.specs.Prelude.{List, Bool};
    ghost use Rattle.replay_core.specs.News.{IsNotedRight};

    ghost Value = { List Bool };

    ghost view = { λ a. a.symbols.items };

    ghost invariant = { λ a. IsNotedRight a.noted a.symbols.items };
}

impl Asked {
    /// At none of so many.
    pub fn new(alloc: Global, symbols: usize) -> Result<Asked, NoMemory>
        ensures count { IfOk result (λ asked. length asked ≡ symbols) }
        ensures none { IfOk result AsksNone }
    {
        Ok(Asked {
            symbols: vec![in alloc; false; symbols]?,
            noted: false,
        })
    }

    /// Whether he is asked at each, in the config's order.
    pub fn symbols(&self) -> &[bool]
        ensures { result.now ≡ self.now }
    {
        self.symbols.as_slice()
    }

    /// Whether he is asked at one.
    pub fn is_noted(&self) -> bool
        ensures none { result ≡ false → AsksNone self.now }
        ensures some { result ≡ true → AsksSome self.now }
    {
        self.noted
    }

    /// He is asked at none.
    pub fn clear(&mut self)
        ensures count { length self.new ≡ length self.old }
        ensures none { AsksNone self.new }
    {
        if self.noted {
            self.symbols.fill(false);
            self.noted = false;
        }
    }

    /// He is asked at a symbol.
    pub fn note(&mut self, symbol: u32)
        ensures count { length self.new ≡ length self.old }
        ensures kept { (other : ℕ) → asked_at self.old other ≡ true → asked_at self.new other ≡ true }
        ensures there { symbol < length self.old → asked_at self.new symbol ≡ true }
        ensures only { (other : ℕ) → asked_at self.new other ≡ true → (asked_at self.old other ≡ true) ⊎ (other ≡ symbol) }
    {
        if (symbol as usize) < self.symbols.len() {
            self.symbols[symbol as usize] = true;
            self.noted = true;
        }
    }

    /// He is asked at all.
    pub fn note_all(&mut self)
        ensures count { length self.new ≡ length self.old }
        ensures all { (symbol : ℕ) → symbol < length self.old → asked_at self.new symbol ≡ true }
    {
        self.symbols.fill(true);
        self.noted = !self.symbols.is_empty();
    }
}
