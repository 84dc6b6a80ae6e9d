//! The config of a venue, and that it is one.
ghost use Rattle.std.specs.Prelude.{◌≡◌, ◌<◌, ◌≤◌, ℕ, length, All, IfSome, slice_get, Some};
ghost use Rattle.std.specs.Option.{option_copied};
ghost use Rattle.venue_words.specs.Conditions.{IsConfig};
ghost use Rattle.quote_intake.specs.Quote.{number_in};

use quote_intake::number_in;
use std::marker::Model;
use venue_words::{Bytes, Config};

/// The config of a venue. Contracts see it as the config.
#[derive(Drop)]
pub struct Setup {
    config: Config,
}

impl Model for Setup {
    ghost use Rattle.venue_words.specs.declared.config.Config.{Config};
    ghost use Rattle.venue_words.specs.Conditions.{IsConfig};

    ghost Value = { Config };

    ghost view = { λ s. s.config };

    ghost invariant = { λ s. IsConfig s.config };
}

impl Setup {
    pub fn new(config: Config) -> Setup
        requires { IsConfig config }
        ensures { result ≡ config }
    {
        Setup { config }
    }

    pub fn config(&self) -> &Config
        ensures same { result.now ≡ self.now }
        ensures config { IsConfig result.now }
    {
        &self.config
    }

    /// The names of the members, in their order.
    pub fn names(&self) -> &[Bytes]
        ensures names { result.now ≡ self.now.members }
        ensures config { IsConfig self.now }
        ensures few { length result.now ≤ 256 }
    {
        self.config.members.as_slice()
    }

    /// A member's name.
    #[tactic(auto, using(crate::proofs::NameLaws::name_short))]
    pub fn name(&self, member: usize) -> Option<&[u8]>
        ensures name { option_copied result ≡ slice_get self.now.members member }
        ensures short { IfSome result (λ name. length name.now ≤ 16) }
    {
        match self.names().get(member) {
            Some(name) => Some(name.as_slice()),
            None => None,
        }
    }

    /// A symbol's name.
    #[tactic(auto, using(crate::proofs::NameLaws::symbol_short))]
    pub fn symbol(&self, symbol: usize) -> Option<&[u8]>
        ensures name { option_copied result ≡ slice_get self.now.symbols symbol }
        ensures short { IfSome result (λ name. length name.now ≤ 16) }
    {
        match self.config().symbols.as_slice().get(symbol) {
            Some(name) => Some(name.as_slice()),
            None => None,
        }
    }

    /// The names of the markets, in their order.
    #[tactic(auto, using(crate::proofs::NameLaws::markets_short))]
    pub fn markets(&self) -> &[Bytes]
        ensures markets { result.now ≡ self.now.markets }
        ensures short { All (λ name. length name ≤ 16) result.now }
        ensures few { length result.now ≤ 32 }
    {
        self.config().markets.as_slice()
    }

    /// A market's name.
    #[tactic(auto, using(crate::proofs::NameLaws::market_short))]
    pub fn market(&self, market: usize) -> Option<&[u8]>
        ensures name { option_copied result ≡ slice_get self.now.markets market }
        ensures short { IfSome result (λ name. length name.now ≤ 16) }
    {
        match self.config().markets.as_slice().get(market) {
            Some(name) => Some(name.as_slice()),
            None => None,
        }
    }

    /// The names of the symbols, in their order.
    pub fn symbols(&self) -> &[Bytes]
        ensures symbols { result.now ≡ self.now.symbols }
        ensures few { length result.now ≤ 256 }
    {
        self.config().symbols.as_slice()
    }

    /// A market's number, by its name.
    pub fn market_named(&self, name: &[u8]) -> Option<usize>
        ensures { result ≡ number_in self.now.markets name.now }
    {
        match number_in(self.markets(), name) {
            Some(market) => Some(market as usize),
            None => None,
        }
    }

    /// A symbol's number, by its name.
    pub fn symbol_named(&self, name: &[u8]) -> Option<usize>
        ensures { result ≡ number_in self.now.symbols name.now }
    {
        match number_in(self.symbols(), name) {
            Some(symbol) => Some(symbol as usize),
            None => None,
        }
    }

    /// A member's number, by his name.
    pub fn member(&self, name: &[u8]) -> Option<usize>
        ensures { result ≡ number_in self.now.members name.now }
    {
        match number_in(self.names(), name) {
            Some(member) => Some(member as usize),
            None => None,
        }
    }
}
