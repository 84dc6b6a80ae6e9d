//! What a player needs of its floor.
ghost use Rattle.std.specs.Prelude.{◌≡◌, ◌<◌, ℕ, [], length, IfOk};
ghost use Rattle.venue_words.specs.Conditions.{IsConfig};
ghost use Rattle.eager_meaning.specs.State.{State, resting};
ghost use Rattle.eager_meaning.specs.Work.{groups};
ghost use Rattle.replay_core.specs.PlainFloor.{IsPlain};

use std::alloc::Global;
use venue_words::{Config, Floor, NoMemory, Report};

/// A floor that one thread has for itself, made for a config.
pub trait PlainFloor: Floor + Drop {
    /// The state of each symbol's book.
    ghost state: { Self → ℕ → State };

    /// A floor of books that have taken nothing yet.
    fn open(alloc: Global, config: &Config) -> Result<Self, NoMemory>
        requires { IsConfig config.now }
        ensures plain { IfOk result (λ floor.
            IsPlain Self.mark Self.at Self.step_limit state config.now (Self.mark floor)) }
        ensures empty { IfOk result (λ floor. (symbol : ℕ) → (Self.at floor symbol).journal ≡ []) };

    /// How many reports a symbol has.
    fn front(&self, symbol: u32) -> u32
        requires { symbol < length (Self.mark self.now).setup.limits }
        ensures { result ≡ length (Self.at self.now symbol).reports };

    /// How many events a symbol's book has taken.
    fn events(&self, symbol: u32) -> usize
        requires { symbol < length (Self.mark self.now).setup.limits }
        ensures { result ≡ length (Self.at self.now symbol).journal };

    /// The reports of a symbol's events.
    fn reports(&self, symbol: u32) -> &[Report]
        requires { symbol < length (Self.mark self.now).setup.limits }
        ensures { result.now ≡ (Self.at self.now symbol).reports };

    /// How many orders rest in a symbol's book.
    fn resting(&self, symbol: u32) -> u32
        requires { symbol < length (Self.mark self.now).setup.limits }
        ensures { result ≡ length (resting (state self.now symbol)) };

    /// How many peg groups rest in a symbol's book.
    fn groups(&self, symbol: u32) -> u32
        requires { symbol < length (Self.mark self.now).setup.limits }
        ensures { result ≡ groups (state self.now symbol) };
}
