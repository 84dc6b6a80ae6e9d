//! Where no call of the outside fails, what is whole is played to its end.
ghost use Rattle.std.specs.Prelude.{◌≡◌, ◌≢◌, ◌⊎◌, ℕ, None, Some, IfSome};
ghost use Rattle.venue_words.specs.Causes.{Rose};
ghost use Rattle.program_words.specs.Words.{texts};
ghost use Rattle.replay_core.specs.Causes.{script_told};
ghost use Rattle.replay_core.specs.Plan.{Load, plan_of};
ghost use Rattle.replay_core.specs.Play.{script};

use io_edge::{Shelf, Sink, SureShelf, SureSink};
use replay_core::Status;
use replay_core::replay::replay;
use std::alloc::Global;
use std::sync::ledger::Ledger;
use venue_words::Steps;

/// A whole script, and a load run, is played to its end where no count of faults rises, but for want of memory.
pub fn replay_whole<H: Shelf, K: Sink, E: Sink, L: Ledger>(
    alloc: Global,
    words: &[String],
    shelf: &mut H,
    out: &mut K,
    err: &mut E,
    steps: &mut Steps<L>,
) -> Status
    ensures script { (Rose (H.faults shelf.old) (H.faults shelf.new) → ⊥) → (Rose (K.faults out.old) (K.faults out.new) → ⊥) →
        (Rose (E.faults err.old) (E.faults err.new) → ⊥) →
        IfSome (script_told (H.told shelf.old) (texts words.now)) (λ bytes.
        (script bytes).fault ≡ None → (result ≡ Status.Done) ⊎ (result ≡ Status.NoMemory)) }
    ensures load { (Rose (K.faults out.old) (K.faults out.new) → ⊥) → (Rose (E.faults err.old) (E.faults err.new) → ⊥) →
        (orders quotes : ℕ) → plan_of (texts words.now) ≡ Some (Load orders quotes) →
        (result ≡ Status.Done) ⊎ (result ≡ Status.NoMemory) }
{
    replay(alloc, words, shelf, out, err, steps)
}

/// Over files and sinks that never fail nothing else is left.
pub fn replay_surely<L: Ledger>(
    alloc: Global,
    words: &[String],
    shelf: &mut SureShelf,
    out: &mut SureSink,
    err: &mut SureSink,
    steps: &mut Steps<L>,
) -> Status
    ensures script { IfSome (script_told (⟦<SureShelf as Shelf>⟧.told shelf.old) (texts words.now)) (λ bytes.
        (script bytes).fault ≡ None → (result ≡ Status.Done) ⊎ (result ≡ Status.NoMemory)) }
    ensures load { (orders quotes : ℕ) → plan_of (texts words.now) ≡ Some (Load orders quotes) →
        (result ≡ Status.Done) ⊎ (result ≡ Status.NoMemory) }
{
    replay(alloc, words, shelf, out, err, steps)
}
