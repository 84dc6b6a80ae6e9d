//! Where no call of the outside fails, an input is worked to its end.
ghost use Rattle.std.specs.Prelude.{IfSome};
ghost use Rattle.venue_words.specs.Causes.{Rose};
ghost use Rattle.program_words.specs.Words.{texts};
ghost use Rattle.market_data.specs.Plan.{plan_of};
ghost use Rattle.market_feed_laws.specs.Complete.{IsWhole};

use io_edge::{Shelf, Sink};
use market_data::{MarketStatus, market_feed};
use std::alloc::Global;

/// Does what `market_feed` does. Where no count of faults rises, words of the form, a config inside its grammar and limits, and an
/// input that is there end as the input's bytes say, but for want of memory.
pub fn market_feed_whole<H: Shelf, K: Sink, E: Sink>(
    alloc: Global,
    words: &[String],
    shelf: &mut H,
    out: &mut K,
    err: &mut E,
) -> MarketStatus
    ensures { (Rose (H.faults shelf.old) (H.faults shelf.new) → ⊥) → (Rose (K.faults out.old) (K.faults out.new) → ⊥) →
        (Rose (E.faults err.old) (E.faults err.new) → ⊥) →
        IfSome (H.told shelf.old) (λ files. IfSome (plan_of (texts words.now)) (λ plan. IsWhole files plan result)) }
{
    market_feed(alloc, words, shelf, out, err)
}
