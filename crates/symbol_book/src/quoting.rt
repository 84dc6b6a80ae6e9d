//! Quotes.
ghost use Rattle.std.specs.Prelude.{◌≡◌, ◌+◌, ◌*◌, ◌^◌, ◌<◌, ◌≤◌, None, All, length, slice_set};
ghost use Rattle.venue_words.specs.Best.{best_of};
ghost use Rattle.venue_words.specs.Retime.{reprice};
ghost use Rattle.eager_meaning.specs.Quoting.{on_quote, requote, with_quote};
ghost use Rattle.eager_meaning.specs.Work.{examined_in_recheck, examined_by_quote};
ghost use Rattle.match_core.specs.BothSides.{requoted_rows};
ghost use Rattle.symbol_book.specs.Log.{Reports};
ghost use Rattle.symbol_book.specs.Orders.{IsSmall, HaveLeft};
ghost use Rattle.symbol_book.specs.Parts.{Agree, HasRoom, resting_in, state_in};

use crate::parts::Parts;
use crate::trading::report_trades;
use match_core::Engine;
use std::sync::ledger::Ledger;
use venue_words::{Best, Event, Steps};

/// Prices each row by a new national quote, rechecks the book, and reports the trades.
#[tactic(auto, unfolding(eager_meaning::specs::Quoting::requote))]
fn requote<E: Engine + Drop, L: Ledger>(
    parts: &mut Parts<E>,
    event: &Event,
    best: Best,
    steps: &mut Steps<L>,
) -> u32
    requires best { best_of parts.old.markets ≡ best }
    requires ready { E.ready parts.old.engine None }
    requires later { E.latest parts.old.engine < event.now.number }
    requires left { HaveLeft (requoted_rows event.now.number best (E.buys parts.old.engine)
        (E.sells parts.old.engine)).fills parts.old.orders.items }
    requires small { All IsSmall parts.old.orders.items }
    requires few { resting_in E.buys E.sells parts.old < 2 ^ 30 }
    requires room { (2 * resting_in E.buys E.sells parts.old ≤ parts.old.log.places)
        × (2 * resting_in E.buys E.sells parts.old ≤ parts.old.orders.copies) }
    ensures state { (requote event.now.number (state_in E.buys E.sells parts.old)).state
        ≡ state_in E.buys E.sells parts.new }
    ensures reports { Reports event.now parts.old.log.list 1
        (requote event.now.number (state_in E.buys E.sells parts.old)).notices parts.new.log.list result }
    ensures rest { (parts.new.markets ≡ parts.old.markets) × (parts.new.entered ≡ parts.old.entered)
        × (parts.new.ids ≡ parts.old.ids) }
    ensures small { All IsSmall parts.new.orders.items }
    ensures most { steps.new ≤ steps.old + 1664 * (E.width parts.old.engine + 2) * (examined_in_recheck
        (reprice event.now.number best (E.buys parts.old.engine))
        (reprice event.now.number best (E.sells parts.old.engine)) + 1) }
    ensures best { E.best parts.new.engine ≡ best }
    ensures latest { E.latest parts.new.engine ≡ event.now.number }
{
    parts.engine.requote(event.number, best, steps);
    let fills = parts.engine.fills();
    report_trades(&mut parts.log, event, 1, fills, &mut parts.orders)
}

/// A quote of one market.
#[tactic(auto, unfolding(eager_meaning::specs::Quoting::on_quote), using(crate::proofs::SameBest::best_tests))]
pub fn on_quote<E: Engine + Drop, L: Ledger>(
    parts: &mut Parts<E>,
    event: &Event,
    market: u32,
    quote: Best,
    steps: &mut Steps<L>,
) -> u32
    requires market { market < length parts.old.markets }
    requires ready { E.ready parts.old.engine None }
    requires later { E.latest parts.old.engine < event.now.number }
    requires left { HaveLeft (requoted_rows event.now.number (best_of (slice_set parts.old.markets market quote))
        (E.buys parts.old.engine) (E.sells parts.old.engine)).fills parts.old.orders.items }
    requires agree { Agree E.buys E.sells E.best parts.old }
    requires places { HasRoom (resting_in E.buys E.sells parts.old) parts.old }
    ensures state { (on_quote event.now.number market quote (state_in E.buys E.sells parts.old)).state
        ≡ state_in E.buys E.sells parts.new }
    ensures reports { Reports event.now parts.old.log.list 1
        (on_quote event.now.number market quote (state_in E.buys E.sells parts.old)).notices parts.new.log.list result }
    ensures rest { (parts.new.entered ≡ parts.old.entered) × (parts.new.ids ≡ parts.old.ids) }
    ensures small { All IsSmall parts.new.orders.items }
    ensures most { steps.new ≤ steps.old + 1664 * (E.width parts.old.engine + 2) * (examined_by_quote event.now.number
        (state_in E.buys E.sells parts.old) (with_quote market quote (state_in E.buys E.sells parts.old)) + 1) }
    ensures count { length parts.new.markets ≡ length parts.old.markets }
    ensures best { E.best parts.new.engine ≡ best_of parts.new.markets }
    ensures latest { E.latest parts.new.engine ≤ event.now.number }
{
    if parts.markets.set(market, quote.bid, quote.offer) {
        let best = parts.markets.best();
        requote(parts, event, best, steps)
    } else {
        1
    }
}
