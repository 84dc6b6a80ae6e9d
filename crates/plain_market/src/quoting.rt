//! What a quote does to a symbol's book.
ghost use Rattle.std.specs.Prelude.{◌≡◌, IfOk};
ghost use Rattle.eager_meaning.specs.Quoting.{requote, same_best, with_quote, on_quote};

use crate::pegging::{best_of, reprice};
use crate::plain::Plain;
use crate::rechecking::{Sides, recheck};
use crate::trading::push_trade_notices;
use eager_meaning::Notice;
use std::alloc::{AllocError, Global};
use venue_words::Best;

/// Whether two national quotes are the same.
fn same_best(x: Best, y: Best) -> bool
    ensures { result ≡ same_best x y }
{
    x.bid == y.bid && x.offer == y.offer
}

impl Plain {
    /// Sets a market's quote.
    fn set_quote(&mut self, market: u32, quote: Best)
        ensures { self.new ≡ with_quote market quote self.old }
    {
        let k = market as usize;
        if k < self.markets.len() {
            self.markets[k] = quote;
        }
    }

    /// Reprices each row by the present quote, and rechecks the book.
    #[tactic(auto, unfolding(eager_meaning::specs::Quoting::requote))]
    fn requote(&mut self, alloc: Global, event: u32) -> Result<Vec<Notice>, AllocError>
        ensures state { IfOk result (λ _. self.new ≡ (requote event self.old).state) }
        ensures notices { IfOk result (λ notices. notices.items ≡ (requote event self.old).notices) }
    {
        let best = best_of(&self.markets);
        let buys = reprice(alloc, event, best, &self.buys)?;
        let sells = reprice(alloc, event, best, &self.sells)?;
        let Sides { own, others, fills } = recheck(alloc, buys, sells)?;
        let mut notices = Vec::new(alloc);
        push_trade_notices(alloc, &mut notices, &fills, &mut self.orders)?;
        self.buys = others;
        self.sells = own;
        Ok(notices)
    }

    /// A quote of one market: nothing else happens where the national one stays.
    #[tactic(auto, unfolding(eager_meaning::specs::Quoting::on_quote))]
    pub(crate) fn on_quote(
        &mut self,
        alloc: Global,
        event: u32,
        market: u32,
        quote: Best,
    ) -> Result<Vec<Notice>, AllocError>
        ensures state { IfOk result (λ _. self.new ≡ (on_quote event market quote self.old).state) }
        ensures notices { IfOk result (λ notices. notices.items ≡ (on_quote event market quote self.old).notices) }
    {
        let before = best_of(&self.markets);
        self.set_quote(market, quote);
        if same_best(before, best_of(&self.markets)) {
            Ok(Vec::new(alloc))
        } else {
            self.requote(alloc, event)
        }
    }
}
