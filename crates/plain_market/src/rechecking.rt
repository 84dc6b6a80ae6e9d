//! The trades of a whole book after a new national quote.
ghost use Rattle.std.specs.Prelude.{◌≡◌, IfOk};
ghost use Rattle.eager_meaning.specs.Recheck.{meet, crosses_any, sweep, recheck};

use crate::matching::{fills_of, rows_after, takes_of};
use crate::priority::in_priority;
use eager_meaning::{Fill, Take};
use std::alloc::{AllocError, Global};
use std::marker::Model;
use venue_words::Priced;

/// Whether a taker crosses an active row of the other side.
#[tactic(auto, unfolding(eager_meaning::specs::Recheck::crosses_any))]
fn crosses_any(taker: &Priced, others: &[Priced]) -> bool
    ensures { result ≡ crosses_any taker.now others.now }
{
    others.iter().any(|other| taker.crosses(other))
}

/// The two sides of a book while one side's orders take, and the trades so far.
#[derive(Drop)]
pub struct Sides {
    pub own: Vec<Priced>,
    pub others: Vec<Priced>,
    pub fills: Vec<Fill>,
}

impl Model for Sides {
    ghost use Rattle.eager_meaning.specs.Recheck.{Sides as Both};

    ghost Value = { Both };

    ghost view = { λ s. record { own = s.own.items; others = s.others.items; fills = s.fills.items } };
}

impl Sides {
    /// One resting order meets the other side.
    #[tactic(auto, unfolding(eager_meaning::specs::Recheck::meet))]
    fn meet(&mut self, alloc: Global, taker: &Priced) -> Result<(), AllocError>
        ensures { IfOk result (λ _. self.new ≡ meet taker.now self.old) }
    {
        let (takes, shares) = takes_of(alloc, taker, &self.others)?;
        let own = Take {
            contra: *taker,
            shares,
        };
        self.own = rows_after(alloc, &[own], &self.own)?;
        self.others = rows_after(alloc, &takes, &self.others)?;
        let fills = fills_of(alloc, taker, &takes)?;
        self.fills.extend_from_slice(&fills)?;
        Ok(())
    }

    /// Each taker in turn, until one crosses nothing that is left.
    #[tactic(auto, unfolding(eager_meaning::specs::Recheck::sweep))]
    fn sweep(&mut self, alloc: Global, takers: &[Priced]) -> Result<(), AllocError>
        ensures { IfOk result (λ _. self.new ≡ sweep takers.now self.old) }
    {
        for taker in takers {
            if !crosses_any(taker, &self.others) {
                break;
            }
            self.meet(alloc, taker)?;
        }
        Ok(())
    }
}

/// The rows and trades after the buys and then the sells have each walked once.
#[tactic(auto, unfolding(eager_meaning::specs::Recheck::recheck))]
pub fn recheck(alloc: Global, buys: Vec<Priced>, sells: Vec<Priced>) -> Result<Sides, AllocError>
    ensures buys { IfOk result (λ matched. matched.others ≡ (recheck buys.items sells.items).buys) }
    ensures sells { IfOk result (λ matched. matched.own ≡ (recheck buys.items sells.items).sells) }
    ensures fills { IfOk result (λ matched. matched.fills ≡ (recheck buys.items sells.items).fills) }
{
    let takers = in_priority(alloc, &buys)?;
    let mut first = Sides {
        own: buys,
        others: sells,
        fills: Vec::new(alloc),
    };
    first.sweep(alloc, &takers)?;
    let Sides { own, others, fills } = first;
    let takers = in_priority(alloc, &others)?;
    let mut second = Sides {
        own: others,
        others: own,
        fills,
    };
    second.sweep(alloc, &takers)?;
    Ok(second)
}
