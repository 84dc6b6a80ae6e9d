//! The two sides of one symbol's book together.

use crate::changing::{cut_in, lower_in, price_in};
use crate::engine::Engine;
use crate::entering::{Entering, enter_on};
use crate::narrow::NarrowSide;
use crate::rechecking::requote_both;
use crate::reserving::{make_spare, narrow_both, reserve_both};
use crate::scratch::{Scratch, reserve};
use eager_meaning::Fill;
use limit_tree::Node;
use peg_groups::SideBook;
use std::alloc::Global;
use std::marker::{Brand, Model};
use std::sync::ledger::{Blank, Ledger};
use venue_words::{Best, Key, NoMemory, Row, Side, Steps};

/// The buys and the sells of one symbol, with the quote that prices them and the trades of the last call that matched.
pub struct Sides<S: SideBook + Drop> {
    buys: S,
    sells: S,
    scratch: Scratch,
    /// A node for a row that enters.
    spare: Option<Box<Node>>,
    alloc: Global,
    best: Best,
    latest: u32,
}

// Written out, so that crates above let go of one by this theorem, and not part by part.
impl<S: SideBook + Drop> Drop for Sides<S> {
    fn drop(self) {
        let Sides {
            buys: _,
            sells: _,
            scratch: _,
            spare: _,
            alloc: _,
            best: _,
            latest: _,
        } = self;
    }
}

impl<S: SideBook + Drop> Model for Sides<S> {
    ghost use Rattle.std.specs.Prelude.{◌<◌, ◌^◌};
    ghost use Rattle.match_core.specs.Rooms.{IsClear};
    ghost use Rattle.match_core.specs.SidesView.{SidesView, AreSides};

    ghost Value = { SidesView S };

    ghost view = { λ s.
        record {
          buys = s.buys;
          sells = s.sells;
          scratch = s.scratch;
          spare = s.spare;
          best = s.best;
          latest = s.latest;
        } };

    ghost invariant = { λ s.
        AreSides s.best s.latest (S.state s.buys) (S.state s.sells) × IsClear s.scratch × (s.latest < 2 ^ 32) };
}

impl<S: SideBook + Drop> Sides<S> {
    ghost use Rattle.std.specs.Prelude.{◌≡◌, [], None};
    ghost use Rattle.peg_groups.specs.Side.{first_state};

    /// Over two sides without rows, before the first quote. This takes no memory.
    pub fn new(alloc: Global, buys: S, sells: S) -> Sides<S>
        requires buys { S.state buys ≡ first_state }
        requires sells { S.state sells ≡ first_state }
        ensures buys { S.state result.buys ≡ first_state }
        ensures sells { S.state result.sells ≡ first_state }
        ensures fills { result.scratch.fills.items ≡ [] }
        ensures best { result.best ≡ record { bid = None; offer = None } }
        ensures latest { result.latest ≡ 0 }
    {
        Sides {
            buys,
            sells,
            scratch: Scratch::new(alloc),
            spare: None,
            alloc,
            best: Best {
                bid: None,
                offer: None,
            },
            latest: 0,
        }
    }
}

impl<S: NarrowSide + Drop> Engine for Sides<S> {
    ghost use Rattle.std.specs.Prelude.{◌+◌, IsSome, IfSome, length};
    ghost use Rattle.match_core.specs.Rooms.{IsReady};
    ghost use Rattle.match_core.specs.SidesView.{OnSide};

    ghost buys = { λ s. (S.state s.buys).rows };

    ghost sells = { λ s. (S.state s.sells).rows };

    ghost best = { λ s. s.best };

    ghost latest = { λ s. s.latest };

    ghost fills = { λ s. s.scratch.fills.items };

    ghost width = { λ s. S.width s.buys + S.width s.sells };

    ghost ready = { λ s key.
        IsReady (length (S.state s.buys).rows + length (S.state s.sells).rows) s.scratch
        × (S.move_room s.buys × S.move_room s.sells)
        × IfSome key (λ k. IsSome s.spare × OnSide k.side (S.row_room s.buys k) (S.row_room s.sells k)) };

    fn reserve(&mut self, key: Option<Key>) -> Result<(), NoMemory> {
        self.scratch.fills.clear();
        narrow_both::<S, Brand>(&mut self.buys, &mut self.sells, Blank::new(1));
        reserve_both(&mut self.buys, &mut self.sells, key)?;
        let rows = self.buys.len() + self.sells.len();
        reserve(&mut self.scratch, rows)?;
        match key {
            None => Ok(()),
            Some(key) => make_spare(&mut self.spare, self.alloc, key),
        }
    }

    fn fills(&self) -> &[Fill] {
        self.scratch.fills.as_slice()
    }

    fn quote(&self) -> Best {
        self.best
    }

    fn len(&self) -> usize {
        self.buys.len() + self.sells.len()
    }

    fn groups(&self) -> usize {
        self.buys.groups() + self.sells.groups()
    }

    fn requote<L: Ledger>(&mut self, event: u32, quote: Best, steps: &mut Steps<L>) {
        requote_both(
            &mut self.buys,
            &mut self.sells,
            &mut self.scratch,
            event,
            quote,
            steps,
        );
        self.best = quote;
        self.latest = event;
    }

    fn enter<L: Ledger>(&mut self, row: Row, immediate: bool, steps: &mut Steps<L>) -> bool {
        let left = enter_on(
            &mut self.buys,
            &mut self.sells,
            &mut self.scratch,
            &mut self.spare,
            Entering {
                row,
                quote: self.best,
                immediate,
            },
            steps,
        );
        self.latest = row.entry;
        left
    }

    fn priced<L: Ledger>(&self, row: &Row, steps: &mut Steps<L>) -> (Option<u32>, u32) {
        match row.key.side {
            Side::Buy => price_in(&self.buys, row, steps),
            Side::Sell => price_in(&self.sells, row, steps),
        }
    }

    fn cut<L: Ledger>(&mut self, row: &Row, steps: &mut Steps<L>) {
        match row.key.side {
            Side::Buy => cut_in(&mut self.buys, row, steps),
            Side::Sell => cut_in(&mut self.sells, row, steps),
        }
    }

    fn lower<L: Ledger>(&mut self, row: &Row, leaves: u32, steps: &mut Steps<L>) {
        match row.key.side {
            Side::Buy => lower_in(&mut self.buys, row, leaves, steps),
            Side::Sell => lower_in(&mut self.sells, row, leaves, steps),
        }
    }
}
