//! The figures of a symbol.
ghost use Rattle.std.specs.Prelude.{◌≡◌, ◌<◌, ◌+◌, ◌^◌, ℕ, Some};
ghost use Rattle.venue_words.specs.declared.price.Side.TheVariants.{Buy, Sell};
ghost use Rattle.watch_figures.specs.Resting.{Holds};

use std::alloc::{AllocError, Global};
use venue_words::{Execution, Kind, Report, Side, View};
use watch_page::{Resting, Trade};

/// A market's quote of a symbol, in cents, and when it came.
#[derive(Clone, Copy, Drop)]
pub(crate) struct Quote {
    pub(crate) bid: Option<u32>,
    pub(crate) offer: Option<u32>,
    pub(crate) since: Option<u64>,
}

/// What a symbol's reports and quotes came to.
#[derive(Drop)]
pub(crate) struct SymbolFigures {
    /// By market.
    pub(crate) quotes: Vec<Quote>,
    /// How many reports were gone through.
    seen: usize,
    /// By the number of the event of its New, the shares that an order has left while it rests.
    leaves: Vec<u32>,
    pub(crate) buys: Resting,
    pub(crate) sells: Resting,
    pub(crate) trades: u64,
    pub(crate) traded: u64,
    pub(crate) last: Option<Trade>,
}

/// Moments before 1970 count as 1970.
pub(crate) fn moment_of(moment: i64) -> u64 {
    u64::try_from(moment).unwrap_or(0)
}

/// An order of a side has other shares left than before.
fn change(side: &mut Resting, before: u32, after: u32)
    ensures { (orders shares : ℕ) → Holds side.old before orders shares → orders < 2 ^ 63 → shares < 2 ^ 63
        → Holds side.new after orders shares }
{
    if before > 0 {
        side.orders = side.orders.saturating_sub(1);
    }
    if after > 0 {
        side.orders = side.orders.saturating_add(1);
    }
    side.shares = side.shares.saturating_sub(u64::from(before));
    side.shares = side.shares.saturating_add(u64::from(after));
}

impl SymbolFigures {
    /// Before the first event, over so many markets.
    pub(crate) fn new(alloc: Global, markets: usize) -> Result<SymbolFigures, AllocError> {
        let none = Quote {
            bid: None,
            offer: None,
            since: None,
        };
        let nothing = Resting {
            orders: 0,
            shares: 0,
        };
        Ok(SymbolFigures {
            quotes: vec![in alloc; none; markets]?,
            seen: 0,
            leaves: Vec::new(alloc),
            buys: nothing,
            sells: nothing,
            trades: 0,
            traded: 0,
            last: None,
        })
    }

    /// Notes an order as a report shows it.
    fn note_order(&mut self, view: &View) -> Result<(), AllocError> {
        let place = view.first as usize;
        if self.leaves.len() <= place {
            self.leaves.resize(place + 1, 0)?;
        }
        let after = match view.live {
            Some(live) => live.leaves,
            None => 0,
        };
        let before = self.leaves[place];
        self.leaves[place] = after;
        match view.side {
            Side::Buy => change(&mut self.buys, before, after),
            Side::Sell => change(&mut self.sells, before, after),
        }
        Ok(())
    }

    /// Notes a trade, of which each side's member has a report: the buyer's is counted.
    fn note_trade(&mut self, side: Side, trade: Trade)
        ensures sells { side ≡ Sell → self.new ≡ self.old }
        ensures buys { side ≡ Buy → (self.new.last ≡ Some trade) × (self.old.trades < 2 ^ 63 → self.new.trades ≡ self.old.trades + 1) }
    {
        if side == Side::Buy {
            self.trades = self.trades.saturating_add(1);
            self.traded = self.traded.saturating_add(u64::from(trade.quantity));
            self.last = Some(trade);
        }
    }

    fn note(&mut self, report: &Report) -> Result<(), AllocError> {
        if let Kind::Order { view, execution } = &report.kind {
            self.note_order(view)?;
            if let Execution::Traded { quantity, price } = execution {
                let trade = Trade {
                    price: *price,
                    quantity: *quantity,
                    moment: moment_of(report.moment),
                };
                self.note_trade(view.side, trade);
            }
        }
        Ok(())
    }

    /// Notes the reports that were added since the last call, of all that the symbol has.
    pub(crate) fn look(&mut self, reports: &[Report]) -> Result<(), AllocError> {
        for report in reports.iter().skip(self.seen) {
            self.note(report)?;
        }
        self.seen = reports.len();
        Ok(())
    }
}
