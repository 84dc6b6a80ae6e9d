//! A symbol's book in seven numbers.
ghost use Rattle.std.specs.Prelude.{◌≡◌, IfOk, string_bytes};
ghost use Rattle.replay_core.specs.Summary.{counted, summary_text};

use std::alloc::{AllocError, Global};
use venue_words::{Execution, Kind, Report, Side};

/// What a symbol's book came to.
#[derive(Clone, Copy, Debug, PartialEq, Eq)]
pub struct Summary {
    pub events: usize,
    /// New orders that were accepted.
    pub accepted: usize,
    /// New orders that were rejected.
    pub rejected: usize,
    pub trades: usize,
    /// Shares bought, which are as many as those sold.
    pub shares: u128,
    /// Orders that rest.
    pub resting: u32,
    /// Peg groups: the different keys of the resting orders.
    pub groups: u32,
}

impl Summary {
    /// Sums up a book of so many events, from its reports, its resting orders and its peg groups.
    pub fn of(events: usize, reports: &[Report], resting: u32, groups: u32) -> Summary
        ensures { result ≡ counted events reports.now resting groups }
    {
        let mut accepted = 0usize;
        let mut rejected = 0usize;
        let mut traded = 0usize;
        let mut shares = 0u128;
        for report in reports {
            match &report.kind {
                Kind::Order {
                    execution: Execution::Accepted,
                    ..
                } => accepted += 1,
                Kind::Order {
                    view,
                    execution: Execution::Traded { quantity, .. },
                } => {
                    traded += 1;
                    if view.side == Side::Buy {
                        shares += u128::from(*quantity);
                    }
                }
                Kind::Rejected { .. } => rejected += 1,
                _ => {}
            }
        }
        Summary {
            events,
            accepted,
            rejected,
            trades: traded / 2,
            shares,
            resting,
            groups,
        }
    }

    /// The line that tells it, with its LF.
    pub fn text(&self, alloc: Global) -> Result<String, AllocError>
        ensures { IfOk result (λ text. string_bytes text ≡ summary_text self.now) }
    {
        format!(in alloc;
            "events {} accepted {} rejected {} trades {} shares {} resting {} groups {}\n",
            self.events,
            self.accepted,
            self.rejected,
            self.trades,
            self.shares,
            self.resting,
            self.groups
        )
    }
}
