//! A floor that counts what it is asked.
use std::sync::ledger::Ledger;
use venue_words::{Command, Floor, FloorRefusal, Look, NoMemory, Steps};

/// A floor, and how often the reports of its symbols behind the first were asked for.
#[derive(Drop)]
pub struct Counting<F: Floor> {
    pub floor: F,
    pub asked: u32,
}

impl<F: Floor> Floor for Counting<F> {
    ghost mark = { λ counting. F.mark counting.floor };

    ghost at = { λ counting symbol. F.at counting.floor symbol };

    ghost reports_in = { λ mark symbol journal. F.reports_in mark symbol journal };

    ghost step_limit = { λ mark symbol journal event. F.step_limit mark symbol journal event };

    fn submit<L: Ledger>(
        &mut self,
        symbol: u32,
        feed: u32,
        moment: i64,
        command: &Command,
        steps: &mut Steps<L>,
    ) -> Result<u32, FloorRefusal> {
        self.floor.submit(symbol, feed, moment, command, steps)
    }

    fn reports_after(&mut self, symbol: u32, member: u32, from: u32) -> Result<Look, NoMemory> {
        if symbol != 0 {
            self.asked = self.asked.saturating_add(1);
        }
        self.floor.reports_after(symbol, member, from)
    }

    ghost of_journal = { λ counting symbol within. F.of_journal counting.floor symbol within };
}
