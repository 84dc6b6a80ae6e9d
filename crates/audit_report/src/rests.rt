//! The orders of a book that rest, counted.
ghost use Rattle.std.specs.Prelude.{◌≡◌};

use crate::facts::{MemberFacts, SymbolFacts, count_resting};
use audit_tables::counts::order_count;
use std::marker::Brand;
use std::sync::ledger::{Blank, Ledger};
use symbol_book::Book;
use venue_words::Steps;

fn rests_counted<L: Ledger>(
    facts: &mut SymbolFacts,
    members: &mut [MemberFacts],
    book: &Book,
    blank: Blank,
)
    requires { (blank.name ≡ L.name) × (blank.parts ≡ L.parts) × (L.parts ≡ 1) }
{
    let mut steps: Steps<L> = Steps::start(blank);
    let count = order_count(book);
    for number in 0..count {
        if let Some(x) = book.resting_order(number, &mut steps) {
            count_resting(facts, members, x.row.member, x.row.key.side, x.row.leaves);
        }
    }
}

/// Counts the orders that rest.
pub fn count_rests(facts: &mut SymbolFacts, members: &mut [MemberFacts], book: &Book) {
    rests_counted::<Brand>(facts, members, book, Blank::new(1));
}
