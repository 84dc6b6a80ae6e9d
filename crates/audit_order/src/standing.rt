//! The order that entered at an event, and how it rests.
ghost use Rattle.std.specs.Prelude.{◌≡◌};
ghost use Rattle.eager_meaning.specs.Step.{runs};
ghost use Rattle.audit_order.specs.Standing.{rests_alike, rests_in};

use std::marker::Brand;
use std::sync::ledger::{Blank, Ledger};
use symbol_book::Book;
use venue_words::{Priced, Steps};

#[tactic(auto, unfolding(crate::specs::Standing::rests_in))]
fn resting_counted<L: Ledger>(book: &Book, number: Option<u32>, blank: Blank) -> Option<Priced>
    requires { (blank.name ≡ L.name) × (blank.parts ≡ L.parts) × (L.parts ≡ 1) }
    ensures { result ≡ rests_in number (runs book.now.markets book.now.tick book.now.journal).state }
{
    let mut steps: Steps<L> = Steps::start(blank);
    match number {
        None => None,
        Some(number) => {
            if book.orders().len() <= number as usize {
                return None;
            }
            book.resting_order(number, &mut steps)
        }
    }
}

/// How the order of a number rests, where there is one.
pub fn resting(book: &Book, number: Option<u32>) -> Option<Priced>
    ensures { result ≡ rests_in number (runs book.now.markets book.now.tick book.now.journal).state }
{
    resting_counted::<Brand>(book, number, Blank::new(1))
}

/// Whether an order rests alike.
pub fn rests_alike(was: Option<Priced>, rests: Option<Priced>) -> bool
    ensures { result ≡ rests_alike was rests }
{
    match (was, rests) {
        (None, None) => true,
        (Some(x), Some(y)) => x.value == y.value
            && x.time == y.time
            && x.row.leaves == y.row.leaves,
        (None, Some(_)) | (Some(_), None) => false,
    }
}
