//! The order that entered at an event, event by event.
ghost use Rattle.std.specs.Prelude.{◌≡◌, ℕ, []};
ghost use Rattle.venue_words.specs.declared.config.Config.{Config};
ghost use Rattle.audit_core.specs.Telling.{IsNext};
ghost use Rattle.audit_order.specs.Standing.{Keeps, before_after, number_after};

use crate::standing::resting;
use audit_tables::counts::{event_count, order_count};
use symbol_book::Book;
use venue_words::{Config, Priced};

/// What is kept of the order behind the events so far.
#[derive(Clone, Copy)]
pub struct Followed {
    /// How many orders were accepted before the event at which it enters.
    pub before: u32,
    /// Its number, once it entered.
    pub number: Option<u32>,
    /// How it rests.
    pub rests: Option<Priced>,
}

fn before_after(count: u32, first: u32, orders: u32, before: u32) -> u32
    ensures { result ≡ before_after count first orders before }
{
    if count < first { orders } else { before }
}

fn number_after(
    count: u32,
    first: u32,
    orders: u32,
    before: u32,
    number: Option<u32>,
) -> Option<u32>
    ensures { result ≡ number_after count first orders before number }
{
    if count < first {
        return None;
    }
    if count != first {
        return number;
    }
    if before < orders { Some(before) } else { None }
}

/// What is kept before the first event.
pub fn nothing() -> Followed
    ensures { (config : Config) (symbol first : ℕ) → Keeps first result config symbol [] }
{
    Followed {
        before: 0,
        number: None,
        rests: None,
    }
}

/// What is kept behind one more event.
pub fn follow(followed: Followed, first: u32, config: &Config, symbol: u32, book: &Book) -> Followed
    requires { IsNext (Keeps first followed) config.now symbol book.now }
    ensures { Keeps first result config.now symbol book.now.journal }
{
    let _members = config.members.len();
    let _symbol = symbol;
    let count = event_count(book.journal());
    let orders = order_count(book);
    let before = before_after(count, first, orders, followed.before);
    let number = number_after(count, first, orders, followed.before, followed.number);
    let rests = resting(book, number);
    Followed {
        before,
        number,
        rests,
    }
}
