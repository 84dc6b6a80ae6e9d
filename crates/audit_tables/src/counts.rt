//! How much a book holds.
ghost use Rattle.std.specs.Prelude.{◌≡◌, length};
ghost use Rattle.eager_meaning.specs.Step.{IsNumbered, runs};

use market_laws::book_is_sound;
use symbol_book::Book;
use venue_words::Event;

/// How many events a journal has: the number of the last one.
pub fn event_count(journal: &[Event]) -> u32
    requires { IsNumbered journal.now }
    ensures { result ≡ length journal.now }
{
    match journal.last() {
        Some(event) => event.number,
        None => 0,
    }
}

/// How many orders were accepted.
pub fn order_count(book: &Book) -> u32
    ensures { result ≡ length (runs book.now.markets book.now.tick book.now.journal).state.orders }
{
    book_is_sound();
    let most = event_count(book.journal());
    let count = book.orders().len();
    prove!(count <= most as usize);
    count as u32
}
