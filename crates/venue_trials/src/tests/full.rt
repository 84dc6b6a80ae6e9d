//! A venue for one thread, whose books are filled to their limits.
ghost use Rattle.std.specs.Prelude.{◌≡◌, ◌<◌, ◌≤◌, length};
ghost use Rattle.venue_words.specs.Conditions.{IsConfig};

use super::checks::check;
use super::configs::config_of;
use super::venues::{check_book, quote, submit_all};
use std::alloc::Global;
use std::marker::Brand;
use std::process::Abort;
use std::sync::ledger::{Blank, Ledger};
use std::test::Fail;
use symbol_book::{Book, HashSeed};
use venue_core::{PlainVenue, plain};
use venue_words::{Config, Floor, FloorRefusal, Look, NoMemory, Steps};

// What a venue for one thread holds after 45 commands, where each book takes ten.
#[derive(Drop)]
struct Filled {
    venue: PlainVenue<Book>,
    last: Result<u32, FloorRefusal>,
    look: Result<Look, NoMemory>,
}

fn fill_counted<L: Ledger>(alloc: Global, mut venue: PlainVenue<Book>, blank: Blank) -> Filled
    requires symbols { length venue.books ≡ 3 }
    requires members { 4 ≤ venue.members }
    requires markets { 0 < venue.markets }
    requires blank { (blank.name ≡ L.name) × (blank.parts ≡ L.parts) × (L.parts ≡ 1) }
    ensures { length result.venue.books ≡ 3 }
{
    let mut steps: Steps<L> = Steps::start(blank);
    submit_all(alloc, &mut venue, 1, 45, &mut steps);
    let last = venue.submit(2, 1, 45, &quote(1000, 1001), &mut steps);
    let look = venue.reports_after(1, 1, 0);
    Filled { venue, last, look }
}

fn fill(alloc: Global, venue: PlainVenue<Book>) -> Filled
    requires symbols { length venue.books ≡ 3 }
    requires members { 4 ≤ venue.members }
    requires markets { 0 < venue.markets }
    ensures { length result.venue.books ≡ 3 }
{
    fill_counted::<Brand>(alloc, venue, Blank::new(1))
}

// Each book has its ten events, the last command finds no room, and a look shows all reports of the second book.
fn check_filled<R: Abort>(
    rt: &R,
    alloc: Global,
    config: &Config,
    filled: &Filled,
) -> Result<(), Fail>
    requires config { IsConfig config.now }
    requires symbols { length config.now.limits ≡ 3 }
    requires books { length filled.now.venue.books ≡ 3 }
{
    check(
        rt,
        filled.last == Err(FloorRefusal::Full { found: 10 }),
        "the last command",
        45,
    );
    for symbol in 0..3 {
        let book = filled.venue.book(symbol);
        check_book(rt, alloc, config, symbol, book, 1)?;
        check(
            rt,
            book.journal().len() == 10,
            "the events of a symbol",
            symbol,
        );
    }
    let is_shown = shows_all(&filled.look, filled.venue.book(1).reports().len());
    check(rt, is_shown, "a look at symbol", 1);
    Ok(())
}

// Whether a look shows so many reports.
fn shows_all(look: &Result<Look, NoMemory>, reports: usize) -> bool {
    match look {
        Ok(look) => look.front as usize == reports && look.reports.len() == reports,
        Err(_) => false,
    }
}

#[test]
fn full_books_refuse_and_still_show_their_reports(rt: HostRuntime) -> Result<(), Fail> {
    let alloc = rt.alloc();
    let config = config_of(alloc, 10)?;
    let venue = plain(alloc, HashSeed::fixed(), &config)?;
    check_filled(&rt, alloc, &config, &fill(alloc, venue))
}
