//! Venues of books, and threads that submit through them.
ghost use Rattle.std.specs.Prelude.{◌≡◌, ◌-◌, ◌<◌, ◌≤◌, true, length, IfOk, OnOk};
ghost use Rattle.std.specs.List.{All};
ghost use Rattle.venue_words.specs.Conditions.{IsConfig, fits_limits};
ghost use Rattle.venue_words.specs.Floors.{Setup, is_configured};
ghost use Rattle.turn_gate.specs.Rule.{whole};
ghost use Rattle.venue_core.specs.Joining.{HaveParts};
ghost use Rattle.venue_core.specs.Venues.{AreSeatsOf};

use super::checks::check;
use super::configs::config_of;
use plain_market::plain_run;
use std::alloc::{AllocError, Global};
use std::marker::Brand;
use std::process::Abort;
use std::sync::Wait;
use std::sync::ledger::{Blank, Ledger};
use std::test::Fail;
use std::thread::{Threads, map_vec};
use symbol_book::{Book, HashSeed};
use venue_core::{Seated, Seats, Venue, make};
use venue_words::{
    BoxedTerms, Command, Config, Event, Floor, Held, Id, NoMemory, Report, Steps, Terms,
};

// A floor, and the feed whose commands go through it.
#[derive(Drop)]
struct Share<'a, R: Wait, V: Held> {
    floor: Seated<'a, R, V>,
    feed: u32,
}

// What a thread hands back: its floor, and how many commands were recorded.
#[derive(Drop)]
struct Worked<'a, R: Wait, V: Held> {
    floor: Seated<'a, R, V>,
    recorded: u32,
}

// An order of 100 to 500 shares at the midpoint, to buy or to sell.
fn terms(number: u32) -> Terms {
    Terms {
        side: if number.is_multiple_of(2) { b'1' } else { b'2' },
        quantity: (1 + i128::from(number % 5)) * 10_000_000_000,
        kind: b'P',
        price: None,
        force: None,
        minimum: None,
        method: None,
        peg: None,
        offset: None,
        offset_kind: None,
        moves: None,
        round: None,
    }
}

// Every third round of commands is one of quotes, some of them locked or crossed, and the others are of orders.
pub fn command(alloc: Global, feed: u32, number: u32) -> Result<Command, AllocError>
    ensures configured { (setup : Setup) → 4 ≤ setup.members → 0 < setup.markets
        → IfOk result (λ command. is_configured setup command ≡ true) }
    ensures limits { IfOk result (λ command. fits_limits command ≡ true) }
{
    if number % 9 < 3 {
        return Ok(quote(1000 + number % 7, 1003 + number % 5));
    }
    let id = [
        (feed % 256) as u8,
        (number / 256 % 256) as u8,
        (number % 256) as u8,
    ];
    Ok(Command::New {
        member: feed % 4,
        id: Id::copy_of(alloc, &id)?,
        terms: BoxedTerms::new(alloc, terms(number))?,
    })
}

pub fn quote(bid: u32, offer: u32) -> Command
    requires bid { (0 < bid) × (bid < 10000) }
    requires offer { (0 < offer) × (offer < 10000) }
    ensures configured { (setup : Setup) → 0 < setup.markets → is_configured setup result ≡ true }
    ensures limits { fits_limits result ≡ true }
{
    Command::Quote {
        market: 0,
        bid: Some(bid),
        offer: Some(offer),
    }
}

// Submits the commands from 0 to below `count`, to each of three symbols in turn, each at its number for a
// moment. It answers how many were recorded up to the last that was.
pub fn submit_all<F: Floor, L: Ledger>(
    alloc: Global,
    floor: &mut F,
    feed: u32,
    count: u32,
    steps: &mut Steps<L>,
) -> u32
    requires symbols { 3 ≤ length (F.mark floor.old).setup.limits }
    requires members { 4 ≤ (F.mark floor.old).setup.members }
    requires markets { 0 < (F.mark floor.old).setup.markets }
    ensures { F.mark floor.new ≡ F.mark floor.old }
{
    let mut recorded = 0;
    for number in 0..count {
        let Ok(command) = command(alloc, feed, number) else {
            return recorded;
        };
        match floor.submit(number % 3, feed, i64::from(number), &command, steps) {
            Ok(_) => recorded = number.saturating_add(1),
            Err(_) => {}
        }
    }
    recorded
}

fn work_counted<'a, R: Wait, V: Held + Drop, L: Ledger>(
    alloc: Global,
    venue: &Venue<V>,
    share: Share<'a, R, V>,
    count: u32,
    blank: Blank,
) -> Worked<'a, R, V>
    requires seats { AreSeatsOf venue.now share.floor.seats }
    requires parts { HaveParts 1 share.floor.seats }
    requires same { share.floor.venue.now ≡ venue.now }
    requires symbols { 3 ≤ length venue.now.gates }
    requires members { 4 ≤ venue.now.members }
    requires markets { 0 < venue.now.markets }
    requires blank { (blank.name ≡ L.name) × (blank.parts ≡ L.parts) × (L.parts ≡ 1) }
    ensures seats { AreSeatsOf venue.now result.floor.seats }
    ensures parts { HaveParts 1 result.floor.seats }
{
    let Share { mut floor, feed } = share;
    let mut steps: Steps<L> = Steps::start(blank);
    let recorded = submit_all(alloc, &mut floor, feed, count, &mut steps);
    Worked { floor, recorded }
}

// Submits commands through the share's floor.
fn work<'a, R: Wait, V: Held + Drop>(
    alloc: Global,
    venue: &Venue<V>,
    share: Share<'a, R, V>,
    count: u32,
) -> Worked<'a, R, V>
    requires seats { AreSeatsOf venue.now share.floor.seats }
    requires parts { HaveParts 1 share.floor.seats }
    requires same { share.floor.venue.now ≡ venue.now }
    requires symbols { 3 ≤ length venue.now.gates }
    requires members { 4 ≤ venue.now.members }
    requires markets { 0 < venue.now.markets }
    ensures seats { AreSeatsOf venue.now result.floor.seats }
    ensures parts { HaveParts 1 result.floor.seats }
{
    work_counted::<R, V, Brand>(alloc, venue, share, count, Blank::new(1))
}

// Makes `many` floors over the venue, for the feeds from 1 on.
fn shares_of<'a, R: Wait, V: Held + Drop>(
    rt: &'a R,
    alloc: Global,
    venue: &'a Venue<V>,
    seats: &mut Seats,
    many: u32,
) -> Result<Vec<Share<'a, R, V>>, NoMemory>
    requires seats { AreSeatsOf venue.now seats.old }
    requires parts { HaveParts whole seats.old }
    requires many { many < 1000 }
    ensures seats { OnOk result (AreSeatsOf venue.now seats.new) }
    ensures parts { OnOk result (HaveParts (whole - many) seats.new) }
    ensures many { IfOk result (λ shares. length shares.items ≡ many) }
    ensures shares { IfOk result (λ shares. All (λ share. (share.floor.venue.now ≡ venue.now)
        × AreSeatsOf venue.now share.floor.seats × HaveParts 1 share.floor.seats) shares.items) }
{
    let mut shares = Vec::new(alloc);
    for i in 0..many {
        let new = venue.split(alloc, seats)?;
        let floor = Seated {
            rt,
            venue,
            seats: new,
        };
        shares.push(Share { floor, feed: i + 1 })?;
    }
    Ok(shares)
}

// Joins all seats, and answers how many commands were recorded.
fn join_all<'a, R: Wait, V: Held + Drop>(
    venue: &Venue<V>,
    seats: &mut Seats,
    others: Vec<Worked<'a, R, V>>,
) -> u64
    requires seats { AreSeatsOf venue.now seats.old }
    requires parts { HaveParts (whole - length others.items) seats.old }
    requires many { length others.items < 1000 }
    requires others { All (λ worked. AreSeatsOf venue.now worked.floor.seats × HaveParts 1 worked.floor.seats)
        others.items }
    ensures seats { AreSeatsOf venue.now seats.new }
    ensures parts { HaveParts whole seats.new }
{
    let mut recorded: u64 = 0;
    for worked in others {
        let Worked {
            floor,
            recorded: more,
        } = worked;
        venue.join(seats, floor.seats);
        recorded = recorded.saturating_add(u64::from(more));
    }
    recorded
}

// Works each share in a thread of its own.
fn work_all<'a, R: Threads + Wait + Sync, V: Held + Drop + Send>(
    rt: &'a R,
    alloc: Global,
    venue: &'a Venue<V>,
    shares: Vec<Share<'a, R, V>>,
    count: u32,
) -> Result<Vec<Worked<'a, R, V>>, AllocError>
    requires symbols { 3 ≤ length venue.now.gates }
    requires members { 4 ≤ venue.now.members }
    requires markets { 0 < venue.now.markets }
    requires shares { All (λ share. (share.floor.venue.now ≡ venue.now)
        × AreSeatsOf venue.now share.floor.seats × HaveParts 1 share.floor.seats) shares.items }
    ensures many { IfOk result (λ others. length others.items ≡ length shares.entry.items) }
    ensures others { IfOk result (λ others.
        All (λ worked. AreSeatsOf venue.now worked.floor.seats × HaveParts 1 worked.floor.seats) others.items) }
{
    map_vec(
        rt,
        shares,
        &|share: Share<R, V>| -> Worked<R, V>
            requires symbols { 3 ≤ length venue.now.gates }
            requires members { 4 ≤ venue.now.members }
            requires markets { 0 < venue.now.markets }
            requires share { (share.floor.venue.now ≡ venue.now)
                × AreSeatsOf venue.now share.floor.seats × HaveParts 1 share.floor.seats }
            ensures { AreSeatsOf venue.entry.now result.floor.seats × HaveParts 1 result.floor.seats }
        { work(alloc, venue, share, count) },
    )
}

// Submits `count` commands through each of `many` threads, and closes the venue.
fn run<R: Threads + Wait + Sync, V: Held + Drop + Send>(
    rt: &R,
    alloc: Global,
    venue: Venue<V>,
    mut seats: Seats,
    many: u32,
    count: u32,
) -> Result<(Vec<V>, u64), NoMemory>
    requires seats { AreSeatsOf venue seats }
    requires parts { HaveParts whole seats }
    requires symbols { 3 ≤ length venue.gates }
    requires members { 4 ≤ venue.members }
    requires markets { 0 < venue.markets }
    requires many { many < 1000 }
{
    let shares = shares_of(rt, alloc, &venue, &mut seats, many)?;
    let others = work_all(rt, alloc, &venue, shares, count)?;
    let recorded = join_all(&venue, &mut seats, others);
    match venue.close(alloc, seats) {
        Ok(books) => Ok((books, recorded)),
        Err(_) => Err(NoMemory),
    }
}

// Whether the event is the next command of its feed at its symbol, of which `next` has the moments.
fn is_next(next: &mut [i64], event: &Event) -> bool {
    match next.get_mut((event.feed as usize).wrapping_sub(1)) {
        Some(expected) => {
            let is = event.moment == *expected;
            *expected = expected.saturating_add(3);
            is
        }
        None => false,
    }
}

// Reports as text, a line for each.
fn text_of(alloc: Global, reports: &[Report]) -> Result<String, AllocError> {
    let mut text = String::new(alloc);
    for report in reports {
        let line = format!(in alloc; "{report:?}\n")?;
        text.push_str(line.as_str())?;
    }
    Ok(text)
}

fn have_same_text(alloc: Global, some: &[Report], others: &[Report]) -> Result<bool, AllocError> {
    let text = text_of(alloc, some)?;
    Ok(text.as_str() == text_of(alloc, others)?.as_str())
}

// Finds the commands of each feed, of which `next` has the moments, once and in their order.
fn check_events<R: Abort>(rt: &R, events: &[Event], next: &mut [i64]) {
    let mut number = 0u32;
    for event in events {
        number = number.saturating_add(1);
        let is_right = event.number == number && is_next(next, event);
        check(rt, is_right, "an event", number);
    }
}

// Finds the commands of each feed once and in their order in the symbol's book, and that its reports are those of its
// journal by the plain program.
pub fn check_book<R: Abort>(
    rt: &R,
    alloc: Global,
    config: &Config,
    symbol: u32,
    book: &Book,
    many: u32,
) -> Result<(), Fail>
    requires config { IsConfig config.now }
    requires symbol { symbol < length config.now.limits }
{
    let mut next = vec![in alloc; i64::from(symbol); many as usize]?;
    check_events(rt, book.journal(), &mut next);
    let wanted = plain_run(alloc, config, symbol, book.journal())?;
    let is_same = have_same_text(alloc, book.reports(), &wanted)?;
    check(rt, is_same, "the reports of a symbol", symbol);
    Ok(())
}

// What four threads leave that submit a thousand commands each.
fn run_threads<R: Threads + Wait + Sync>(
    rt: &R,
    alloc: Global,
    config: &Config,
) -> Result<(Vec<Book>, u64), NoMemory>
    requires config { IsConfig config.now }
    requires members { length config.now.members ≡ 4 }
    requires markets { length config.now.markets ≡ 1 }
    requires symbols { length config.now.limits ≡ 3 }
{
    let (venue, seats) = make(alloc, HashSeed::fixed(), config)?;
    run(rt, alloc, venue, seats, 4, 1000)
}

// Checks the books of the three symbols, with four feeds, and counts their events.
fn check_books<R: Abort>(
    rt: &R,
    alloc: Global,
    config: &Config,
    books: &[Book],
) -> Result<usize, Fail>
    requires config { IsConfig config.now }
    requires symbols { length config.now.limits ≡ 3 }
{
    let mut events = 0usize;
    for symbol in 0..3 {
        if let Some(book) = books.get(symbol as usize) {
            check_book(rt, alloc, config, symbol, book, 4)?;
            events = events.saturating_add(book.journal().len());
        }
    }
    Ok(events)
}

#[test]
fn four_threads_stand_in_three_journals(rt: HostRuntime) -> Result<(), Fail> {
    let alloc = rt.alloc();
    let config = config_of(alloc, 1336)?;
    let (books, recorded) = run_threads(&rt, alloc, &config)?;
    check(&rt, recorded == 4000, "the recorded commands", 4000);
    check(&rt, books.len() == 3, "the books", 3);
    let events = check_books(&rt, alloc, &config, &books)?;
    check(&rt, events == 4000, "the events", 4000);
    Ok(())
}
