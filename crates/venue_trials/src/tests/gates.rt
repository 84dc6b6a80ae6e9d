//! Gates over a small journal, and threads that submit through them.
ghost use Rattle.std.specs.Prelude.{◌≡◌, ◌+◌, ◌<◌, ◌≤◌, length, [], IfOk, OnOk};
ghost use Rattle.std.specs.List.{All};
ghost use Rattle.turn_gate.specs.Rule.{whole};

mod journal;

use super::checks::check;
use journal::Journal;
use std::alloc::{AllocError, Global};
use std::marker::Brand;
use std::process::Abort;
use std::sync::Wait;
use std::sync::ledger::{Blank, Ledger};
use std::test::Fail;
use std::thread::{Threads, join, map_vec};
use turn_gate::{Gate, Seat};
use venue_words::{Command, Event, FloorRefusal, Look, NoMemory, Steps};

// A seat, and the feed whose commands go through it.
#[derive(Drop)]
struct Share {
    seat: Seat,
    feed: u32,
}

// A quote that stands for the command with this number.
fn command(number: u32) -> Command {
    Command::Quote {
        market: number,
        bid: None,
        offer: None,
    }
}

// Submits the commands from 0 to below `count`, and answers how many were recorded.
fn submit_counted<R: Wait, L: Ledger>(
    rt: &R,
    gate: &Gate<Journal>,
    share: Share,
    count: u32,
    blank: Blank,
) -> (Seat, u32)
    requires gate { share.seat.gate ≡ gate.now }
    requires blank { (blank.name ≡ L.name) × (blank.parts ≡ L.parts) × (L.parts ≡ 1) }
    ensures gate { result.0.gate ≡ share.seat.gate }
    ensures part { result.0.part ≡ share.seat.part }
{
    let Share { mut seat, feed } = share;
    let mut steps: Steps<L> = Steps::start(blank);
    let mut recorded = 0;
    for number in 0..count {
        match gate.submit(rt, &mut seat, feed, 7, &command(number), &mut steps) {
            Ok(_) => recorded = number + 1,
            Err(_) => {}
        }
    }
    (seat, recorded)
}

fn submit_all<R: Wait>(rt: &R, gate: &Gate<Journal>, share: Share, count: u32) -> (Seat, u32)
    requires { share.seat.gate ≡ gate.now }
    ensures gate { result.0.gate ≡ share.seat.gate }
    ensures part { result.0.part ≡ share.seat.part }
{
    submit_counted::<R, Brand>(rt, gate, share, count, Blank::new(1))
}

// Splits off `many` seats, for the feeds from 2 on.
fn shares_of(
    alloc: Global,
    gate: &Gate<Journal>,
    seat: &mut Seat,
    many: u32,
) -> Result<Vec<Share>, AllocError>
    requires gate { seat.old.gate ≡ gate.now }
    requires part { many < seat.old.part }
    requires many { many < 1000 }
    ensures gate { OnOk result (seat.new.gate ≡ gate.now) }
    ensures part { OnOk result (seat.new.part + many ≡ seat.old.part) }
    ensures many { IfOk result (λ shares. length shares.items ≡ many) }
    ensures shares { IfOk result (λ shares.
        All (λ share. (share.seat.gate ≡ gate.now) × (share.seat.part ≡ 1)) shares.items) }
{
    let mut shares = Vec::new(alloc);
    for i in 0..many {
        let new = gate.split(seat);
        shares.push(Share {
            seat: new,
            feed: i + 2,
        })?;
    }
    Ok(shares)
}

// Joins all seats, and answers how many commands were recorded.
fn join_all(gate: &Gate<Journal>, seat: &mut Seat, others: Vec<(Seat, u32)>) -> u64
    requires gate { seat.old.gate ≡ gate.now }
    requires others { All (λ other. (other.0.gate ≡ gate.now) × (other.0.part ≡ 1)) others.items }
    ensures gate { seat.new.gate ≡ gate.now }
    ensures part { seat.new.part ≡ seat.old.part + length others.items }
{
    let mut recorded: u64 = 0;
    for (other, count) in others {
        gate.join(seat, other);
        recorded = recorded.saturating_add(u64::from(count));
    }
    recorded
}

// Submits `count` commands through each of `many + 1` seats at once, and closes the gate.
fn run<R: Threads + Wait + Sync>(
    rt: &R,
    alloc: Global,
    gate: Gate<Journal>,
    mut seat: Seat,
    many: u32,
    count: u32,
) -> Result<(Journal, u64), AllocError>
    requires gate { seat.gate ≡ gate }
    requires part { seat.part ≡ whole }
    requires many { many < 1000 }
{
    let shares = shares_of(alloc, &gate, &mut seat, many)?;
    let first = Share { seat, feed: 1 };
    let ((mut seat, own), others) = join(
        rt,
        || -> (Seat, u32)
            requires { first.seat.gate ≡ gate }
            ensures gate { result.0.gate ≡ first.seat.gate }
            ensures part { result.0.part ≡ first.seat.part }
        { submit_all(rt, &gate, first, count) },
        || -> Result<Vec<(Seat, u32)>, AllocError>
            requires { All (λ share. (share.seat.gate ≡ gate) × (share.seat.part ≡ 1)) shares.items }
            ensures many { IfOk result (λ others. length others.items ≡ length shares.items) }
            ensures seats { IfOk result (λ others.
                All (λ other. (other.0.gate ≡ gate) × (other.0.part ≡ 1)) others.items) }
        { submit_shares(rt, &gate, shares, count) },
    );
    let recorded = join_all(&gate, &mut seat, others?);
    Ok((gate.close(seat), recorded.saturating_add(u64::from(own))))
}

// Submits through each seat in a thread of its own.
fn submit_shares<R: Threads + Wait + Sync>(
    rt: &R,
    gate: &Gate<Journal>,
    shares: Vec<Share>,
    count: u32,
) -> Result<Vec<(Seat, u32)>, AllocError>
    requires { All (λ share. (share.seat.gate ≡ gate.now) × (share.seat.part ≡ 1)) shares.items }
    ensures many { IfOk result (λ others. length others.items ≡ length shares.items) }
    ensures seats { IfOk result (λ others. All (λ other. (other.0.gate ≡ gate.now) × (other.0.part ≡ 1)) others.items) }
{
    map_vec(
        rt,
        shares,
        &|share: Share| -> (Seat, u32)
            requires { (share.seat.gate ≡ gate.now) × (share.seat.part ≡ 1) }
            ensures { (result.0.gate ≡ gate.entry.now) × (result.0.part ≡ 1) }
        { submit_all(rt, gate, share, count) },
    )
}

// Whether the event is the next command of its feed, of which `next` has the numbers.
fn is_next(next: &mut [u32], event: &Event) -> bool {
    let Command::Quote { market, .. } = event.command else {
        return false;
    };
    match next.get_mut((event.feed as usize).wrapping_sub(1)) {
        Some(expected) => {
            let is = market == *expected;
            *expected = expected.saturating_add(1);
            is
        }
        None => false,
    }
}

// Finds the commands from 0 to below `count` of each of `many + 1` feeds once and in their order.
fn check_events<R: Abort>(
    rt: &R,
    alloc: Global,
    events: &[Event],
    many: u32,
    count: u32,
) -> Result<(), AllocError>
    requires many { many < 1000 }
{
    let mut next = vec![in alloc; 0u32; many as usize + 1]?;
    let mut number = 0u32;
    for event in events {
        number = number.saturating_add(1);
        let is_right = event.number == number && is_next(&mut next, event);
        check(rt, is_right, "an event", number);
    }
    let is_all = next.iter().all(|&submitted| submitted == count);
    check(rt, is_all, "the commands of all feeds", number);
    Ok(())
}

// Makes a gate over a journal with just room for all commands, submits them from many threads, and finds
// the commands of each seat once and in their order in the one journal.
fn submits_from<R: Threads + Wait + Abort + Sync>(
    rt: &R,
    alloc: Global,
    many: u32,
    count: u32,
) -> Result<(), AllocError>
    requires many { many < 1000 }
    requires count { count < 10000 }
{
    let all = (many + 1) * count;
    let Ok((gate, seat)) = Gate::make(alloc, Journal::new(alloc, all)) else {
        return Err(AllocError);
    };
    let (journal, recorded) = run(rt, alloc, gate, seat, many, count)?;
    check(rt, recorded == u64::from(all), "the recorded commands", all);
    check(
        rt,
        journal.events().len() == all as usize,
        "the events",
        all,
    );
    check_events(rt, alloc, journal.events(), many, count)
}

#[test]
fn four_seats_stand_in_one_journal(rt: HostRuntime) -> Result<(), Fail> {
    submits_from(&rt, rt.alloc(), 3, 1000)?;
    Ok(())
}

#[test]
fn sixty_four_seats_get_on(rt: HostRuntime) -> Result<(), Fail> {
    submits_from(&rt, rt.alloc(), 63, 50)?;
    Ok(())
}

// What three submits and a look answered.
#[derive(Drop)]
struct Answers {
    submits: [Result<u32, FloorRefusal>; 3],
    look: Result<Look, NoMemory>,
}

// Submits three commands, of two feeds, and looks at the second report and those behind it.
fn submit_and_look<R: Wait, L: Ledger>(
    rt: &R,
    gate: &Gate<Journal>,
    seat: &mut Seat,
    blank: Blank,
) -> Answers
    requires gate { seat.old.gate ≡ gate.now }
    requires blank { (blank.name ≡ L.name) × (blank.parts ≡ L.parts) × (L.parts ≡ 1) }
{
    let mut steps: Steps<L> = Steps::start(blank);
    let first = gate.submit(rt, seat, 1, 7, &command(0), &mut steps);
    let second = gate.submit(rt, seat, 2, 8, &command(0), &mut steps);
    let third = gate.submit(rt, seat, 1, 9, &command(1), &mut steps);
    Answers {
        submits: [first, second, third],
        look: gate.look(rt, seat, 2, 1),
    }
}

fn answers_of<R: Wait>(rt: &R, gate: &Gate<Journal>, seat: &mut Seat) -> Answers
    requires { seat.old.gate ≡ gate.now }
{
    submit_and_look::<R, Brand>(rt, gate, seat, Blank::new(1))
}

// The third submit finds no room, and the look shows the report behind the first.
fn are_right(answers: &Answers) -> bool {
    let Ok(look) = &answers.look else {
        return false;
    };
    answers.submits == [Ok(1), Ok(2), Err(FloorRefusal::Full { found: 2 })]
        && look.front == 2
        && look.reports.len() == 1
        && look.reports.as_slice()[0].event == 2
}

#[test]
fn a_full_journal_refuses_and_still_shows_its_reports(rt: HostRuntime) -> Result<(), Fail> {
    let Ok((gate, mut seat)) = Gate::make(rt.alloc(), Journal::new(rt.alloc(), 2)) else {
        return Err(AllocError.into());
    };
    let answers = answers_of(&rt, &gate, &mut seat);
    check(&rt, are_right(&answers), "three submits and a look", 2);
    Ok(())
}
