//! The last change below a limit, on examples and beside a plain list of all moves.
ghost use Rattle.std.specs.Prelude.{◌≡◌, ◌<◌, OnOk};

use super::checks::check;
use super::random::Random;
use move_history::Moves;
use std::alloc::Global;
use std::marker::Brand;
use std::process::Abort;
use std::sync::ledger::{Blank, Ledger};
use std::test::Fail;
use venue_words::{NoMemory, Steps};

/// The newest move whose value and the value before it differ once both are held at the cap.
fn plain_changed(first: u32, moves: &[(u32, u32)], cap: u32) -> u32 {
    let mut answer = 0;
    let mut before = first;
    for (event, value) in moves {
        if before.min(cap) != (*value).min(cap) {
            answer = *event;
        }
        before = *value;
    }
    answer
}

/// Pushes a move.
fn push_move<L: Ledger>(
    moves: &mut Moves,
    event: u32,
    value: u32,
    steps: &mut Steps<L>,
) -> Result<(), NoMemory>
    requires { moves.old.latest < event }
    ensures { OnOk result (moves.new.latest ≡ event) }
{
    moves.reserve()?;
    moves.push(event, value, steps);
    Ok(())
}

fn push_example<L: Ledger>(moves: &mut Moves, steps: &mut Steps<L>) -> Result<[u32; 4], NoMemory>
    requires { moves.old.latest ≡ 0 }
{
    push_move(moves, 2, 2001, steps)?;
    push_move(moves, 4, 2003, steps)?;
    let early = moves.changed(2000, steps);
    push_move(moves, 6, 1999, steps)?;
    push_move(moves, 8, 2003, steps)?;
    Ok([
        early,
        moves.changed(2000, steps),
        moves.changed(1990, steps),
        moves.changed(2002, steps),
    ])
}

fn worked_example<L: Ledger>(alloc: Global, steps: &mut Steps<L>) -> Result<[u32; 4], NoMemory> {
    let mut moves = Moves::start(alloc, 0);
    push_example(&mut moves, steps)
}

fn count_example<L: Ledger>(alloc: Global, blank: Blank) -> Result<[u32; 4], NoMemory>
    requires name { blank.name ≡ L.name }
    requires parts { blank.parts ≡ L.parts }
    requires one { blank.parts ≡ 1 }
{
    let mut steps = Steps::<L>::start(blank);
    worked_example(alloc, &mut steps)
}

/// Both answer alike below a cap.
fn compare_at<L: Ledger>(
    rt: &impl Abort,
    moves: &Moves,
    plain: &[(u32, u32)],
    cap: u32,
    steps: &mut Steps<L>,
) {
    let right = plain_changed(7, plain, cap);
    check(
        rt,
        moves.changed(cap, steps) == right,
        "the last change below a cap",
        cap,
    );
}

fn compare_many<L: Ledger>(
    rt: &impl Abort,
    alloc: Global,
    steps: &mut Steps<L>,
) -> Result<(), NoMemory> {
    let mut random = Random(11);
    let mut plain = Vec::new(alloc);
    let mut moves = Moves::start(alloc, 7);
    for event in 1..3000 {
        let value = random.below(200);
        plain.push((event, value))?;
        moves.reserve()?;
        moves.push(event, value, steps);
        compare_at(rt, &moves, plain.as_slice(), random.below(202), steps);
        check(rt, moves.current() == value, "the value", event);
    }
    for cap in 0..203 {
        compare_at(rt, &moves, plain.as_slice(), cap, steps);
    }
    Ok(())
}

fn count_many<L: Ledger>(rt: &impl Abort, alloc: Global, blank: Blank) -> Result<(), NoMemory>
    requires name { blank.name ≡ L.name }
    requires parts { blank.parts ≡ L.parts }
    requires one { blank.parts ≡ 1 }
{
    let mut steps = Steps::<L>::start(blank);
    compare_many(rt, alloc, &mut steps)
}

#[test]
fn a_dip_below_a_limit_and_back_is_a_change(rt: HostRuntime) -> Result<(), Fail> {
    let found = count_example::<Brand>(rt.alloc(), Blank::new(1))?;
    check(&rt, found == [2, 8, 2, 8], "the example", 0);
    Ok(())
}

#[test]
fn thousands_of_moves_answer_as_a_plain_list(rt: HostRuntime) -> Result<(), Fail> {
    count_many::<Brand>(&rt, rt.alloc(), Blank::new(1))?;
    Ok(())
}
