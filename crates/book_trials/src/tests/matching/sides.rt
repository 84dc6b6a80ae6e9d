//! Both forms of a side answer the same calls alike.
ghost use Rattle.std.specs.Prelude.{◌≡◌, ◌+◌, ◌<◌, ◌^◌, IfOk, OnOk};
ghost use Rattle.limit_tree.specs.Part.{IsLeaf};
ghost use Rattle.venue_words.specs.Conditions.{IsKey, IsRow};
ghost use Rattle.peg_groups.specs.Side.{IsLaterThan, first_state};

use super::checks::check;
use super::random::Random;
use limit_tree::{Node, fill, leaf};
use peg_groups::{FlatSide, GroupSide, SideBook};
use std::alloc::Global;
use std::marker::Brand;
use std::process::Abort;
use std::sync::ledger::{Blank, Ledger};
use std::test::Fail;
use venue_words::{Best, Key, Method, NoMemory, PRICE_END, Reference, Rounding, Row, Side, Steps};

/// What happens to a side at an event.
#[derive(Clone, Copy, Debug)]
enum Act {
    /// A quote of a bid and an offer in cents.
    Quote(Option<u32>, Option<u32>),
    /// A row of a key with this number enters, with a limit.
    Put(u32, u32),
}

/// What was found.
#[derive(Clone, Copy, Debug, PartialEq, Eq)]
struct Answer {
    found: Option<(u32, u32)>,
    value: Option<u32>,
    time: u32,
    best: Option<u32>,
    rows: usize,
    keys: usize,
}

/// A key of buys with an offset that is no larger than one may be, at a tick of one cent or of five.
fn key(reference: Reference, offset: i32, rounding: Rounding, is_coarse: bool) -> Key
    ensures { IsKey result }
{
    Key {
        side: Side::Buy,
        reference,
        offset: offset.clamp(-200, 200),
        rounding,
        grid: if is_coarse { 10 } else { 2 },
    }
}

/// One of some keys of buys.
fn key_of(number: u32) -> Key
    ensures { IsKey result }
{
    match number % 7 {
        0 => key(Reference::Mid, 0, Rounding::Unrounded, false),
        1 => key(Reference::Primary, 0, Rounding::Unrounded, false),
        2 => key(Reference::Limit, 0, Rounding::Unrounded, false),
        3 => key(Reference::Primary, 4, Rounding::Unrounded, false),
        4 => key(Reference::Market, -6, Rounding::Unrounded, false),
        5 => key(Reference::Mid, 1, Rounding::Aggressive, true),
        _ => key(Reference::Primary, -3, Rounding::Passive, true),
    }
}

fn row(number: u32, cap: u32, entry: u32) -> Row
    ensures row { IsRow result }
    ensures entry { result.entry ≡ entry }
{
    Row {
        order: entry,
        member: 0,
        key: key_of(number),
        cap: cap.clamp(1, PRICE_END),
        entry,
        leaves: 100,
        minimum: 0,
        method: Method::Once,
        traded: false,
    }
}

fn boxed(alloc: Global, row: Row) -> Result<Box<Node>, NoMemory>
    ensures { IfOk result (λ node. IsLeaf node.value × (node.value.row ≡ row)) }
{
    match Box::new(alloc, leaf(row)) {
        Ok(node) => Ok(node),
        Err(_) => Err(NoMemory),
    }
}

/// Does what happens at an event.
fn perform<S: SideBook, L: Ledger>(
    side: &mut S,
    alloc: Global,
    event: u32,
    act: Act,
    steps: &mut Steps<L>,
) -> Result<(), NoMemory>
    requires { IsLaterThan (S.state side.old) event }
    ensures { OnOk result (IsLaterThan (S.state side.new) (event + 1)) }
{
    match act {
        Act::Quote(bid, offer) => {
            side.reserve(None)?;
            side.reprice(event, Best { bid, offer }, steps);
        }
        Act::Put(number, cap) => {
            let row = row(number, cap, event);
            let node = boxed(alloc, row)?;
            side.reserve(Some(row.key))?;
            side.put(node, steps);
        }
    }
    Ok(())
}

/// The first row is taken out, and what is left of it comes back behind a second one that leaves.
fn trade<S: SideBook, L: Ledger>(
    side: &mut S,
    event: u32,
    shares: u32,
    steps: &mut Steps<L>,
) -> Option<(u32, u32)>
    requires { IsLaterThan (S.state side.old) event }
    ensures { IsLaterThan (S.state side.new) event }
{
    let Some(mut taken) = side.take_best(steps) else {
        return None;
    };
    let next = side.take_best(steps);
    let shares = shares.min(taken.node.row.leaves);
    fill(&mut taken.node, shares);
    let found = (taken.node.entry, taken.node.row.leaves);
    side.put_back(taken, steps);
    match next {
        None => Some(found),
        Some(other) => Some((found.0, other.node.entry)),
    }
}

/// What happens at an event of the long run.
fn act_of(event: u32) -> Act {
    let mut random = Random(u64::from(event));
    let _ = random.below(2);
    match random.below(4) {
        0 => {
            if random.below(5) == 0 {
                return Act::Quote(None, None);
            }
            let bid = 990 + random.below(20);
            Act::Quote(Some(bid), Some(bid + random.below(4)))
        }
        _ => {
            let cap = 1960 + random.below(80);
            let cap = if random.below(2) == 0 { cap } else { PRICE_END };
            Act::Put(random.below(7), cap)
        }
    }
}

/// The row of an event of the long run leaves.
fn leave<S: SideBook, L: Ledger>(
    side: &mut S,
    entry: u32,
    event: u32,
    steps: &mut Steps<L>,
) -> Option<(u32, u32)>
    requires { IsLaterThan (S.state side.old) event }
    ensures { IsLaterThan (S.state side.new) event }
{
    match act_of(entry) {
        Act::Put(number, cap) => {
            let row = row(number, cap, entry);
            let node = side.cut(row.key, row.cap, entry, steps);
            node.map(|node| (node.entry, node.row.leaves))
        }
        Act::Quote(..) => None,
    }
}

/// The value and the time of the row of an event of the long run, the best value of all rows, and the sizes of the side.
fn seen<S: SideBook, L: Ledger>(
    side: &S,
    entry: u32,
    found: Option<(u32, u32)>,
    steps: &mut Steps<L>,
) -> Answer {
    let priced = match act_of(entry) {
        Act::Put(number, cap) => {
            let row = row(number, cap, entry);
            side.priced(row.key, row.cap, entry, steps)
        }
        Act::Quote(..) => None,
    };
    let (value, time) = priced.unwrap_or((None, 0));
    Answer {
        found,
        value,
        time,
        best: side.best_value(steps),
        rows: side.len(),
        keys: side.groups(),
    }
}

/// One event of the long run.
fn turn<S: SideBook, L: Ledger>(
    side: &mut S,
    alloc: Global,
    event: u32,
    random: &mut Random,
    steps: &mut Steps<L>,
) -> Result<Answer, NoMemory>
    requires later { IsLaterThan (S.state side.old) event }
    requires few { (0 < event) × (event < 2 ^ 31) }
    ensures { OnOk result (IsLaterThan (S.state side.new) (event + 1)) }
{
    perform(side, alloc, event, act_of(event), steps)?;
    let found = match random.below(5) {
        0 => trade(side, event + 1, random.below(120), steps),
        1 => leave(side, 1 + random.below(event), event + 1, steps),
        2 => {
            side.tidy(steps);
            None
        }
        _ => None,
    };
    Ok(seen(side, 1 + random.below(event), found, steps))
}

fn long_run<S: SideBook, L: Ledger>(
    side: &mut S,
    alloc: Global,
    steps: &mut Steps<L>,
) -> Result<Vec<Answer>, NoMemory>
    requires { S.state side.old ≡ first_state }
{
    let mut random = Random(29);
    let mut answers = Vec::new(alloc);
    for event in 1..1500 {
        let answer = turn(side, alloc, event, &mut random, steps)?;
        answers.push(answer)?;
    }
    Ok(answers)
}

fn by_groups<L: Ledger>(alloc: Global, steps: &mut Steps<L>) -> Result<Vec<Answer>, NoMemory> {
    let mut side = GroupSide::new(alloc);
    long_run(&mut side, alloc, steps)
}

fn by_rows<L: Ledger>(alloc: Global, steps: &mut Steps<L>) -> Result<Vec<Answer>, NoMemory> {
    let mut side = FlatSide::new(alloc);
    long_run(&mut side, alloc, steps)
}

fn is_large(last: Option<&Answer>) -> bool {
    match last {
        Some(answer) => answer.rows > 100 && answer.keys > 5,
        None => false,
    }
}

fn compare(rt: &impl Abort, answers: &[Answer], others: &[Answer]) {
    let mut number = 0u32;
    for (answer, other) in answers.iter().zip(others.iter()) {
        check(rt, answer == other, "an answer", number);
        number = number.saturating_add(1);
    }
    check(
        rt,
        answers.len() == others.len(),
        "the number of answers",
        number,
    );
    check(rt, is_large(answers.last()), "the size of the side", number);
}

fn compare_sides<L: Ledger>(
    rt: &impl Abort,
    alloc: Global,
    steps: &mut Steps<L>,
) -> Result<(), NoMemory> {
    let answers = by_groups(alloc, steps)?;
    let others = by_rows(alloc, steps)?;
    compare(rt, answers.as_slice(), others.as_slice());
    Ok(())
}

fn count_sides<L: Ledger>(rt: &impl Abort, alloc: Global, blank: Blank) -> Result<(), NoMemory>
    requires name { blank.name ≡ L.name }
    requires parts { blank.parts ≡ L.parts }
    requires one { blank.parts ≡ 1 }
{
    let mut steps = Steps::<L>::start(blank);
    compare_sides(rt, alloc, &mut steps)
}

#[test]
fn both_sides_answer_the_same_calls_alike(rt: HostRuntime) -> Result<(), Fail> {
    count_sides::<Brand>(&rt, rt.alloc(), Blank::new(1))?;
    Ok(())
}
