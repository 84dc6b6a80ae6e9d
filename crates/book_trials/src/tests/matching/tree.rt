//! The look-ups, on examples and beside a plain list of pairs.
ghost use Rattle.std.specs.Prelude.{◌≡◌, ◌<◌, IfOk};
ghost use Rattle.limit_tree.specs.Part.{IsLeaf};

use super::checks::check;
use super::random::Random;
use limit_tree::{LimitTree, Node, fill, leaf};
use std::alloc::{AllocError, Global};
use std::marker::Brand;
use std::process::Abort;
use std::sync::ledger::{Blank, Ledger};
use std::test::Fail;
use venue_words::{Key, Method, Reference, Rounding, Row, Side, Steps};

type Pair = Option<(u32, u32)>;

fn row(cap: u32, entry: u32) -> Row
    ensures cap { result.cap ≡ cap }
    ensures entry { result.entry ≡ entry }
{
    let key = Key {
        side: Side::Buy,
        reference: Reference::Mid,
        offset: 0,
        rounding: Rounding::Unrounded,
        grid: 2,
    };
    Row {
        order: 0,
        member: 0,
        key,
        cap,
        entry,
        leaves: 100,
        minimum: 0,
        method: Method::Once,
        traded: false,
    }
}

fn boxed(alloc: Global, cap: u32, entry: u32) -> Result<Box<Node>, AllocError>
    ensures { IfOk result (λ node. IsLeaf node.value × (node.value.row.cap ≡ cap) × (node.value.row.entry ≡ entry)) }
{
    match Box::new(alloc, leaf(row(cap, entry))) {
        Ok(node) => Ok(node),
        Err(_) => Err(AllocError),
    }
}

/// A row enters where none of its cap and entry is held.
fn enter<L: Ledger>(rt: &impl Abort, tree: &mut LimitTree, node: Box<Node>, steps: &mut Steps<L>)
    requires { IsLeaf node.value }
{
    let held = tree.holds(node.row.cap, node.row.entry, steps);
    check(rt, !held, "a new row is held", node.row.cap);
    if !held {
        tree.put(node, steps);
    }
}

fn fill_example<L: Ledger>(
    rt: &impl Abort,
    alloc: Global,
    tree: &mut LimitTree,
    steps: &mut Steps<L>,
) -> Result<(), AllocError> {
    enter(rt, tree, boxed(alloc, 2000, 5)?, steps);
    enter(rt, tree, boxed(alloc, 2010, 3)?, steps);
    enter(rt, tree, boxed(alloc, 1990, 1)?, steps);
    Ok(())
}

/// Whether this pair was found.
fn is_pair(found: Pair, cap: u32, entry: u32) -> bool {
    match found {
        Some((found_cap, found_entry)) => found_cap == cap && found_entry == entry,
        None => false,
    }
}

fn look_up_example<L: Ledger>(rt: &impl Abort, tree: &LimitTree, steps: &mut Steps<L>) {
    check(
        rt,
        is_pair(tree.first_above(1995, steps), 2010, 3),
        "the first above",
        1995,
    );
    check(
        rt,
        is_pair(tree.first_at(2000, steps), 2000, 5),
        "the first",
        2000,
    );
    check(
        rt,
        is_pair(tree.highest_below(2000, steps), 1990, 1),
        "the highest below",
        2000,
    );
    check(
        rt,
        tree.first_above(2010, steps).is_none(),
        "none above",
        2010,
    );
    check(rt, tree.holds(2000, 5, steps), "a row", 2000);
    check(rt, tree.holds(2010, 3, steps), "a row", 2010);
    check(rt, tree.holds(1990, 1, steps), "a row", 1990);
}

fn worked_example<L: Ledger>(
    rt: &impl Abort,
    alloc: Global,
    steps: &mut Steps<L>,
) -> Result<(), AllocError> {
    let mut tree = LimitTree::new();
    check(rt, tree.is_empty(), "an empty tree", 0);
    fill_example(rt, alloc, &mut tree, steps)?;
    check(rt, !tree.is_empty(), "a tree with rows", 0);
    check(rt, tree.cut(2000, 4, steps).is_none(), "no such row", 2000);
    look_up_example(rt, &tree, steps);
    Ok(())
}

/// The place of a pair in a plain list.
fn place(pairs: &[(u32, u32)], cap: u32, entry: u32) -> Option<usize> {
    pairs
        .iter()
        .position(|pair| pair.0 == cap && pair.1 == entry)
}

/// The least entry among the pairs with caps from `start` up to below `end`.
fn least_between(pairs: &[(u32, u32)], start: u32, end: u32) -> Option<u32> {
    let mut least = None;
    for (cap, entry) in pairs {
        if start <= *cap && *cap < end {
            least = Some(match least {
                Some(other) => (*entry).min(other),
                None => *entry,
            });
        }
    }
    least
}

/// The greatest cap below a value.
fn greatest_below(pairs: &[(u32, u32)], value: u32) -> Option<u32> {
    let mut greatest = None;
    for (cap, _) in pairs {
        if *cap < value {
            greatest = Some(match greatest {
                Some(other) => (*cap).max(other),
                None => *cap,
            });
        }
    }
    greatest
}

/// Whether what was found is a pair of the list in this range of caps, with this entry.
fn is_in_range(
    pairs: &[(u32, u32)],
    found: Pair,
    start: u32,
    end: u32,
    least: Option<u32>,
) -> bool {
    match (found, least) {
        (None, None) => true,
        (Some((cap, entry)), Some(least)) => {
            start <= cap && cap < end && entry == least && place(pairs, cap, entry).is_some()
        }
        _ => false,
    }
}

/// Whether what was found is the pair with the least entry in this range of caps.
fn is_least(pairs: &[(u32, u32)], found: Pair, start: u32, end: u32) -> bool {
    is_in_range(pairs, found, start, end, least_between(pairs, start, end))
}

/// Whether what was found is the pair with the least entry at the greatest cap below a value.
fn is_highest_below(pairs: &[(u32, u32)], found: Pair, value: u32) -> bool {
    match greatest_below(pairs, value) {
        None => found.is_none(),
        Some(cap) => is_least(pairs, found, cap, cap.saturating_add(1)),
    }
}

fn compare_look_ups<L: Ledger>(
    rt: &impl Abort,
    tree: &LimitTree,
    pairs: &[(u32, u32)],
    value: u32,
    steps: &mut Steps<L>,
)
    requires { value < 1000 }
{
    let at = is_least(pairs, tree.first_at(value, steps), value, value + 1);
    check(rt, at, "the first", value);
    let above = is_least(pairs, tree.first_above(value, steps), value + 1, u32::MAX);
    check(rt, above, "the first above", value);
    let below = is_highest_below(pairs, tree.highest_below(value, steps), value);
    check(rt, below, "the highest below", value);
}

/// Whether what was cut is the row of this cap and entry.
fn is_cut(found: Option<Box<Node>>, cap: u32, entry: u32) -> bool {
    match found {
        Some(node) => node.row.cap == cap && node.row.entry == entry,
        None => false,
    }
}

/// A tree, and the plain list of its pairs.
#[derive(Drop)]
struct Both {
    tree: LimitTree,
    pairs: Vec<(u32, u32)>,
}

/// A row that is in neither enters both.
fn enter_both<L: Ledger>(
    rt: &impl Abort,
    both: &mut Both,
    node: Box<Node>,
    steps: &mut Steps<L>,
) -> Result<(), AllocError>
    requires { IsLeaf node.value }
{
    both.pairs.push((node.row.cap, node.row.entry))?;
    enter(rt, &mut both.tree, node, steps);
    Ok(())
}

/// The row of this cap and entry leaves both; its pair stands at this place of the list.
fn cut_both<L: Ledger>(
    rt: &impl Abort,
    both: &mut Both,
    cap: u32,
    entry: u32,
    at: usize,
    steps: &mut Steps<L>,
) {
    check(
        rt,
        is_cut(both.tree.cut(cap, entry, steps), cap, entry),
        "a row is cut",
        cap,
    );
    if at < both.pairs.len() {
        both.pairs.swap_remove(at);
    }
}

/// A row enters, or one leaves that is held or is not.
fn change_both<L: Ledger>(
    rt: &impl Abort,
    alloc: Global,
    both: &mut Both,
    random: &mut Random,
    round: u32,
    steps: &mut Steps<L>,
) -> Result<(), AllocError> {
    let cap = random.below(90);
    let entry = random.below(90);
    let held = both.tree.holds(cap, entry, steps);
    let place = place(both.pairs.as_slice(), cap, entry);
    check(rt, held == place.is_some(), "whether a row is held", cap);
    match place {
        None if random.below(4) == 0 => {
            check(
                rt,
                both.tree.cut(cap, entry, steps).is_none(),
                "no row to cut",
                cap,
            );
        }
        None => enter_both(rt, both, boxed(alloc, cap, entry)?, steps)?,
        Some(at) if round % 3 == 0 => cut_both(rt, both, cap, entry, at, steps),
        Some(_) => {}
    }
    Ok(())
}

fn compare_many<L: Ledger>(
    rt: &impl Abort,
    alloc: Global,
    steps: &mut Steps<L>,
) -> Result<(), AllocError> {
    let mut random = Random(5);
    let mut both = Both {
        tree: LimitTree::new(),
        pairs: Vec::new(alloc),
    };
    for round in 0..6000u32 {
        change_both(rt, alloc, &mut both, &mut random, round, steps)?;
        let value = random.below(92);
        compare_look_ups(rt, &both.tree, both.pairs.as_slice(), value, steps);
    }
    check(rt, 2000 < both.pairs.len(), "many rows", 6000);
    Ok(())
}

fn count_steps<L: Ledger>(rt: &impl Abort, alloc: Global, blank: Blank) -> Result<(), AllocError>
    requires name { blank.name ≡ L.name }
    requires parts { blank.parts ≡ L.parts }
    requires one { blank.parts ≡ 1 }
{
    let mut steps = Steps::<L>::start(blank);
    worked_example(rt, alloc, &mut steps)?;
    compare_many(rt, alloc, &mut steps)
}

#[test]
fn look_ups_answer_as_a_plain_list(rt: HostRuntime) -> Result<(), Fail> {
    count_steps::<Brand>(&rt, rt.alloc(), Blank::new(1))?;
    Ok(())
}

/// A row of 100 shares, of which these were traded in its node, if there are so many.
fn row_behind_trade(shares: u32) -> Row {
    let mut node = leaf(row(2000, 5));
    if shares <= node.row.leaves {
        fill(&mut node, shares);
    }
    node.row
}

#[test]
fn shares_of_a_row_are_traded_in_its_node(rt: HostRuntime) {
    let row = row_behind_trade(30);
    check(&rt, row.leaves == 70, "shares left", row.leaves);
    check(&rt, row.traded, "shares were traded", 30);
}
