//! The rules that an order may break.
ghost use Rattle.std.specs.Prelude.{◌≡◌, ◌<◌, is_some, [], ◌∷◌, ◌++◌, codes};
ghost use Rattle.venue_words.specs.Conditions.{IsTick};
ghost use Rattle.eager_meaning.specs.Terms.{passes, is_among, price_in, offset_in, minimum_in};
ghost use Rattle.eager_meaning.specs.Verdict.{fails, side_code, terms_tests, new_tests, replace_tests, first_broken, verdict};

use crate::amount::{minimum_in, offset_in, price_in, quantity_in};
use crate::known::Known;
use crate::terms::{is_pegged, quantity_of};
use venue_words::{Command, Rule, Side, Terms};

/// The first rule that is broken.
#[tactic(auto, unfolding(crate::specs::Verdict::first_broken))]
fn first_broken(tests: &[(bool, Rule)]) -> Option<Rule>
    ensures { result ≡ first_broken tests.now }
{
    for (is_broken, rule) in tests {
        if *is_broken {
            return Some(*rule);
        }
    }
    None
}

/// Whether a price is there and is no whole number of ticks in range.
fn fails_price(tick: u32, price: Option<i128>) -> bool
    requires { 0 < tick }
    ensures { result ≡ fails (λ amount. is_some (price_in tick amount)) price }
{
    match price {
        Some(amount) => price_in(tick, amount).is_none(),
        None => false,
    }
}

/// Whether an offset is there and is no whole number of units in range.
fn fails_offset(tick: u32, offset_kind: Option<u32>, offset: Option<i128>) -> bool
    requires { IsTick tick }
    ensures { result ≡ fails (λ amount. is_some (offset_in tick offset_kind amount)) offset }
{
    match offset {
        Some(amount) => offset_in(tick, offset_kind, amount).is_none(),
        None => false,
    }
}

/// Whether a minimum is there and is no whole number of shares up to the quantity.
fn fails_minimum(quantity: u32, minimum: Option<i128>) -> bool
    ensures { result ≡ fails (λ amount. is_some (minimum_in quantity amount)) minimum }
{
    match minimum {
        Some(amount) => minimum_in(quantity, amount).is_none(),
        None => false,
    }
}

/// Whether a code is there and is neither of two.
fn fails_code(first: u32, second: u32, code: Option<u32>) -> bool
    ensures { result ≡ fails (is_among (first ∷ second ∷ [])) code }
{
    match code {
        Some(code) => code != first && code != second,
        None => false,
    }
}

/// Whether a time in force is there and is neither a day order nor immediate or cancel.
fn fails_force(force: Option<u8>) -> bool
    ensures { result ≡ fails (is_among (codes "03")) force }
{
    match force {
        Some(code) => code != b'0' && code != b'3',
        None => false,
    }
}

/// Whether a peg names a price that the venue follows.
fn is_peg(peg: Option<u32>) -> bool
    ensures { result ≡ passes (is_among (2 ∷ 4 ∷ 5 ∷ [])) peg }
{
    matches!(peg, Some(2 | 4 | 5))
}

/// The tests that a New and a Replace have in common.
#[tactic(auto, unfolding(crate::specs::Verdict::terms_tests))]
fn terms_tests(tick: u32, terms: &Terms) -> [(bool, Rule); 11]
    requires { IsTick tick }
    ensures { result ≡ terms_tests tick terms.now }
{
    let pegged = is_pegged(terms);
    [
        (terms.kind != b'2' && terms.kind != b'P', Rule::OrderType),
        (fails_force(terms.force), Rule::TimeInForce),
        (!pegged && terms.price.is_none(), Rule::NoPrice),
        (fails_price(tick, terms.price), Rule::Price),
        (pegged && !is_peg(terms.peg), Rule::PegPrice),
        (pegged && fails_code(0, 0, terms.moves), Rule::PegMove),
        (
            pegged && fails_code(0, 2, terms.offset_kind),
            Rule::PegOffsetType,
        ),
        (
            pegged && fails_offset(tick, terms.offset_kind, terms.offset),
            Rule::PegOffset,
        ),
        (pegged && fails_code(1, 2, terms.round), Rule::PegRounding),
        (
            fails_minimum(quantity_of(terms), terms.minimum),
            Rule::Minimum,
        ),
        (fails_code(1, 2, terms.method), Rule::MinimumMethod),
    ]
}

/// The code of a side.
fn side_code(side: Side) -> u8
    ensures { result ≡ side_code side }
{
    match side {
        Side::Buy => b'1',
        Side::Sell => b'2',
    }
}

/// The tests of a New before those of its other terms.
fn new_tests(terms: &Terms, known: &Known) -> [(bool, Rule); 3]
    ensures { result ≡ new_tests terms.now known.now }
{
    [
        (known.used, Rule::UsedId),
        (quantity_in(terms.quantity).is_none(), Rule::Quantity),
        (terms.side != b'1' && terms.side != b'2', Rule::Side),
    ]
}

/// The tests of a Replace before those of its other terms.
fn replace_tests(terms: &Terms, known: &Known) -> [(bool, Rule); 4]
    ensures { result ≡ replace_tests terms.now known.now }
{
    [
        (known.used, Rule::UsedId),
        (!known.live, Rule::UnknownOrder),
        (terms.side != side_code(known.side), Rule::OtherSide),
        (quantity_in(terms.quantity).is_none(), Rule::Quantity),
    ]
}

/// The first of these tests that is broken, and else of those.
fn first_of(tests: &[(bool, Rule)], others: &[(bool, Rule)]) -> Option<Rule>
    ensures { result ≡ first_broken (tests.now ++ others.now) }
{
    match first_broken(tests) {
        Some(rule) => Some(rule),
        None => first_broken(others),
    }
}

/// The same of three lists.
fn first_of_three(
    tests: &[(bool, Rule)],
    others: &[(bool, Rule)],
    last: &[(bool, Rule)],
) -> Option<Rule>
    ensures { result ≡ first_broken (tests.now ++ (others.now ++ last.now)) }
{
    match first_broken(tests) {
        Some(rule) => Some(rule),
        None => first_of(others, last),
    }
}

/// The first rule that a command breaks, in the order in which the rules are tested for its kind; none where
/// it breaks none. Quotes and status requests break none. A New is tested by rules 2 to 15; a Cancel by 2 and
/// 16; a Replace by 2, 16, 17, then 3 and 5 to 15, then 18. Takes no memory.
#[tactic(auto, unfolding(crate::specs::Verdict::verdict))]
pub fn verdict(command: &Command, known: &Known) -> Option<Rule>
    requires { IsTick known.now.tick }
    ensures { result ≡ verdict command.now known.now }
{
    match command {
        Command::Quote { .. } | Command::Status { .. } => first_broken(&[]),
        Command::New { terms, .. } => {
            let terms = terms.get();
            first_of(&new_tests(&terms, known), &terms_tests(known.tick, &terms))
        }
        Command::Cancel { .. } => first_broken(&[
            (known.used, Rule::UsedId),
            (!known.live, Rule::UnknownOrder),
        ]),
        Command::Replace { terms, .. } => {
            let terms = terms.get();
            let is_traded = quantity_of(&terms) <= known.cum;
            first_of_three(
                &replace_tests(&terms, known),
                &terms_tests(known.tick, &terms),
                &[(is_traded, Rule::TradedQuantity)],
            )
        }
    }
}
