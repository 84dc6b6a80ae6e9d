//! What the words of a run ask for.
ghost use Rattle.std.specs.Prelude.{◌≡◌, ◌≤◌, None, Some, map, MatchOption, IfSome};
ghost use Rattle.replay_core.specs.Plan.{load_count, most_load, form_of, plan_in, IsWithinLoad};

use fix_fields::number;

/// The most orders, and the most quotes, of a load run.
const MOST_LOAD: u32 = 200_000;

/// What the words of a run ask for.
#[derive(Clone, Copy, Debug)]
pub enum Plan<'a> {
    /// To replay the script of this name.
    Script(&'a str),
    /// To play the load script of so many orders and quotes, and to sum it up.
    Load { orders: u32, quotes: u32 },
}

/// A number of orders or quotes: up to 200,000, in decimal digits without a leading zero.
#[tactic(auto, unfolding(crate::specs::Plan::load_count))]
fn load_count(word: &str) -> Option<u32>
    ensures count { result ≡ load_count word.now }
    ensures within { IfSome result (λ count. count ≤ most_load) }
{
    let digits = word.as_bytes();
    if digits.len() > 1 && digits[0] == b'0' {
        return None;
    }
    match number(digits) {
        Some(count) if count <= MOST_LOAD => Some(count),
        _ => None,
    }
}

/// What words without a flag ask for: a script by its name, or a load run by `load` and two counts.
#[tactic(auto, unfolding(crate::specs::Plan::keyed_plan))]
pub fn plan_of<'a>(words: &[&'a str]) -> Option<Plan<'a>>
    ensures form { MatchOption result (form_of (map (λ word. word.now) words.now) ≡ None)
        (λ plan. form_of (map (λ word. word.now) words.now) ≡ Some (plan_in plan)) }
    ensures within { IfSome result IsWithinLoad }
{
    match words {
        [name] => Some(Plan::Script(name)),
        [key, orders, quotes] if *key == "load" => Some(Plan::Load {
            orders: load_count(orders)?,
            quotes: load_count(quotes)?,
        }),
        _ => None,
    }
}
