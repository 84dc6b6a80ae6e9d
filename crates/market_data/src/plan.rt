//! What the words of a run name.
ghost use Rattle.std.specs.Prelude.{◌≡◌, None, Some, map, MatchOption};
ghost use Rattle.market_data.specs.Plan.{form_of, plan_in};

use script_text::words::is_name;

/// What the words of a run name.
#[derive(Clone, Copy, Debug)]
pub struct Plan<'a> {
    /// The file of the config.
    pub config: &'a str,
    /// The CompID of the source.
    pub source: &'a str,
    /// The file of the bytes that the source sent.
    pub input: &'a str,
}

/// What words without a flag name: a config, a source whose name has the form of one, and an input.
pub fn plan_of<'a>(words: &[&'a str]) -> Option<Plan<'a>>
    ensures { MatchOption result (form_of (map (λ word. word.now) words.now) ≡ None)
        (λ plan. form_of (map (λ word. word.now) words.now) ≡ Some (plan_in plan)) }
{
    match words {
        [config, source, input] if is_name(source.as_bytes()) => Some(Plan {
            config,
            source,
            input,
        }),
        _ => None,
    }
}
