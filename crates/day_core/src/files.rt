//! What the words of a run name.
ghost use Rattle.std.specs.Prelude.{◌≡◌, None, Some, map, MatchOption};
ghost use Rattle.day_core.specs.DayFiles.{files_in, form_of};

/// The names of a script and of the journal in which its lines are kept.
#[derive(Clone, Copy, Debug)]
pub(crate) struct DayFiles<'a> {
    pub(crate) script: &'a str,
    pub(crate) journal: &'a str,
}

/// What words without a flag name: a script and a journal.
pub(crate) fn files_of<'a>(words: &[&'a str]) -> Option<DayFiles<'a>>
    ensures { MatchOption result (form_of (map (λ word. word.now) words.now) ≡ None)
        (λ files. form_of (map (λ word. word.now) words.now) ≡ Some (files_in files)) }
{
    match words {
        [script, journal] => Some(DayFiles { script, journal }),
        _ => None,
    }
}
