//! A law of what a day refuses. It is the contract of a function that does nothing.
ghost use Rattle.day_core.specs.Refusing.{RefusesAsReplay};

/// A script within the day's limit on bytes is refused in a day where a replay refuses it, and not else.
pub fn short_scripts_are_refused_as_replays()
    ensures { RefusesAsReplay }
{}
