//! What holds of every run of quotes and ticks. Each law is the contract of a function that does nothing.
ghost use Rattle.quote_flow.specs.Laws.{PassesSome, KeepsLast, HoldsNoLonger};

/// What passes is some of what comes, in its order.
pub fn passes_some()
    ensures { PassesSome }
{}

/// The last quote that came passed last or is held.
pub fn keeps_last()
    ensures { KeepsLast }
{}

/// At a tick each quote passes whose time has come.
pub fn holds_no_longer()
    ensures { HoldsNoLonger }
{}
