//! Laws of a history and of those that it begins with.
ghost use Rattle.market_laws.specs.Histories.{HistoryGoesOn};

/// A history goes on from where its beginning left the book, and what was reported is never taken back: the reports of a
/// history begin with those of each of its beginnings.
// Rules out a report that depends on later events, and one that is changed, moved or dropped once it was sent.
pub fn history_goes_on()
    ensures { HistoryGoesOn }
{}
