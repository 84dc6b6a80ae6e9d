//! Laws of what an event reports.
ghost use Rattle.market_laws.specs.Replies.{NewIsAnsweredOnce, ReportsAreInPlace};
ghost use Rattle.market_laws.specs.Reports.{ReportsAreFew};

/// Each event's reports have its number and its moment, and the places 1, 2, 3 and so on.
// Rules out a place that is left out or given twice, and a report that is numbered by another event.
pub fn reports_are_in_place()
    ensures { ReportsAreInPlace }
{}

/// Each New has exactly one acknowledgement or rejection, at place 1 and to its member. It is rejected exactly where it
/// breaks a rule, and the rejection names the first rule that it breaks.
// Rules out a New without an answer, one that is answered twice, one whose trade is told before its acknowledgement, and
// a rejection without a rule or by another rule than the first one broken.
pub fn new_is_answered_once()
    ensures { NewIsAnsweredOnce }
{}

/// The reports of a history, with two more for each row that rests after it, are at most four for each event.
// Rules out an event that tells more than two reports beside those of its trades, a trade that is told more than twice,
// and more trades than the rows that they empty and one for each order that enters.
pub fn reports_are_few()
    ensures { ReportsAreFew }
{}
