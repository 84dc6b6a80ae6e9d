//! In which order a book's reports stand.
ghost use Rattle.listing.specs.Listing.{RunsAreInOrder};

/// The reports that the market's rules make of a journal stand event by event: those of an event are behind those of all
/// earlier events, each with its event's number. So a journal of a book and its reports can be listed.
// Rules out a report of an earlier event that is made later, and one with the number of another event.
pub fn runs_are_in_order()
    ensures { RunsAreInOrder }
{}
