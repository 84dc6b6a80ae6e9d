//! What is written, and what is read of it.
ghost use Rattle.market_feed_laws.specs.BestQuotes.{QuotesAreBest};
ghost use Rattle.market_feed_laws.specs.ReadBack.{FeedsAreReadBack};

/// The quote of a market has the greatest of all bids that a snapshot says of it, and the least of all offers; none where it says
/// none.
// Rules out the last bid for the greatest, and a bid of another market.
pub fn quotes_are_best()
    ensures { QuotesAreBest }
{}

/// The text of a feed is read as the quotes that it was written for, in their order, each at its message's moment: where the names
/// of the config have the form of names, and the moments are within the years 0000 to 9999.
// Rules out a line that is read as another quote or refused, a quote at the moment of another message, one that is left out, and one
// that stands twice.
pub fn feeds_are_read_back()
    ensures { FeedsAreReadBack }
{}
