//! Laws of the trades that a history tells.
ghost use Rattle.market_laws.specs.Trading.{BoughtSharesAreSold, TradesAreWithinQuote};

/// The shares that the reports tell as bought are as many as those that they tell as sold.
// Rules out a trade that is told to one of its two orders alone, one told with other shares to each, and one between
// two orders of one side or with an order that is not there.
pub fn bought_shares_are_sold()
    ensures { BoughtSharesAreSold }
{}

/// For each trade the national quote after its event is regular or locked, and the price is from the bid to the offer:
/// in units of 0.005, from twice the bid to twice the offer, which are in cents.
// Rules out a trade on a missing or crossed quote, a price outside the quote, and a trade at the price that a row had
// under an earlier quote.
pub fn trades_are_within_quote()
    ensures { TradesAreWithinQuote }
{}
