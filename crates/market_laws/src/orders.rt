//! Laws of the orders of a book.
ghost use Rattle.market_laws.specs.Fitting.{
  NewTradesFit,
  QuoteTradesFit,
  ReplaceTradesFit,
  RowsArePlaced,
};
ghost use Rattle.market_laws.specs.Orders.{CumIsSumOfTrades};
ghost use Rattle.market_laws.specs.Sound.{BookIsSound};
ghost use Rattle.market_laws.specs.Standing.{RowsStand};

/// Each order's CumQty is the sum of the trades that the reports tell of it, by the event of its New.
// Rules out a trade that is told and not added to its order, one that is added and not told, a Replace that loses or
// gains traded shares, and two orders that reports can't tell apart.
pub fn cum_is_sum_of_trades()
    ensures { CumIsSumOfTrades }
{}

/// After every history the rows and the orders of the book agree: no two rows are of one event or of one order; each row
/// has an order of its number and member, and shares left, which with the order's CumQty are its quantity; no order
/// traded more than its quantity; and there are no more orders than events, and no more rows than orders.
// Rules out a trade of shares that an order does not have, a row that is filled and stays, one whose order lost or gained
// shares by a Replace, two rows of one order, and a row that forgets that its order has traded.
pub fn book_is_sound()
    ensures { BookIsSound }
{}

/// After every history each row is on its list's side, its order is of that side too, and its value is the one that the
/// present national quote gives it. The sum of price times quantity over an order's trades is at most `PRICE_END` for
/// each share of its CumQty.
// Rules out a buy among the sells, a Replace that turns an order's side, a row that keeps the price of an earlier quote,
// and an average price above the greatest price.
pub fn rows_are_placed()
    ensures { RowsArePlaced }
{}

/// The trades that any new national quote makes after a history fit: both orders of each are there, and have its shares
/// left when it is made.
// Rules out a CumQty that passes the quantity between two trades of one event, and a trade with an order that is not
// there.
pub fn quote_trades_fit()
    ensures { QuoteTradesFit }
{}

/// The trades of a New that enters at the next event fit: both orders of each are there, and have its shares left when it
/// is made.
// Rules out a New that trades more than its quantity, and one that takes more from a resting order than it has left.
pub fn new_trades_fit()
    ensures { NewTradesFit }
{}

/// The trades of a Replace that breaks no rule, where its order enters anew at the next event, fit: both orders of each are
/// there, and have its shares left when it is made.
// Rules out a Replace whose order trades again what it had traded before, and one that trades with the row that it
// replaces.
pub fn replace_trades_fit()
    ensures { ReplaceTradesFit }
{}

/// The row of each order is the one with which it entered last, by its New or by a Replace that entered it anew. It has left
/// the quantity without CumQty, and is marked as traded where CumQty is above 0. An order has no row where it is filled or
/// canceled, and where it may not rest.
// Rules out an order with shares left that lost its row, a row of a filled or canceled order, and one whose key, limit,
// minimum, method, member or entry changes while it rests.
pub fn rows_stand()
    ensures { RowsStand }
{}
