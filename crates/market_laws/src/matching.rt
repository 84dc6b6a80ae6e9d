//! Laws of how many trades matching makes, over any rows that rest.
ghost use Rattle.market_laws.specs.Fewer.{FewOfEntered, FewOfRecheck, FewOfWalk};

/// What one order takes from rows that rest: its trades and the rows that are left are at most as many as the rows
/// before and one more, and at most as many as the rows before where the order has shares left.
// Rules out a trade that leaves shares to both of its orders, two trades of one walk with the same row, and a row that is
// filled and stays.
pub fn walk_makes_few_trades()
    ensures { FewOfWalk }
{}

/// A recheck of rows that rest makes at most as many trades as it leaves fewer rows. Each row that it leaves has shares
/// left, and no two of them, of whichever side, entered at one event.
// Rules out a resting order that trades and leaves both sides as long as they were.
pub fn recheck_makes_few_trades()
    ensures { FewOfRecheck }
{}

/// An order that enters among rows that rest, at an event of its own, makes at most as many trades as rows go, its own
/// one counted with them. Each row that is left has shares left, and no two of them entered at one event.
// Rules out an order that rests with no shares left, and one that makes more trades than the rows that it empties and
// one more.
pub fn entering_makes_few_trades()
    ensures { FewOfEntered }
{}
