//! What the lines of the load script say.
ghost use Rattle.load_laws.specs.LoadScript.{HeaderIsRead, MessagesAreFrames, QuotesAreRead};

/// The first five lines of the load script are a whole header. It says the member A, the market M, the symbol L with a limit that
/// leaves room for all orders and quotes, of which there are at most 999,998, and the moment at which the script begins.
// Rules out a header line that is refused, one that is wanted still, and a config with another name or limit.
pub fn header_is_read()
    ensures { HeaderIsRead }
{}

/// The Logon, each order, and the order behind all others are read as bytes for the member A, which are one whole frame and within
/// the limit on frames.
// Rules out a line that is refused, one that is read for another member, and a frame whose length or sum is wrong.
pub fn messages_are_frames()
    ensures { MessagesAreFrames }
{}

/// The quote before the first order is read as one of 10.00 to 10.02 for the symbol L at the market M, and those behind the orders as
/// ones of 10.01 to 10.03 and of 10.00 to 10.02 by turns.
// Rules out a quote that is refused, one for another symbol or market, and prices that do not move.
pub fn quotes_are_read()
    ensures { QuotesAreRead }
{}
