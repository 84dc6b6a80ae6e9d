//! What operators write.
ghost use Rattle.std.specs.Prelude.{◌≡◌, ◌≢◌, ◌≤◌, codes, length};
ghost use Rattle.live_words.specs.Words.{IsQuoteLine};
ghost use Rattle.live_words.specs.declared.words.Quoted.{Quoted};
ghost use Rattle.live_words.specs.declared.words.Word.TheVariants.{Quote as IsQuote, Stop as IsStop};

use crate::setup::Setup;
use quote_intake::{QuoteFault, read_quote};
use venue_words::Command;
use venue_words::limits::MAX_LINE_BYTES;

/// A quote that was read: whose it is, and whether it has a price.
#[derive(Clone, Copy)]
pub struct Quoted {
    pub symbol: usize,
    pub market: usize,
    pub priced: bool,
}

/// What an operator's line asks for.
#[derive(Clone, Copy)]
pub enum Word {
    /// A quote.
    Quote(Quoted),
    /// The counts of the day so far.
    Status,
    /// The members, and how each is connected.
    Members,
    /// The symbols, and whether each is halted.
    Symbols,
    /// The end of a member's connection.
    Drop { member: usize },
    /// A market is there, though it has nothing to quote.
    Keep { market: usize },
    /// No quotes of a symbol from now on.
    Halt { symbol: usize },
    /// Quotes of a symbol again.
    Resume { symbol: usize },
    /// The end of the day, after the lines of this round.
    Stop,
    /// The words that there are.
    Help,
    /// A quote that is none, for this cause.
    BadQuote(QuoteFault),
    /// The config has no such member.
    UnknownMember,
    /// The config has no such symbol.
    UnknownSymbol,
    /// The config has no such market.
    UnknownMarket,
    /// More bytes than a line may have.
    TooLong,
    /// No word.
    Unknown,
}

/// Reads a line of one word, or of a word and a name.
fn read_plain(text: &[u8], setup: &Setup) -> Word
    ensures quote { (quoted : Quoted) → result ≢ IsQuote quoted }
    ensures stop { result ≡ IsStop → text.now ≡ codes "STOP" }
{
    if text == b"STATUS".as_slice() {
        Word::Status
    } else if text == b"MEMBERS".as_slice() {
        Word::Members
    } else if text == b"SYMBOLS".as_slice() {
        Word::Symbols
    } else if text == b"STOP".as_slice() {
        Word::Stop
    } else if text == b"HELP".as_slice() {
        Word::Help
    } else {
        read_named(text, setup)
    }
}

/// Reads a line of a word and a name.
fn read_named(text: &[u8], setup: &Setup) -> Word
    ensures quote { (quoted : Quoted) → result ≢ IsQuote quoted }
    ensures stop { result ≢ IsStop }
{
    if text.starts_with(b"DROP ") {
        match setup.member(&text[5..]) {
            Some(member) => Word::Drop { member },
            None => Word::UnknownMember,
        }
    } else if text.starts_with(b"KEEP ") {
        match setup.market_named(&text[5..]) {
            Some(market) => Word::Keep { market },
            None => Word::UnknownMarket,
        }
    } else if text.starts_with(b"HALT ") {
        match setup.symbol_named(&text[5..]) {
            Some(symbol) => Word::Halt { symbol },
            None => Word::UnknownSymbol,
        }
    } else if text.starts_with(b"RESUME ") {
        match setup.symbol_named(&text[7..]) {
            Some(symbol) => Word::Resume { symbol },
            None => Word::UnknownSymbol,
        }
    } else {
        Word::Unknown
    }
}

/// Reads an operator's line.
pub fn read_word(text: &[u8], setup: &Setup) -> Word
    ensures quote { (quoted : Quoted) → result ≡ IsQuote quoted → IsQuoteLine text.now setup.now quoted }
    ensures short { (quoted : Quoted) → result ≡ IsQuote quoted → length text.now ≤ 16384 }
    ensures stop { result ≡ IsStop → text.now ≡ codes "STOP" }
{
    if text.len() > MAX_LINE_BYTES {
        return Word::TooLong;
    }
    if text.starts_with(b"Q ") {
        return match read_quote(&text[2..], setup.config()) {
            Ok((symbol, command)) => match &command {
                Command::Quote { market, bid, offer } => Word::Quote(Quoted {
                    symbol: symbol as usize,
                    market: *market as usize,
                    priced: bid.is_some() || offer.is_some(),
                }),
                _ => Word::Unknown,
            },
            Err(fault) => Word::BadQuote(fault),
        };
    }
    read_plain(text, setup)
}

impl Word {
    /// What an operator is answered, with an LF after it; nothing where the answer is of the day.
    pub fn answer(self) -> &'static str {
        match self {
            Word::Quote(_) | Word::Keep { .. } | Word::Halt { .. } | Word::Resume { .. } => "OK\n",
            Word::Status | Word::Members | Word::Symbols | Word::Drop { .. } => "",
            Word::Stop => "the day ends\n",
            Word::Help => {
                "Q SYMBOL MARKET BID OFFER | KEEP MARKET | STATUS | MEMBERS | SYMBOLS | DROP MEMBER | HALT SYMBOL | RESUME SYMBOL | STOP | HELP\n"
            }
            Word::BadQuote(QuoteFault::BadWord) => {
                "a quote is Q SYMBOL MARKET BID OFFER, with one space between\n"
            }
            Word::BadQuote(QuoteFault::UnknownName) => {
                "the symbol or the market is not configured\n"
            }
            Word::BadQuote(QuoteFault::BadPrice) => {
                "a price is - or has two decimals, from 0.01 to 19999.99\n"
            }
            Word::UnknownMember => "the config has no such member\n",
            Word::UnknownSymbol => "the config has no such symbol\n",
            Word::UnknownMarket => "the config has no such market\n",
            Word::TooLong => "the line is too long\n",
            Word::Unknown => "no such word; HELP lists them\n",
        }
    }
}
