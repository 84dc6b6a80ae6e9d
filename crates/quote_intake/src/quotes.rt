//! The quote of a line.
ghost use Rattle.std.specs.Prelude.{◌≡◌, ◌≢◌, ◌≤◌, ◌<◌, true, [], ◌∷◌, length, IfOk, IfSome, IfNone};
ghost use Rattle.venue_words.specs.declared.limits.TheConstants.{MAX_MARKETS, MAX_SYMBOLS};
ghost use Rattle.venue_words.specs.Conditions.{fits_limits};
ghost use Rattle.venue_words.specs.Floors.{setup_of, is_configured};
ghost use Rattle.quote_intake.specs.Words.{words_of};
ghost use Rattle.quote_intake.specs.Quote.{quote_of};

use crate::names::number_in;
use crate::prices::price;
use crate::words::cut_word;
use venue_words::{Command, Config};

/// Why a line is no quote.
#[derive(Clone, Copy, Debug, PartialEq, Eq, Drop)]
pub enum QuoteFault {
    /// It has not four words.
    BadWord,
    /// The symbol or the market is not configured.
    UnknownName,
    /// The bid or the offer is no price.
    BadPrice,
}

/// The words of a quote's line.
#[derive(Clone, Copy, Debug)]
struct Fields<'a> {
    symbol: &'a [u8],
    market: &'a [u8],
    bid: &'a [u8],
    offer: &'a [u8],
}

/// The four words of a line, or none where it has more or fewer.
#[tactic(auto, using(crate::proofs::Spaces::some_word))]
fn four_words(text: &[u8]) -> Option<Fields<'_>>
    ensures found { IfSome result (λ f. words_of text.now ≡ f.symbol.now ∷ f.market.now ∷ f.bid.now ∷ f.offer.now ∷ []) }
    ensures none { IfNone result (length (words_of text.now) ≢ 4) }
{
    let (symbol, rest) = cut_word(text)?;
    let (market, rest) = cut_word(rest)?;
    let (bid, offer) = cut_word(rest)?;
    match cut_word(offer) {
        Some(_) => None,
        None => Some(Fields {
            symbol,
            market,
            bid,
            offer,
        }),
    }
}

/// Reads what stands behind `Q ` in a line: symbol, market, bid and offer, parted by one space each. It answers the
/// symbol's number and the quote, or the first fault in the order of their variants. A bid may be at or above the
/// offer.
#[tactic(auto, unfolding(crate::specs::Quote::quote_in))]
pub fn read_quote(words: &[u8], config: &Config) -> Result<(u32, Command), QuoteFault>
    requires symbols { length config.now.symbols ≤ MAX_SYMBOLS }
    requires markets { length config.now.markets ≤ MAX_MARKETS }
    ensures quote { result ≡ quote_of words.now config.now }
    ensures symbol { IfOk result (λ read. read.0 < length config.now.symbols) }
    ensures configured { IfOk result (λ read. is_configured (setup_of config.now) read.1 ≡ true) }
    ensures fits { IfOk result (λ read. fits_limits read.1 ≡ true) }
{
    let Some(fields) = four_words(words) else {
        return Err(QuoteFault::BadWord);
    };
    let Some(symbol) = number_in(config.symbols.as_slice(), fields.symbol) else {
        return Err(QuoteFault::UnknownName);
    };
    let Some(market) = number_in(config.markets.as_slice(), fields.market) else {
        return Err(QuoteFault::UnknownName);
    };
    let Some(bid) = price(fields.bid) else {
        return Err(QuoteFault::BadPrice);
    };
    let Some(offer) = price(fields.offer) else {
        return Err(QuoteFault::BadPrice);
    };
    let quote = Command::Quote { market, bid, offer };
    Ok((symbol, quote))
}
