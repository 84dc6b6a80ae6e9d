//! The entries of a snapshot.
ghost use Rattle.std.specs.Prelude.{◌≡◌, ℕ, List, ◌<◌, ◌≤◌, ◌&&◌, length, position, Some, None, is_none, [], ◌∷◌, IfSome, IfOk, OnOk, IfErr};
ghost use Rattle.venue_words.specs.declared.limits.TheConstants.{MAX_MARKETS};
ghost use Rattle.fix_fields.specs.declared.field.Field.{Field};
ghost use Rattle.market_data.specs.Entries.{begins_entry, entry_of, entry_type, has_price, whole_cents, cents_of_amount, price_in, market_in, market_or_first, entry_quote, used_quote};
ghost use Rattle.market_data.specs.Faults.{fails_if, first_some, entry_faults, entry_fault};

use crate::tags::{MD_ENTRY_PX, MD_ENTRY_TYPE, MD_MKT};
use fix_fields::{Field, amount};
use quote_intake::number_in;
use session_core::FailedCheck;
use session_core::lookup::{is_value_in, value_in};
use session_core::reasons::{TAG_MISSING, VALUE_OUT_OF_RANGE};
use venue_words::Bytes;

/// The greatest price, 19,999.99, in units of 10^-8.
const MOST_UNITS: i128 = 1_999_999_000_000;

/// What an entry that is used tells.
#[derive(Clone, Copy, Debug, PartialEq, Eq)]
pub enum EntryType {
    Bid,
    Offer,
    /// The market has neither a bid nor an offer.
    EmptyBook,
}

/// What a used entry says of a market: a bid, an offer or neither, in cents.
#[derive(Clone, Copy, Debug, PartialEq, Eq)]
pub struct EntryQuote {
    pub market: u32,
    pub bid: Option<u32>,
    pub offer: Option<u32>,
}

/// Whether an entry begins with this field.
pub fn begins_entry(field: &Field<'_>) -> bool
    ensures { result ≡ begins_entry field.now }
{
    field.tag == MD_ENTRY_TYPE
}

/// The place of the next field that begins an entry.
fn next_entry(fields: &[Field<'_>]) -> Option<usize>
    ensures place { result ≡ position begins_entry fields.now }
    ensures within { IfSome result (λ at. at < length fields.now) }
{
    fields.iter().position(|field| begins_entry(field))
}

/// The entry that begins with the first of these fields: it goes up to the next one that begins an entry, or to the end.
pub fn entry_of<'f, 'a>(fields: &'f [Field<'a>]) -> &'f [Field<'a>]
    requires { 0 < length fields.now }
    ensures { result.now ≡ entry_of fields.now }
{
    match next_entry(&fields[1..]) {
        Some(at) => &fields[..at + 1],
        None => fields,
    }
}

/// What an entry tells, where it is used.
#[tactic(auto, unfolding(crate::specs::Entries::entry_type))]
fn entry_type(entry: &[Field<'_>]) -> Option<EntryType>
    ensures { result ≡ entry_type entry.now }
{
    if is_value_in(MD_ENTRY_TYPE, b"0", entry) {
        Some(EntryType::Bid)
    } else if is_value_in(MD_ENTRY_TYPE, b"1", entry) {
        Some(EntryType::Offer)
    } else if is_value_in(MD_ENTRY_TYPE, b"J", entry) {
        Some(EntryType::EmptyBook)
    } else {
        None
    }
}

/// Whether an entry of this type has a price.
fn has_price(of: EntryType) -> bool
    ensures { result ≡ has_price of }
{
    match of {
        EntryType::Bid | EntryType::Offer => true,
        EntryType::EmptyBook => false,
    }
}

/// The cents of so many units of 10^-8, where they are whole cents from 0.01 on.
#[tactic(auto, unfolding(crate::specs::Entries::whole_cents, quote_intake::specs::Price::in_range))]
fn whole_cents(units: u64) -> Option<u32>
    requires { units ≤ 1_999_999_000_000 }
    ensures { result ≡ whole_cents units }
{
    if units % 1_000_000 == 0 && 0 < units {
        Some((units / 1_000_000) as u32)
    } else {
        None
    }
}

/// The cents of an amount in units of 10^-8, where it is whole cents from 0.01 to 19,999.99.
fn cents_of_amount(units: i128) -> Option<u32>
    ensures { result ≡ cents_of_amount units }
{
    if units < 0 {
        return None;
    }
    if units > MOST_UNITS {
        return None;
    }
    whole_cents(units as u64)
}

/// The price of an entry in cents.
#[tactic(auto, unfolding(crate::specs::Entries::price_in))]
fn price_in(entry: &[Field<'_>]) -> Option<u32>
    ensures { result ≡ price_in entry.now }
{
    match value_in(MD_ENTRY_PX, entry) {
        Some(bytes) => match amount(bytes) {
            Some(units) => cents_of_amount(units),
            None => None,
        },
        None => None,
    }
}

/// The market of an entry, where that is configured.
#[tactic(auto, unfolding(crate::specs::Entries::market_in))]
fn market_in(markets: &[Bytes], entry: &[Field<'_>]) -> Option<u32>
    requires { length markets.now ≤ MAX_MARKETS }
    ensures { result ≡ market_in markets.now entry.now }
{
    match value_in(MD_MKT, entry) {
        Some(name) => number_in(markets, name),
        None => None,
    }
}

/// The first check that an entry of a type fails, where this is its price and this its market.
fn entry_fault(
    markets: &[Bytes],
    entry: &[Field<'_>],
    of: EntryType,
    price: Option<u32>,
    market: Option<u32>,
) -> Option<FailedCheck>
    requires price { price ≡ price_in entry.now }
    requires market { market ≡ market_in markets.now entry.now }
    ensures { result ≡ first_some (entry_faults markets.now entry.now of) }
{
    let failed = |reason, tag| Some(FailedCheck { reason, tag });
    if has_price(of) {
        if value_in(MD_ENTRY_PX, entry).is_none() {
            return failed(TAG_MISSING, MD_ENTRY_PX);
        }
        if price.is_none() {
            return failed(VALUE_OUT_OF_RANGE, MD_ENTRY_PX);
        }
    }
    if value_in(MD_MKT, entry).is_none() {
        return failed(TAG_MISSING, MD_MKT);
    }
    if market.is_none() {
        return failed(VALUE_OUT_OF_RANGE, MD_MKT);
    }
    None
}

/// What an entry of a type says of its market, where this is its price.
fn entry_quote(of: EntryType, price: Option<u32>, market: u32) -> EntryQuote
    ensures { (markets : List (List ℕ)) (entry : List Field) → price ≡ price_in entry
        → market ≡ market_or_first markets entry → result ≡ entry_quote markets entry of }
{
    let (bid, offer) = match of {
        EntryType::Bid => (price, None),
        EntryType::Offer => (None, price),
        EntryType::EmptyBook => (None, None),
    };
    EntryQuote { market, bid, offer }
}

/// What an entry says of its market, or nothing where it is ignored; or the first check that it fails.
pub fn read_entry(markets: &[Bytes], entry: &[Field<'_>]) -> Result<Option<EntryQuote>, FailedCheck>
    requires { length markets.now ≤ MAX_MARKETS }
    ensures failed { IfErr result (λ failed. entry_fault markets.now entry.now ≡ Some failed) }
    ensures passed { OnOk result (entry_fault markets.now entry.now ≡ None) }
    ensures quote { IfOk result (λ quote. quote ≡ used_quote markets.now entry.now) }
{
    let Some(of) = entry_type(entry) else {
        return Ok(None);
    };
    let price = price_in(entry);
    let market = market_in(markets, entry);
    match entry_fault(markets, entry, of, price, market) {
        Some(failed) => Err(failed),
        None => Ok(Some(entry_quote(of, price, market.unwrap_or(0)))),
    }
}
