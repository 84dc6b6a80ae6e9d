//! The terms of orders.
ghost use Rattle.std.specs.Prelude.{◌≡◌, IfOk, IfSome, is_some};
ghost use Rattle.venue_words.specs.OrderTerms.{amount_if, unpacked};

use std::alloc::{AllocError, Global};
use std::marker::Model;
use std::mem::size_of;

/// The fields of a new or replacing order as they were received, before any rule is tested.
/// An amount counts units of 10^-8, so that 100 shares are 10,000,000,000.
#[derive(Clone, Copy, Debug, PartialEq, Eq)]
pub struct Terms {
    /// Side(54), its one byte.
    pub side: u8,
    /// OrderQty(38), an amount.
    pub quantity: i128,
    /// OrdType(40), its one byte.
    pub kind: u8,
    /// Price(44), an amount.
    pub price: Option<i128>,
    /// TimeInForce(59), its one byte.
    pub force: Option<u8>,
    /// MinQty(110), an amount.
    pub minimum: Option<i128>,
    /// MinQtyMethod(1822).
    pub method: Option<u32>,
    /// PegPriceType(1094).
    pub peg: Option<u32>,
    /// PegOffsetValue(211), an amount.
    pub offset: Option<i128>,
    /// PegOffsetType(836).
    pub offset_kind: Option<u32>,
    /// PegMoveType(835).
    pub moves: Option<u32>,
    /// PegRoundDirection(838).
    pub round: Option<u32>,
}

/// Terms as they are kept: an amount that is not there takes the place of one that is, and no more. Those that sensible orders
/// have lie close together, and what is larger is kept as it is.
#[derive(Debug, Drop)]
enum Packed {
    Usual {
        side: u8,
        kind: u8,
        force: Option<u8>,
        has_price: bool,
        has_minimum: bool,
        has_offset: bool,
        quantity: i64,
        price: i64,
        minimum: i64,
        offset: i64,
        method: Option<u8>,
        peg: Option<u8>,
        offset_kind: Option<u8>,
        moves: Option<u8>,
        round: Option<u8>,
    },
    Wide(Box<Terms>),
}

const _: () = prove!(size_of::<Packed>() == 56);

/// An amount where it is there.
fn amount_if(there: bool, amount: i64) -> Option<i128>
    ensures { result ≡ amount_if there amount }
{
    if there {
        Some(i128::from(amount))
    } else {
        None
    }
}

/// A code of one byte as a number.
fn code_of(code: Option<u8>) -> Option<u32>
    ensures { result ≡ code }
{
    match code {
        Some(code) => Some(u32::from(code)),
        None => None,
    }
}

/// An amount that is there as one of 64 bits, and one that is not as 0; none where it is larger.
fn small_amount(amount: Option<i128>) -> Option<i64>
    ensures { IfSome result (λ small. amount_if (is_some amount) small ≡ amount) }
{
    match amount {
        Some(amount) => i64::try_from(amount).ok(),
        None => Some(0),
    }
}

/// A number as a code of one byte; none where it is larger.
fn small_code(code: Option<u32>) -> Option<Option<u8>>
    ensures { IfSome result (λ small. small ≡ code) }
{
    match code {
        Some(code) => match u8::try_from(code) {
            Ok(code) => Some(Some(code)),
            Err(_) => None,
        },
        None => Some(None),
    }
}

/// Terms close together, where none of them is large.
fn pack(terms: &Terms) -> Option<Packed>
    ensures { IfSome result (λ packed. unpacked packed ≡ terms.now) }
{
    Some(Packed::Usual {
        side: terms.side,
        kind: terms.kind,
        force: terms.force,
        has_price: terms.price.is_some(),
        has_minimum: terms.minimum.is_some(),
        has_offset: terms.offset.is_some(),
        quantity: i64::try_from(terms.quantity).ok()?,
        price: small_amount(terms.price)?,
        minimum: small_amount(terms.minimum)?,
        offset: small_amount(terms.offset)?,
        method: small_code(terms.method)?,
        peg: small_code(terms.peg)?,
        offset_kind: small_code(terms.offset_kind)?,
        moves: small_code(terms.moves)?,
        round: small_code(terms.round)?,
    })
}

/// Terms on the heap, so that a command and its event are small. Contracts see the terms.
#[derive(Debug)]
pub struct BoxedTerms(Box<Packed>);

// Written out, so that crates above let go of one by this theorem, and not part by part.
impl Drop for BoxedTerms {
    fn drop(self) {
        let BoxedTerms(_) = self;
    }
}

impl Model for BoxedTerms {
    ghost use Rattle.venue_words.specs.declared.terms.Terms.{Terms};
    ghost use Rattle.venue_words.specs.OrderTerms.{unpacked};

    ghost Value = { Terms };

    ghost view = { λ b. unpacked b.0.value };
}

impl BoxedTerms {
    /// These terms, on the heap.
    pub fn new(alloc: Global, terms: Terms) -> Result<BoxedTerms, AllocError>
        ensures { IfOk result (λ boxed. boxed ≡ terms) }
    {
        let packed = match pack(&terms) {
            Some(packed) => packed,
            None => Packed::Wide(Box::new(alloc, terms)?),
        };
        Ok(BoxedTerms(Box::new(alloc, packed)?))
    }

    /// The terms.
    pub fn get(&self) -> Terms
        ensures { result ≡ self.now }
    {
        match self.0.as_ref() {
            Packed::Wide(terms) => **terms,
            Packed::Usual {
                side,
                kind,
                force,
                has_price,
                has_minimum,
                has_offset,
                quantity,
                price,
                minimum,
                offset,
                method,
                peg,
                offset_kind,
                moves,
                round,
            } => Terms {
                side: *side,
                quantity: i128::from(*quantity),
                kind: *kind,
                price: amount_if(*has_price, *price),
                force: *force,
                minimum: amount_if(*has_minimum, *minimum),
                method: code_of(*method),
                peg: code_of(*peg),
                offset: amount_if(*has_offset, *offset),
                offset_kind: code_of(*offset_kind),
                moves: code_of(*moves),
                round: code_of(*round),
            },
        }
    }
}
