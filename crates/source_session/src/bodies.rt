//! The bodies of what we send.
use crate::said::Refused;
use fix_write::{push_field, push_number_field};
use session_core::tags::{
    DEFAULT_APPL_VER_ID, ENCRYPT_METHOD, GAP_FILL_FLAG, HEART_BT_INT, NEW_SEQ_NO, REF_MSG_TYPE,
    REF_SEQ_NUM, REF_TAG_ID, RESET_SEQ_NUM_FLAG, SESSION_REJECT_REASON, TEST_REQ_ID,
};
use std::alloc::Global;
use venue_words::NoMemory;

/// The heartbeat interval that we ask for, in seconds.
pub(crate) const HEARTBEAT_SECONDS: u64 = 10;

/// MDReqID: the name of our only request.
const MD_REQ_ID: u32 = 262;

/// SubscriptionRequestType: 1 for a snapshot now and after each change.
const SUBSCRIPTION_TYPE: u32 = 263;

/// MarketDepth: 1 for the best prices alone.
const MARKET_DEPTH: u32 = 264;

/// MDUpdateType: 0 for whole snapshots.
const MD_UPDATE_TYPE: u32 = 265;

/// NoMDEntryTypes, and after it as many types of entries.
const NO_MD_ENTRY_TYPES: u32 = 267;

/// MDEntryType: 0 for bids, 1 for offers.
const MD_ENTRY_TYPE: u32 = 269;

/// NoRelatedSym, and after it as many symbols.
const NO_RELATED_SYM: u32 = 146;

/// Symbol.
const SYMBOL: u32 = 55;

/// The Logon: no encryption, numbers begin at 1 again, FIX 5.0 SP2.
pub(crate) fn logon_body(alloc: Global) -> Result<Vec<u8>, NoMemory> {
    let mut out = Vec::new(alloc);
    push_field(&mut out, ENCRYPT_METHOD, b"0")?;
    push_number_field(&mut out, HEART_BT_INT, HEARTBEAT_SECONDS)?;
    push_field(&mut out, RESET_SEQ_NUM_FLAG, b"Y")?;
    push_field(&mut out, DEFAULT_APPL_VER_ID, b"9")?;
    Ok(out)
}

/// The body of a MarketDataRequest(35=V) for the best prices of these symbols, as whole snapshots, now and after each change.
/// Without a symbol it is empty: nothing is asked for.
pub fn request_body(alloc: Global, symbols: &[&str]) -> Result<Vec<u8>, NoMemory> {
    let mut out = Vec::new(alloc);
    if symbols.is_empty() {
        return Ok(out);
    }
    push_field(&mut out, MD_REQ_ID, b"QUOTES")?;
    push_field(&mut out, SUBSCRIPTION_TYPE, b"1")?;
    push_field(&mut out, MARKET_DEPTH, b"1")?;
    push_field(&mut out, MD_UPDATE_TYPE, b"0")?;
    push_field(&mut out, NO_MD_ENTRY_TYPES, b"2")?;
    push_field(&mut out, MD_ENTRY_TYPE, b"0")?;
    push_field(&mut out, MD_ENTRY_TYPE, b"1")?;
    push_number_field(&mut out, NO_RELATED_SYM, symbols.len() as u64)?;
    for symbol in symbols {
        push_field(&mut out, SYMBOL, symbol.as_bytes())?;
    }
    Ok(out)
}

/// The Heartbeat that answers a TestRequest, and a TestRequest, with this identifier.
pub(crate) fn test_body(alloc: Global, id: &[u8]) -> Result<Vec<u8>, NoMemory> {
    let mut out = Vec::new(alloc);
    push_field(&mut out, TEST_REQ_ID, id)?;
    Ok(out)
}

/// The SequenceReset that stands for all that was sent before a number.
pub(crate) fn fill_body(alloc: Global, next: u64) -> Result<Vec<u8>, NoMemory> {
    let mut out = Vec::new(alloc);
    push_field(&mut out, GAP_FILL_FLAG, b"Y")?;
    push_number_field(&mut out, NEW_SEQ_NO, next)?;
    Ok(out)
}

/// The Reject of a snapshot.
pub(crate) fn reject_body(alloc: Global, refused: Refused) -> Result<Vec<u8>, NoMemory> {
    let mut out = Vec::new(alloc);
    push_number_field(&mut out, REF_SEQ_NUM, u64::from(refused.number))?;
    push_number_field(&mut out, REF_TAG_ID, u64::from(refused.tag))?;
    push_field(&mut out, REF_MSG_TYPE, b"W")?;
    push_number_field(&mut out, SESSION_REJECT_REASON, u64::from(refused.reason))?;
    Ok(out)
}
