//! Why bytes are no message.
use fix_fields::number;
use fix_write::digits::push_number;
use venue_words::NoMemory;

/// With which every message begins.
const START: &[u8] = b"8=FIXT.1.1\x019=";

/// The byte that ends a field.
const SOH: u8 = 1;

/// The bytes of CheckSum (10).
const CHECK_SUM_SIZE: usize = 7;

/// A message's parts, as far as its BodyLength (9) tells them.
#[derive(Clone, Copy)]
struct Parts<'a> {
    /// What BodyLength says.
    length: u32,
    /// The bytes up to the end of BodyLength.
    head: &'a [u8],
    /// What stands behind it.
    rest: &'a [u8],
}

/// The place of a byte.
fn place_of(byte: u8, bytes: &[u8]) -> Option<usize> {
    for place in 0..bytes.len() {
        if bytes[place] == byte {
            return Some(place);
        }
    }
    None
}

/// The parts of bytes that begin as a message does.
fn parts_of(bytes: &[u8]) -> Option<Parts<'_>> {
    let behind = bytes.strip_prefix(START)?;
    let digits = place_of(SOH, behind)?;
    let length = number(behind.get(..digits)?)?;
    let size = START.len().saturating_add(digits).saturating_add(1);
    Some(Parts {
        length,
        head: bytes.get(..size)?,
        rest: bytes.get(size..)?,
    })
}

/// The sum of bytes, modulo 256.
fn sum_of(bytes: &[u8]) -> u8 {
    let mut sum = 0u8;
    for byte in bytes {
        sum = sum.wrapping_add(*byte);
    }
    sum
}

/// Tells that a sum is not the one that is said.
fn push_sums(out: &mut Vec<u8>, said: &[u8], sum: u8) -> Result<(), NoMemory> {
    out.extend_from_slice(b"CheckSum (10) says ")?;
    out.extend_from_slice(said)?;
    out.extend_from_slice(b", and its bytes sum to ")?;
    push_number(out, u64::from(sum))
}

/// Tells why a message with these parts is none.
fn push_fault(out: &mut Vec<u8>, parts: &Parts<'_>) -> Result<(), NoMemory> {
    let size = parts.length as usize;
    let Some(end) = parts.rest.get(size..size.saturating_add(CHECK_SUM_SIZE)) else {
        out.extend_from_slice(b"BodyLength (9) says more bytes than stand here")?;
        return Ok(());
    };
    let Some(said) = end.strip_prefix(b"10=") else {
        out.extend_from_slice(b"no CheckSum (10) stands where BodyLength (9) ends")?;
        return Ok(());
    };
    let body = parts.rest.get(..size).unwrap_or(parts.rest);
    let sum = sum_of(parts.head).wrapping_add(sum_of(body));
    push_sums(out, said.get(..3).unwrap_or(said), sum)
}

/// Tells why bytes that were passed over are no message.
pub fn push_why_passed(out: &mut Vec<u8>, bytes: &[u8]) -> Result<(), NoMemory> {
    match parts_of(bytes) {
        Some(parts) => push_fault(out, &parts),
        None => {
            out.extend_from_slice(b"they do not begin as a message does")?;
            Ok(())
        }
    }
}

/// Whether bytes may be the beginning of a message that goes on.
pub fn may_go_on(bytes: &[u8]) -> bool {
    match parts_of(bytes) {
        Some(parts) => { parts.rest.len() < (parts.length as usize).saturating_add(CHECK_SUM_SIZE) }
        None => {
            let size = bytes.len().min(START.len());
            bytes.get(..size) == START.get(..size)
        }
    }
}
