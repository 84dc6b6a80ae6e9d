//! Whose a connection is, by its first bytes.
ghost use Rattle.std.specs.Prelude.{◌≡◌, ◌≢◌, ◌<◌, ◌≤◌, ℕ, true, length, position, IfOk, IfSome};
ghost use Rattle.std.specs.Option.{option_copied};
ghost use Rattle.std.specs.Prelude.{Ok};
ghost use Rattle.live_words.specs.declared.naming.Claim.TheVariants.{Member as Claims, Waits as IsUnclear};
ghost use Rattle.live_words.specs.declared.naming.Begun.TheVariants.{Waits as IsWaiting, Whole as IsWhole};
ghost use Rattle.live_words.specs.Naming.{IsFirst, IsFirstFrame, Opens, MayBegin, IsClaim, IsLogonFrame, IsLogon, value_of, is_value};

use fix_fields::{Field, FieldFault, Frame, fields};
use fix_frames::{Framer, Next};
use memchr::memchr;
use std::alloc::Global;
use venue_words::limits::{MAX_FRAME_BYTES, SOH, VENUE};
use venue_words::{Bytes, NoMemory};

/// How a frame begins, up to the digits of its length.
const OPENING: &[u8] = b"8=FIXT.1.1\x019=";

/// The most digits of a frame's length, with the SOH that ends them.
const MAX_LENGTH_BYTES: usize = 6;

/// The bytes of a frame beside those that its length counts and the digits of it.
const FRAME_BYTES: usize = 21;

/// How the first bytes of a connection begin. Telling this looks at no more than a frame's first bytes.
#[derive(Clone, Copy, Debug, PartialEq, Eq)]
pub(crate) enum Begun {
    /// As a frame that is not yet whole.
    Waits,
    /// As a frame of so many bytes.
    Whole { size: usize },
    /// As no frame.
    Astray,
}

/// What the first bytes of a connection begin with.
#[derive(Drop)]
pub(crate) enum First {
    /// Their first whole frame.
    Frame(Bytes),
    /// No whole frame yet.
    Waits,
    /// A frame that is too long.
    TooLong,
}

/// Whose a connection is.
#[derive(Clone, Copy, Debug, PartialEq, Eq)]
pub enum Claim {
    /// Its first frame is not yet there.
    Waits,
    /// This member's.
    Member { member: usize },
    /// Its first frame is no Logon of a member to this venue.
    Nobody,
}

/// The value of the first field of a tag.
fn value_of<'a>(tag: u32, fields: &[Field<'a>]) -> Option<&'a [u8]>
    ensures { option_copied result ≡ value_of tag fields.now }
{
    fields
        .iter()
        .find(|field| field.tag == tag)
        .map(|field| field.bytes)
}

/// Whether the value of a tag is there and is this one.
fn is_value(tag: u32, expected: &[u8], fields: &[Field<'_>]) -> bool
    ensures { result ≡ is_value tag expected.now fields.now }
{
    match value_of(tag, fields) {
        Some(bytes) => bytes == expected,
        None => false,
    }
}

/// The first frame of the bytes that a framer keeps.
fn taken(alloc: Global, framer: &mut Framer) -> Result<First, NoMemory>
    ensures { IfOk result (IsFirst framer.old.kept) }
{
    match framer.next() {
        Next::Frame(frame) => {
            let frame = Bytes::copy_of(alloc, frame.as_slice())?;
            Ok(First::Frame(frame))
        }
        Next::Wait => Ok(First::Waits),
        Next::TooLong => Ok(First::TooLong),
    }
}

/// Whether bytes begin as a frame does, as far as they go.
fn do_open(early: &[u8]) -> bool
    ensures { result ≡ true → Opens early.now }
{
    let size = early.len().min(OPENING.len());
    early[..size] == OPENING[..size]
}

/// The number that digits spell.
fn number_of(digits: &[u8]) -> Option<usize> {
    match str::from_utf8(digits) {
        Ok(digits) => digits.parse::<usize>().ok(),
        Err(_) => None,
    }
}

/// How bytes begin that declare a frame of so many bytes of content.
fn begun_with(content: Option<usize>, digits: usize, early: &[u8]) -> Begun
    requires { Opens early.now }
    ensures waits { result ≡ IsWaiting → MayBegin early.now }
    ensures whole { (size : ℕ) → result ≡ IsWhole size → size ≤ length early.now }
{
    let Some(content) = content else {
        return Begun::Astray;
    };
    let size = content.saturating_add(digits).saturating_add(FRAME_BYTES);
    if size > MAX_FRAME_BYTES {
        Begun::Astray
    } else if early.len() < size {
        Begun::Waits
    } else {
        Begun::Whole { size }
    }
}

/// How the first bytes of a connection begin.
fn how_begun(early: &[u8]) -> Begun
    ensures waits { result ≡ IsWaiting → MayBegin early.now }
    ensures whole { (size : ℕ) → result ≡ IsWhole size → size ≤ length early.now }
{
    if !do_open(early) {
        return Begun::Astray;
    }
    if early.len() <= OPENING.len() {
        return Begun::Waits;
    }
    let rest = &early[OPENING.len()..early.len().min(OPENING.len() + MAX_LENGTH_BYTES)];
    match memchr(SOH, rest) {
        Some(digits) => begun_with(number_of(&rest[..digits]), digits, early),
        None if rest.len() < MAX_LENGTH_BYTES && rest.iter().all(|byte| byte.is_ascii_digit()) => {
            Begun::Waits
        }
        None => Begun::Astray,
    }
}

/// The first frame of the first bytes of a connection.
fn first_frame(alloc: Global, early: &[u8]) -> Result<First, NoMemory>
    ensures { IfOk result (IsFirst early.now) }
{
    let mut framer = Framer::new(alloc);
    framer.feed(early)?;
    taken(alloc, &mut framer)
}

/// The first member whose name SenderCompID (49) is.
fn named_sender(fields: &[Field<'_>], names: &[Bytes]) -> Option<usize>
    ensures value { result ≡ position (λ name. is_value 49 name fields.now) names.now }
    ensures within { IfSome result (λ member. member < length names.now) }
{
    names
        .iter()
        .position(|name| is_value(49, name.as_slice(), fields))
}

/// Whose Logon (35=A) to the venue (56) the fields of a message are (49).
fn sender(fields: &[Field<'_>], names: &[Bytes]) -> Option<usize>
    ensures within { IfSome result (λ member. member < length names.now) }
    ensures logon { IfSome result (λ member. IsLogon fields.now names.now member) }
{
    if !is_value(35, b"A", fields) || !is_value(56, VENUE, fields) {
        return None;
    }
    match named_sender(fields, names) {
        Some(member) => Some(member),
        None => None,
    }
}

/// Whose Logon a frame is.
fn logon(alloc: Global, frame: &[u8], names: &[Bytes]) -> Result<Option<usize>, NoMemory>
    ensures within { IfOk result (λ found. IfSome found (λ member. member < length names.now)) }
    ensures logon { IfOk result (λ found. IfSome found (λ member. IsLogonFrame frame.now names.now member)) }
{
    let Some(frame) = Frame::over(frame) else {
        return Ok(None);
    };
    match fields(alloc, frame.content()) {
        Ok(fields) => Ok(sender(&fields, names)),
        Err(FieldFault::NoMemory) => Err(NoMemory),
        Err(_) => Ok(None),
    }
}

/// The frame that so many of the first bytes of a connection are.
fn whole_frame(alloc: Global, early: &[u8], size: usize) -> Result<Option<Bytes>, NoMemory>
    requires { size ≤ length early.now }
    ensures { IfOk result (λ found. IfSome found (IsFirstFrame early.now)) }
{
    match first_frame(alloc, &early[..size])? {
        First::Frame(frame) if frame.as_slice().len() == size => Ok(Some(frame)),
        _ => Ok(None),
    }
}

/// Whose a connection is whose first frame has so many bytes.
fn claimed_with(
    alloc: Global,
    early: &[u8],
    size: usize,
    names: &[Bytes],
) -> Result<Claim, NoMemory>
    requires { size ≤ length early.now }
    ensures waits { result ≢ Ok IsUnclear }
    ensures within { (member : ℕ) → result ≡ Ok (Claims member) → member < length names.now }
    ensures named { (member : ℕ) → result ≡ Ok (Claims member) → IsClaim early.now names.now member }
{
    let Some(frame) = whole_frame(alloc, early, size)? else {
        return Ok(Claim::Nobody);
    };
    match logon(alloc, frame.as_slice(), names)? {
        Some(member) => Ok(Claim::Member { member }),
        None => Ok(Claim::Nobody),
    }
}

/// Whose a connection is, by the bytes that came before its name. It begins with the Logon of a member, and with nothing before that.
/// It waits only while a frame may still come of its bytes, of which no more than the first few are looked at.
pub fn claimed_by(alloc: Global, early: &[u8], names: &[Bytes]) -> Result<Claim, NoMemory>
    ensures within { (member : ℕ) → result ≡ Ok (Claims member) → member < length names.now }
    ensures named { (member : ℕ) → result ≡ Ok (Claims member) → IsClaim early.now names.now member }
    ensures waits { result ≡ Ok IsUnclear → MayBegin early.now }
{
    match how_begun(early) {
        Begun::Whole { size } => claimed_with(alloc, early, size, names),
        Begun::Waits => Ok(Claim::Waits),
        Begun::Astray => Ok(Claim::Nobody),
    }
}
