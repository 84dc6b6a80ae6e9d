//! What stands at a place of a stream.
ghost use Rattle.std.specs.Prelude.{◌≡◌, ◌+◌, ◌≤◌, ◌<◌, ◌++◌, ◌∷◌, [], length};
ghost use Rattle.fix_frames.specs.Places.{length_after, body_length, IsSmall, has_check_sum, is_frame, judged, place_at};
ghost use Rattle.fix_write.specs.Digits.{three_digits};

use fix_write::checksum;
use venue_words::limits::{MAX_FRAME_BYTES, SOH};

/// What stands at a place of a stream.
#[derive(Clone, Copy, Debug)]
pub(crate) enum Place {
    /// No frame begins here: the place is passed over.
    Passed,
    /// Too few bytes are there to tell.
    Unfinished,
    /// A frame that declares more bytes than a frame may have.
    Long,
    /// A frame of so many bytes, whose content begins behind its first `front` bytes.
    Whole { size: usize, front: usize },
}

/// What stands where BodyLength is wanted.
#[derive(Clone, Copy, Debug)]
pub(crate) enum BodyLength {
    /// Bytes that BodyLength can't begin with.
    Bad,
    /// A beginning of BodyLength, and nothing behind it.
    Partial,
    /// So many digits with such a value.
    Declared { digits: usize, value: usize },
}

/// The digits of BodyLength and the SOH that ends them.
fn digits_at(bytes: &[u8]) -> BodyLength
    ensures value { result ≡ length_after 0 0 bytes.now }
    ensures bound { IsSmall result }
{
    let mut digits: usize = 0;
    let mut value: usize = 0;
    for byte in bytes {
        if !byte.is_ascii_digit() {
            if *byte == SOH && digits > 0 {
                return BodyLength::Declared { digits, value };
            }
            return BodyLength::Bad;
        }
        if digits == 5 {
            return BodyLength::Bad;
        }
        digits += 1;
        value = value * 10 + (*byte - b'0') as usize;
    }
    BodyLength::Partial
}

/// BodyLength at the front of bytes.
#[tactic(auto, unfolding(crate::specs::Places::body_length))]
fn body_length(bytes: &[u8]) -> BodyLength
    ensures value { result ≡ body_length bytes.now }
    ensures bound { IsSmall result }
{
    if bytes.is_empty() {
        return BodyLength::Partial;
    }
    if bytes[0] != b'9' {
        return BodyLength::Bad;
    }
    if bytes.len() == 1 {
        return BodyLength::Partial;
    }
    if bytes[1] != b'=' {
        return BodyLength::Bad;
    }
    digits_at(&bytes[2..])
}

/// The last three digits of a number, and SOH.
#[tactic(auto, unfolding(fix_write::specs::Digits::three_digits))]
fn check_digits(sum: u8) -> [u8; 4]
    ensures { result ≡ three_digits sum ++ SOH ∷ [] }
{
    [b'0' + sum / 100, b'0' + sum / 10 % 10, b'0' + sum % 10, SOH]
}

/// Whether CheckSum stands behind so many bytes.
#[tactic(auto, unfolding(crate::specs::Places::has_check_sum))]
fn has_check_sum(many: usize, bytes: &[u8]) -> bool
    requires { length bytes.now ≡ many + 7 }
    ensures { result ≡ has_check_sum many bytes.now }
{
    if !bytes[many..].starts_with(b"10=") {
        return false;
    }
    let sum = checksum(&bytes[..many]);
    bytes[many + 3..].starts_with(&check_digits(sum))
}

/// Whether bytes with so many before the content and so many in it are a frame. The sum is taken only where all else
/// fits.
#[tactic(auto, unfolding(crate::specs::Places::is_frame))]
fn is_frame(front: usize, size: usize, bytes: &[u8]) -> bool
    requires front { (14 ≤ front) × (front ≤ 19) }
    requires size { size < 100_000 }
    requires length { length bytes.now ≡ front + size + 7 }
    ensures { result ≡ is_frame front size bytes.now }
{
    let end = front + size;
    if !bytes[front..].starts_with(b"35=") || bytes[end - 1] != SOH {
        return false;
    }
    has_check_sum(end, bytes)
}

/// What stands behind BeginString and BodyLength.
#[tactic(auto, unfolding(crate::specs::Places::judged))]
fn sized(digits: usize, value: usize, bytes: &[u8]) -> Place
    requires digits { digits ≤ 5 }
    requires value { value < 100_000 }
    ensures { result ≡ judged (BodyLength.Declared digits value) bytes.now }
{
    let size = 21 + digits + value;
    if size > MAX_FRAME_BYTES {
        return Place::Long;
    }
    if bytes.len() < size {
        return Place::Unfinished;
    }
    let front = 14 + digits;
    if is_frame(front, value, &bytes[..size]) {
        Place::Whole { size, front }
    } else {
        Place::Passed
    }
}

/// What stands at the front of bytes.
#[tactic(auto, unfolding(crate::specs::Places::place_at, crate::specs::Places::judged))]
pub(crate) fn place_at(bytes: &[u8]) -> Place
    ensures { result ≡ place_at bytes.now }
{
    if !bytes.starts_with(b"8=FIXT.1.1\x01") {
        return Place::Passed;
    }
    match body_length(&bytes[11..]) {
        BodyLength::Bad => Place::Passed,
        BodyLength::Partial => Place::Unfinished,
        BodyLength::Declared { digits, value } => sized(digits, value, bytes),
    }
}
