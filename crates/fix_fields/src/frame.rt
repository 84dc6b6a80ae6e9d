//! A frame, and its content: what stands behind BodyLength(9) and before CheckSum(10).
ghost use Rattle.std.specs.Prelude.{◌≡◌, ◌≤◌, length};
ghost use Rattle.venue_words.specs.declared.limits.TheConstants.{MAX_FRAME_BYTES};
ghost use Rattle.fix_fields.specs.Content.{IsFront, without_check_sum};

use venue_words::limits::{MAX_FRAME_BYTES, SOH};

/// How many bytes BeginString(8) takes, with the SOH behind it.
pub const BEGIN_STRING_SIZE: usize = 11;

/// How many bytes stand before the content.
#[tactic(auto, unfolding(crate::specs::Content::behind_first_end))]
fn front_of(bytes: &[u8]) -> usize
    ensures { IsFront bytes.now result }
{
    for place in BEGIN_STRING_SIZE..bytes.len() {
        if bytes[place] == SOH {
            return place + 1;
        }
    }
    bytes.len()
}

/// All but the check sum, which takes seven bytes.
fn without_check_sum(rest: &[u8]) -> &[u8]
    ensures value { result.now ≡ without_check_sum rest.now }
    ensures shorter { length result.now ≤ length rest.now }
{
    &rest[..rest.len().saturating_sub(7)]
}

/// A frame of at most `MAX_FRAME_BYTES`, from BeginString(8) to CheckSum(10), and where its content begins. Of bytes that are
/// no frame the content is some part.
#[derive(Debug, Drop)]
pub struct Frame<'a> {
    bytes: &'a [u8],
    /// How many bytes stand before the content.
    front: usize,
    ghost short: { length bytes.now ≤ MAX_FRAME_BYTES },
    ghost begins: { IsFront bytes.now front },
}

impl<'a> Frame<'a> {
    ghost use Rattle.std.specs.Prelude.{◌≡◌, ◌<◌, ◌≤◌, None, length, IfSome};
    ghost use Rattle.venue_words.specs.declared.limits.TheConstants.{MAX_FRAME_BYTES};
    ghost use Rattle.fix_fields.specs.Content.{IsFront, content_of};

    /// These bytes as a frame, whose content is looked for: none where there are more than `MAX_FRAME_BYTES`.
    pub fn over(bytes: &'a [u8]) -> Option<Frame<'a>>
        ensures some { IfSome result (λ frame. frame.bytes.now ≡ bytes.now) }
        ensures none { result ≡ None → MAX_FRAME_BYTES < length bytes.now }
    {
        if bytes.len() > MAX_FRAME_BYTES {
            return None;
        }
        Some(Frame {
            bytes,
            front: front_of(bytes),
        })
    }

    /// A frame whose content begins behind so many bytes, as whoever cut it out has found.
    pub fn with_front(bytes: &'a [u8], front: usize) -> Frame<'a>
        requires short { length bytes.now ≤ MAX_FRAME_BYTES }
        requires front { IsFront bytes.now front }
        ensures { result.bytes.now ≡ bytes.now }
    {
        Frame { bytes, front }
    }

    /// All its bytes.
    pub fn as_slice(&self) -> &'a [u8]
        ensures { result.now ≡ self.now.bytes.now }
    {
        self.bytes
    }

    /// What stands behind BodyLength and before CheckSum: the fields of the message.
    #[tactic(auto, unfolding(crate::specs::Content::content_of))]
    pub fn content(&self) -> &'a [u8]
        ensures value { result.now ≡ content_of self.now.bytes.now }
        ensures short { length result.now ≤ MAX_FRAME_BYTES }
    {
        without_check_sum(&self.bytes[self.front..])
    }
}
