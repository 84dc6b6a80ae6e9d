//! A side of a quote as text.
ghost use Rattle.std.specs.Prelude.{◌≡◌, ◌++◌, OnOk};
ghost use Rattle.quote_text.specs.Sides.{cents_text, side_text};

use itoa::Buffer;
use venue_words::NoMemory;

/// Appends a price in cents. After a refusal the text may hold a part of it.
#[tactic(auto, unfolding(crate::specs::Sides::cents_text))]
fn push_cents(out: &mut Vec<u8>, cents: u32) -> Result<(), NoMemory>
    ensures { OnOk result (out.new.items ≡ out.old.items ++ cents_text cents) }
{
    let mut buffer = Buffer::new();
    out.extend_from_slice(buffer.format(cents / 100).as_bytes())?;
    out.extend_from_slice(&[
        b'.',
        b'0' + (cents / 10 % 10) as u8,
        b'0' + (cents % 10) as u8,
    ])?;
    Ok(())
}

/// Appends a side of a quote in cents: the whole part, a point and two digits, or `-` where there is no price. After a
/// refusal the text may hold a part of it.
#[tactic(auto, unfolding(crate::specs::Sides::side_text))]
pub fn push_side(out: &mut Vec<u8>, cents: Option<u32>) -> Result<(), NoMemory>
    ensures { OnOk result (out.new.items ≡ out.old.items ++ side_text cents) }
{
    match cents {
        Some(cents) => push_cents(out, cents),
        None => {
            out.push(b'-')?;
            Ok(())
        }
    }
}
