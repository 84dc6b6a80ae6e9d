//! Fields: a tag, `=`, a value and SOH.
ghost use Rattle.std.specs.Prelude.{◌≡◌, ◌∷◌, [], ◌++◌, decimal, OnOk};
ghost use Rattle.fix_write.specs.Moments.{moment_text};
ghost use Rattle.fix_write.specs.Fields.{field};

use crate::digits::push_ended;
use crate::moments::push_moment;
use venue_words::NoMemory;
use venue_words::limits::SOH;

/// Appends a field. After a refusal the text may hold a part of it.
#[tactic(auto, unfolding(crate::specs::Fields::field))]
pub fn push_field(out: &mut Vec<u8>, tag: u32, value: &[u8]) -> Result<(), NoMemory>
    ensures { OnOk result (out.new.items ≡ out.old.items ++ field tag value.now) }
{
    push_ended(out, u64::from(tag), b'=')?;
    out.extend_from_slice(value)?;
    out.push(SOH)?;
    Ok(())
}

/// Appends a field of one byte. After a refusal the text may hold a part of it.
#[tactic(auto, unfolding(crate::specs::Fields::field))]
pub fn push_byte_field(out: &mut Vec<u8>, tag: u32, value: u8) -> Result<(), NoMemory>
    ensures { OnOk result (out.new.items ≡ out.old.items ++ field tag (value ∷ [])) }
{
    push_ended(out, u64::from(tag), b'=')?;
    out.extend_from_slice(&[value, SOH])?;
    Ok(())
}

/// Appends a field whose value is a number without leading zeros. After a refusal the text may hold a part of it.
#[tactic(auto, unfolding(crate::specs::Fields::field))]
pub fn push_number_field(out: &mut Vec<u8>, tag: u32, value: u64) -> Result<(), NoMemory>
    ensures { OnOk result (out.new.items ≡ out.old.items ++ field tag (decimal value)) }
{
    push_ended(out, u64::from(tag), b'=')?;
    push_ended(out, value, SOH)
}

/// Appends a field whose value is a moment, in milliseconds since 1970-01-01 00:00 UTC. After a refusal
/// the text may hold a part of it.
#[tactic(auto, unfolding(crate::specs::Fields::field))]
pub fn push_moment_field(out: &mut Vec<u8>, tag: u32, value: i64) -> Result<(), NoMemory>
    ensures { OnOk result (out.new.items ≡ out.old.items ++ field tag (moment_text value)) }
{
    push_ended(out, u64::from(tag), b'=')?;
    push_moment(out, value)?;
    out.push(SOH)?;
    Ok(())
}
