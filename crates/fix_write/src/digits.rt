//! Numbers as digits.
ghost use Rattle.std.specs.Prelude.{◌≡◌, ◌++◌, ◌∷◌, [], decimal, OnOk};
ghost use Rattle.fix_write.specs.Digits.{digit, three_digits, four_digits};

use itoa::Buffer;
use venue_words::NoMemory;

/// The last digit of a number.
pub(crate) fn digit(number: u32) -> u8
    ensures { result ≡ digit number }
{
    b'0' + (number % 10) as u8
}

/// The last three digits of a number.
#[tactic(auto, unfolding(crate::specs::Digits::three_digits))]
pub(crate) fn last_three(number: u32) -> [u8; 3]
    ensures { result ≡ three_digits number }
{
    [digit(number / 100), digit(number / 10), digit(number)]
}

/// Appends the last four digits of a number. After a refusal the text may hold a part of them.
#[tactic(auto, unfolding(crate::specs::Digits::four_digits))]
pub fn push_four(out: &mut Vec<u8>, number: u32) -> Result<(), NoMemory>
    ensures { OnOk result (out.new.items ≡ out.old.items ++ four_digits number) }
{
    out.extend_from_slice(&[
        digit(number / 1000),
        digit(number / 100),
        digit(number / 10),
        digit(number),
    ])?;
    Ok(())
}

/// Appends a number without leading zeros. After a refusal the text may hold a part of it.
pub fn push_number(out: &mut Vec<u8>, number: u64) -> Result<(), NoMemory>
    ensures { OnOk result (out.new.items ≡ out.old.items ++ decimal number) }
{
    let mut buffer = Buffer::new();
    out.extend_from_slice(buffer.format(number).as_bytes())?;
    Ok(())
}

/// Appends a number without leading zeros, and a byte behind it. After a refusal the text may hold a part of both.
#[inline]
pub fn push_ended(out: &mut Vec<u8>, number: u64, end: u8) -> Result<(), NoMemory>
    ensures { OnOk result (out.new.items ≡ out.old.items ++ decimal number ++ end ∷ []) }
{
    // Tags and most counts have few digits, which are appended at once.
    if number >= 10_000 {
        push_number(out, number)?;
        out.push(end)?;
        return Ok(());
    }
    let number = number as u32;
    if number >= 1000 {
        out.extend_from_slice(&[
            digit(number / 1000),
            digit(number / 100),
            digit(number / 10),
            digit(number),
            end,
        ])?;
    } else if number >= 100 {
        out.extend_from_slice(&[digit(number / 100), digit(number / 10), digit(number), end])?;
    } else if number >= 10 {
        out.extend_from_slice(&[digit(number / 10), digit(number), end])?;
    } else {
        out.extend_from_slice(&[digit(number), end])?;
    }
    Ok(())
}
