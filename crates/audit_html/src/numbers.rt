//! Numbers as people read them. Each call appends one; after a refusal a part of it may stand there.
ghost use Rattle.std.specs.Prelude.{◌≡◌, ◌<◌, ◌++◌, ◌&&◌, ◌==◌, ◌%◌, not, length, OnOk};
ghost use Rattle.fix_write.specs.Digits.{digit, three_digits};
ghost use Rattle.audit_html.specs.Numbers.{count_text, value_text, with_commas};

use fix_write::digits::push_number;
use std::alloc::Global;
use venue_words::NoMemory;

/// Appends digits with a comma before each three that end them.
fn push_with_commas(out: &mut Vec<u8>, digits: &[u8]) -> Result<(), NoMemory>
    ensures { OnOk result (out.new.items ≡ out.old.items ++ with_commas digits.now) }
{
    for place in 0..digits.len() {
        out.push(digits[place])?;
        let left = digits.len() - 1 - place;
        if left % 3 == 0 && left != 0 {
            out.push(b',')?;
        }
    }
    Ok(())
}

/// Appends a count: `1,234,567`.
pub fn push_count(alloc: Global, out: &mut Vec<u8>, count: u64) -> Result<(), NoMemory>
    ensures { OnOk result (out.new.items ≡ out.old.items ++ count_text count) }
{
    let mut digits = Vec::new(alloc);
    push_number(&mut digits, count)?;
    push_with_commas(out, digits.as_slice())
}

/// The last digit of a number.
fn digit(number: u64) -> u8
    ensures { result ≡ digit number }
{
    b'0' + (number % 10) as u8
}

#[tactic(auto, unfolding(fix_write::specs::Digits::three_digits))]
fn push_three(out: &mut Vec<u8>, number: u64) -> Result<(), NoMemory>
    ensures { OnOk result (out.new.items ≡ out.old.items ++ three_digits number) }
{
    out.extend_from_slice(&[digit(number / 100), digit(number / 10), digit(number)])?;
    Ok(())
}

/// Appends a value in units of 0.005: `1,234.505`.
#[tactic(auto, unfolding(crate::specs::Numbers::value_text))]
pub fn push_value(alloc: Global, out: &mut Vec<u8>, value: u64) -> Result<(), NoMemory>
    ensures { OnOk result (out.new.items ≡ out.old.items ++ value_text value) }
{
    push_count(alloc, out, value / 200)?;
    out.push(b'.')?;
    push_three(out, value % 200 * 5)
}
