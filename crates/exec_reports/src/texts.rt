//! The texts of identifiers, prices and amounts. Each call appends one; after a refusal the text may hold a part of it.
ghost use Rattle.std.specs.Prelude.{◌≡◌, ◌<◌, ◌^◌, ◌++◌, decimal, OnOk};
ghost use Rattle.exec_reports.specs.Texts.{order_id, exec_id, ten_thousandths, price_text, average_text, padded, trimmed, magnitude_text, amount_text};

use fix_write::digits::{push_ended, push_four, push_number};
use itoa::Buffer;
use venue_words::NoMemory;

/// Appends OrderID(37): the symbol and the number of the event of the order's New; `NONE` where no order is meant.
#[tactic(auto, unfolding(crate::specs::Texts::order_id))]
pub fn push_order_id(out: &mut Vec<u8>, symbol: &[u8], first: Option<u32>) -> Result<(), NoMemory>
    ensures { OnOk result (out.new.items ≡ out.old.items ++ order_id symbol.now first) }
{
    match first {
        None => {
            out.extend_from_slice(b"NONE")?;
            Ok(())
        }
        Some(first) => {
            out.extend_from_slice(symbol)?;
            out.push(b'-')?;
            push_number(out, u64::from(first))
        }
    }
}

/// Appends ExecID(17): the symbol, the event and the report's place; for a message that came to no book, which
/// is event 0, `0`, the member and the place.
#[tactic(auto, unfolding(crate::specs::Texts::exec_id))]
pub fn push_exec_id(
    out: &mut Vec<u8>,
    symbol: &[u8],
    member: &[u8],
    event: u32,
    place: u32,
) -> Result<(), NoMemory>
    ensures { OnOk result (out.new.items ≡ out.old.items ++ exec_id symbol.now member.now event place) }
{
    if event == 0 {
        out.extend_from_slice(b"0-")?;
        out.extend_from_slice(member)?;
    } else {
        out.extend_from_slice(symbol)?;
        out.push(b'-')?;
        push_number(out, u64::from(event))?;
    }
    out.push(b'-')?;
    push_number(out, u64::from(place))
}

#[tactic(auto, unfolding(crate::specs::Texts::ten_thousandths))]
fn push_ten_thousandths(out: &mut Vec<u8>, number: u128) -> Result<(), NoMemory>
    requires { number < 2 ^ 70 }
    ensures { OnOk result (out.new.items ≡ out.old.items ++ ten_thousandths number) }
{
    push_ended(out, (number / 10_000) as u64, b'.')?;
    push_four(out, (number % 10_000) as u32)
}

/// Appends a price, which counts units of 0.005, with four decimals.
#[tactic(auto, unfolding(crate::specs::Texts::price_text))]
pub fn push_price(out: &mut Vec<u8>, units: u32) -> Result<(), NoMemory>
    ensures { OnOk result (out.new.items ≡ out.old.items ++ price_text units) }
{
    push_ended(out, u64::from(units / 200), b'.')?;
    push_four(out, units % 200 * 50)
}

/// Appends AvgPx(6): the sum of price times quantity, with prices in units of 0.005, over the quantity, cut off
/// behind four decimals.
#[tactic(auto, unfolding(crate::specs::Texts::average_text))]
pub fn push_average(out: &mut Vec<u8>, notional: u64, cum: u32) -> Result<(), NoMemory>
    ensures { OnOk result (out.new.items ≡ out.old.items ++ average_text notional cum) }
{
    if cum == 0 {
        return push_ten_thousandths(out, 0);
    }
    push_ten_thousandths(out, u128::from(notional) * 50 / u128::from(cum))
}

/// Appends so many digits of a number, with zeros in front.
fn push_padded(out: &mut Vec<u8>, places: u32, number: u32) -> Result<(), NoMemory>
    ensures { OnOk result (out.new.items ≡ out.old.items ++ padded places number) }
{
    if places == 0 {
        return Ok(());
    }
    push_padded(out, places - 1, number / 10)?;
    out.push(b'0' + (number % 10) as u8)?;
    Ok(())
}

/// Appends eight digits of a number without the zeros at the end.
fn push_trimmed(out: &mut Vec<u8>, fraction: u32) -> Result<(), NoMemory>
    ensures { OnOk result (out.new.items ≡ out.old.items ++ trimmed 8 fraction) }
{
    let mut places: u32 = 8;
    let mut number = fraction;
    while places > 0 && number % 10 == 0 {
        number /= 10;
        places -= 1;
    }
    push_padded(out, places, number)
}

/// Appends a number without leading zeros.
fn push_large(out: &mut Vec<u8>, number: u128) -> Result<(), NoMemory>
    ensures { OnOk result (out.new.items ≡ out.old.items ++ decimal number) }
{
    let mut buffer = Buffer::new();
    out.extend_from_slice(buffer.format(number).as_bytes())?;
    Ok(())
}

#[tactic(auto, unfolding(crate::specs::Texts::magnitude_text))]
fn push_magnitude(out: &mut Vec<u8>, units: u128) -> Result<(), NoMemory>
    ensures { OnOk result (out.new.items ≡ out.old.items ++ magnitude_text units) }
{
    push_large(out, units / 100_000_000)?;
    let fraction = (units % 100_000_000) as u32;
    if fraction == 0 {
        return Ok(());
    }
    out.push(b'.')?;
    push_trimmed(out, fraction)
}

/// Appends an amount, which counts units of 10^-8: its sign, its whole part, and where there is a fraction a
/// point and that without zeros at its end.
#[tactic(auto, unfolding(crate::specs::Texts::amount_text))]
pub fn push_amount(out: &mut Vec<u8>, amount: i128) -> Result<(), NoMemory>
    ensures { OnOk result (out.new.items ≡ out.old.items ++ amount_text amount) }
{
    if amount < 0 {
        out.push(b'-')?;
    }
    push_magnitude(out, amount.unsigned_abs())
}
