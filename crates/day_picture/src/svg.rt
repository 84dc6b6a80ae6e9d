//! Text of a picture, in SVG.
use fix_write::digits::push_number;
use venue_words::NoMemory;

/// Appends a text.
pub fn push(out: &mut Vec<u8>, text: &[u8]) -> Result<(), NoMemory> {
    out.extend_from_slice(text)?;
    Ok(())
}

/// Appends hundredths of a percent: `12.34%`.
fn push_percent(out: &mut Vec<u8>, hundredths: u64) -> Result<(), NoMemory> {
    push_number(out, hundredths / 100)?;
    push(out, b".")?;
    push_two(out, hundredths % 100)?;
    push(out, b"%")
}

/// Appends a number below 100 with two digits.
pub fn push_two(out: &mut Vec<u8>, number: u64) -> Result<(), NoMemory> {
    if number < 10 {
        push(out, b"0")?;
    }
    push_number(out, number)
}

/// Appends a template: in the place of each `#` a number, and in the place of each `@` one that counts hundredths of a percent.
pub fn push_with(out: &mut Vec<u8>, template: &[u8], numbers: &[u64]) -> Result<(), NoMemory> {
    let mut next = 0usize;
    for byte in template {
        let number = numbers.get(next).copied().unwrap_or(0);
        match *byte {
            b'#' => {
                push_number(out, number)?;
                next = next.saturating_add(1);
            }
            b'@' => {
                push_percent(out, number)?;
                next = next.saturating_add(1);
            }
            other => push(out, &[other])?,
        }
    }
    Ok(())
}

/// Appends a number with a comma before each three digits that end it; whole millions are short: `25M`.
pub fn push_grouped(out: &mut Vec<u8>, number: u64) -> Result<(), NoMemory> {
    if number >= 1_000_000 && number % 1_000_000 == 0 {
        push_commas(out, number / 1_000_000)?;
        return push(out, b"M");
    }
    push_commas(out, number)
}

/// Appends a number with a comma before each three digits that end it.
pub fn push_commas(out: &mut Vec<u8>, number: u64) -> Result<(), NoMemory> {
    let start = out.len();
    push_number(out, number)?;
    let mut place = out.len().saturating_sub(start);
    // A u64 has at most 20 digits.
    for _ in 0..6 {
        if place <= 3 {
            break;
        }
        place = place.saturating_sub(3);
        let at = start.saturating_add(place);
        if at <= out.len() {
            out.insert(at, b',')?;
        }
    }
    Ok(())
}

/// Appends a text's bytes, of which those that mean something in SVG are written as entities.
pub fn push_plain(out: &mut Vec<u8>, text: &[u8]) -> Result<(), NoMemory> {
    for byte in text {
        match *byte {
            b'<' => push(out, b"&lt;")?,
            b'>' => push(out, b"&gt;")?,
            b'&' => push(out, b"&amp;")?,
            b'"' => push(out, b"&quot;")?,
            other => push(out, &[other])?,
        }
    }
    Ok(())
}

/// So much of a whole as a part is of all.
pub fn share(whole: u64, part: u64, all: u64) -> u64 {
    if all == 0 {
        return 0;
    }
    whole.saturating_mul(part) / all
}
