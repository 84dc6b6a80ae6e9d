//! How a report's line differs from the one that the rules ask for, in words.
use audit_html::texts::{push, push_html};
use venue_words::NoMemory;

/// The name of a field.
fn name_of(tag: &[u8]) -> &'static [u8] {
    match tag {
        b"6" => b"AvgPx",
        b"11" => b"ClOrdID",
        b"14" => b"CumQty",
        b"17" => b"ExecID",
        b"31" => b"LastPx",
        b"32" => b"LastQty",
        b"37" => b"OrderID",
        b"38" => b"OrderQty",
        b"39" => b"OrdStatus",
        b"40" => b"OrdType",
        b"41" => b"OrigClOrdID",
        b"44" => b"Price",
        b"54" => b"Side",
        b"55" => b"Symbol",
        b"60" => b"TransactTime",
        b"102" => b"CxlRejReason",
        b"103" => b"OrdRejReason",
        b"150" => b"ExecType",
        b"151" => b"LeavesQty",
        b"434" => b"CxlRejResponseTo",
        b"839" => b"PeggedPrice",
        b"9701" => b"PriorityEvent",
        b"9702" => b"RuleNumber",
        _ => b"Field",
    }
}

/// The place of a byte in a text from a place on, or the text's end.
fn place_of(text: &[u8], byte: u8, from: usize) -> usize {
    for place in from..text.len() {
        if text[place] == byte {
            return place;
        }
    }
    text.len()
}

/// Where the body of a report's line begins, after six words.
fn body_start(line: &[u8]) -> usize {
    let mut place = 0usize;
    for _word in 0..6 {
        place = place_of(line, b' ', place).saturating_add(1);
    }
    place
}

/// The tag of a field, and its value.
fn halves_of(field: &[u8]) -> (&[u8], &[u8]) {
    let equals = place_of(field, b'=', 0);
    let tag = field.get(..equals).unwrap_or(b"");
    let value = field.get(equals.saturating_add(1)..).unwrap_or(b"");
    (tag, value)
}

/// The value of a tag in a body, where it is there.
fn value_of<'a>(body: &'a [u8], tag: &[u8]) -> Option<&'a [u8]> {
    for field in body.split(|byte| *byte == b'|') {
        let halves = halves_of(field);
        if halves.0 == tag {
            return Some(halves.1);
        }
    }
    None
}

/// Appends a value, or that there is none.
fn push_value_or(out: &mut Vec<u8>, value: Option<&[u8]>, none: &[u8]) -> Result<(), NoMemory> {
    match value {
        Some(value) => push_html(out, value),
        None => push(out, none),
    }
}

/// Appends how the value of a tag differs, where it does. It answers whether it does.
fn push_field(
    out: &mut Vec<u8>,
    tag: &[u8],
    found: &[u8],
    wanted: &[u8],
    is_first: bool,
) -> Result<bool, NoMemory> {
    let one = value_of(found, tag);
    let other = value_of(wanted, tag);
    if one == other {
        return Ok(false);
    }
    push(out, if is_first { b"" } else { b"; " })?;
    push(out, name_of(tag))?;
    push(out, b" (")?;
    push_html(out, tag)?;
    push(out, b") is ")?;
    push_value_or(out, one, b"not there")?;
    push(out, b", and should be ")?;
    push_value_or(out, other, b"absent")?;
    Ok(true)
}

/// Appends how the fields of a body differ whose tags another body does not have. It answers whether none was told of yet.
fn push_fields_of(
    out: &mut Vec<u8>,
    body: &[u8],
    passed: &[u8],
    found: &[u8],
    wanted: &[u8],
    is_first: bool,
) -> Result<bool, NoMemory> {
    let mut is_first = is_first;
    for field in body.split(|byte| *byte == b'|') {
        let tag = halves_of(field).0;
        if value_of(passed, tag).is_some() {
            continue;
        }
        let is_told = push_field(out, tag, found, wanted, is_first)?;
        is_first = is_first && !is_told;
    }
    Ok(is_first)
}

/// Appends how the fields of one body differ from those of another: by the tags of the one, and then by those that the other alone has.
fn push_fields(out: &mut Vec<u8>, found: &[u8], wanted: &[u8]) -> Result<(), NoMemory> {
    let is_first = push_fields_of(out, wanted, b"", found, wanted, true)?;
    push_fields_of(out, found, wanted, found, wanted, is_first)?;
    Ok(())
}

/// Appends in words how a line differs, where both are reports of one place.
pub fn push_difference(out: &mut Vec<u8>, found: &[u8], wanted: &[u8]) -> Result<(), NoMemory> {
    let start = body_start(found);
    let front = found.get(..start).unwrap_or(b"");
    if front.first().copied() != Some(b'R') || wanted.get(..start) != Some(front) {
        return Ok(());
    }
    push(out, b"<p>")?;
    push_fields(
        out,
        found.get(start..).unwrap_or(b""),
        wanted.get(start..).unwrap_or(b""),
    )?;
    push(out, b".</p>")
}
