//! Fields of a line. Each call appends one; after a refusal the text may hold a part of it.
ghost use Rattle.std.specs.Prelude.{◌≡◌, ◌++◌, OnOk, decimal};
ghost use Rattle.std.specs.List.{flat_map};
ghost use Rattle.audit_tables.specs.Cells.{cell, id_byte, id_text};

use fix_write::digits::push_number;
use script_text::push_escaped_text;
use venue_words::NoMemory;

/// Appends a comma and a text.
pub fn push_cell(out: &mut Vec<u8>, text: &[u8]) -> Result<(), NoMemory>
    ensures { OnOk result (out.new.items ≡ out.old.items ++ cell text.now) }
{
    out.push(b',')?;
    out.extend_from_slice(text)?;
    Ok(())
}

/// Appends a comma and a number.
pub fn push_number_cell(out: &mut Vec<u8>, number: u64) -> Result<(), NoMemory>
    ensures { OnOk result (out.new.items ≡ out.old.items ++ cell (decimal number)) }
{
    out.push(b',')?;
    push_number(out, number)
}

/// Appends a byte of an identifier.
#[tactic(auto, unfolding(crate::specs::Cells::id_byte))]
fn push_id_byte(out: &mut Vec<u8>, byte: u8) -> Result<(), NoMemory>
    ensures { OnOk result (out.new.items ≡ out.old.items ++ id_byte byte) }
{
    match byte {
        b',' => out.extend_from_slice(b"\\2C")?,
        b'"' => out.extend_from_slice(b"\\22")?,
        _ => push_escaped_text(out, &[byte])?,
    }
    Ok(())
}

/// Appends a comma and an identifier.
pub fn push_id_cell(out: &mut Vec<u8>, id: &[u8]) -> Result<(), NoMemory>
    ensures { OnOk result (out.new.items ≡ out.old.items ++ cell (id_text id.now)) }
{
    out.push(b',')?;
    for byte in id {
        push_id_byte(out, *byte)?;
    }
    Ok(())
}
