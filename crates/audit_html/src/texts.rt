//! Texts in the content of an element. Each call appends one; after a refusal a part of it may stand there.
ghost use Rattle.std.specs.Prelude.{◌≡◌, ◌++◌, true, OnOk};
ghost use Rattle.std.specs.List.{list_all};
ghost use Rattle.audit_html.specs.Html.{html_byte, html_text, is_harmless, shown};

use script_text::escape;
use std::alloc::Global;
use venue_words::NoMemory;

/// Appends a text as it is. It is for the page's own tags.
pub fn push(out: &mut Vec<u8>, text: &[u8]) -> Result<(), NoMemory>
    ensures { OnOk result (out.new.items ≡ out.old.items ++ text.now) }
{
    out.extend_from_slice(text)?;
    Ok(())
}

/// Appends what stands for a byte.
#[tactic(auto, unfolding(crate::specs::Html::html_byte))]
fn push_html_byte(out: &mut Vec<u8>, byte: u8) -> Result<(), NoMemory>
    ensures { OnOk result (out.new.items ≡ out.old.items ++ html_byte byte) }
{
    match byte {
        b'&' => push(out, b"&amp;"),
        b'<' => push(out, b"&lt;"),
        b'>' => push(out, b"&gt;"),
        b'"' => push(out, b"&quot;"),
        b'\'' => push(out, b"&#39;"),
        _ => {
            out.push(byte)?;
            Ok(())
        }
    }
}

/// Appends a text so that none of its bytes is read as a tag, an entity or a quotation mark.
pub fn push_html(out: &mut Vec<u8>, text: &[u8]) -> Result<(), NoMemory>
    ensures { OnOk result (out.new.items ≡ out.old.items ++ html_text text.now) }
{
    for byte in text {
        push_html_byte(out, *byte)?;
    }
    Ok(())
}

/// Appends bytes that a member gave: as a listing writes them, and none of them as a tag.
pub fn push_shown(alloc: Global, out: &mut Vec<u8>, bytes: &[u8]) -> Result<(), NoMemory>
    ensures text { OnOk result (out.new.items ≡ out.old.items ++ shown bytes.now) }
    ensures harmless { list_all is_harmless (shown bytes.now) ≡ true }
{
    let text = escape(alloc, bytes)?;
    push_html(out, text.as_slice())
}
